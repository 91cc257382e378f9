// What stands before a mark in a text.
ghost use Rattle.std.specs.Prelude.{◌≡◌};
ghost use Rattle.std.specs.Option.{option_copied};
ghost use Rattle.liquid_tags.specs.Fronts as fronts;

/// The text before the first place where the mark stands.
pub fn before<'t>(text: &'t str, mark: &str) -> Option<&'t str>
    ensures { option_copied result ≡ fronts.before mark.now text.now }
{
    match text.split_once(mark) {
        Some((front, _)) => Some(front),
        None => None,
    }
}
