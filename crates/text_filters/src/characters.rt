// Texts by their characters.
ghost use Rattle.std.specs.Prelude.{◌≡◌, ◌<◌, ◌∷◌, ℕ, length};
ghost use Rattle.std.specs.Str.{chars};
ghost use Rattle.text_filters.specs.Characters.{chars_from, chars_upto};

/// The first so many characters.
pub(crate) fn chars_upto(text: &str, count: u64) -> &str
    ensures { result.now ≡ chars_upto count text.now }
{
    let len = text.len() - chars_from(text, count).len();
    &text[..len]
}

/// What follows the first so many characters.
pub(crate) fn chars_from(text: &str, count: u64) -> &str
    ensures { result.now ≡ chars_from count text.now }
{
    let mut left = count;
    let mut rest = text;
    while left > 0 && !rest.is_empty() {
        rest = behind_first(rest);
        left -= 1;
    }
    rest
}

fn behind_first(text: &str) -> &str
    requires { 0 < length text.now }
    ensures characters { (c : ℕ) × (chars text.now ≡ c ∷ chars result.now) }
    ensures shorter { length result.now < length text.now }
{
    let mut characters = text.chars();
    let _ = characters.next();
    characters.as_str()
}
