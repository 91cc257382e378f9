// Extensions of file names, and lists of them.
ghost use Rattle.std.specs.Prelude.{◌≡◌};
ghost use Rattle.std.specs.List.{list_any, slice_split};
ghost use Rattle.std.specs.Str.{bytes_eq};
ghost use Rattle.site_text.specs.Extensions.{is_comma, is_listed};

/// Whether an extension, with its dot, is one of the names that stand between commas.
pub fn is_listed(names: &[u8], ext: &[u8]) -> bool
    ensures { result ≡ is_listed names.now ext.now }
{
    match ext {
        [_, name @ ..] => is_between_commas(name, names),
        [] => false,
    }
}

fn is_between_commas(name: &[u8], names: &[u8]) -> bool
    ensures { result ≡ list_any (bytes_eq name.now) (slice_split is_comma names.now) }
{
    names
        .split(|byte| *byte == b',')
        .any(|listed| name == listed)
}
