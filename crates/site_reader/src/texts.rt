// Bytes that may be a text.
ghost use Rattle.std.specs.Prelude.{◌≡◌, MatchOption, false, true};
ghost use Rattle.std.specs.Str.{is_utf8};

use std::str;

/// The text of the bytes; `None` exactly where they are no UTF-8.
pub(crate) fn as_text(bytes: &[u8]) -> Option<&str>
    ensures { MatchOption result
        (is_utf8 bytes.now ≡ false)
        (λ text. (text.now ≡ bytes.now) × (is_utf8 bytes.now ≡ true)) }
{
    match str::from_utf8(bytes) {
        Ok(text) => Some(text),
        Err(_) => None,
    }
}
