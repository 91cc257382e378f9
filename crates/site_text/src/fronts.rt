// What stands at the front of a text.
ghost use Rattle.std.specs.Prelude.{◌≡◌, ◌<◌, ◌≤◌, [], ◌∷◌, IsTrue, drop, length, nat_eq};
ghost use Rattle.std.specs.Bool.{OnTrue};
ghost use Rattle.std.specs.List.{starts_with};
ghost use Rattle.std.specs.Str.{IsCharBoundary};
ghost use Rattle.site_text.specs.Bytes.{lowered};
ghost use Rattle.site_text.specs.Fronts.{begins_with, first_byte};

use crate::bytes::lower;

/// Whether a text begins with a word.
pub fn begins(text: &[u8], word: &[u8]) -> bool
    ensures value { result ≡ begins_with word.now text.now }
    ensures within { IsTrue result → length word.now ≤ length text.now }
    ensures as_std { result ≡ starts_with nat_eq text.now word.now }
{
    text.starts_with(word)
}

/// Whether a text begins with a word once its letters are in lower case.
pub fn begins_in_lower_case(text: &[u8], word: &[u8]) -> bool
    ensures { result ≡ begins_with word.now (lowered text.now) }
{
    if text.len() < word.len() {
        return false;
    }
    for (i, c) in word.iter().enumerate() {
        if *c != lower(text[i]) {
            return false;
        }
    }
    true
}

/// Whether a text begins with an ASCII byte.
pub fn starts_with_byte(text: &str, c: u8) -> bool
    requires { c < 128 }
    ensures value { result ≡ begins_with (c ∷ []) text.now }
    ensures cut { OnTrue result (IsCharBoundary text.now 1) }
{
    let bytes = text.as_bytes();
    if bytes.len() == 0 || bytes[0] != c {
        return false;
    }
    true
}

/// The byte at a place of a text, or 0 behind its end.
pub fn byte_at(text: &str, place: usize) -> u8
    ensures { result ≡ first_byte (drop place text.now) }
{
    let bytes = text.as_bytes();
    if place < bytes.len() { bytes[place] } else { 0 }
}
