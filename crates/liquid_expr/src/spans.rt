// What is left of a piece without its marks, dashes and stripped white space.
ghost use Rattle.std.specs.Prelude.{◌≡◌, ◌+◌, ◌<◌, ◌≤◌, ◌^◌, length};
ghost use Rattle.liquid_grammar.specs.Pieces.{has_first_dash, inside_at, stripped_at};

use crate::places::{white_end_len, white_len};
use liquid_grammar::Span;

fn has_first_dash(text: &[u8]) -> bool
    ensures { result ≡ has_first_dash text.now }
{
    text.len() > 2 && text[2] == b'-'
}

/// Where the inside of an output or a tag of this length stands.
pub(crate) fn inside_at(at: usize, text: &[u8], len: usize) -> Span
    requires marks { 4 ≤ len }
    requires within { len ≤ length text.now }
    requires place { at + length text.now < 2 ^ 63 }
    ensures { result ≡ inside_at at text.now len }
{
    let start = at + if has_first_dash(text) { 3 } else { 2 };
    let end = at + len - if text[len - 3] == b'-' { 3 } else { 2 };
    Span {
        start,
        end: start.max(end),
    }
}

/// Where what is written of a text stands.
pub(crate) fn stripped_at(at: usize, trims: bool, text: &[u8], len: usize) -> Span
    requires within { len ≤ length text.now }
    requires place { at + length text.now < 2 ^ 63 }
    ensures { result ≡ stripped_at at trims text.now len }
{
    let shown = &text[..len];
    let start = at + if trims { white_len(shown) } else { 0 };
    let stripped = if has_first_dash(&text[len..]) {
        white_end_len(shown)
    } else {
        0
    };
    Span {
        start,
        end: start.max(at + len - stripped),
    }
}
