// What stands at the front of a text.
ghost use Rattle.std.specs.Prelude.{◌≡◌, ◌+◌, ◌<◌, ◌≤◌, length, IfSome};
ghost use Rattle.liquid_grammar.specs.Pieces.{tag_at, markup_at, front_of, len_of, trims_after, has_last_dash};
ghost use Rattle.liquid_expr.specs.Fits.{Fits, found_len};

use crate::places::{find, find_open, find_tag, is_tag};
use liquid_grammar::Front;
use site_text::begins;

fn tag_at(text: &[u8], len: usize) -> Front
    requires { len ≤ length text.now }
    ensures { result ≡ tag_at text.now len }
{
    if is_tag(text, b"raw") {
        let end = find_tag(text, len, b"endraw");
        return if end < text.len() {
            Front::Raw(len, end - len)
        } else {
            Front::Unclosed
        };
    }
    if is_tag(text, b"comment") {
        return Front::Comment(len, find_tag(text, len, b"endcomment") - len);
    }
    Front::Tag(len)
}

fn markup_at(text: &[u8]) -> Front
    requires { 2 ≤ length text.now }
    ensures { result ≡ markup_at text.now }
{
    if begins(text, b"{{") {
        let end = find(text, 2, b"}}");
        if end < text.len() {
            Front::Output(end + 2)
        } else {
            Front::Unclosed
        }
    } else {
        let end = find(text, 2, b"%}");
        if end < text.len() {
            tag_at(text, end + 2)
        } else {
            Front::Unclosed
        }
    }
}

/// What stands at the front of a text that is not empty.
pub(crate) fn front_of(text: &[u8]) -> Front
    requires { 0 < length text.now }
    ensures value { result ≡ front_of text.now }
    ensures fits { Fits (length text.now) result }
{
    let start = find_open(text);
    if start > 0 {
        Front::Text(start)
    } else {
        markup_at(text)
    }
}

/// How long it is, in a text of at most `most` bytes, unless it has no end.
pub(crate) fn len_of(front: &Front, most: usize) -> Option<usize>
    requires { Fits most front.now }
    ensures value { result ≡ found_len front.now }
    ensures fits { IfSome result (λ n. (0 < n) × (n ≤ most)) }
    ensures same { IfSome result (λ n. n ≡ len_of front.now) }
{
    match front {
        Front::Text(n) | Front::Output(n) | Front::Tag(n) => Some(*n),
        Front::Raw(n, m) | Front::Comment(n, m) => Some(*n + *m),
        Front::Unclosed => None,
    }
}

/// Whether a dash strips the white space that follows it.
pub(crate) fn trims_after(front: &Front, text: &[u8]) -> bool
    requires { Fits (length text.now) front.now }
    ensures { result ≡ trims_after front.now text.now }
{
    match front {
        Front::Output(n) | Front::Tag(n) | Front::Raw(n, _) | Front::Comment(n, _) => {
            text[*n - 3] == b'-'
        }
        Front::Text(_) | Front::Unclosed => false,
    }
}
