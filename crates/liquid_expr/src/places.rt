// Where something stands in a text.
ghost use Rattle.std.specs.Prelude.{◌≡◌, ◌+◌, ◌≤◌, length, drop, count_by, ◌==◌};
ghost use Rattle.std.specs.List.{suffix_len};
ghost use Rattle.liquid_grammar.specs.Pieces.{first_place, begins, opens, is_tag, is_white, white_len, after_white, after_dash, line_ends};

use memchr::memchr;
use site_text::begins;

/// What follows a place.
pub(crate) fn tail(bytes: &[u8], at: usize) -> &[u8]
    requires { at ≤ length bytes.now }
    ensures { result.now ≡ drop at bytes.now }
{
    &bytes[at..]
}

/// Whether a piece starts here.
pub(crate) fn opens(text: &[u8]) -> bool
    ensures { result ≡ opens text.now }
{
    begins(text, b"{{") || begins(text, b"{%")
}

/// The first place from `at` on at which the mark stands, or the text's length.
pub(crate) fn find(text: &[u8], at: usize, mark: &[u8]) -> usize
    requires { at ≤ length text.now }
    ensures { result ≡ at + first_place (begins mark.now) (drop at text.now) }
{
    let mut i = at;
    while i < text.len() && !begins(&text[i..], mark) {
        i += 1;
    }
    i
}

/// The first place at which a piece starts, or the text's length.
pub(crate) fn find_open(text: &[u8]) -> usize
    ensures { result ≡ first_place opens text.now }
{
    let mut i = 0;
    while i < text.len() {
        let rest = tail(text, i);
        if opens(rest) {
            return i;
        }
        i += 1 + brace_place(tail(rest, 1));
    }
    i
}

// The first place of a `{`, or the text's length. No piece starts before it.
fn brace_place(text: &[u8]) -> usize
    ensures within { result ≤ length text.now }
    ensures skips { result + first_place opens (drop result text.now) ≡ first_place opens text.now }
{
    match memchr(b'{', text) {
        Some(place) => place,
        None => text.len(),
    }
}

/// The first place from `at` on at which a tag of this one word stands, or the text's length.
pub(crate) fn find_tag(text: &[u8], at: usize, word: &[u8]) -> usize
    requires { at ≤ length text.now }
    ensures { result ≡ at + first_place (is_tag word.now) (drop at text.now) }
{
    let mut i = at;
    while i < text.len() && !is_tag(&text[i..], word) {
        i += 1;
    }
    i
}

pub(crate) fn is_white(byte: u8) -> bool
    ensures { result ≡ is_white byte }
{
    byte == b' ' || 8 < byte && byte < 14
}

/// How many bytes of white space stand at the front.
pub(crate) fn white_len(text: &[u8]) -> usize
    ensures value { result ≡ white_len text.now }
    ensures within { result ≤ length text.now }
{
    text.iter().take_while(|byte| is_white(**byte)).count()
}

/// How many bytes of white space stand at the end.
pub(crate) fn white_end_len(text: &[u8]) -> usize
    ensures value { result ≡ suffix_len is_white text.now }
    ensures within { result ≤ length text.now }
{
    text.iter()
        .rev()
        .take_while(|byte| is_white(**byte))
        .count()
}

fn after_white(text: &[u8]) -> &[u8]
    ensures { result.now ≡ after_white text.now }
{
    tail(text, white_len(text))
}

fn after_dash(text: &[u8]) -> &[u8]
    ensures { result.now ≡ after_dash text.now }
{
    if begins(text, b"-") { &text[1..] } else { text }
}

/// Whether a tag of this one word stands at the front.
pub(crate) fn is_tag(text: &[u8], word: &[u8]) -> bool
    ensures { result ≡ is_tag word.now text.now }
{
    if !begins(text, b"{%") {
        return false;
    }
    let inside = after_white(after_dash(&text[2..]));
    begins(inside, word) && begins(after_dash(after_white(&inside[word.len()..])), b"%}")
}

/// How many lines end in a text.
pub(crate) fn line_ends(text: &[u8]) -> usize
    ensures value { result ≡ line_ends text.now }
    ensures within { result ≤ length text.now }
{
    text.iter().filter(|byte| **byte == b'\n').count()
}
