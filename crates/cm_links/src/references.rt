// Character grammar.
ghost use Rattle.std.specs.Prelude.{◌≡◌, ◌≤◌, ◌<◌, ◌+◌, ◌-◌, ◌^◌, IfSome, drop, length, option_map};
ghost use Rattle.std.specs.Str.{IsCharBoundary};
ghost use Rattle.cm_links.specs.Answers.{char_ref};
ghost use Rattle.cm_links.specs.Resolving.{HasEnd};
ghost use Rattle.site_text.specs.Bytes as bytes;
ghost use Rattle.markdown_grammar.specs.References as grammar;

use crate::names::named;
use site_text::{Class, class_run, number};

/// A character reference in a text: its character, and the place where it ends.
#[derive(Clone, Copy, PartialEq, Eq, Debug)]
pub struct CharRef {
    pub end: usize,
    pub first: char,
}

/// The character reference that stands at a place of a text, or none where none stands there.
pub fn reference(text: &str, at: usize) -> Option<CharRef>
    requires { IsCharBoundary text.now at }
    ensures value { result ≡ option_map (char_ref at) (grammar.front_reference (drop at text.now)) }
    ensures ends { IfSome result (λ found. HasEnd 0 (drop at text.now) (found.end - at)) }
{
    let (first, size) = front_reference(&text.as_bytes()[at..])?;
    Some(CharRef {
        end: at + size,
        first,
    })
}

/// The reference at the front of a text: its character, and how many bytes it takes.
pub(crate) fn front_reference(text: &[u8]) -> Option<(char, usize)>
    ensures value { result ≡ grammar.front_reference text.now }
    ensures ends { IfSome result (λ found. HasEnd 0 text.now found.1) }
{
    let [b'&', rest @ ..] = text else {
        return None;
    };
    match rest {
        [b'#', b'x' | b'X', number @ ..] => hexadecimal(number),
        [b'#', number @ ..] => decimal(number),
        _ => with_name(rest),
    }
}

// Behind `&`.
fn with_name(text: &[u8]) -> Option<(char, usize)>
    requires { length text.now < 2 ^ 63 }
    ensures value { result ≡ grammar.named_reference text.now }
    ensures ends { IfSome result (λ found. HasEnd 1 text.now found.1) }
{
    let n = class_run(Class::Alphanumeric, text);
    if n == text.len() || text[n] != b';' {
        return None;
    }
    let first = named(&text[..n])?;
    Some((first, n + 2))
}

// Behind `&#`.
fn decimal(text: &[u8]) -> Option<(char, usize)>
    requires { length text.now < 2 ^ 63 }
    ensures value { result ≡ grammar.numeric_reference 10 bytes.is_digit 7 2 text.now }
    ensures ends { IfSome result (λ found. HasEnd 2 text.now found.1) }
{
    let n = class_run(Class::Digit, text);
    if n == 0 || 7 < n || n == text.len() || text[n] != b';' {
        return None;
    }
    Some((valid_char(number(10, &text[..n])), n + 3))
}

// Behind `&#x`.
fn hexadecimal(text: &[u8]) -> Option<(char, usize)>
    requires { length text.now < 2 ^ 63 }
    ensures value { result ≡ grammar.numeric_reference 16 bytes.is_hex 6 3 text.now }
    ensures ends { IfSome result (λ found. HasEnd 3 text.now found.1) }
{
    let n = class_run(Class::HexDigit, text);
    if n == 0 || 6 < n || n == text.len() || text[n] != b';' {
        return None;
    }
    Some((valid_char(number(16, &text[..n])), n + 4))
}

// The character of a code, or U+FFFD where there is none.
fn valid_char(code: u64) -> char
    ensures { result ≡ grammar.valid_code code }
{
    if code == 0 || (0xD800 <= code && code <= 0xDFFF) || 0x10FFFF < code {
        return '\u{fffd}';
    }
    match char::from_u32(code as u32) {
        Some(first) => first,
        None => '\u{fffd}',
    }
}
