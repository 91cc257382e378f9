// The escapes of double-quoted scalars.
ghost use Rattle.std.specs.Prelude.{◌≡◌, ◌≤◌, ◌<◌, ◌+◌, ◌∷◌, length, drop, MatchOption, if◌then◌else◌, Some, None, IfSome};
ghost use Rattle.std.specs.Char.{is_ascii_hexdigit};
ghost use Rattle.std.specs.List.{list_all};
ghost use Rattle.std.proofs.Math.Utf8.{scalar};
ghost use Rattle.front_yaml.specs.Escapes.{named_char, hex_digit, hex_from, hex_char, of_length, escape};
ghost use Rattle.front_yaml.specs.Bytes.{added};
ghost use Rattle.front_yaml.specs.Quotes.{escape_len, bad_escape};

use crate::scans::{front, starts, tail};

fn named_char(letter: u8) -> Option<char>
    ensures { result ≡ named_char letter }
{
    match letter {
        b'"' => Some('"'),
        b'\\' => Some('\\'),
        b'/' => Some('/'),
        b'0' => Some('\0'),
        b'a' => Some('\x07'),
        b'b' => Some('\x08'),
        b't' => Some('\t'),
        b'n' => Some('\n'),
        b'v' => Some('\x0B'),
        b'f' => Some('\x0C'),
        b'r' => Some('\r'),
        b'e' => Some('\x1B'),
        _ => None,
    }
}

fn all_hex(digits: &[u8]) -> bool
    ensures { result ≡ list_all is_ascii_hexdigit digits.now }
{
    digits.iter().all(|c| c.is_ascii_hexdigit())
}

fn hex_digit(c: u8) -> u64
    ensures value { result ≡ hex_digit c }
    ensures small { result < 256 }
{
    let base = if c <= 57 {
        48
    } else if c <= 70 {
        55
    } else {
        87
    };
    u64::from(c.saturating_sub(base))
}

#[tactic(auto, using(crate::proofs::HexBounds::cap_small))]
fn hex_value(digits: &[u8]) -> u64
    requires { length digits.now ≤ 8 }
    ensures { result ≡ hex_from 0 digits.now }
{
    let mut value = 0;
    for c in digits {
        value = value * 16 + hex_digit(*c);
    }
    value
}

// The character with a number.
fn char_of(number: u64) -> Option<char>
    ensures { result ≡ (if scalar number then Some number else None) }
{
    match u32::try_from(number) {
        Ok(code) => char::from_u32(code),
        Err(_) => None,
    }
}

// The character whose number stands in the first hexadecimal digits.
fn hex_char(len: usize, text: &[u8]) -> Option<char>
    requires { len ≤ 8 }
    ensures value { result ≡ hex_char len text.now }
    ensures within { IfSome result (λ _. len ≤ length text.now) }
{
    if text.len() < len {
        return None;
    }
    let digits = front(text, len);
    if !all_hex(digits) {
        return None;
    }
    char_of(hex_value(digits))
}

fn of_length(len: usize, found: Option<char>) -> Option<(char, usize)>
    ensures { result ≡ of_length len found }
{
    match found {
        Some(c) => Some((c, len)),
        None => None,
    }
}

/// The character of the escape that stands behind a `\`, and its bytes.
pub(crate) fn escape(text: &[u8]) -> Option<(char, usize)>
    ensures value { result ≡ escape text.now }
    ensures within { IfSome result (λ e. e.1 ≤ length text.now) }
{
    match text {
        [] => None,
        [b'x', digits @ ..] => of_length(3, hex_char(2, digits)),
        [b'u', digits @ ..] => of_length(5, hex_char(4, digits)),
        [b'U', digits @ ..] => of_length(9, hex_char(8, digits)),
        [letter, ..] => of_length(1, named_char(*letter)),
    }
}

// The bytes behind a `\` that belong to it.
fn escape_len(text: &[u8]) -> Option<usize>
    ensures value { result ≡ escape_len text.now }
    ensures within { IfSome result (λ n. n ≤ length text.now) }
{
    if starts(text, b'\n') {
        return Some(1);
    }
    match escape(text) {
        Some((_, len)) => Some(len),
        None => None,
    }
}

// How many bytes to go on over, if no bad escape begins here.
fn escape_step(c: u8, rest: &[u8]) -> Option<usize>
    ensures value { MatchOption result (bad_escape 0 (c ∷ rest.now) ≡ Some 0) (λ n. bad_escape 0 (c ∷ rest.now) ≡ added n (bad_escape 0 (drop n (c ∷ rest.now)))) }
    ensures within { IfSome result (λ n. (0 < n) × (n ≤ 1 + length rest.now)) }
{
    if c != b'\\' {
        return Some(1);
    }
    match escape_len(rest) {
        Some(len) => Some(1 + len),
        None => None,
    }
}

/// The place of the first `\` that begins no escape.
#[tactic(auto, using(crate::proofs::Added::added_zero))]
pub(crate) fn bad_escape(text: &[u8]) -> Option<usize>
    ensures value { result ≡ bad_escape 0 text.now }
    ensures within { IfSome result (λ n. n < length text.now) }
{
    let mut n = 0;
    while n < text.len() {
        match escape_step(text[n], tail(text, n + 1)) {
            Some(len) => n += len,
            None => return Some(n),
        }
    }
    None
}
