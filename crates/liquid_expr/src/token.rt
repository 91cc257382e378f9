// The tokens of an expression or a tag.
ghost use Rattle.std.specs.Prelude.{◌≡◌, ◌+◌, ◌-◌, ◌<◌, ◌≤◌, ◌==◌, not, length, take, drop, slice_index, IfSome, OnSome, true, Some};
ghost use Rattle.std.specs.List.{prefix_len};
ghost use Rattle.std.specs.Str.Parse.{IsNumeral, without_leading_sign};
ghost use Rattle.liquid_grammar.specs.Tokens.{is_large, short_at, whole_token, sign_len, whole_len, fraction_len, short_mark, long_mark, mark_at, quoted_at, number_at, number_or_mark, token_at, text};
ghost use Rattle.liquid_grammar.specs.Pieces.{is_white};
ghost use Rattle.site_text.specs.Bytes.{is_name_byte, is_name_start};
ghost use Rattle.liquid_expr.specs.Token.{token_of, found_of, marked_of, EndsAscii, IsCut, IsFound, IsWhole};

use crate::places::{is_white, tail};
use liquid_grammar::{Comparison, Mark};
use site_text::{Class, class_run, is_name_start};

/// A token, in the text that it stands in.
#[derive(Clone, Copy)]
pub(crate) enum Token<'a> {
    Word(&'a str),
    /// What stands between two quotes, or a decimal as it is written.
    Text(&'a str),
    Whole(i64),
    /// A whole number that is no i64.
    Large,
    Mark(Mark),
}

/// Whether it is a whole number that is no i64.
pub(crate) fn is_large(token: &Token) -> bool
    ensures { result ≡ is_large (token_of token.now) }
{
    matches!(token, Token::Large)
}

/// Whether white space stands at the front.
pub(crate) fn begins_white(rest: &str) -> bool
    requires { 0 < length rest.now }
    ensures value { result ≡ is_white (slice_index rest.now 0) }
    ensures cut { result ≡ true → IsCut rest.now 1 }
{
    is_white(rest.as_bytes()[0])
}

/// What follows the first bytes.
pub(crate) fn after<'a>(rest: &'a str, len: usize) -> &'a str
    requires within { len ≤ length rest.now }
    requires cut { IsCut rest.now len }
    ensures { result.now ≡ drop len rest.now }
{
    &rest[len..]
}

// The first bytes, of which the last is no part of a longer character.
fn head<'a>(rest: &'a str, len: usize) -> &'a str
    requires some { 0 < len }
    requires within { len ≤ length rest.now }
    requires last { slice_index rest.now (len - 1) < 128 }
    ensures head { result.now ≡ take len rest.now }
    ensures cut { IsCut rest.now len }
{
    &rest[..len]
}

/// The token at the front, with its length.
pub(crate) fn token_at<'a>(rest: &'a str) -> Option<(Token<'a>, usize)>
    requires { 0 < length rest.now }
    ensures value { found_of result ≡ token_at rest.now }
    ensures fits { IfSome result (λ found. IsFound rest.now found.1) }
{
    let first = rest.as_bytes()[0];
    if is_name_start(first) {
        return Some(word(rest));
    }
    if first == b'"' || first == b'\'' {
        return quoted(rest, first);
    }
    number_or_mark(rest)
}

fn number_or_mark<'a>(rest: &'a str) -> Option<(Token<'a>, usize)>
    ensures value { found_of result ≡ number_or_mark rest.now }
    ensures fits { IfSome result (λ found. IsFound rest.now found.1) }
{
    let whole = whole_len(rest.as_bytes());
    if whole > 0 {
        return Some(number(rest, whole));
    }
    marked(rest)
}

fn word<'a>(rest: &'a str) -> (Token<'a>, usize)
    requires some { 0 < length rest.now }
    requires letter { is_name_start (slice_index rest.now 0) ≡ true }
    ensures value { found_of (Some result) ≡ token_at rest.now }
    ensures fits { IsFound rest.now result.1 }
{
    let len = name_len(rest.as_bytes());
    (Token::Word(head(rest, len)), len)
}

// A text in quotes.
fn quoted<'a>(rest: &'a str, quote: u8) -> Option<(Token<'a>, usize)>
    requires some { 0 < length rest.now }
    requires first { slice_index rest.now 0 ≡ quote }
    requires ascii { quote < 128 }
    ensures value { found_of result ≡ quoted_at quote (drop 1 rest.now) }
    ensures fits { IfSome result (λ found. IsFound rest.now found.1) }
{
    let bytes = rest.as_bytes();
    let end = 1 + unquoted_len(tail(bytes, 1), quote);
    if end < bytes.len() {
        Some((Token::Text(between(rest, end)), end + 1))
    } else {
        None
    }
}

// What stands between the first byte and the one at `end`.
fn between<'a>(rest: &'a str, end: usize) -> &'a str
    requires order { 1 ≤ end }
    requires within { end < length rest.now }
    requires first { slice_index rest.now 0 < 128 }
    requires last { slice_index rest.now end < 128 }
    ensures inside { result.now ≡ take (end - 1) (drop 1 rest.now) }
    ensures cut { IsCut rest.now (end + 1) }
{
    &rest[1..end]
}

// A number whose whole part has `len` bytes.
fn number<'a>(rest: &'a str, len: usize) -> (Token<'a>, usize)
    requires some { 0 < len }
    requires whole { IsWhole rest.now len }
    ensures value { found_of (Some result) ≡ Some (number_at rest.now len) }
    ensures fits { IsFound rest.now result.1 }
{
    let fraction = fraction_len(tail(rest.as_bytes(), len));
    if fraction > 0 {
        (Token::Text(head(rest, len + fraction)), len + fraction)
    } else {
        (whole(head(rest, len)), len)
    }
}

fn whole<'a>(digits: &str) -> Token<'a>
    requires { IsNumeral 10 (without_leading_sign digits.now) }
    ensures { token_of result ≡ whole_token digits.now }
{
    match digits.parse::<i64>() {
        Ok(number) => Token::Whole(number),
        Err(_) => Token::Large,
    }
}

fn marked<'a>(rest: &'a str) -> Option<(Token<'a>, usize)>
    ensures value { found_of result ≡ mark_at rest.now }
    ensures fits { IfSome result (λ found. IsFound rest.now found.1) }
{
    match mark_at(rest.as_bytes()) {
        Some((mark, len)) => Some((Token::Mark(mark), len)),
        None => None,
    }
}

/// The longest mark at the front, with its length.
pub(crate) fn mark_at(bytes: &[u8]) -> Option<(Mark, usize)>
    ensures value { marked_of result ≡ mark_at bytes.now }
    ensures fits { IfSome result (λ found. IsFound bytes.now found.1) }
{
    match bytes {
        [first, second, ..] => match long_mark(*first, *second) {
            Some(mark) => Some((mark, 2)),
            None => short_at(*first),
        },
        [first] => short_at(*first),
        [] => None,
    }
}

fn short_at(first: u8) -> Option<(Mark, usize)>
    ensures value { marked_of result ≡ short_at (short_mark first) }
    ensures len { IfSome result (λ found. (found.1 ≡ 1) × (first < 128)) }
{
    match short_mark(first) {
        Some(mark) => Some((mark, 1)),
        None => None,
    }
}

fn short_mark(byte: u8) -> Option<Mark>
    ensures value { result ≡ short_mark byte }
    ensures ascii { OnSome result (byte < 128) }
{
    match byte {
        b'.' => Some(Mark::Dot),
        b'[' => Some(Mark::OpenBracket),
        b']' => Some(Mark::CloseBracket),
        b'(' => Some(Mark::OpenRange),
        b')' => Some(Mark::CloseRange),
        b'|' => Some(Mark::Bar),
        b':' => Some(Mark::Colon),
        b',' => Some(Mark::Comma),
        b'=' => Some(Mark::Assign),
        b'<' => Some(Mark::Compare(Comparison::Less)),
        b'>' => Some(Mark::Compare(Comparison::Greater)),
        _ => None,
    }
}

fn long_mark(first: u8, second: u8) -> Option<Mark>
    ensures value { result ≡ long_mark first second }
    ensures ascii { OnSome result (second < 128) }
{
    match (first, second) {
        (b'.', b'.') => Some(Mark::To),
        (b'=', b'=') => Some(Mark::Compare(Comparison::Equal)),
        (b'!', b'=') => Some(Mark::Compare(Comparison::Unequal)),
        (b'<', b'>') => Some(Mark::Compare(Comparison::Unequal)),
        (b'<', b'=') => Some(Mark::Compare(Comparison::AtMost)),
        (b'>', b'=') => Some(Mark::Compare(Comparison::AtLeast)),
        _ => None,
    }
}

pub(crate) fn name_len(bytes: &[u8]) -> usize
    ensures value { result ≡ prefix_len is_name_byte bytes.now }
    ensures within { result ≤ length bytes.now }
    ensures ascii { EndsAscii bytes.now result }
{
    class_run(Class::Name, bytes)
}

fn unquoted_len(bytes: &[u8], quote: u8) -> usize
    ensures value { result ≡ prefix_len (λ c. not (c == quote)) bytes.now }
    ensures within { result ≤ length bytes.now }
    ensures stops { result < length bytes.now → slice_index bytes.now result ≡ quote }
{
    bytes.iter().take_while(|byte| !(**byte == quote)).count()
}

fn sign_len(bytes: &[u8]) -> usize
    ensures value { result ≡ sign_len bytes.now }
    ensures within { result ≤ length bytes.now }
{
    match bytes {
        [b'-', ..] => 1,
        _ => 0,
    }
}

// How many bytes at the front are a whole number, or 0.
fn whole_len(bytes: &[u8]) -> usize
    ensures { result ≡ whole_len bytes.now }
{
    let sign = sign_len(bytes);
    let digits = class_run(Class::Digit, &bytes[sign..]);
    if digits > 0 { sign + digits } else { 0 }
}

// How many bytes at the front are a dot with digits behind it, or 0.
fn fraction_len(bytes: &[u8]) -> usize
    ensures value { result ≡ fraction_len bytes.now }
    ensures within { result ≤ length bytes.now }
{
    match bytes {
        [b'.', rest @ ..] => {
            let digits = class_run(Class::Digit, rest);
            if digits > 0 { digits + 1 } else { 0 }
        }
        _ => 0,
    }
}
