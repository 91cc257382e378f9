// What the value of a link says: its references to `&`, whether it leads outside, its query, and its escapes.
ghost use Rattle.std.specs.Prelude.{◌≡◌, ◌<◌, ◌≤◌, IfOk, IfSome, MatchOption, None, OnSome, Some, drop, length, option_map, true};
ghost use Rattle.std.specs.List.{prefix_len};
ghost use Rattle.site_text.specs.Bytes.{is_hex};
ghost use Rattle.site_text.specs.Fronts.{first_byte};
ghost use Rattle.link_check.specs.Targets as targets;

use site_text::{Class, begins, class_run, is_letter, is_one_of, lower};
use std::alloc::{AllocError, Global};

/// `&` for each `&amp;`, from the left.
pub(crate) fn plain(alloc: Global, text: &[u8]) -> Result<Vec<u8>, AllocError>
    ensures { IfOk result (λ made. made.items ≡ targets.plain text.now) }
{
    let mut made = Vec::with_capacity(alloc, text.len())?;
    let mut at = 0;
    while at < text.len() {
        made.push(text[at])?;
        at += first_len(&text[at..]);
    }
    Ok(made)
}

// How many bytes stand for the first one.
fn first_len(text: &[u8]) -> usize
    requires { 0 < length text.now }
    ensures value { result ≡ targets.first_len text.now }
    ensures within { result ≤ length text.now }
{
    if begins(text, b"&amp;") { 5 } else { 1 }
}

/// Whether a value names another host, or a scheme.
pub(crate) fn is_foreign(value: &[u8]) -> bool
    ensures { result ≡ targets.is_foreign value.now }
{
    begins(value, b"//") || has_scheme(value)
}

fn has_scheme(value: &[u8]) -> bool
    ensures { result ≡ targets.has_scheme value.now }
{
    is_letter(first_byte(value)) && first_byte(&value[class_run(Class::Scheme, value)..]) == b':'
}

fn first_byte(bytes: &[u8]) -> u8
    ensures { result ≡ first_byte bytes.now }
{
    match bytes {
        [first, ..] => *first,
        [] => 0,
    }
}

/// What stands before the first `?` or `#`.
pub(crate) fn without_query(value: &[u8]) -> &[u8]
    ensures { result.now ≡ targets.without_query value.now }
{
    &value[..path_len(value)]
}

fn path_len(value: &[u8]) -> usize
    ensures value { result ≡ prefix_len targets.is_of_path value.now }
    ensures within { result ≤ length value.now }
{
    value.iter().take_while(|c| is_of_path(**c)).count()
}

fn is_of_path(c: u8) -> bool
    ensures { result ≡ targets.is_of_path c }
{
    !is_one_of(b"?#", c)
}

/// A byte for each `%` with two digits after it; `None` where a `%` has not got them.
pub(crate) fn decoded(alloc: Global, text: &[u8]) -> Result<Option<Vec<u8>>, AllocError>
    ensures { IfOk result (λ made. option_map (λ v. v.items) made ≡ targets.decoded text.now) }
{
    let mut made = Vec::with_capacity(alloc, text.len())?;
    let mut at = 0;
    while at < text.len() {
        match spelled(&text[at..]) {
            Some((byte, count)) => {
                made.push(byte)?;
                at += count;
            }
            None => return Ok(None),
        }
    }
    Ok(Some(made))
}

// The byte that stands at the front, and how many bytes spell it; `None` where it is a `%` without two digits.
fn spelled(text: &[u8]) -> Option<(u8, usize)>
    requires { 0 < length text.now }
    ensures form { MatchOption result (targets.decoded text.now ≡ None) (λ x. targets.decoded text.now ≡ targets.onto x.0 (targets.decoded (drop x.1 text.now))) }
    ensures within { IfSome result (λ x. (0 < x.1) × (x.1 ≤ length text.now)) }
{
    if text[0] != b'%' {
        return Some((text[0], 1));
    }
    match hex_pair(&text[1..]) {
        Some(byte) => Some((byte, 3)),
        None => None,
    }
}

// The byte that two digits of base 16 stand for.
fn hex_pair(text: &[u8]) -> Option<u8>
    ensures value { result ≡ targets.hex_pair text.now }
    ensures within { OnSome result (2 ≤ length text.now) }
{
    match text {
        [high, low, ..] => both_digits(*high, *low),
        _ => None,
    }
}

fn both_digits(high: u8, low: u8) -> Option<u8>
    ensures { result ≡ targets.both_digits high low }
{
    if !is_hex(high) || !is_hex(low) {
        return None;
    }
    Some(16 * hex_value(high) + hex_value(low))
}

fn is_hex(c: u8) -> bool
    ensures { result ≡ is_hex c }
{
    c.is_ascii_hexdigit()
}

fn hex_value(c: u8) -> u8
    requires { is_hex c ≡ true }
    ensures value { result ≡ targets.hex_value c }
    ensures small { result < 16 }
{
    if c <= b'9' { c - 48 } else { lower(c) - 87 }
}
