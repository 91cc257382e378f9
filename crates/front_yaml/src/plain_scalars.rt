// Plain scalars.
ghost use Rattle.std.specs.Prelude.{◌≡◌, ◌≤◌, ◌<◌, ◌+◌, ◌==◌, ◌&&◌, ◌||◌, length, drop, true, false, zero, suc, codes, option_map, IfSome};
ghost use Rattle.front_yaml.specs.Bytes.{is_gap};
ghost use Rattle.front_yaml.specs.PlainScalars.{starts_plain, blank_next, is_one_of, plain_raw, separates, is_bracket, ends_plain, plain_len, first_colon, plain_fault, plain};
ghost use Rattle.front_yaml.specs.Given.{ReadsSized, Fits, as_pair};

use crate::faults::{PlaceError, PlaceFault};
use crate::folding::{first_tab, folded};
use crate::scalars::resolve;
use crate::scans::{front, is_gap, tail, trim};
use site_base::{Value, YamlKind};
use std::alloc::Global;

/// Whether a byte is one of `, [ ] { }`.
pub(crate) fn is_bracket(c: u8) -> bool
    ensures { result ≡ is_bracket c }
{
    matches!(c, b',' | b'[' | b']' | b'{' | b'}')
}

/// Whether a `:` before this text separates a key from its value.
pub(crate) fn separates(flow: bool, text: &[u8]) -> bool
    ensures { result ≡ separates flow text.now }
{
    match text {
        [c, ..] => *c == b' ' || *c == b'\n' || flow && is_bracket(*c),
        [] => true,
    }
}

fn ends_plain(flow: bool, gap: bool, c: u8, rest: &[u8]) -> bool
    ensures { result ≡ ends_plain flow gap c rest.now }
{
    gap && c == b'#' || flow && (is_bracket(c) || c == b':' && separates(true, rest))
}

// How many bytes stand before what ends a plain scalar.
fn plain_len(flow: bool, text: &[u8]) -> usize
    ensures value { result ≡ plain_len flow false text.now }
    ensures within { result ≤ length text.now }
{
    let mut gap = false;
    let mut n = 0;
    while n < text.len() && !ends_plain(flow, gap, text[n], tail(text, n + 1)) {
        gap = is_gap(text[n]);
        n += 1;
    }
    n
}

/// The bytes of the plain scalar at the front, without white space at its end.
pub(crate) fn plain_raw(flow: bool, text: &[u8]) -> &[u8]
    ensures value { result.now ≡ plain_raw flow text.now }
    ensures within { length result.now ≤ length text.now }
{
    trim(front(text, plain_len(flow, text)))
}

fn ends_key(c: u8, rest: &[u8]) -> bool
    ensures { result ≡ (c == 58) && separates false rest.now }
{
    c == b':' && separates(false, rest)
}

/// The place of the first `:` that ends a key.
#[tactic(auto, using(crate::proofs::Added::added_later, crate::proofs::Added::added_zero))]
pub(crate) fn first_colon(text: &[u8]) -> Option<usize>
    ensures value { result ≡ first_colon text.now }
    ensures within { IfSome result (λ n. n < length text.now) }
{
    let mut n = 0;
    while n < text.len() {
        if ends_key(text[n], tail(text, n + 1)) {
            return Some(n);
        }
        n += 1;
    }
    None
}

fn blank_next(text: &[u8]) -> bool
    ensures { result ≡ blank_next text.now }
{
    match text {
        [c, ..] => is_gap(*c),
        [] => true,
    }
}

// Whether a byte starts no plain scalar, whatever follows.
fn is_indicator(c: u8) -> bool
    ensures { result ≡ is_one_of c (codes "[]{},#&*!|>'\"%@`") }
{
    is_bracket(c)
        || c == b'#'
        || c == b'&'
        || c == b'*'
        || c == b'!'
        || c == b'|'
        || c == b'>'
        || c == b'\''
        || c == b'"'
        || c == b'%'
        || c == b'@'
        || c == b'`'
}

fn is_mark(c: u8) -> bool
    ensures { result ≡ (c == 45) || (c == 63) || (c == 58) }
{
    c == b'-' || c == b'?' || c == b':'
}

/// Whether a plain scalar starts here.
pub(crate) fn starts_plain(flow: bool, text: &[u8]) -> bool
    ensures { result ≡ starts_plain flow text.now }
{
    match text {
        [c, rest @ ..] => {
            !(is_indicator(*c)
                || is_mark(*c) && blank_next(rest)
                || *c == b':' && separates(flow, rest))
        }
        [] => false,
    }
}

/// The first fault within a plain scalar.
pub(crate) fn plain_fault(flow: bool, raw: &[u8]) -> Option<PlaceFault>
    ensures value { option_map as_pair result ≡ plain_fault flow raw.now }
    ensures within { IfSome result (λ fault. fault.place ≤ length raw.now) }
{
    let tab = PlaceFault::at(YamlKind::Tab, first_tab(raw));
    if flow {
        return tab;
    }
    PlaceFault::earlier(tab, PlaceFault::at(YamlKind::NoKey, first_colon(raw)))
}

/// The value of the plain scalar at the front, and its bytes.
pub(crate) fn plain(alloc: Global, flow: bool, text: &[u8]) -> Result<(Value, usize), PlaceError>
    ensures value { ReadsSized result (plain flow text.now) }
    ensures within { Fits (length text.now) result }
{
    let raw = plain_raw(flow, text);
    if let Some(fault) = plain_fault(flow, raw) {
        return Err(PlaceError::Fault(fault));
    }
    match resolve(folded(alloc, false, raw)?) {
        Ok(value) => Ok((value, raw.len())),
        Err(error) => Err(error),
    }
}
