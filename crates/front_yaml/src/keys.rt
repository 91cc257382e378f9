// What starts a line of a block.
ghost use Rattle.std.specs.Prelude.{◌≡◌, ◌≤◌, ◌<◌, ◌+◌, ◌∷◌, length, drop, slice_index, true, false, IfOk, IfSome};
ghost use Rattle.front_yaml.specs.Bytes.{white_len};
ghost use Rattle.front_yaml.specs.Quotes.{is_quote};
ghost use Rattle.front_yaml.specs.Keys.{colon_at, key, has_key, starts_block, quoted_key, plain_key};
ghost use Rattle.front_yaml.specs.Given.{ReadsAt};

use crate::faults::{PlaceError, PlaceFault};
use crate::growth::text_of;
use crate::plain_scalars::{first_colon, plain_raw, separates, starts_plain};
use crate::quote_ends::{is_quote, quote_len};
use crate::quotes::quoted;
use crate::scalars::equals;
use crate::scans::{front, is_dash, starts, tail, trim, white_len};
use site_base::{Text, YamlKind};
use std::alloc::Global;

// Whether a `:` that ends a key stands at a place.
fn colon_at(text: &[u8], at: usize) -> bool
    ensures { result ≡ colon_at text.now at }
{
    at < text.len() && starts(tail(text, at), b':') && separates(false, tail(text, at + 1))
}

// Where the `:` of a key may stand whose closing quote has this many bytes before it.
fn colon_place(text: &[u8], len: usize) -> usize
    requires { len + 2 ≤ length text.now }
    ensures value { result ≡ len + (2 + white_len (drop (len + 2) text.now)) }
    ensures within { result ≤ length text.now }
{
    len + 2 + white_len(tail(text, len + 2))
}

// Whether a key stands at the front, or a fault of one.
fn has_key(text: &[u8]) -> bool
    ensures { result ≡ has_key (key text.now) }
{
    match text {
        [] => false,
        [c, rest @ ..] => {
            if is_quote(*c) {
                has_quoted_key(*c, rest, text)
            } else {
                has_plain_key(text)
            }
        }
    }
}

fn has_quoted_key(quote: u8, rest: &[u8], text: &[u8]) -> bool
    requires quote { is_quote quote ≡ true }
    requires text { text.now ≡ quote ∷ rest.now }
    ensures { result ≡ has_key (key text.now) }
{
    match quote_len(quote, rest) {
        None => false,
        Some(len) => colon_at(text, colon_place(text, len)),
    }
}

fn has_plain_key(text: &[u8]) -> bool
    requires { is_quote (slice_index text.now 0) ≡ false }
    ensures { result ≡ has_key (key text.now) }
{
    starts_plain(false, text) && first_colon(plain_raw(false, text)).is_some()
}

/// Whether a block starts at the front of a line's text.
pub(crate) fn starts_block(text: &[u8]) -> bool
    ensures { result ≡ starts_block text.now }
{
    is_dash(text) || has_key(text)
}

// The key in quotes, the closing one of which has this many bytes before it.
fn quoted_key(alloc: Global, text: &[u8], len: usize) -> Result<Option<(Text, usize)>, PlaceError>
    requires { len + 2 ≤ length text.now }
    ensures value { ReadsAt result (quoted_key text.now len) }
    ensures within { IfOk result (λ k. IfSome k (λ x. x.1 ≤ length text.now)) }
{
    let place = colon_place(text, len);
    if !colon_at(text, place) {
        return Ok(None);
    }
    match quoted(alloc, text) {
        Ok((name, _)) => Ok(Some((name, place + 1))),
        Err(error) => Err(error),
    }
}

const MERGE_KEY: PlaceError = PlaceError::Fault(PlaceFault {
    place: 0,
    kind: YamlKind::Outside,
});

// The plain key whose `:` stands at a place.
fn plain_key(alloc: Global, text: &[u8], at: usize) -> Result<Option<(Text, usize)>, PlaceError>
    requires { at < length text.now }
    ensures value { ReadsAt result (plain_key text.now at) }
    ensures within { IfOk result (λ k. IfSome k (λ x. x.1 ≤ length text.now)) }
{
    let name = trim(front(text, at));
    if equals(name, "<<") {
        return Err(MERGE_KEY);
    }
    match name.to_vec(alloc) {
        Ok(bytes) => Ok(Some((text_of(bytes)?, at + 1))),
        Err(_) => Err(PlaceError::Memory),
    }
}

/// The key at the front of a line's text, and its bytes with the `:`.
pub(crate) fn key(alloc: Global, text: &[u8]) -> Result<Option<(Text, usize)>, PlaceError>
    ensures value { ReadsAt result (key text.now) }
    ensures within { IfOk result (λ k. IfSome k (λ x. x.1 ≤ length text.now)) }
{
    match text {
        [] => Ok(None),
        [c, rest @ ..] => {
            if is_quote(*c) {
                match quote_len(*c, rest) {
                    None => Ok(None),
                    Some(len) => quoted_key(alloc, text, len),
                }
            } else if starts_plain(false, text) {
                match first_colon(plain_raw(false, text)) {
                    None => Ok(None),
                    Some(at) => plain_key(alloc, text, at),
                }
            } else {
                Ok(None)
            }
        }
    }
}

/// Where the value behind a key begins that has this many bytes with its `:`.
pub(crate) fn value_place(text: &[u8], len: usize) -> usize
    requires { len ≤ length text.now }
    ensures value { result ≡ len + white_len (drop len text.now) }
    ensures within { result ≤ length text.now }
{
    len + white_len(tail(text, len))
}
