// Link destinations.
ghost use Rattle.std.specs.Prelude.{◌≡◌, ◌≤◌, ◌<◌, IfOk, IfSome, option_map, drop, true, false};
ghost use Rattle.std.specs.Str.{IsCharBoundary};
ghost use Rattle.markdown_grammar.specs.Destinations as grammar;
ghost use Rattle.cm_links.specs.Answers.{link_part};
ghost use Rattle.cm_links.specs.Bare.{bare_next, IsSmall, IsStop};
ghost use Rattle.cm_links.specs.Cuts.{HasByte};

use crate::parts::{LinkPart, enclosed};
use crate::resolving::resolved;
use site_base::Memory;
use site_text::{is_punctuation, starts_with_byte};
use std::alloc::Global;

/// The link destination that a text begins with, or none.
pub fn destination(alloc: Global, text: &str) -> Result<Option<LinkPart>, Memory>
    ensures value { IfOk result (λ found. found ≡ option_map link_part (grammar.destination text.now)) }
    ensures cut { IfOk result (λ found. IfSome found (λ part. IsCharBoundary text.now part.len)) }
{
    if starts_with_byte(text, b'<') {
        pointed(alloc, text)
    } else {
        bare(alloc, text)
    }
}

// In `<` and `>`.
fn pointed(alloc: Global, text: &str) -> Result<Option<LinkPart>, Memory>
    requires { IsCharBoundary text.now 1 }
    ensures value { IfOk result (λ found. found ≡ option_map link_part (grammar.pointed_destination (drop 1 text.now))) }
    ensures cut { IfOk result (λ found. IfSome found (λ part. IsCharBoundary text.now part.len)) }
{
    match pointed_len(&text[1..]) {
        Some(n) => Ok(Some(enclosed(alloc, text, n)?)),
        None => Ok(None),
    }
}

// Without `<`.
fn bare(alloc: Global, text: &str) -> Result<Option<LinkPart>, Memory>
    ensures value { IfOk result (λ found. found ≡ option_map link_part (grammar.bare_destination text.now)) }
    ensures cut { IfOk result (λ found. IfSome found (λ part. IsCharBoundary text.now part.len)) }
{
    let len = match bare_len(text) {
        Some(len) => len,
        None => return Ok(None),
    };
    if len == 0 {
        return Ok(None);
    }
    let text = resolved(alloc, &text[..len])?;
    Ok(Some(LinkPart { text, len }))
}

// How long a destination is that stands behind `<`.
fn pointed_len(text: &str) -> Option<usize>
    ensures value { result ≡ grammar.pointed_len false text.now }
    ensures end { IfSome result (HasByte 62 text.now) }
{
    let bytes = text.as_bytes();
    let mut i = 0;
    let mut is_escaped = false;
    while i < bytes.len() {
        let c = bytes[i];
        if is_escaped && is_punctuation(c) {
            is_escaped = false;
        } else {
            if c == b'>' {
                return Some(i);
            }
            if c == b'<' || c == b'\n' {
                return None;
            }
            is_escaped = c == b'\\';
        }
        i += 1;
    }
    None
}

/// What a byte does to a scan: the scan goes on in a state, ends before the byte, or finds nothing.
#[derive(Clone, Copy)]
pub(crate) enum Next {
    Go(bool, u32),
    Stop,
    Refuse,
}

fn bare_byte(is_escaped: bool, depth: u32, c: u8) -> Next
    requires { depth ≤ 32 }
    ensures value { result ≡ bare_next is_escaped depth c }
    ensures small { IsSmall result }
    ensures ascii { IsStop result → c < 128 }
{
    if is_escaped && is_punctuation(c) {
        return Next::Go(false, depth);
    }
    if c == b' ' || c < 32 || c == 127 {
        return if depth == 0 { Next::Stop } else { Next::Refuse };
    }
    if c == b'(' {
        return if depth < 32 {
            Next::Go(false, depth + 1)
        } else {
            Next::Refuse
        };
    }
    if c == b')' {
        return if depth == 0 {
            Next::Stop
        } else {
            Next::Go(false, depth - 1)
        };
    }
    Next::Go(c == b'\\', depth)
}

// How long a destination without `<` is; 0 where none is.
#[tactic(auto, using(crate::proofs::Bare::bare_more, crate::proofs::Bare::plus_plus))]
fn bare_len(text: &str) -> Option<usize>
    ensures value { result ≡ grammar.bare_len false 0 text.now }
    ensures cut { IfSome result (IsCharBoundary text.now) }
{
    let bytes = text.as_bytes();
    let mut i = 0;
    let mut is_escaped = false;
    let mut depth = 0u32;
    while i < bytes.len() {
        match bare_byte(is_escaped, depth, bytes[i]) {
            Next::Go(escapes, deep) => {
                is_escaped = escapes;
                depth = deep;
            }
            Next::Stop => return Some(i),
            Next::Refuse => return None,
        }
        i += 1;
    }
    if depth == 0 { Some(i) } else { None }
}
