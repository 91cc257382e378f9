// Link titles.
ghost use Rattle.std.specs.Prelude.{◌≡◌, ◌<◌, IfOk, IfSome, option_map, drop, false};
ghost use Rattle.std.specs.Str.{IsCharBoundary};
ghost use Rattle.markdown_grammar.specs.Titles as grammar;
ghost use Rattle.cm_links.specs.Answers.{link_part};
ghost use Rattle.cm_links.specs.Cuts.{HasByte};

use crate::parts::{LinkPart, enclosed};
use site_base::Memory;
use site_text::is_punctuation;
use std::alloc::Global;

/// The link title that a text begins with, or none.
pub fn link_title(alloc: Global, text: &str) -> Result<Option<LinkPart>, Memory>
    ensures value { IfOk result (λ found. found ≡ option_map link_part (grammar.link_title text.now)) }
    ensures cut { IfOk result (λ found. IfSome found (λ part. IsCharBoundary text.now part.len)) }
{
    match closing_mark(text) {
        Some(mark) => title_to(alloc, mark, text),
        None => Ok(None),
    }
}

// Up to the mark.
fn title_to(alloc: Global, mark: u8, text: &str) -> Result<Option<LinkPart>, Memory>
    requires ascii { mark < 128 }
    requires start { IsCharBoundary text.now 1 }
    ensures value { IfOk result (λ found. found ≡ option_map link_part (grammar.title_to mark (drop 1 text.now))) }
    ensures cut { IfOk result (λ found. IfSome found (λ part. IsCharBoundary text.now part.len)) }
{
    match title_len(mark, &text[1..]) {
        Some(n) => Ok(Some(enclosed(alloc, text, n)?)),
        None => Ok(None),
    }
}

// The mark that closes the title that the first byte opens.
fn closing_mark(text: &str) -> Option<u8>
    ensures value { result ≡ grammar.closing_mark text.now }
    ensures ascii { IfSome result (λ mark. mark < 128) }
    ensures start { IfSome result (λ mark. IsCharBoundary text.now 1) }
{
    let bytes = text.as_bytes();
    if bytes.len() == 0 {
        return None;
    }
    match bytes[0] {
        b'"' => Some(b'"'),
        b'\'' => Some(b'\''),
        b'(' => Some(b')'),
        _ => None,
    }
}

// How long a title is that stands behind its opening mark.
fn title_len(mark: u8, text: &str) -> Option<usize>
    ensures value { result ≡ grammar.title_len mark false text.now }
    ensures end { IfSome result (HasByte mark text.now) }
{
    let bytes = text.as_bytes();
    let mut i = 0;
    let mut is_escaped = false;
    while i < bytes.len() {
        let c = bytes[i];
        if is_escaped && is_punctuation(c) {
            is_escaped = false;
        } else {
            if c == mark {
                return Some(i);
            }
            if c == b'(' && mark == b')' {
                return None;
            }
            is_escaped = c == b'\\';
        }
        i += 1;
    }
    None
}
