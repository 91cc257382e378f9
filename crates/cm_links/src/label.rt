// Link labels.
ghost use Rattle.std.specs.Prelude.{◌≡◌, ◌++◌, ◌&&◌, IfOk, OnOk, encode_utf8, encode_utf8_all, false, chars, string_bytes, if◌then◌else◌, [], ◌∷◌, IfSome, drop, length, nat_le, not};
ghost use Rattle.std.specs.Str.{IsCharBoundary};
ghost use Rattle.site_text.specs.Bytes as bytes;
ghost use Rattle.site_text.specs.Fronts.{has_one};
ghost use Rattle.markdown_grammar.specs.Labels as grammar;
ghost use Rattle.markdown_grammar.specs.Labels.{label_key, squeezed};
ghost use Rattle.cm_links.specs.Cuts.{HasByte, IsLabelled};

use caseless::default_case_fold_str;
use site_base::{Memory, Text};
use site_text::starts_with_byte;
use std::alloc::{AllocError, Global};

/// A label without white space at its ends, with one space for each run of white space inside, and
/// with its case folded. Labels match where this gives the same text.
pub fn fold_label(alloc: Global, label: &str) -> Result<Text, Memory>
    ensures { IfOk result (λ folded. folded ≡ encode_utf8_all (label_key label.now)) }
{
    let folded = folded_label(alloc, label)?;
    Text::from_string(folded)
}

/// The same as a string.
pub(crate) fn folded_label(alloc: Global, label: &str) -> Result<String, Memory>
    ensures { IfOk result (λ folded. string_bytes folded ≡ encode_utf8_all (label_key label.now)) }
{
    let squeezed = match squeeze(alloc, label) {
        Ok(squeezed) => squeezed,
        Err(_) => return Err(Memory),
    };
    match default_case_fold_str(alloc, squeezed.as_str()) {
        Ok(folded) => Ok(folded),
        Err(_) => Err(Memory),
    }
}

fn is_white(c: char) -> bool
    ensures { result ≡ bytes.is_white c }
{
    c == ' ' || c == '\t' || c == '\n' || c == '\r'
}

fn squeeze(alloc: Global, label: &str) -> Result<String, AllocError>
    ensures { IfOk result (λ out. chars (string_bytes out) ≡ squeezed false false (chars label.now)) }
{
    let mut out = String::new(alloc);
    let mut has_begun = false;
    let mut has_gap = false;
    for c in label.chars() {
        if is_white(c) {
            has_gap = true;
        } else {
            push_behind(&mut out, has_begun, has_gap, c)?;
            has_begun = true;
            has_gap = false;
        }
    }
    Ok(out)
}

// A character, and a space before it where there is a gap behind others.
fn push_behind(out: &mut String, has_begun: bool, has_gap: bool, c: char) -> Result<(), AllocError>
    ensures { OnOk result (string_bytes out.new ≡ string_bytes out.old ++ encode_utf8_all (if has_begun && has_gap then 32 ∷ c ∷ [] else c ∷ [])) }
{
    if has_begun && has_gap {
        out.push(' ')?;
    }
    out.push(c)
}

/// How many bytes the link label takes that a text begins with, its brackets included, or none.
pub fn link_label(text: &str) -> Option<usize>
    ensures value { result ≡ grammar.link_label text.now }
    ensures cuts { IfSome result (IsLabelled text.now) }
{
    if starts_with_byte(text, b'[') {
        label_behind(text)
    } else {
        None
    }
}

// Behind the opening bracket.
fn label_behind(text: &str) -> Option<usize>
    requires { IsCharBoundary text.now 1 }
    ensures value { result ≡ grammar.label_behind (drop 1 text.now) }
    ensures cuts { IfSome result (IsLabelled text.now) }
{
    let inside = &text[1..];
    let n = label_len(inside)?;
    if is_label(&inside[..n]) {
        Some(n + 2)
    } else {
        None
    }
}

// How long a label is that stands behind its opening bracket.
fn label_len(text: &str) -> Option<usize>
    ensures value { result ≡ grammar.label_len false text.now }
    ensures end { IfSome result (HasByte 93 text.now) }
{
    let bytes = text.as_bytes();
    let mut i = 0;
    let mut is_escaped = false;
    while i < bytes.len() {
        let c = bytes[i];
        if is_escaped {
            is_escaped = false;
        } else {
            if c == b']' {
                return Some(i);
            }
            if c == b'[' {
                return None;
            }
            is_escaped = c == b'\\';
        }
        i += 1;
    }
    None
}

/// Whether a text is that of a label: at most 999 characters, one of which is not white space.
pub fn is_label(text: &str) -> bool
    ensures { result ≡ grammar.is_label text.now }
{
    is_short(text) && has_other(text)
}

fn is_short(text: &str) -> bool
    ensures { result ≡ nat_le (length (chars text.now)) 999 }
{
    let mut count = 0u32;
    for _c in text.chars() {
        if count == 999 {
            return false;
        }
        count += 1;
    }
    true
}

fn has_other(text: &str) -> bool
    ensures { result ≡ has_one (λ c. not (bytes.is_white c)) (chars text.now) }
{
    for c in text.chars() {
        if !is_white(c) {
            return true;
        }
    }
    false
}
