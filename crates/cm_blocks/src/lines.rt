// The lines of a text.
ghost use Rattle.std.specs.Prelude.{◌≡◌, ◌<◌, ◌∷◌, IfOk, drop, length, take};
ghost use Rattle.std.specs.Str.{IsCharBoundary};
ghost use Rattle.site_text.specs.Bytes as bytes;
ghost use Rattle.site_text.specs.Fronts.{has_one, run_len};
ghost use Rattle.markdown_grammar.specs.Lines as lines;
ghost use Rattle.cm_blocks.specs.LineCuts.{IsCut, Replaces, end_size, is_inside, is_nul, is_plain};

use site_base::{Memory, Text};
use std::alloc::Global;

/// How many bytes the first line of a text takes, without its end and with it.
#[derive(Clone, Copy)]
pub(crate) struct Cut {
    pub inside: usize,
    pub whole: usize,
}

/// Where the first line of a text ends: LF, CR LF, CR, or the text's end.
pub(crate) fn first_line(text: &str) -> Cut
    ensures { IsCut text.now result }
{
    let inside = inside_len(text);
    let end = end_len(&text.as_bytes()[inside..]);
    Cut {
        inside,
        whole: inside + end,
    }
}

fn inside_len(text: &str) -> usize
    ensures value { result ≡ run_len is_inside text.now }
    ensures cut { IsCharBoundary text.now result }
{
    let bytes = text.as_bytes();
    let mut i = 0;
    while i < bytes.len() && !is_line_end(bytes[i]) {
        i += 1;
    }
    i
}

fn is_line_end(c: u8) -> bool
    ensures { result ≡ lines.is_line_end c }
{
    c == b'\n' || c == b'\r'
}

// How many bytes a line end takes that a text begins with.
fn end_len(text: &[u8]) -> usize
    ensures { result ≡ end_size text.now }
{
    match text {
        [b'\r', b'\n', ..] => 2,
        [] => 0,
        _ => 1,
    }
}

/// Whether a text holds U+0000.
pub(crate) fn has_nul(text: &str) -> bool
    ensures { result ≡ has_one is_nul text.now }
{
    for c in text.as_bytes() {
        if *c == 0 {
            return true;
        }
    }
    false
}

/// A text with U+FFFD for each U+0000.
pub(crate) fn without_nul(alloc: Global, text: &str) -> Result<Text, Memory>
    ensures { IfOk result (λ out. out ≡ lines.nul_replaced text.now) }
{
    let mut out = Text::new(alloc);
    let mut rest = text;
    while !rest.is_empty() {
        let size = push_front(&mut out, rest)?;
        rest = &rest[size..];
    }
    Ok(out)
}

// The bytes up to U+0000, or U+FFFD for one: how many bytes of the text are done.
fn push_front(out: &mut Text, text: &str) -> Result<usize, Memory>
    requires { 0 < length text.now }
    ensures { IfOk result (λ size. Replaces out.old out.new text.now size) }
{
    let size = plain_len(text);
    if size == 0 {
        out.push_str("\u{fffd}")?;
        return Ok(1);
    }
    out.push_str(&text[..size])?;
    Ok(size)
}

fn plain_len(text: &str) -> usize
    ensures value { result ≡ run_len is_plain text.now }
    ensures cut { IsCharBoundary text.now result }
{
    let bytes = text.as_bytes();
    let mut i = 0;
    while i < bytes.len() && bytes[i] != 0 {
        i += 1;
    }
    i
}
