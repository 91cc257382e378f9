// Texts in which something else stands for some marks.
ghost use Rattle.std.specs.Prelude.{◌≡◌, ◌<◌, ◌≤◌, ◌++◌, ◌&&◌, nat_lt, length, take, drop, IfOk, None};
ghost use Rattle.std.specs.List.{prefix_len};
ghost use Rattle.std.specs.Str.{IsCharBoundary};
ghost use Rattle.std.specs.String.{string_bytes};
ghost use Rattle.site_text.specs.Bytes.{is_digit, is_letter};
ghost use Rattle.text_filters.specs.Marks.{escape, begins_semicolon, is_reference, escape_once, escape_xml, line_break, line_end, white_space, mark_at, marked_after, marked, found_of};

use filter_base::{begins_white, is_white};
use site_text::{Class, class_run, is_letter};
use std::alloc::{AllocError, Global};

/// What something else stands for.
#[derive(Clone, Copy, Debug, PartialEq, Eq)]
pub enum Mark {
    /// `&`, `<`, `>` and the quotes, for which references stand.
    Escape,
    /// The same, but no `&` that begins a reference.
    EscapeOnce,
    /// The same as `Escape`, but no single quote.
    EscapeXml,
    /// A line end, before which a break stands then.
    LineBreak,
    /// A line end, for which nothing stands.
    LineEnd,
    /// White space: a space stands for each run of it.
    WhiteSpace,
}

/// A text in which something else stands for each mark.
pub fn marked(alloc: Global, mark: Mark, text: &str) -> Result<String, AllocError>
    ensures { IfOk result (λ made. string_bytes made ≡ marked mark text.now) }
{
    let mut made = String::new(alloc);
    let mut rest = text;
    while !rest.is_empty() {
        rest = push_next(&mut made, mark, rest)?;
    }
    Ok(made)
}

// Adds what stands for the mark at the front, or what comes before the next mark; what follows is left.
fn push_next<'a>(made: &mut String, mark: Mark, text: &'a str) -> Result<&'a str, AllocError>
    requires { 0 < length text.now }
    ensures shorter { IfOk result (λ rest. length rest.now < length text.now) }
    ensures made { IfOk result (λ rest. string_bytes made.new ++ marked_after mark 0 rest.now ≡ string_bytes made.old ++ marked_after mark 0 text.now) }
{
    match mark.at(text.as_bytes()) {
        Some((more, instead)) => {
            made.push_str(instead)?;
            Ok(&text[more + 1..])
        }
        None => {
            let len = plain_len(mark, text);
            made.push_str(&text[..len])?;
            Ok(&text[len..])
        }
    }
}

// How many bytes come before the next mark, where none stands at the front itself.
fn plain_len(mark: Mark, text: &str) -> usize
    requires some { 0 < length text.now }
    requires none { mark_at mark text.now ≡ None }
    ensures some { 0 < result }
    ensures within { result ≤ length text.now }
    ensures cut { IsCharBoundary text.now result }
    ensures plain { take result text.now ++ marked_after mark 0 (drop result text.now) ≡ marked_after mark 0 text.now }
{
    let bytes = text.as_bytes();
    let mut len = 1;
    while len < bytes.len() {
        match mark.at(&bytes[len..]) {
            Some(_) => return len,
            None => len += 1,
        }
    }
    len
}

impl Mark {
    // How many bytes behind the first belong to the mark at the front, and what stands for it.
    fn at(self, text: &[u8]) -> Option<(usize, &'static str)>
        ensures { found_of result ≡ mark_at self text.now }
    {
        match self {
            Mark::Escape => escape(text),
            Mark::EscapeOnce => escape_once(text),
            Mark::EscapeXml => escape_xml(text),
            Mark::LineBreak => line_break(text),
            Mark::LineEnd => line_end(text),
            Mark::WhiteSpace => white_space(text),
        }
    }
}

fn escape(text: &[u8]) -> Option<(usize, &'static str)>
    ensures { found_of result ≡ escape text.now }
{
    match text {
        [b'&', ..] => Some((0, "&amp;")),
        [b'<', ..] => Some((0, "&lt;")),
        [b'>', ..] => Some((0, "&gt;")),
        [b'"', ..] => Some((0, "&quot;")),
        [b'\'', ..] => Some((0, "&#39;")),
        _ => None,
    }
}

fn escape_once(text: &[u8]) -> Option<(usize, &'static str)>
    ensures { found_of result ≡ escape_once text.now }
{
    match text {
        [b'&', rest @ ..] => {
            if is_reference(rest) {
                None
            } else {
                Some((0, "&amp;"))
            }
        }
        _ => escape(text),
    }
}

// Whether an `&` before it begins a reference: letters, or `#` and digits, and `;`.
fn is_reference(text: &[u8]) -> bool
    ensures { result ≡ is_reference text.now }
{
    match text {
        [b'#', digits @ ..] => ends_run(digits, digits_len(digits)),
        _ => ends_run(text, letters_len(text)),
    }
}

fn letters_len(text: &[u8]) -> usize
    ensures value { result ≡ prefix_len is_letter text.now }
    ensures within { result ≤ length text.now }
{
    text.iter().take_while(|byte| is_letter(**byte)).count()
}

fn digits_len(text: &[u8]) -> usize
    ensures value { result ≡ prefix_len is_digit text.now }
    ensures within { result ≤ length text.now }
{
    class_run(Class::Digit, text)
}

// Whether there are some bytes at the front, and `;` stands behind them.
fn ends_run(text: &[u8], len: usize) -> bool
    requires { len ≤ length text.now }
    ensures { result ≡ (nat_lt 0 len && begins_semicolon (drop len text.now)) }
{
    0 < len && begins_semicolon(&text[len..])
}

fn begins_semicolon(text: &[u8]) -> bool
    ensures { result ≡ begins_semicolon text.now }
{
    matches!(text, [b';', ..])
}

fn escape_xml(text: &[u8]) -> Option<(usize, &'static str)>
    ensures { found_of result ≡ escape_xml text.now }
{
    match text {
        [b'\'', ..] => None,
        _ => escape(text),
    }
}

fn line_break(text: &[u8]) -> Option<(usize, &'static str)>
    ensures { found_of result ≡ line_break text.now }
{
    match text {
        [b'\n', ..] => Some((0, "<br />\n")),
        _ => None,
    }
}

fn line_end(text: &[u8]) -> Option<(usize, &'static str)>
    ensures { found_of result ≡ line_end text.now }
{
    match text {
        [b'\n', ..] => Some((0, "")),
        [b'\r', b'\n', ..] => Some((1, "")),
        _ => None,
    }
}

// The last of a run is a space.
fn white_space(text: &[u8]) -> Option<(usize, &'static str)>
    ensures { found_of result ≡ white_space text.now }
{
    match text {
        [byte, rest @ ..] => {
            if !is_white(*byte) {
                None
            } else if begins_white(rest) {
                Some((0, ""))
            } else {
                Some((0, " "))
            }
        }
        [] => None,
    }
}
