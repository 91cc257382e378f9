// The lines of a text.
ghost use Rattle.std.specs.Prelude.{◌≡◌, ◌<◌, ◌≤◌, ◌+◌, ◌^◌, drop, take, false, length, IfOk};
ghost use Rattle.std.specs.List.{prefix_len};
ghost use Rattle.front_yaml.specs.Bytes.{starts, is_empty, white_len};
ghost use Rattle.front_yaml.specs.Yaml.{is_three, is_marker, is_start_text, is_start};
ghost use Rattle.front_yaml.specs.TextLines.{is_inside, without_end, spaces, indent, inside, is_blank, has_tab, carries, line_of, text_lines, from_place};

use crate::lines::line_end;
use crate::scans::{front, is_empty, starts, tail, white_len};
use site_base::Memory;
use std::alloc::Global;
use std::marker::Model;

/// A line: its number, its leading spaces, and what stands after them up to the line end.
#[derive(Drop)]
pub(crate) struct TextLine<'a> {
    number: u64,
    indent: usize,
    rest: &'a [u8],
}

impl<'a> Model for TextLine<'a> {
    ghost use Rattle.std.specs.Prelude.{◌≡◌, false, ◌++◌, ◌<◌, ◌+◌, ◌^◌, length};
    ghost use Rattle.front_yaml.specs.Bytes.{starts, repeated};
    ghost use Rattle.front_yaml.specs.TextLines.{Line};

    ghost Value = { Line };

    ghost view = { λ l. record { number = l.number; text = repeated l.indent 32 ++ l.rest.now } };

    ghost invariant = { λ l. (starts 32 l.rest.now ≡ false) × (l.indent + length l.rest.now < 2 ^ 63) × (l.number < 2 ^ 63) };
}

impl<'a> TextLine<'a> {
    /// The line with a number; its bytes may have a line end.
    fn of(number: u64, line: &'a [u8]) -> TextLine<'a>
        requires { number < 2 ^ 63 }
        ensures { result ≡ line_of number line.now }
    {
        let text = front(line, inside_len(line));
        let indent = space_len(text);
        TextLine {
            number,
            indent,
            rest: tail(text, indent),
        }
    }

    pub(crate) fn number(&self) -> u64
        ensures value { result ≡ self.now.number }
        ensures small { result < 2 ^ 63 }
    {
        self.number
    }

    pub(crate) fn indent(&self) -> usize
        ensures value { result ≡ indent self.now }
        ensures small { result + length (inside self.now) < 2 ^ 63 }
    {
        self.indent
    }

    /// What stands after the leading spaces.
    pub(crate) fn inside(&self) -> &'a [u8]
        ensures { result.now ≡ inside self.now }
    {
        self.rest
    }

    /// The line from a place inside it on, with spaces before.
    pub(crate) fn from_place(&self, place: usize) -> TextLine<'a>
        requires within { place ≤ length (inside self.now) }
        requires no_space { starts 32 (drop place (inside self.now)) ≡ false }
        ensures { result ≡ from_place place self.now }
    {
        TextLine {
            number: self.number(),
            indent: self.indent() + place,
            rest: tail(self.inside(), place),
        }
    }

    pub(crate) fn is_blank(&self) -> bool
        ensures { result ≡ is_blank self.now }
    {
        let text = self.inside();
        is_empty(tail(text, white_len(text)))
    }

    /// Whether a tab stands behind the leading spaces.
    pub(crate) fn has_tab(&self) -> bool
        ensures { result ≡ has_tab self.now }
    {
        starts(self.inside(), b'\t')
    }

    /// Whether the line begins with `---` or `...`, and white space or nothing behind it.
    pub(crate) fn is_marker(&self) -> bool
        ensures { result ≡ is_marker self.now }
    {
        let text = self.inside();
        self.indent() == 0 && (is_three(b'-', text) || is_three(b'.', text))
    }

    /// Whether the line is `---` alone.
    pub(crate) fn is_start(&self) -> bool
        ensures { result ≡ is_start self.now }
    {
        if self.indent() != 0 {
            return false;
        }
        is_start_text(self.inside())
    }

    /// Whether the line is neither blank nor a comment.
    pub(crate) fn carries(&self) -> bool
        ensures { result ≡ carries self.now }
    {
        !(self.is_blank() || starts(self.inside(), b'#'))
    }
}

// Three times the byte, and white space or nothing after.
fn is_three(byte: u8, text: &[u8]) -> bool
    ensures { result ≡ is_three byte text.now }
{
    match text {
        [x, y, z, rest @ ..] => {
            *x == byte
                && *y == byte
                && *z == byte
                && (is_empty(rest) || starts(rest, b' ') || starts(rest, b'\t'))
        }
        _ => false,
    }
}

fn is_start_text(text: &[u8]) -> bool
    ensures { result ≡ is_start_text text.now }
{
    is_three(b'-', text) && is_white_from(3, text)
}

// Whether white space alone stands behind some bytes.
fn is_white_from(at: usize, text: &[u8]) -> bool
    ensures { result ≡ is_empty (drop (white_len (drop at text.now)) (drop at text.now)) }
{
    if text.len() < at {
        return true;
    }
    let rest = tail(text, at);
    is_empty(tail(rest, white_len(rest)))
}

fn is_inside(c: u8) -> bool
    ensures { result ≡ is_inside c }
{
    !(c == b'\n' || c == b'\r')
}

// How many bytes stand before the line end.
fn inside_len(line: &[u8]) -> usize
    ensures value { result ≡ prefix_len is_inside line.now }
    ensures within { result ≤ length line.now }
{
    line.iter().take_while(|c| is_inside(**c)).count()
}

fn space_len(text: &[u8]) -> usize
    ensures value { result ≡ spaces text.now }
    ensures within { result ≤ length text.now }
{
    text.iter().take_while(|c| **c == b' ').count()
}

/// The lines of a text, numbered from 1.
pub(crate) fn cut_lines(alloc: Global, text: &[u8]) -> Result<Vec<TextLine<'_>>, Memory>
    ensures { IfOk result (λ lines. lines.items ≡ text_lines text.now) }
{
    let mut lines = Vec::new(alloc);
    let mut number = 1;
    let mut at = 0;
    while at < text.len() {
        let next = line_end(text, at);
        lines.push(TextLine::of(number, &text[at..next]))?;
        number += 1;
        at = next;
    }
    Ok(lines)
}
