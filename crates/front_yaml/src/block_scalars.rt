// Block scalars.
ghost use Rattle.std.specs.Prelude.{◌≡◌, ◌≤◌, ◌<◌, ◌+◌, ◌^◌, ◌++◌, length, drop, IfOk, OnOk, None};
ghost use Rattle.front_yaml.specs.TextLines.{indent};
ghost use Rattle.front_yaml.specs.BlockScalars.{chomp_of, is_bare, header_is_bare, block_indent, is_short, short_line, starts_white, lines_joint, lines_end, joined_lines, block_scalar};
ghost use Rattle.front_yaml.specs.Given.{ReadsLines};

use crate::faults::{YamlError, YamlFault};
use crate::growth::{append, append_repeated, text_of};
use crate::scans::{is_empty, is_white, starts, tail, white_len};
use crate::text_lines::TextLine;
use site_base::{Memory, Text, YamlKind};
use std::alloc::Global;

/// What is done with the line ends at the end of a block scalar.
#[derive(Clone, Copy)]
pub(crate) enum Chomp {
    /// One is kept.
    Clip,
    /// None is kept.
    Strip,
    /// All are kept.
    Keep,
}

fn chomp_of(header: &[u8]) -> Chomp
    ensures { result ≡ chomp_of header.now }
{
    if starts(header, b'-') {
        Chomp::Strip
    } else if starts(header, b'+') {
        Chomp::Keep
    } else {
        Chomp::Clip
    }
}

fn is_bare(text: &[u8]) -> bool
    ensures { result ≡ is_bare text.now }
{
    let white = white_len(text);
    is_empty(tail(text, white)) || white > 0 && starts(tail(text, white), b'#')
}

// Whether nothing but a comment stands behind `-` or `+`.
fn header_is_bare(header: &[u8]) -> bool
    ensures { result ≡ header_is_bare header.now }
{
    match header {
        [b'-' | b'+', rest @ ..] => is_bare(rest),
        _ => is_bare(header),
    }
}

// The indent of the first line that is not blank.
fn block_indent(lines: &[TextLine]) -> usize
    ensures { result ≡ block_indent lines.now }
{
    for line in lines {
        if !line.is_blank() {
            return line.indent();
        }
    }
    0
}

fn is_short(indent: usize, line: &TextLine) -> bool
    ensures { result ≡ is_short indent line.now }
{
    !line.is_blank() && line.indent() < indent
}

// The number of the first line that is not blank and has a smaller indent.
fn short_line(indent: usize, lines: &[TextLine]) -> Option<u64>
    ensures { result ≡ short_line indent lines.now }
{
    for line in lines {
        if is_short(indent, line) {
            return Some(line.number());
        }
    }
    None
}

// Whether a line starts with white space, from a column on.
#[tactic(auto, using(crate::proofs::LineLaws::white_before))]
fn starts_white(column: usize, line: &TextLine) -> bool
    ensures { result ≡ starts_white (drop column line.now.text) }
{
    if column < line.indent() {
        return true;
    }
    match rest_from(column, line) {
        [c, ..] => is_white(*c),
        [] => false,
    }
}

// What stands behind the leading spaces, from a column on that is not among them.
fn rest_from<'a>(column: usize, line: &TextLine<'a>) -> &'a [u8]
    requires { indent line.now ≤ column }
    ensures { result.now ≡ drop column line.now.text }
{
    let rest = line.inside();
    let skip = column - line.indent();
    if skip < rest.len() {
        tail(rest, skip)
    } else {
        tail(rest, rest.len())
    }
}

/// Adds a line from a column on.
pub(crate) fn append_line(out: &mut Vec<u8>, column: usize, line: &TextLine) -> Result<(), Memory>
    ensures { OnOk result (out.new.items ≡ out.old.items ++ drop column line.now.text) }
{
    if column < line.indent() {
        append_repeated(out, line.indent() - column, b' ')?;
        append(out, line.inside())?;
        return Ok(());
    }
    append(out, rest_from(column, line))
}

/// How the lines of a block scalar are joined.
#[derive(Clone, Copy)]
struct Joining {
    folded: bool,
    chomp: Chomp,
    indent: usize,
}

// Adds what stands between two lines with blank lines between them, or before the first line.
fn append_joint(
    out: &mut Vec<u8>,
    folded: bool,
    before: Option<bool>,
    blank: usize,
    spaced: bool,
) -> Result<(), Memory>
    requires { blank < 2 ^ 63 }
    ensures { OnOk result (out.new.items ≡ out.old.items ++ lines_joint folded before blank spaced) }
{
    match before {
        None => append_repeated(out, blank, b'\n'),
        Some(before) => {
            if !folded || before || spaced {
                append_repeated(out, blank + 1, b'\n')
            } else if blank == 0 {
                append(out, b" ")
            } else {
                append_repeated(out, blank, b'\n')
            }
        }
    }
}

// Adds what stands at the end, after blank lines.
fn append_end(
    out: &mut Vec<u8>,
    chomp: Chomp,
    before: Option<bool>,
    blank: usize,
) -> Result<(), Memory>
    requires { blank < 2 ^ 63 }
    ensures { OnOk result (out.new.items ≡ out.old.items ++ lines_end chomp before blank) }
{
    match (chomp, before) {
        (Chomp::Keep, None) => append_repeated(out, blank, b'\n'),
        (Chomp::Keep, Some(_)) => append_repeated(out, blank + 1, b'\n'),
        (Chomp::Clip, Some(_)) => append(out, b"\n"),
        _ => Ok(()),
    }
}

// Adds a line that is not blank, with what stands before it; answers whether it starts with white space.
fn append_next(
    out: &mut Vec<u8>,
    joining: Joining,
    before: Option<bool>,
    blank: usize,
    line: &TextLine,
) -> Result<bool, Memory>
    requires { blank < 2 ^ 63 }
    ensures value { IfOk result (λ spaced. spaced ≡ starts_white (drop joining.indent line.now.text)) }
    ensures text { IfOk result (λ spaced. out.new.items ≡ out.old.items ++ (lines_joint joining.folded before blank spaced ++ drop joining.indent line.now.text)) }
{
    let spaced = starts_white(joining.indent, line);
    append_joint(out, joining.folded, before, blank, spaced)?;
    append_line(out, joining.indent, line)?;
    Ok(spaced)
}

fn joined_lines(alloc: Global, joining: Joining, lines: &[TextLine]) -> Result<Vec<u8>, Memory>
    ensures { IfOk result (λ bytes. bytes.items ≡ joined_lines joining.folded joining.chomp joining.indent None 0 lines.now) }
{
    let mut out = Vec::new(alloc);
    let mut before = None;
    let mut blank = 0;
    let mut n = 0;
    while n < lines.len() {
        if lines[n].is_blank() {
            blank += 1;
            n += 1;
            continue;
        }
        before = Some(append_next(&mut out, joining, before, blank, &lines[n])?);
        blank = 0;
        n += 1;
    }
    append_end(&mut out, joining.chomp, before, blank)?;
    Ok(out)
}

/// The text of the lines below a header `|` or `>`, which stands on the line with this number.
pub(crate) fn block_scalar(
    alloc: Global,
    number: u64,
    header: &[u8],
    lines: &[TextLine],
) -> Result<Text, YamlError>
    requires { 0 < length header.now }
    ensures { ReadsLines result (block_scalar number header.now lines.now) }
{
    let rest = tail(header, 1);
    if !header_is_bare(rest) {
        return Err(YamlError::at(number, YamlKind::Outside));
    }
    let indent = block_indent(lines);
    if let Some(short) = short_line(indent, lines) {
        return Err(YamlError::at(short, YamlKind::Indent));
    }
    let joining = Joining {
        folded: starts(header, b'>'),
        chomp: chomp_of(rest),
        indent,
    };
    Ok(text_of(joined_lines(alloc, joining, lines)?)?)
}
