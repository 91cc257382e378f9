// What a line starts that nothing open takes.
ghost use Rattle.std.specs.Prelude.{◌≡◌, ◌+◌, ◌++◌, ◌≤◌, [], false, IfOk, IsTrue, Some, drop};
ghost use Rattle.markdown_grammar.specs.Columns.{line_text, shifted};
ghost use Rattle.markdown_grammar.specs.HtmlStarts as html;
ghost use Rattle.markdown_grammar.specs.Starts.{item_start, quote_start};
ghost use Rattle.markdown_grammar.specs.Blocks.{opening};
ghost use Rattle.markdown_grammar.specs.Containers as grammar;
ghost use Rattle.markdown_grammar.specs.LineStarts.{start_of};
ghost use Rattle.markdown_grammar.specs.Places.{not_in_paragraph};
ghost use Rattle.cm_containers.specs.Spots.{BehindWhite, IsSpot, rest_at, text_at};
ghost use Rattle.cm_starts.specs.Answers.{as_start};
ghost use Rattle.cm_starts.specs.Marks.{mark_byte};
ghost use Rattle.cm_blocks.specs.declared.kinds.Leaf.TheVariants as leaf;
ghost use Rattle.cm_blocks.specs.LineTexts.{ended};
ghost use Rattle.cm_blocks.specs.Opening.{IsExcluded, IsKnown, IsKnownIf, IsMark, IsOpens, is_break_bullet, leaf_in};

use crate::kinds::Leaf;
use crate::leaf_lines::LeafLines;
use crate::leaf_more::ends_html_rest;
use cm_containers::{Container, Spot, behind_white, shift};
use cm_starts::{HeadingLevel, ListMark, Place, Start, line_start, list_mark};
use markdown_grammar::HtmlKind;
use site_base::{Memory, Text};
use std::alloc::Global;

/// A byte that no thematic break of a mark has stands at a place of a line. So what stands before it
/// is no such break, and the line is looked through only once, however many bullets it has.
#[derive(Clone, Copy)]
pub(crate) struct Known {
    pub mark: u8,
    pub until: usize,
}

/// What the rest of a line starts: a container, with the place of its inside, and what is known of
/// thematic breaks from there on; or something else, or nothing, with the place behind the white space.
#[derive(Clone, Copy)]
pub(crate) enum Opens<'a> {
    Box(Container, Spot, Option<Known>),
    Other(Start<'a>, Spot),
}

/// What the rest of a line starts where no paragraph is open, by what is known of thematic breaks.
/// CommonMark 0.31.2, sections 4 and 5.
pub(crate) fn what_opens<'a>(line: &'a str, spot: Spot, known: Option<Known>) -> Opens<'a>
    requires spot { IsSpot line.now spot }
    requires known { IsKnownIf line.now known }
    ensures { IsOpens line.now spot result }
{
    let white = behind_white(line, spot);
    match start_at(line, spot, white, known) {
        Start::Quote => quote(line, spot, white, known),
        Start::Item {
            mark,
            number,
            digits,
        } => {
            let known = known_from(line.as_bytes(), white.at, known);
            item(line, spot, white, known, mark, number, digits)
        }
        start => Opens::Other(start, white),
    }
}

// What the rest of a line starts; where it is no thematic break, a bullet starts an item.
fn start_at<'a>(line: &'a str, spot: Spot, white: Spot, known: Option<Known>) -> Start<'a>
    requires white { BehindWhite line.now spot white }
    requires known { IsKnownIf line.now known }
    ensures { as_start result ≡ start_of not_in_paragraph spot.column (text_at line.now spot) }
{
    let indent = white.column - spot.column;
    let rest = &line[white.at..];
    if indent < 4 && is_excluded(line.as_bytes(), white.at, known) {
        list_mark(Place::Fresh, rest)
    } else {
        line_start(Place::Fresh, indent, rest)
    }
}

// Whether a bullet stands at a place, from which on no thematic break stands.
fn is_excluded(line: &[u8], at: usize, known: Option<Known>) -> bool
    requires { IsKnownIf line.now known }
    ensures { IsTrue result → IsExcluded line.now at }
{
    match known {
        Some(known) => excludes(line, at, known),
        None => false,
    }
}

fn excludes(line: &[u8], at: usize, known: Known) -> bool
    requires { IsKnown line.now known }
    ensures { IsTrue result → IsExcluded line.now at }
{
    if at >= known.until || line[at] != known.mark {
        return false;
    }
    is_break_bullet(known.mark)
}

fn is_break_bullet(c: u8) -> bool
    ensures { result ≡ is_break_bullet c }
{
    c == b'-' || c == b'*'
}

// What is known behind a bullet: the byte that ends its run of marks and white space.
fn known_from(line: &[u8], at: usize, known: Option<Known>) -> Option<Known>
    requires { IsKnownIf line.now known }
    ensures { IsKnownIf line.now result }
{
    if at >= line.len() || is_excluded(line, at, known) || !is_break_bullet(line[at]) {
        return known;
    }
    let mark = line[at];
    let mut until = at;
    while until < line.len() {
        let c = line[until];
        if c != mark && c != b' ' && c != b'\t' {
            return Some(Known { mark, until });
        }
        until += 1;
    }
    None
}

// A block quote: behind its mark, one space may be taken.
fn quote<'a>(line: &'a str, spot: Spot, white: Spot, known: Option<Known>) -> Opens<'a>
    requires white { BehindWhite line.now spot white }
    requires known { IsKnownIf line.now known }
    requires mark { IsMark (drop white.at line.now) 1 }
    requires start { quote_start ≡ start_of not_in_paragraph spot.column (text_at line.now spot) }
    ensures { IsOpens line.now spot result }
{
    let inside = shift(line, behind_mark(line, white, 1), 1);
    Opens::Box(Container::Quote, inside, known)
}

// A list item: behind its mark, from one to four columns are taken.
fn item<'a>(
    line: &'a str,
    spot: Spot,
    white: Spot,
    known: Option<Known>,
    mark: ListMark,
    number: u32,
    digits: usize,
) -> Opens<'a>
    requires white { BehindWhite line.now spot white }
    requires known { IsKnownIf line.now known }
    requires mark { IsMark (drop white.at line.now) (digits + 1) }
    requires start { item_start (mark_byte mark) number digits ≡ start_of not_in_paragraph spot.column (text_at line.now spot) }
    ensures { IsOpens line.now spot result }
{
    let after = behind_mark(line, white, digits + 1);
    let padding = padding(line, after);
    let held = Container::Item {
        indent: after.column - spot.column + padding,
        mark: mark.as_char(),
        start: number,
    };
    Opens::Box(held, shift(line, after, padding), known)
}

// How many columns of white space belong to an item's mark: those that stand there, or one where they
// are more than four or nothing follows.
fn padding(line: &str, after: Spot) -> u128
    requires { IsSpot line.now after }
    ensures value { result ≡ grammar.padding after.column (text_at line.now after) }
    ensures small { result ≤ 4 }
{
    let white = behind_white(line, after);
    let width = white.column - after.column;
    if white.at == line.len() || width > 4 {
        1
    } else {
        width
    }
}

// The place behind a mark, whose bytes take one column each.
fn behind_mark(line: &str, white: Spot, count: usize) -> Spot
    requires spot { IsSpot line.now white }
    requires whole { white.start ≡ white.column }
    requires mark { IsMark (drop white.at line.now) count }
    ensures spot { IsSpot line.now result }
    ensures column { result.column ≡ white.column + count }
    ensures text { text_at line.now result ≡ drop count (drop white.at line.now) }
{
    let column = white.column + count as u128;
    let _bytes = &line[white.at..];
    Spot {
        at: white.at + count,
        start: column,
        column,
    }
}

/// The leaf that the rest of a line starts, by what it starts.
pub(crate) fn leaf_of(
    alloc: Global,
    line: &str,
    spot: Spot,
    start: Start<'_>,
    white: Spot,
) -> Result<Option<Leaf>, Memory>
    requires start { as_start start ≡ start_of not_in_paragraph spot.column (text_at line.now spot) }
    requires spot { IsSpot line.now spot }
    requires white { BehindWhite line.now spot white }
    ensures { IfOk result (λ found. found ≡ leaf_in (opening (rest_at line.now spot))) }
{
    let lines = LeafLines::new(alloc);
    match start {
        Start::Heading { level, text } => heading(alloc, level, text),
        Start::Fence {
            indent,
            mark,
            len,
            info,
        } => fence(alloc, indent, mark, len, info),
        Start::Html { kind } => html(lines, kind, line, spot),
        Start::Break => Ok(Some(Leaf::Break)),
        Start::Indented => code(alloc, lines, line, spot),
        Start::Text => paragraph(lines, &line[white.at..]),
        // The mark has a name since the check must have met its type.
        Start::Item { mark: _mark, .. } => Ok(None),
        Start::Blank | Start::Quote | Start::Underline { .. } => Ok(None),
    }
}

fn heading(alloc: Global, level: HeadingLevel, text: &str) -> Result<Option<Leaf>, Memory>
    ensures { IfOk result (λ found. found ≡ Some (leaf.Heading level text.now)) }
{
    let text = Text::copy(alloc, text)?;
    Ok(Some(Leaf::Heading { level, text }))
}

fn fence(
    alloc: Global,
    indent: u128,
    mark: char,
    len: usize,
    info: &str,
) -> Result<Option<Leaf>, Memory>
    ensures { IfOk result (λ found. found ≡ Some (leaf.Fenced indent mark len info.now [] false)) }
{
    let info = Text::copy(alloc, info)?;
    Ok(Some(Leaf::Fenced {
        indent,
        mark,
        len,
        info,
        text: LeafLines::new(alloc),
        is_closed: false,
    }))
}

fn html(lines: LeafLines, kind: HtmlKind, line: &str, spot: Spot) -> Result<Option<Leaf>, Memory>
    requires spot { IsSpot line.now spot }
    ensures { IfOk result (λ found. found ≡ Some (leaf.Html kind (lines ++ ended (text_at line.now spot)) (html.ends_html kind (text_at line.now spot)))) }
{
    let is_closed = ends_html_rest(kind, line, spot);
    let text = lines.with_rest(line, spot)?;
    Ok(Some(Leaf::Html {
        kind,
        text,
        is_closed,
    }))
}

fn code(alloc: Global, lines: LeafLines, line: &str, spot: Spot) -> Result<Option<Leaf>, Memory>
    requires spot { IsSpot line.now spot }
    ensures { IfOk result (λ found. found ≡ Some (leaf.Indented (lines ++ ended (line_text (shifted 4 spot.column (text_at line.now spot)))) [])) }
{
    let text = lines.with_rest(line, shift(line, spot, 4))?;
    Ok(Some(Leaf::Indented {
        text,
        pending: LeafLines::new(alloc),
    }))
}

fn paragraph(lines: LeafLines, text: &str) -> Result<Option<Leaf>, Memory>
    ensures { IfOk result (λ found. found ≡ Some (leaf.Paragraph (lines ++ ended text.now))) }
{
    let text = lines.with(text)?;
    Ok(Some(Leaf::Paragraph { text }))
}
