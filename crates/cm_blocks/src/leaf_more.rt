// Leaves that take one more line.
ghost use Rattle.std.specs.Prelude.{◌≡◌, ◌&&◌, false, IfOk, IfSome, option_map, not};
ghost use Rattle.markdown_grammar.specs.Definitions.{after_definitions, front_definition};
ghost use Rattle.markdown_grammar.specs.Fences as fences;
ghost use Rattle.markdown_grammar.specs.HtmlStarts as html;
ghost use Rattle.markdown_grammar.specs.Lines as lines;
ghost use Rattle.markdown_grammar.specs.LineStarts.{start_of};
ghost use Rattle.markdown_grammar.specs.Places.{in_paragraph};
ghost use Rattle.cm_containers.specs.Spots.{BehindWhite, IsSpot, rest_at, text_at};
ghost use Rattle.cm_links.specs.Cuts.{IsFront};
ghost use Rattle.cm_blocks.specs.LineTexts.{unended};
ghost use Rattle.cm_blocks.specs.Leaves.{code_on, fence_on, holds_text, html_on, more_of, prose_on};
ghost use Rattle.cm_blocks.specs.Taking.{IsTaken, is_underline, next_of};
ghost use Rattle.cm_blocks.specs.declared.kinds.Leaf.TheVariants as leaf;

use crate::html_ends::ends_html;
use crate::kinds::Leaf;
use crate::leaf_lines::LeafLines;
use cm_containers::{Spot, behind_white, shift};
use cm_links::definition;
use cm_starts::{HeadingLevel, Place, Start, closes_fence, is_blank, line_start};
use markdown_grammar::HtmlKind;
use site_base::{Memory, Text};
use std::alloc::Global;

/// A leaf with one more line, or without it where it does not take it.
#[derive(Drop)]
pub(crate) enum Taken {
    More(Leaf),
    Left(Leaf),
}

// What a paragraph asks of a line.
#[derive(Clone, Copy)]
enum Next {
    Text,
    Underline(HeadingLevel),
    Other,
}

/// A leaf with the rest of a line, from a place on, where it takes it. CommonMark 0.31.2, section 4.
pub(crate) fn take_rest(alloc: Global, leaf: Leaf, line: &str, spot: Spot) -> Result<Taken, Memory>
    requires { IsSpot line.now spot }
    ensures { IfOk result (IsTaken (more_of leaf (rest_at line.now spot)) leaf) }
{
    match leaf {
        Leaf::Paragraph { text } => prose_taken(alloc, text, line, spot),
        Leaf::Indented { text, pending } => code_taken(alloc, text, pending, line, spot),
        Leaf::Html {
            kind,
            text,
            is_closed: false,
        } => html_taken(kind, text, line, spot),
        Leaf::Fenced {
            indent,
            mark,
            len,
            info,
            text,
            is_closed: false,
        } => fence_taken(indent, mark, len, info, text, line, spot),
        other => Ok(Taken::Left(other)),
    }
}

// A paragraph: text goes on with it, and an underline makes it a heading.
fn prose_taken(alloc: Global, text: LeafLines, line: &str, spot: Spot) -> Result<Taken, Memory>
    requires { IsSpot line.now spot }
    ensures { IfOk result (IsTaken (prose_on text (text_at line.now spot) (start_of (in_paragraph (holds_text text)) spot.column (text_at line.now spot))) (leaf.Paragraph text)) }
{
    let white = behind_white(line, spot);
    match next_line(alloc, &text, line, spot, white)? {
        Next::Text => {
            let text = text.with(&line[white.at..])?;
            Ok(Taken::More(Leaf::Paragraph { text }))
        }
        Next::Underline(level) => Ok(Taken::More(Leaf::Underlined { level, text })),
        Next::Other => Ok(Taken::Left(Leaf::Paragraph { text })),
    }
}

// What a paragraph asks of a line. Whether it has text beside its definitions is looked for only where
// the line has the form of an underline.
fn next_line(
    alloc: Global,
    text: &LeafLines,
    line: &str,
    spot: Spot,
    white: Spot,
) -> Result<Next, Memory>
    requires { BehindWhite line.now spot white }
    ensures { IfOk result (λ next. next ≡ next_of (start_of (in_paragraph (holds_text text.now)) spot.column (text_at line.now spot))) }
{
    let next = next_in(true, line, spot, white);
    if !is_underline(&next) {
        return Ok(next);
    }
    let has_text = has_text(alloc, text.inside())?;
    Ok(next_in(has_text, line, spot, white))
}

fn is_underline(next: &Next) -> bool
    ensures { result ≡ is_underline next.now }
{
    matches!(next, Next::Underline(_))
}

fn next_in(has_text: bool, line: &str, spot: Spot, white: Spot) -> Next
    requires { BehindWhite line.now spot white }
    ensures { result ≡ next_of (start_of (in_paragraph has_text) spot.column (text_at line.now spot)) }
{
    let place = Place::Paragraph { has_text };
    match line_start(place, white.column - spot.column, &line[white.at..]) {
        Start::Text => Next::Text,
        Start::Underline { level } => Next::Underline(level),
        _ => Next::Other,
    }
}

// Whether a paragraph's text has more than definitions.
fn has_text(alloc: Global, text: &str) -> Result<bool, Memory>
    ensures { IfOk result (λ answer. answer ≡ not (lines.is_blank (after_definitions text.now))) }
{
    let rest = behind_definitions(alloc, text)?;
    Ok(!is_blank(rest.as_bytes()))
}

/// What is left of a paragraph's text behind its definitions.
pub(crate) fn behind_definitions<'a>(alloc: Global, text: &'a str) -> Result<&'a str, Memory>
    ensures { IfOk result (λ rest. rest.now ≡ after_definitions text.now) }
{
    let mut rest = text;
    loop {
        match definition_end(alloc, rest)? {
            Some(end) => rest = &rest[end..],
            None => return Ok(rest),
        }
    }
}

// Where the definition ends that a text begins with.
fn definition_end(alloc: Global, text: &str) -> Result<Option<usize>, Memory>
    ensures value { IfOk result (λ end. end ≡ option_map (λ found. found.size) (front_definition text.now)) }
    ensures cut { IfOk result (λ end. IfSome end (IsFront text.now)) }
{
    match definition(alloc, text)? {
        Some(found) => Ok(Some(found.end)),
        None => Ok(None),
    }
}

// Indented code: blank lines, and those with at least four columns of white space, of which four are
// taken away.
fn code_taken(
    alloc: Global,
    text: LeafLines,
    pending: LeafLines,
    line: &str,
    spot: Spot,
) -> Result<Taken, Memory>
    requires { IsSpot line.now spot }
    ensures { IfOk result (IsTaken (code_on text pending spot.column (text_at line.now spot)) (leaf.Indented text pending)) }
{
    let white = behind_white(line, spot);
    let inside = shift(line, spot, 4);
    if white.at == line.len() {
        let pending = pending.with_rest(line, inside)?;
        return Ok(Taken::More(Leaf::Indented { text, pending }));
    }
    if white.column - spot.column < 4 {
        return Ok(Taken::Left(Leaf::Indented { text, pending }));
    }
    let more = pending.with_rest(line, inside)?;
    Ok(Taken::More(Leaf::Indented {
        text: text.joined(&more)?,
        pending: LeafLines::new(alloc),
    }))
}

// HTML: up to a line that ends it, or before a blank line, by its kind.
fn html_taken(kind: HtmlKind, text: LeafLines, line: &str, spot: Spot) -> Result<Taken, Memory>
    requires { IsSpot line.now spot }
    ensures { IfOk result (IsTaken (html_on kind text false (text_at line.now spot)) (leaf.Html kind text false)) }
{
    if ends_before(kind, line, spot) {
        return Ok(Taken::Left(Leaf::Html {
            kind,
            text,
            is_closed: false,
        }));
    }
    let is_closed = ends_html_rest(kind, line, spot);
    let text = text.with_rest(line, spot)?;
    Ok(Taken::More(Leaf::Html {
        kind,
        text,
        is_closed,
    }))
}

// Whether a line ends the block before it.
fn ends_before(kind: HtmlKind, line: &str, spot: Spot) -> bool
    requires { IsSpot line.now spot }
    ensures { result ≡ (html.ends_at_blank kind && lines.is_blank (text_at line.now spot)) }
{
    let white = behind_white(line, spot);
    ends_at_blank(kind) && white.at == line.len()
}

fn ends_at_blank(kind: HtmlKind) -> bool
    ensures { result ≡ html.ends_at_blank kind }
{
    matches!(kind, HtmlKind::Listed | HtmlKind::Lone)
}

/// Whether the rest of a line ends a block of HTML.
pub(crate) fn ends_html_rest(kind: HtmlKind, line: &str, spot: Spot) -> bool
    requires { IsSpot line.now spot }
    ensures { result ≡ html.ends_html kind (text_at line.now spot) }
{
    ends_html(kind, &line[spot.at..])
}

// Fenced code: up to the closing fence, the fence's indent taken away from each line.
fn fence_taken(
    indent: u128,
    mark: char,
    len: usize,
    info: Text,
    text: LeafLines,
    line: &str,
    spot: Spot,
) -> Result<Taken, Memory>
    requires { IsSpot line.now spot }
    ensures { IfOk result (IsTaken (fence_on indent mark len info text false spot.column (text_at line.now spot)) (leaf.Fenced indent mark len info text false)) }
{
    if is_closing(mark, len, line, spot) {
        return Ok(Taken::More(Leaf::Fenced {
            indent,
            mark,
            len,
            info,
            text,
            is_closed: true,
        }));
    }
    let text = text.with_rest(line, shift(line, spot, indent))?;
    Ok(Taken::More(Leaf::Fenced {
        indent,
        mark,
        len,
        info,
        text,
        is_closed: false,
    }))
}

fn is_closing(mark: char, len: usize, line: &str, spot: Spot) -> bool
    requires { IsSpot line.now spot }
    ensures { result ≡ fences.closes_fence mark len spot.column (text_at line.now spot) }
{
    let white = behind_white(line, spot);
    closes_fence(mark, len, white.column - spot.column, &line[white.at..])
}
