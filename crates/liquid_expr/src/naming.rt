// Names that tags are given: texts with outputs in them.
ghost use Rattle.std.specs.Prelude.{◌≡◌, ◌<◌, ◌≤◌, length, slice_index, drop, IfOk};
ghost use Rattle.std.specs.List.{prefix_len};
ghost use Rattle.liquid_grammar.specs.declared.tag.NamePlace.TheVariants.{InName};
ghost use Rattle.liquid_grammar.specs.Tags.{next_place, ends_at, name_len, trimmed, stripped_front, is_black, first_word, inside, part_of, read_name_parts, read_include, read_path, read_language};
ghost use Rattle.liquid_expr.specs.Readings.{GivesRead};
ghost use Rattle.liquid_expr.specs.Spans.{IsSpanOf};
ghost use Rattle.liquid_grammar.specs.Items.{tag_name_len, tag_name, tag_rest};
ghost use Rattle.liquid_expr.specs.Token.{EndsAscii, IsCut};

use crate::cutting::cut_up;
use crate::places::{is_white, tail, white_end_len, white_len};
use crate::reads::{read_expr, read_params};
use crate::stop::ReadExprError;
use crate::token::name_len as token_name_len;
use liquid_grammar::{Include, NamePart, NamePlace, PieceKind, Span};
use site_base::{Sequence, Text};
use site_text::{begins, is_name_start};
use std::alloc::Global;

/// The part of a text that a span is of.
pub fn inside<'a>(text: &'a str, span: Span) -> &'a str
    requires { IsSpanOf text.now span }
    ensures { result.now ≡ inside text.now span }
{
    &text[span.start..span.end]
}

fn next_place(place: NamePlace, text: &[u8]) -> NamePlace
    ensures { result ≡ next_place place text.now }
{
    match place {
        NamePlace::InName => {
            if begins(text, b"{{") {
                NamePlace::InOutput
            } else {
                NamePlace::InName
            }
        }
        NamePlace::InOutput => {
            if begins(text, b"}}") {
                NamePlace::InEnd
            } else {
                NamePlace::InOutput
            }
        }
        NamePlace::InEnd => NamePlace::InName,
    }
}

fn ends_at(place: NamePlace, byte: u8) -> bool
    ensures { result ≡ ends_at place byte }
{
    match place {
        NamePlace::InName => is_white(byte),
        NamePlace::InOutput | NamePlace::InEnd => false,
    }
}

// How long the name at the front is, which ends at white space outside of its outputs.
fn name_len(text: &[u8]) -> usize
    ensures value { result ≡ name_len InName text.now }
    ensures cut { IsCut text.now result }
{
    let mut place = NamePlace::InName;
    let mut at = 0;
    while at < text.len() && !ends_at(place, text[at]) {
        place = next_place(place, tail(text, at));
        at += 1;
    }
    at
}

fn part(alloc: Global, kind: PieceKind, text: &str) -> Result<NamePart, ReadExprError>
    ensures { GivesRead result (part_of kind text.now) }
{
    match kind {
        PieceKind::Text => Ok(NamePart::Text(Text::copy(alloc, text)?)),
        PieceKind::Output => Ok(NamePart::Output(read_expr(alloc, text)?)),
        PieceKind::Tag => Err(ReadExprError::Syntax),
    }
}

/// The parts of a name: texts and outputs. An empty name is none.
pub fn read_name_parts(alloc: Global, text: &str) -> Result<Sequence<NamePart>, ReadExprError>
    ensures { GivesRead result (read_name_parts text.now) }
{
    if text.is_empty() {
        return Err(ReadExprError::Syntax);
    }
    let pieces = cut_up(alloc, text)?;
    let mut parts = Vec::new(alloc);
    for piece in &pieces.list {
        parts.push(part(alloc, piece.kind, inside(text, piece.inner))?)?;
    }
    match pieces.unclosed {
        Some(_) => Err(ReadExprError::Syntax),
        None => Ok(Sequence::fitted(parts)),
    }
}

// A text without the white space at its front.
fn stripped_front<'a>(text: &'a str) -> &'a str
    ensures { result.now ≡ stripped_front text.now }
{
    &text[white_len(text.as_bytes())..]
}

/// A text without the white space at its ends.
pub fn trimmed<'a>(text: &'a str) -> &'a str
    ensures { result.now ≡ trimmed text.now }
{
    let behind = stripped_front(text);
    let len = behind.len() - white_end_len(behind.as_bytes());
    &behind[..len]
}

fn is_black(byte: u8) -> bool
    ensures { result ≡ is_black byte }
{
    !is_white(byte)
}

fn black_len(bytes: &[u8]) -> usize
    ensures value { result ≡ prefix_len is_black bytes.now }
    ensures within { result ≤ length bytes.now }
{
    bytes.iter().take_while(|byte| is_black(**byte)).count()
}

fn first_word<'a>(text: &'a str) -> &'a str
    ensures { result.now ≡ first_word text.now }
{
    let behind = stripped_front(text);
    &behind[..black_len(behind.as_bytes())]
}

/// What stands in a `link` or a `post_url`: a name, which may hold white space.
pub fn read_path(alloc: Global, text: &str) -> Result<Sequence<NamePart>, ReadExprError>
    ensures { GivesRead result (read_path text.now) }
{
    read_name_parts(alloc, trimmed(text))
}

/// What stands in an `include` or an `include_relative`: a name up to white space, and parameters. Of two that are refused the
/// name counts.
pub fn read_include(alloc: Global, text: &str) -> Result<Include, ReadExprError>
    ensures { GivesRead result (read_include text.now) }
{
    let behind = stripped_front(text);
    let len = name_len(behind.as_bytes());
    let file = read_name_parts(alloc, &behind[..len])?;
    let params = read_params(alloc, &behind[len..])?;
    Ok(Include { file, params })
}

/// The language that a `highlight` names, which is its first word; what follows it is passed over.
pub fn read_language(alloc: Global, text: &str) -> Result<Text, ReadExprError>
    ensures { GivesRead result (read_language text.now) }
{
    let word = first_word(text);
    if word.is_empty() {
        return Err(ReadExprError::Syntax);
    }
    Ok(Text::copy(alloc, word)?)
}

/// What stands between the marks of a tag, cut behind its name.
#[derive(Clone, Copy)]
pub struct TagText<'a> {
    /// The name; it is empty where no name stands at the front.
    pub name: &'a str,
    pub rest: &'a str,
}

fn tag_name_len(bytes: &[u8]) -> usize
    ensures value { result ≡ tag_name_len bytes.now }
    ensures within { result ≤ length bytes.now }
    ensures ascii { EndsAscii bytes.now result }
{
    match bytes {
        [first, ..] => {
            if is_name_start(*first) {
                token_name_len(bytes)
            } else {
                0
            }
        }
        [] => 0,
    }
}

/// Cuts what stands between the marks of a tag behind the tag's name.
pub fn tag_text<'a>(text: &'a str) -> TagText<'a>
    ensures name { result.name.now ≡ tag_name text.now }
    ensures rest { result.rest.now ≡ tag_rest text.now }
{
    let behind = stripped_front(text);
    let len = tag_name_len(behind.as_bytes());
    TagText {
        name: &behind[..len],
        rest: &behind[len..],
    }
}
