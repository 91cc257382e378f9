// The pieces of a template's text.
ghost use Rattle.std.specs.Prelude.{◌≡◌, ◌+◌, ◌<◌, ◌≤◌, ◌^◌, ◌++◌, length, false, OnOk, IfOk};
ghost use Rattle.liquid_grammar.specs.declared.piece.PieceKind.TheVariants as kind;
ghost use Rattle.liquid_grammar.specs.Pieces.{len_of, pieces_of, cut_of, cut_is, cut, text_piece, markup_piece, dropped_piece};
ghost use Rattle.liquid_expr.specs.Fits.{Fits};
ghost use Rattle.liquid_expr.specs.Gives.{GivesCut};
ghost use Rattle.liquid_expr.specs.CutSteps.{left, whole, IsPlaced, Cuts};

use crate::front::{front_of, len_of, trims_after};
use crate::places::{line_ends, tail};
use crate::spans::{inside_at, stripped_at};
use liquid_grammar::{Front, Piece, PieceKind, Span};
use site_base::Memory;
use std::alloc::Global;

/// The pieces of a text up to the first that has no end.
#[derive(Drop)]
pub struct Pieces {
    pub list: Vec<Piece>,
    /// The line in which a `{{`, a `{%` or a `raw` without its end starts.
    pub unclosed: Option<u64>,
}

/// Why a text has no pieces.
#[derive(Clone, Copy, Debug, PartialEq, Eq)]
pub enum CutError {
    /// A `{{`, a `{%` or a `raw` that starts in this line has no end.
    Unclosed(u64),
    Memory,
}

/// The pieces of a text, which cover it one after another, or the line of the first that has no end.
pub fn cut(alloc: Global, text: &str) -> Result<Vec<Piece>, CutError>
    ensures { GivesCut (λ pieces. pieces.items) result (cut text.now) }
{
    match cut_up(alloc, text) {
        Ok(
            Pieces {
                list,
                unclosed: None,
            },
        ) => Ok(list),
        Ok(
            Pieces {
                unclosed: Some(line),
                ..
            },
        ) => Err(CutError::Unclosed(line)),
        Err(Memory) => Err(CutError::Memory),
    }
}

/// The pieces of a text up to the first that has no end, and where that one starts.
pub fn cut_up(alloc: Global, text: &str) -> Result<Pieces, Memory>
    ensures { IfOk result (λ all. cut_is all.list.items all.unclosed ≡ cut_of text.now) }
{
    let mut cutter = Cutter::new(text);
    let mut list = Vec::new(alloc);
    'pieces: loop {
        match cutter.next(&mut list)? {
            Next::Pieces => {}
            Next::End(unclosed) => return Ok(Pieces { list, unclosed }),
        }
    }
}

/// What stands next in a text that is cut piece by piece.
pub enum Next {
    /// Pieces, which were added.
    Pieces,
    /// The end, or a `{{`, a `{%` or a `raw` without its end, which starts in this line.
    End(Option<u64>),
}

/// A text that is cut piece by piece.
#[derive(Drop)]
pub struct Cutter<'a> {
    text: &'a [u8],
    // Where what is left stands, and whether its first white space is stripped.
    at: usize,
    trims: bool,
    // The last piece, whose lines are not counted, since behind the end no line is asked for, and its line.
    passed: &'a [u8],
    line: u64,
}

impl<'a> Cutter<'a> {
    /// The whole text is left.
    pub fn new(text: &'a str) -> Cutter<'a>
        ensures whole { left result ≡ whole text.now }
        ensures placed { IsPlaced result }
    {
        let text = text.as_bytes();
        Cutter {
            text,
            at: 0,
            trims: false,
            passed: &text[..0],
            line: 1,
        }
    }

    /// Adds the pieces at the front of what is left: one, or a tag of a raw text or a comment with what it holds.
    pub fn next(&mut self, pieces: &mut Vec<Piece>) -> Result<Next, Memory>
        requires { IsPlaced self.old }
        ensures { IfOk result (λ next. Cuts next pieces.old.items pieces.new.items self.old self.new) }
    {
        if self.at >= self.text.len() {
            return Ok(Next::End(None));
        }
        let rest = tail(self.text, self.at);
        let line = self.line + line_ends(self.passed) as u64;
        let front = front_of(rest);
        let len = match len_of(&front, rest.len()) {
            Some(len) => len,
            None => return Ok(Next::End(Some(line))),
        };
        push_pieces(pieces, &front, self.at, line, self.trims, rest)?;
        self.at += len;
        self.trims = trims_after(&front, rest);
        self.passed = &rest[..len];
        self.line = line;
        Ok(Next::Pieces)
    }
}

// Adds the pieces of what stands at the front of `text`, which is the rest from `at` on.
fn push_pieces(
    pieces: &mut Vec<Piece>,
    front: &Front,
    at: usize,
    line: u64,
    trims: bool,
    text: &[u8],
) -> Result<(), Memory>
    requires fits { Fits (length text.now) front.now }
    requires place { at + length text.now < 2 ^ 63 }
    requires line { line ≤ at + 1 }
    ensures { OnOk result (pieces.new.items ≡ pieces.old.items ++ pieces_of front.now (record { at = at; line = line; trims = trims; text = text.now })) }
{
    match front {
        Front::Text(n) => {
            pieces.push(text_piece(at, line, trims, text, *n))?;
        }
        Front::Output(n) => {
            pieces.push(markup_piece(PieceKind::Output, at, line, text, *n))?;
        }
        Front::Tag(n) => {
            pieces.push(markup_piece(PieceKind::Tag, at, line, text, *n))?;
        }
        Front::Raw(n, m) => {
            pieces.push(markup_piece(PieceKind::Tag, at, line, text, *n))?;
            if *m > 0 {
                let trims = text[*n - 3] == b'-';
                let line = line + line_ends(&text[..*n]) as u64;
                pieces.push(text_piece(at + *n, line, trims, tail(text, *n), *m))?;
            }
        }
        Front::Comment(n, m) => {
            pieces.push(markup_piece(PieceKind::Tag, at, line, text, *n))?;
            if *m > 0 {
                let line = line + line_ends(&text[..*n]) as u64;
                pieces.push(dropped_piece(at + *n, line, *m))?;
            }
        }
        Front::Unclosed => {}
    }
    Ok(())
}

fn text_piece(at: usize, line: u64, trims: bool, text: &[u8], len: usize) -> Piece
    requires within { len ≤ length text.now }
    requires place { at + length text.now < 2 ^ 63 }
    ensures { result ≡ text_piece len (record { at = at; line = line; trims = trims; text = text.now }) }
{
    Piece {
        kind: PieceKind::Text,
        span: Span {
            start: at,
            end: at + len,
        },
        inner: stripped_at(at, trims, text, len),
        line,
    }
}

fn markup_piece(kind: PieceKind, at: usize, line: u64, text: &[u8], len: usize) -> Piece
    requires marks { 4 ≤ len }
    requires within { len ≤ length text.now }
    requires place { at + length text.now < 2 ^ 63 }
    ensures { result ≡ markup_piece kind len (record { at = at; line = line; trims = false; text = text.now }) }
{
    Piece {
        kind,
        span: Span {
            start: at,
            end: at + len,
        },
        inner: inside_at(at, text, len),
        line,
    }
}

// What a comment holds, of which nothing is written.
fn dropped_piece(at: usize, line: u64, len: usize) -> Piece
    requires { at + len < 2 ^ 63 }
    ensures { result ≡ dropped_piece len at line }
{
    Piece {
        kind: PieceKind::Text,
        span: Span {
            start: at,
            end: at + len,
        },
        inner: Span { start: at, end: at },
        line,
    }
}
