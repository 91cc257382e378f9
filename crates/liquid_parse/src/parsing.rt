// The template that a text is.
ghost use Rattle.std.specs.Prelude.{◌≡◌, None};
ghost use Rattle.liquid_grammar.specs.Trees.{tree, move_in};
ghost use Rattle.liquid_grammar.specs.Items.{item_in};
ghost use Rattle.liquid_parse.specs.Machine.{flat_of, flat_is, step, steps, finish, Steps};
ghost use Rattle.liquid_expr.specs.CutSteps.{AreSpans};
ghost use Rattle.liquid_parse.specs.Parsed.{Parses, Finishes};

use crate::building::{Building, move_of, open_line};
use crate::error::{ItemError, ParseError};
use crate::item::item_in;
use crate::node::Node;
use crate::template::Template;
use liquid_expr::{Cutter, Next, inside};
use liquid_grammar::{Piece, PieceKind, Verbatim};
use site_base::FaultKind;
use std::alloc::Global;

// Adds what a piece says whose inside is this text.
fn put(
    alloc: Global,
    building: &mut Building,
    line: u64,
    kind: PieceKind,
    text: &str,
) -> Result<(), ParseError>
    ensures { Steps result (flat_of building.new) (step line (move_in building.old.verbatim line (item_in kind text.now)) (flat_of building.old)) }
{
    match item_in(alloc, kind, text) {
        Ok(item) => building.step(line, move_of(building.verbatim, line, item)),
        Err(ItemError::Fault(kind)) => Err(ParseError::Fault(line, kind)),
        Err(ItemError::Memory) => Err(ParseError::Memory),
    }
}

// Adds what some pieces of a text say.
fn put_all(
    alloc: Global,
    building: &mut Building,
    text: &str,
    pieces: &[Piece],
) -> Result<(), ParseError>
    requires { AreSpans text.now pieces.now }
    ensures { Steps result (flat_of building.new) (steps text.now pieces.now (flat_of building.old)) }
{
    for piece in pieces {
        put(
            alloc,
            building,
            piece.line,
            piece.kind,
            inside(text, piece.inner),
        )?;
    }
    Ok(())
}

// The nodes, where the text ends and no block, raw text or comment is open.
fn finish(building: Building, unclosed: Option<u64>) -> Result<Vec<Node>, ParseError>
    ensures { Finishes result (finish unclosed building.verbatim (flat_of building)) }
{
    let Building {
        nodes,
        mut stack,
        verbatim,
    } = building;
    let line = match unclosed {
        Some(line) => Some(line),
        None => open_line(&mut stack, verbatim),
    };
    match line {
        Some(line) => Err(ParseError::Fault(line, FaultKind::LiquidSyntax)),
        None => Ok(nodes),
    }
}

/// The template that a text is, or its first fault: an output or a tag without a reading, a tag of no known name, a whole number
/// that is no `i64`, a part or an end that stands in no block of its kind, or, in the line where it starts, an output, a tag or a
/// block without its end.
pub fn parse(alloc: Global, text: &str) -> Result<Template, ParseError>
    ensures { Parses result (tree text.now) }
{
    let mut building = Building {
        nodes: Vec::new(alloc),
        stack: Vec::new(alloc),
        verbatim: Verbatim::Not,
    };
    let mut cutter = Cutter::new(text);
    let mut pieces = Vec::new(alloc);
    'fronts: loop {
        pieces.clear();
        match cutter.next(&mut pieces)? {
            Next::Pieces => put_all(alloc, &mut building, text, pieces.as_slice())?,
            Next::End(unclosed) => return Ok(Template::from_nodes(finish(building, unclosed)?)),
        }
    }
}
