// What the pieces of a template say.
use crate::{Assign, Condition, Cycle, Expr, Include, Loop, NamePart, Operand};
use site_base::{Boxed, FaultKind, Sequence, Text};

/// What holds nothing else.
#[derive(Drop)]
pub enum Leaf {
    Text(Text),
    Output(Boxed<Expr>),
    Assign(Boxed<Assign>),
    /// The text behind the tag's word, without the white space at its ends, and what it says.
    Cycle(Boxed<Text>, Boxed<Cycle>),
    Increment(Text),
    Decrement(Text),
    Break,
    Continue,
    Include(Boxed<Include>),
    IncludeRelative(Boxed<Include>),
    Link(Sequence<NamePart>),
    PostUrl(Sequence<NamePart>),
}

/// What a block's tag says.
#[derive(Drop)]
pub enum Block {
    If,
    Unless,
    Case(Boxed<Expr>),
    For(Boxed<Loop>),
    TableRow(Boxed<Loop>),
    Capture(Text),
    /// The language that is named.
    Highlight(Text),
}

/// A block by its name.
#[derive(Clone, Copy, Debug, PartialEq, Eq)]
pub enum BlockName {
    If,
    Unless,
    Case,
    For,
    TableRow,
    Capture,
    Highlight,
    Raw,
    Comment,
}

/// How a part of a block begins.
#[derive(Drop)]
pub enum Part {
    /// With the block itself, where its tag holds no test. In a `case` this is what stands before the first `when`.
    Body,
    /// With the test of an `if`, an `unless` or an `elsif`.
    Test(Boxed<Condition>),
    /// With the values of a `when`.
    When(Boxed<Sequence<Operand>>),
    /// With an `else`.
    Otherwise,
}

/// What a piece of a template says.
#[derive(Drop)]
pub enum Item {
    Nothing,
    Leaf(Leaf),
    /// The start of a block and of its first part.
    Opens(Block, Part),
    /// The end of a part of a block, and the start of the next.
    Turns(Part),
    /// The end of a block.
    Ends(BlockName),
    Raw,
    Comment,
}

/// Whether pieces are those of a raw text or of a comment, which starts in this line.
#[derive(Clone, Copy, Debug, PartialEq, Eq)]
pub enum Verbatim {
    Not,
    Raw(u64),
    Comment(u64),
}

/// What a piece does to the tree.
#[derive(Drop)]
pub enum Move {
    Passes(Verbatim),
    Adds(Leaf),
    Opens(Block, Part),
    Turns(Part),
    Ends(BlockName),
    Fails(FaultKind),
}
