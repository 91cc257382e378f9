// What the tags of a template say.
use crate::{Expr, Operand, Params};
use site_base::{Sequence, Text};

/// `assign name = value`
#[derive(Drop)]
pub struct Assign {
    pub name: Text,
    pub value: Expr,
}

/// `cycle group: a, b` or `cycle a, b`
#[derive(Drop)]
pub struct Cycle {
    /// What names the group; where nothing does, the text of the tag is its name.
    pub group: Option<Operand>,
    pub values: Sequence<Operand>,
}

/// Which tag a loop is of.
#[derive(Clone, Copy, Debug, PartialEq, Eq)]
pub enum LoopKind {
    For,
    TableRow,
}

/// What a loop is given a number for.
#[derive(Clone, Copy, Debug, PartialEq, Eq)]
pub enum LoopKey {
    Limit,
    Offset,
    Columns,
}

/// What may follow the list of a loop.
#[derive(Drop)]
pub enum LoopPart {
    Reversed,
    Number(LoopKey, Expr),
}

/// `for name in list` or `tablerow name in list`, with what follows it.
#[derive(Drop)]
pub struct Loop {
    pub name: Text,
    pub list: Expr,
    pub parts: Sequence<LoopPart>,
}

/// A part of a name that a tag is given: text, or what an output in it writes.
#[derive(Drop)]
pub enum NamePart {
    Text(Text),
    Output(Expr),
}

/// Where a byte stands in a name that ends at white space.
#[derive(Clone, Copy, Debug, PartialEq, Eq)]
pub enum NamePlace {
    InName,
    InOutput,
    /// Between the two bytes of `}}`.
    InEnd,
}

/// `include file k=e ..`
#[derive(Drop)]
pub struct Include {
    pub file: Sequence<NamePart>,
    pub params: Params,
}
