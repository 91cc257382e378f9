// Expressions.
use crate::{Extras, Operand};
use site_base::{Sequence, Text};

/// A filter with its arguments.
#[derive(Drop)]
pub struct Filter {
    pub name: Text,
    pub arguments: Extras<Operand>,
}

/// An operand, and the filters that its value goes through, from the first to the last.
#[derive(Drop)]
pub struct Expr {
    pub operand: Operand,
    pub filters: Extras<Filter>,
}

/// A parameter `name=value` of a tag.
#[derive(Drop)]
pub struct Parameter {
    pub name: Text,
    pub value: Expr,
}

/// The parameters of a tag, in their order.
pub type Params = Sequence<Parameter>;
