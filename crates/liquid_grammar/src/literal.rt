// Literals.
use site_base::{Boxed, Text};

/// A value that an expression writes out; ranges are made of two operands.
#[derive(Drop)]
pub enum Literal {
    /// `nil` and `null`.
    Nil,
    Bool(bool),
    /// `blank`, to which a value can be compared.
    Blank,
    /// `empty`, to which a value can be compared.
    Empty,
    Int(i64),
    /// A text in quotes, or a decimal as it is written.
    Text(Boxed<Text>),
}
