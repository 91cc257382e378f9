// The steps of an operand.
use crate::Literal;
use site_base::Text;

/// A step of an operand, which works on a stack of values: the steps of an operand leave its value on the stack.
#[derive(Drop)]
pub enum Step {
    /// Puts the literal on the stack.
    Literal(Literal),
    /// Puts the value of the variable on the stack.
    Variable(Text),
    /// Replaces the value on top by its member of this name.
    Member(Text),
    /// Replaces the two values on top by the member of the lower that the upper names.
    Index,
    /// Settles the value on top, which is the first end of a range: its data is looked up before the last end is begun.
    FirstEnd,
    /// Replaces the two values on top by the range from the lower to the upper.
    Range,
}
