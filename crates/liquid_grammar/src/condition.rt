// Conditions.
use crate::{Comparison, Extras, Joint, Operand};
use site_base::Boxed;

/// A test of one operand, or of two that are compared.
#[derive(Drop)]
pub enum Test {
    Holds(Operand),
    Compares(Boxed<Operand>, Comparison, Boxed<Operand>),
}

/// A test, and how it is joined to what stands before it.
#[derive(Drop)]
pub struct Joined {
    pub joint: Joint,
    pub test: Test,
}

/// Tests joined by `and` and `or`. They are read from the right: each joint has the test before it on its left side, and all
/// the rest on its right side.
#[derive(Drop)]
pub struct Condition {
    pub first: Test,
    pub rest: Extras<Joined>,
}
