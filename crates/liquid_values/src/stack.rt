// The stack on which the steps of an operand work.
ghost use Rattle.std.specs.Prelude.{◌≡◌, ◌∷◌, [], OnOk, MatchOption};
ghost use Rattle.liquid_values.specs.Answers.{found_of};
ghost use Rattle.liquid_values.specs.OperandSteps.{stack_of};

use crate::found::Found;
use site_base::Memory;
use std::alloc::Global;
use std::mem;

/// What names and members stand for, from the last. The last stands apart, so that most operands take no memory.
#[derive(Drop)]
pub(crate) struct Stack<'a> {
    top: Option<Found<'a>>,
    below: Vec<Found<'a>>,
}

impl<'a> Stack<'a> {
    pub(crate) fn new(alloc: Global) -> Stack<'a>
        ensures { stack_of result ≡ [] }
    {
        Stack {
            top: None,
            below: Vec::new(alloc),
        }
    }

    pub(crate) fn push(&mut self, found: Found<'a>) -> Result<(), Memory>
        ensures { OnOk result (stack_of self.new ≡ found_of found.entry ∷ stack_of self.old) }
    {
        if let Some(other) = mem::replace(&mut self.top, Some(found)) {
            self.below.push(other)?;
        }
        Ok(())
    }

    pub(crate) fn pop(&mut self) -> Option<Found<'a>>
        ensures { MatchOption result (stack_of self.new ≡ stack_of self.old × stack_of self.old ≡ []) (λ found. stack_of self.old ≡ found_of found ∷ stack_of self.new) }
    {
        match self.top.take() {
            Some(found) => Some(found),
            None => self.below.pop(),
        }
    }
}
