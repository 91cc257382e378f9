// Operands.
ghost use Rattle.std.specs.Prelude.{◌≡◌};
ghost use Rattle.liquid_grammar.specs.Operands.{steps_of, operand_of, AreOfOperand};
ghost use Rattle.liquid_grammar.specs.StepPlaces.{steps_at};

use crate::Step;
use std::marker::Model;

/// A literal, a range or a variable with its members. Clauses see its tree; what it holds are the steps by which a stack of
/// values finds the operand's value, so that nothing has to recurse to find it.
#[derive(Drop)]
pub struct Operand {
    steps: Steps,
}

// Where the steps of an operand stand. Most operands have one step, which takes no memory besides.
#[derive(Drop)]
enum Steps {
    One([Step; 1]),
    Listed(Vec<Step>),
}

impl Model for Operand {
    ghost use Rattle.liquid_grammar.specs.Operands.{Operand, operand_code};

    ghost Value = { Operand };

    ghost coded = { operand_code };

    ghost use Rattle.liquid_grammar.specs.Operands.{operand_of, AreOfOperand};
    ghost use Rattle.liquid_grammar.specs.StepPlaces.{steps_at};

    ghost view = { λ o. operand_of (steps_at o.steps) };

    ghost invariant = { λ o. AreOfOperand (steps_at o.steps) };
}

// Where steps stand in as little room as they need.
fn steps_place(mut steps: Vec<Step>) -> Steps
    ensures { steps_at result ≡ steps.items }
{
    if steps.len() == 1 {
        if let Some(step) = steps.pop() {
            return Steps::One([step]);
        }
    }
    steps.shrink_to_fit();
    Steps::Listed(steps)
}

impl Operand {
    /// The operand that has these steps.
    pub fn from_steps(steps: Vec<Step>) -> Operand
        requires { AreOfOperand steps.items }
        ensures { result ≡ operand_of steps.items }
    {
        Operand {
            steps: steps_place(steps),
        }
    }

    /// The steps that leave the operand's value on a stack: first those of its parts, from left to right.
    pub fn steps(&self) -> &[Step]
        ensures { result.now ≡ steps_of self.now }
    {
        match &self.steps {
            Steps::One(one) => one,
            Steps::Listed(steps) => steps.as_slice(),
        }
    }
}
