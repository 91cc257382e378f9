// Conditions, and the parameters of tags.
ghost use Rattle.std.specs.Prelude.{◌≡◌, ◌≤◌, length, IfOk, refl};
ghost use Rattle.liquid_grammar.specs.Readings.{many};
ghost use Rattle.liquid_grammar.specs.Conditions.{comparison, compared, test_at, joined_test, next_test, condition, next_parameter};
ghost use Rattle.liquid_expr.specs.Tokens.{tokens_of, count};
ghost use Rattle.liquid_expr.specs.Readings.{IsRead};

use crate::ahead::{comparison, is_assign, joint, word_at};
use crate::reading::{FromTokens, Repeats, many};
use crate::stop::Stop;
use crate::tokens::{Tokens, rest};
use liquid_grammar::{Condition, Expr, Extras, Joined, Operand, Parameter, Params, Test};
use site_base::{Boxed, Text};
use std::alloc::Global;

// What follows the first operand of a test.
fn compared(alloc: Global, first: Operand, tokens: Tokens) -> Result<(Test, usize), Stop>
    ensures value { IsRead result (compared first (comparison (tokens_of tokens.entry)) (tokens_of tokens.entry)) }
    ensures within { IfOk result (λ found. found.1 ≤ count tokens.entry) }
{
    match comparison(tokens) {
        Some(how) => {
            let (second, len) = Operand::read(alloc, rest(tokens, 1))?;
            let first = Boxed::new(alloc, first)?;
            let second = Boxed::new(alloc, second)?;
            Ok((Test::Compares(first, how, second), 1 + len))
        }
        None => Ok((Test::Holds(first), 0)),
    }
}

impl FromTokens for Test {
    type Value = Test;

    ghost reading = { test_at };

    #[tactic(auto, unfolding(liquid_grammar::specs::Conditions::test_at))]
    fn read(alloc: Global, tokens: Tokens) -> Result<(Test, usize), Stop> {
        let (first, len) = Operand::read(alloc, tokens)?;
        let (test, more) = compared(alloc, first, rest(tokens, len))?;
        Ok((test, len + more))
    }
}

/// The tests of a condition after the first, each behind `and` or `or`.
pub(crate) enum Tests {}

impl Repeats for Tests {
    type Item = Joined;

    ghost more = { next_test };

    fn next(alloc: Global, tokens: Tokens) -> Result<Option<(Joined, usize)>, Stop> {
        let joint = match joint(tokens) {
            Some(joint) => joint,
            None => return Ok(None),
        };
        let (test, len) = Test::read(alloc, rest(tokens, 1))?;
        Ok(Some((Joined { joint, test }, 1 + len)))
    }

    ghost ends = { refl };
}

impl FromTokens for Condition {
    type Value = Condition;

    ghost reading = { condition };

    #[tactic(auto, unfolding(liquid_grammar::specs::Conditions::condition))]
    fn read(alloc: Global, tokens: Tokens) -> Result<(Condition, usize), Stop> {
        let (first, len) = Test::read(alloc, tokens)?;
        let (others, more) = many::<Tests>(alloc, rest(tokens, len))?;
        let rest = Extras::from_sequence(alloc, others)?;
        Ok((Condition { first, rest }, len + more))
    }
}

/// The parameters of a tag.
pub(crate) enum Parameters {}

impl Repeats for Parameters {
    type Item = Parameter;

    ghost more = { next_parameter };

    fn next(alloc: Global, tokens: Tokens) -> Result<Option<(Parameter, usize)>, Stop> {
        let name = match word_at(tokens) {
            Some(name) => name,
            None => return Ok(None),
        };
        if !is_assign(rest(tokens, 1)) {
            return Ok(None);
        }
        let name = Text::copy(alloc, name)?;
        let (value, len) = Expr::read(alloc, rest(tokens, 2))?;
        Ok(Some((Parameter { name, value }, 2 + len)))
    }

    ghost ends = { refl };
}

impl FromTokens for Params {
    type Value = Params;

    ghost reading = { many next_parameter };

    fn read(alloc: Global, tokens: Tokens) -> Result<(Params, usize), Stop> {
        many::<Parameters>(alloc, tokens)
    }
}
