// What stands in tags behind their names.
ghost use Rattle.std.specs.Prelude.{◌≡◌, ◌≤◌, length, IfOk, refl};
ghost use Rattle.liquid_grammar.specs.Readings.{many};
ghost use Rattle.liquid_grammar.specs.Expressions.{arguments};
ghost use Rattle.liquid_grammar.specs.Tags.{nothing_more, variable_name, assignment, next_value, values, cycle_end, cycle};
ghost use Rattle.liquid_expr.specs.Tokens.{tokens_of, count};
ghost use Rattle.liquid_expr.specs.Readings.{IsRead};

use crate::ahead::{is_assign, is_colon, is_comma, is_or, name_at};
use crate::expression::{Arguments, in_front, operands};
use crate::reading::{FromTokens, Repeats, many};
use crate::stop::Stop;
use crate::tokens::{Tokens, rest};
use liquid_grammar::{Assign, Cycle, Expr, Operand};
use site_base::{Sequence, Text};
use std::alloc::Global;

/// What stands in a tag that is its name alone.
pub(crate) enum Nothing {}

impl FromTokens for Nothing {
    type Value = ();

    ghost reading = { nothing_more };

    fn read(_alloc: Global, _tokens: Tokens) -> Result<((), usize), Stop> {
        Ok(((), 0))
    }
}

/// The name of a variable.
pub(crate) enum Name {}

impl FromTokens for Name {
    type Value = Text;

    ghost reading = { variable_name };

    fn read(alloc: Global, tokens: Tokens) -> Result<(Text, usize), Stop> {
        match name_at(tokens) {
            Some(name) => Ok((Text::copy(alloc, name)?, 1)),
            None => Err(Stop::NoReading),
        }
    }
}

impl FromTokens for Assign {
    type Value = Assign;

    ghost reading = { assignment };

    #[tactic(auto, unfolding(liquid_grammar::specs::Tags::assignment))]
    fn read(alloc: Global, tokens: Tokens) -> Result<(Assign, usize), Stop> {
        let name = match name_at(tokens) {
            Some(name) => name,
            None => return Err(Stop::NoReading),
        };
        if !is_assign(rest(tokens, 1)) {
            return Err(Stop::NoReading);
        }
        let name = Text::copy(alloc, name)?;
        let (value, len) = Expr::read(alloc, rest(tokens, 2))?;
        Ok((Assign { name, value }, 2 + len))
    }
}

/// The values of a `when` after the first, each behind a comma or `or`.
pub(crate) enum Choices {}

impl Repeats for Choices {
    type Item = Operand;

    ghost more = { next_value };

    fn next(alloc: Global, tokens: Tokens) -> Result<Option<(Operand, usize)>, Stop> {
        if !(is_comma(tokens) || is_or(tokens)) {
            return Ok(None);
        }
        let (value, len) = Operand::read(alloc, rest(tokens, 1))?;
        Ok(Some((value, 1 + len)))
    }

    ghost ends = { refl };
}

/// The values of a `when`.
pub(crate) enum Values {}

impl FromTokens for Values {
    type Value = Sequence<Operand>;

    ghost reading = { values };

    fn read(alloc: Global, tokens: Tokens) -> Result<(Sequence<Operand>, usize), Stop> {
        let (first, len) = Operand::read(alloc, tokens)?;
        let (others, more) = many::<Choices>(alloc, rest(tokens, len))?;
        Ok((in_front(first, others)?, len + more))
    }
}

// What follows the first operand of a cycle.
fn cycle_end(alloc: Global, first: Operand, tokens: Tokens) -> Result<(Cycle, usize), Stop>
    ensures value { IsRead result (cycle_end first (tokens_of tokens.entry)) }
    ensures within { IfOk result (λ found. found.1 ≤ count tokens.entry) }
{
    if is_colon(tokens) {
        let (values, len) = operands(alloc, rest(tokens, 1))?;
        let group = Some(first);
        return Ok((Cycle { group, values }, 1 + len));
    }
    let (others, len) = many::<Arguments>(alloc, tokens)?;
    let values = in_front(first, others)?;
    Ok((
        Cycle {
            group: None,
            values,
        },
        len,
    ))
}

impl FromTokens for Cycle {
    type Value = Cycle;

    ghost reading = { cycle };

    #[tactic(auto, unfolding(liquid_grammar::specs::Tags::cycle))]
    fn read(alloc: Global, tokens: Tokens) -> Result<(Cycle, usize), Stop> {
        let (first, len) = Operand::read(alloc, tokens)?;
        let (cycle, more) = cycle_end(alloc, first, rest(tokens, len))?;
        Ok((cycle, len + more))
    }
}
