// Operands, read as steps.
ghost use Rattle.std.specs.Prelude.{◌≡◌, ◌+◌, ◌<◌, ◌≤◌, length, IfOk, IfSome};
ghost use Rattle.liquid_grammar.specs.Readings.{many};
ghost use Rattle.liquid_grammar.specs.Expressions.{operand_in, operand_inside, link, bracket, range_at};
ghost use Rattle.liquid_expr.specs.Tokens.{tokens_of, count};
ghost use Rattle.liquid_expr.specs.Steps.{link_steps, codes_of, Adds, AddsMore};
ghost use Rattle.liquid_grammar.specs.Operands.{steps_of};

use crate::ahead::{Follow, Start, closes_bracket, closes_range, follow_of, goes_to, start_of};
use crate::stop::Stop;
use crate::tokens::{Tokens, rest};
use liquid_grammar::Step;
use site_base::Text;
use std::alloc::Global;

/// Reads an operand with at most this many open brackets, and adds its steps; says how many tokens it has.
#[cycle(operand)]
pub(crate) fn operand(
    alloc: Global,
    tokens: Tokens,
    depth: u32,
    steps: &mut Vec<Step>,
) -> Result<usize, Stop>
    ensures value { Adds steps_of result steps.old.items steps.new.items (operand_in depth (tokens_of tokens.entry)) }
    ensures within { IfOk result (λ n. n ≤ count tokens.entry) }
{
    match start_of(alloc, tokens)? {
        Start::Variable(name) => {
            steps.push(Step::Variable(Text::copy(alloc, name)?))?;
            let links = path(alloc, rest(tokens, 1), depth, steps)?;
            Ok(links + 1)
        }
        Start::Literal(literal) => {
            steps.push(Step::Literal(literal))?;
            Ok(1)
        }
        Start::Range => {
            let len = range(alloc, rest(tokens, 1), depth, steps)?;
            Ok(len + 1)
        }
        Start::Nothing => Err(Stop::NoReading),
    }
}

// What follows a variable.
#[cycle(operand)]
fn path(alloc: Global, tokens: Tokens, depth: u32, steps: &mut Vec<Step>) -> Result<usize, Stop>
    ensures value { Adds (codes_of link_steps) result steps.old.items steps.new.items (many (link (operand_inside depth)) (tokens_of tokens.entry)) }
    ensures within { IfOk result (λ n. n ≤ count tokens.entry) }
{
    let mut used = 0;
    while let Some(len) = next_link(alloc, rest(tokens, used), depth, steps)? {
        used += len;
    }
    Ok(used)
}

// The next `.name` or `[x]`.
#[cycle(operand)]
fn next_link(
    alloc: Global,
    tokens: Tokens,
    depth: u32,
    steps: &mut Vec<Step>,
) -> Result<Option<usize>, Stop>
    ensures value { AddsMore link_steps result steps.old.items steps.new.items (link (operand_inside depth) (tokens_of tokens.entry)) }
    ensures within { IfOk result (λ found. IfSome found (λ n. (0 < n) × (n ≤ count tokens.entry))) }
{
    match follow_of(tokens) {
        Follow::Name(name) => {
            steps.push(Step::Member(Text::copy(alloc, name)?))?;
            Ok(Some(2))
        }
        Follow::Bracket => {
            let len = bracket(alloc, rest(tokens, 1), depth, steps)?;
            Ok(Some(len + 1))
        }
        Follow::Nothing => Err(Stop::NoReading),
        Follow::End => Ok(None),
    }
}

// What stands after `[`.
#[cycle(operand)]
fn bracket(alloc: Global, tokens: Tokens, depth: u32, steps: &mut Vec<Step>) -> Result<usize, Stop>
    ensures value { Adds link_steps result steps.old.items steps.new.items (bracket (operand_inside depth) (tokens_of tokens.entry)) }
    ensures within { IfOk result (λ n. n ≤ count tokens.entry) }
{
    if depth == 0 {
        return Err(Stop::NoReading);
    }
    let len = operand(alloc, tokens, depth - 1, steps)?;
    if !closes_bracket(rest(tokens, len)) {
        return Err(Stop::NoReading);
    }
    steps.push(Step::Index)?;
    Ok(len + 1)
}

// What stands after `(`.
#[cycle(operand)]
fn range(alloc: Global, tokens: Tokens, depth: u32, steps: &mut Vec<Step>) -> Result<usize, Stop>
    ensures value { Adds steps_of result steps.old.items steps.new.items (range_at (operand_inside depth) (tokens_of tokens.entry)) }
    ensures within { IfOk result (λ n. n ≤ count tokens.entry) }
{
    if depth == 0 {
        return Err(Stop::NoReading);
    }
    let from = operand(alloc, tokens, depth - 1, steps)?;
    let behind = rest(tokens, from);
    if !goes_to(behind) {
        return Err(Stop::NoReading);
    }
    steps.push(Step::FirstEnd)?;
    let behind = rest(behind, 1);
    let to = operand(alloc, behind, depth - 1, steps)?;
    if !closes_range(rest(behind, to)) {
        return Err(Stop::NoReading);
    }
    steps.push(Step::Range)?;
    Ok(from + 1 + to + 1)
}
