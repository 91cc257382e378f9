// Expressions.
ghost use Rattle.std.specs.Prelude.{◌≡◌, ◌≤◌, ◌∷◌, length, IfOk, MatchResult, refl};
ghost use Rattle.liquid_grammar.specs.Expressions.{operand, next_argument, arguments, filter_end, next_filter, expression};
ghost use Rattle.liquid_expr.specs.Tokens.{tokens_of, count};
ghost use Rattle.liquid_expr.specs.Readings.{IsRead};

use crate::ahead::{is_bar, is_colon, is_comma, word_at};
use crate::operand::operand;
use crate::reading::{FromTokens, Repeats, many};
use crate::stop::Stop;
use crate::token::mark_at;
use crate::tokens::{Tokens, rest};
use liquid_grammar::{Expr, Extras, Filter, Mark, Operand};
use site_base::{Sequence, Text};
use std::alloc::Global;

/// No more brackets than these may be open.
const MOST_BRACKETS: u32 = 100;

// How many steps the operand at the front has, or somewhat more: as many as its names, literals, opening brackets and `..`. It looks no
// further than the operand goes, so that many operands one behind another are counted in the time of their tokens.
fn step_count(tokens: Tokens) -> usize {
    let mut count: usize = 0;
    let mut may_name = true;
    for place in tokens.places {
        let mark = mark_in(tokens.text, *place);
        if ends_operand(mark, may_name) {
            return count;
        }
        if makes_step(mark) {
            count = count.saturating_add(1);
        }
        may_name = lets_name_follow(mark);
    }
    count
}

// The mark at the place of a token, if the token is a mark. It looks at two bytes, however long the token is.
fn mark_in(text: &str, place: u32) -> Option<Mark> {
    let bytes = text.as_bytes().get(place as usize..).unwrap_or(&[]);
    match mark_at(bytes) {
        Some((mark, _)) => Some(mark),
        None => None,
    }
}

// Whether no operand goes on with it: a mark of a filter, a comparison or a list, or a name or a literal where none may follow.
fn ends_operand(mark: Option<Mark>, may_name: bool) -> bool {
    match mark {
        Some(mark) => matches!(
            mark,
            Mark::Bar | Mark::Colon | Mark::Comma | Mark::Assign | Mark::Compare(_)
        ),
        None => !may_name,
    }
}

// Whether a name or a literal may follow it in an operand: behind a dot and inside of brackets.
fn lets_name_follow(mark: Option<Mark>) -> bool {
    matches!(
        mark,
        Some(Mark::Dot | Mark::To | Mark::OpenBracket | Mark::OpenRange)
    )
}

fn makes_step(mark: Option<Mark>) -> bool {
    matches!(
        mark,
        None | Some(Mark::OpenBracket | Mark::OpenRange | Mark::To)
    )
}

impl FromTokens for Operand {
    type Value = Operand;

    ghost reading = { operand };

    fn read(alloc: Global, tokens: Tokens) -> Result<(Operand, usize), Stop> {
        let mut steps = Vec::with_capacity(alloc, step_count(tokens))?;
        let len = operand(alloc, tokens, MOST_BRACKETS, &mut steps)?;
        Ok((Operand::from_steps(steps), len))
    }
}

/// The arguments of a filter after the first, each behind a comma.
pub(crate) enum Arguments {}

impl Repeats for Arguments {
    type Item = Operand;

    ghost more = { next_argument };

    fn next(alloc: Global, tokens: Tokens) -> Result<Option<(Operand, usize)>, Stop> {
        if !is_comma(tokens) {
            return Ok(None);
        }
        let (value, len) = Operand::read(alloc, rest(tokens, 1))?;
        Ok(Some((value, 1 + len)))
    }

    ghost ends = { refl };
}

/// Puts a value in front of others.
pub(crate) fn in_front<T: Drop>(first: T, others: Sequence<T>) -> Result<Sequence<T>, Stop>
    ensures { MatchResult result (λ all. all ≡ first ∷ others) (λ error. error ≡ Stop.Memory) }
{
    let mut list = others.into_vec();
    list.insert(0, first)?;
    Ok(Sequence::fitted(list))
}

/// The arguments of a filter, or the values of a tag: operands between commas.
pub(crate) fn operands(alloc: Global, tokens: Tokens) -> Result<(Sequence<Operand>, usize), Stop>
    ensures value { IsRead result (arguments (tokens_of tokens.entry)) }
    ensures within { IfOk result (λ found. found.1 ≤ count tokens.entry) }
{
    let (first, len) = Operand::read(alloc, tokens)?;
    let (others, more) = many::<Arguments>(alloc, rest(tokens, len))?;
    Ok((in_front(first, others)?, len + more))
}

// A filter without its bar and its name.
fn filter_end(alloc: Global, name: Text, tokens: Tokens) -> Result<(Filter, usize), Stop>
    ensures value { IsRead result (filter_end name (tokens_of tokens.entry)) }
    ensures within { IfOk result (λ found. found.1 ≤ count tokens.entry) }
{
    if !is_colon(tokens) {
        let arguments = Extras::none();
        return Ok((Filter { name, arguments }, 0));
    }
    let (arguments, len) = operands(alloc, rest(tokens, 1))?;
    let arguments = Extras::from_sequence(alloc, arguments)?;
    Ok((Filter { name, arguments }, 1 + len))
}

/// The filters of an expression, each behind a bar.
pub(crate) enum Filters {}

impl Repeats for Filters {
    type Item = Filter;

    ghost more = { next_filter };

    fn next(alloc: Global, tokens: Tokens) -> Result<Option<(Filter, usize)>, Stop> {
        if !is_bar(tokens) {
            return Ok(None);
        }
        let name = match word_at(rest(tokens, 1)) {
            Some(name) => Text::copy(alloc, name)?,
            None => return Err(Stop::NoReading),
        };
        let (filter, len) = filter_end(alloc, name, rest(tokens, 2))?;
        Ok(Some((filter, 2 + len)))
    }

    ghost ends = { refl };
}

impl FromTokens for Expr {
    type Value = Expr;

    ghost reading = { expression };

    #[tactic(auto, unfolding(liquid_grammar::specs::Expressions::expression))]
    fn read(alloc: Global, tokens: Tokens) -> Result<(Expr, usize), Stop> {
        let (operand, len) = Operand::read(alloc, tokens)?;
        let (filters, more) = many::<Filters>(alloc, rest(tokens, len))?;
        let filters = Extras::from_sequence(alloc, filters)?;
        Ok((Expr { operand, filters }, len + more))
    }
}
