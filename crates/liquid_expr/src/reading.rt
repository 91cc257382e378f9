// Readings of tokens.
ghost use Rattle.std.specs.Prelude.{◌≡◌, ◌<◌, ◌≤◌, List, [], length, IfOk, IfSome};
ghost use Rattle.liquid_grammar.specs.Tokens as grammar;
ghost use Rattle.liquid_grammar.specs.Readings.{Reading, More, stop, many, reads};
ghost use Rattle.liquid_expr.specs.Tokens.{tokens_of, count};
ghost use Rattle.liquid_expr.specs.Readings.{IsRead, IsMore, GivesRead};

use crate::stop::{ReadExprError, Stop};
use crate::tokens::{Places, Tokens, rest, token_places};
use site_base::Sequence;
use std::alloc::Global;

/// What can be read at the front of tokens.
pub(crate) trait FromTokens {
    type Value: Drop;

    ghost reading: { List grammar.Token → Reading Self.Value };

    /// Reads what stands at the front, and says how many tokens it has.
    fn read(alloc: Global, tokens: Tokens) -> Result<(Self::Value, usize), Stop>
        ensures value { IsRead result (reading (tokens_of tokens.entry)) }
        ensures within { IfOk result (λ found. found.1 ≤ count tokens.entry) };
}

/// What can come again and again.
pub(crate) trait Repeats {
    type Item: Drop;

    ghost more: { List grammar.Token → More Self.Item };

    /// Reads the next one, if there is one, and says how many tokens it has.
    fn next(alloc: Global, tokens: Tokens) -> Result<Option<(Self::Item, usize)>, Stop>
        ensures value { IsMore result (more (tokens_of tokens.entry)) }
        ensures within { IfOk result (λ found. IfSome found (λ one. (0 < one.1) × (one.1 ≤ count tokens.entry))) };

    ghost ends: { more [] ≡ stop };
}

/// Reads as many as there are, and says how many tokens they have.
pub(crate) fn many<R: Repeats>(
    alloc: Global,
    tokens: Tokens,
) -> Result<(Sequence<R::Item>, usize), Stop>
    ensures value { IsRead result (many R.more (tokens_of tokens.entry)) }
    ensures within { IfOk result (λ found. found.1 ≤ count tokens.entry) }
{
    let mut list = Vec::new(alloc);
    let mut used = 0;
    while let Some((item, len)) = R::next(alloc, rest(tokens, used))? {
        list.push(item)?;
        used += len;
    }
    Ok((Sequence::fitted(list), used))
}

/// Reads a whole text.
pub(crate) fn read_whole<T: FromTokens>(
    alloc: Global,
    text: &str,
) -> Result<T::Value, ReadExprError>
    ensures { GivesRead result (reads T.reading text.now) }
{
    let Places { list, has_large } = match token_places(alloc, text)? {
        Some(places) => places,
        None => return Err(ReadExprError::Syntax),
    };
    let tokens = Tokens {
        text,
        places: &list,
    };
    match T::read(alloc, tokens) {
        Ok((value, len)) => {
            if len != list.len() {
                return Err(ReadExprError::Syntax);
            }
            if has_large {
                return Err(ReadExprError::Overflow);
            }
            Ok(value)
        }
        Err(Stop::NoReading) => Err(ReadExprError::Syntax),
        Err(Stop::Memory) => Err(ReadExprError::Memory),
    }
}
