// What stands in `for` and `tablerow`.
ghost use Rattle.std.specs.Prelude.{◌≡◌, ◌+◌, ◌<◌, ◌≤◌, length, IfOk, IfSome, refl};
ghost use Rattle.liquid_grammar.specs.declared.tag.LoopKind.TheVariants as loop_kind;
ghost use Rattle.liquid_grammar.specs.Tags.{loop_key, keyed_part, named_part, next_part, same_key, has_key, keys, fits_for, fits_table_row, fits, loop_over, loop_at};
ghost use Rattle.liquid_expr.specs.Ahead.{text_of};
ghost use Rattle.liquid_expr.specs.Tokens.{tokens_of, count};
ghost use Rattle.liquid_expr.specs.Readings.{IsRead, IsMore};

use crate::ahead::{is_colon, is_in, name_at, word_at};
use crate::reading::{FromTokens, Repeats, many};
use crate::stop::Stop;
use crate::tokens::{Tokens, rest};
use liquid_grammar::{Expr, Loop, LoopKey, LoopKind, LoopPart};
use site_base::Text;
use std::alloc::Global;

fn loop_key(name: &str) -> Option<LoopKey>
    ensures { result ≡ loop_key name.now }
{
    if name == "limit" {
        Some(LoopKey::Limit)
    } else if name == "offset" {
        Some(LoopKey::Offset)
    } else if name == "cols" {
        Some(LoopKey::Columns)
    } else {
        None
    }
}

// A part `key:e` without its key.
fn keyed_part(
    alloc: Global,
    key: Option<LoopKey>,
    tokens: Tokens,
) -> Result<Option<(LoopPart, usize)>, Stop>
    ensures value { IsMore result (keyed_part key (tokens_of tokens.entry)) }
    ensures within { IfOk result (λ found. IfSome found (λ one. (0 < one.1) × (one.1 ≤ count tokens.entry + 1))) }
{
    let key = match key {
        Some(key) => key,
        None => return Ok(None),
    };
    if !is_colon(tokens) {
        return Ok(None);
    }
    let (value, len) = Expr::read(alloc, rest(tokens, 1))?;
    Ok(Some((LoopPart::Number(key, value), 2 + len)))
}

// What may follow the list of a loop.
enum LoopParts {}

impl Repeats for LoopParts {
    type Item = LoopPart;

    ghost more = { next_part };

    fn next(alloc: Global, tokens: Tokens) -> Result<Option<(LoopPart, usize)>, Stop> {
        match word_at(tokens) {
            Some(name) => {
                if name == "reversed" {
                    return Ok(Some((LoopPart::Reversed, 1)));
                }
                keyed_part(alloc, loop_key(name), rest(tokens, 1))
            }
            None => Ok(None),
        }
    }

    ghost ends = { refl };
}

fn same_key(one: LoopKey, other: LoopKey) -> bool
    ensures { result ≡ same_key one other }
{
    match (one, other) {
        (LoopKey::Limit, LoopKey::Limit) => true,
        (LoopKey::Offset, LoopKey::Offset) => true,
        (LoopKey::Columns, LoopKey::Columns) => true,
        _ => false,
    }
}

fn has_key(key: Option<LoopKey>, part: &LoopPart) -> bool
    ensures { result ≡ has_key key part.now }
{
    match (key, part) {
        (None, LoopPart::Reversed) => true,
        (Some(key), LoopPart::Number(other, _)) => same_key(key, *other),
        _ => false,
    }
}

fn keys(key: Option<LoopKey>, parts: &[LoopPart]) -> usize
    ensures { result ≡ keys key parts.now }
{
    parts.iter().filter(|part| has_key(key, *part)).count()
}

fn fits_for(parts: &[LoopPart]) -> bool
    ensures { result ≡ fits_for parts.now }
{
    keys(Some(LoopKey::Limit), parts) < 2
        && keys(Some(LoopKey::Offset), parts) < 2
        && keys(Some(LoopKey::Columns), parts) < 1
        && keys(None, parts) < 2
}

fn fits_table_row(parts: &[LoopPart]) -> bool
    ensures { result ≡ fits_table_row parts.now }
{
    keys(Some(LoopKey::Limit), parts) < 2
        && keys(Some(LoopKey::Offset), parts) < 2
        && keys(Some(LoopKey::Columns), parts) < 2
        && keys(None, parts) < 1
}

fn fits(kind: LoopKind, parts: &[LoopPart]) -> bool
    ensures { result ≡ fits kind parts.now }
{
    match kind {
        LoopKind::For => fits_for(parts),
        LoopKind::TableRow => fits_table_row(parts),
    }
}

// A loop without its name and `in`.
fn loop_over(
    alloc: Global,
    kind: LoopKind,
    name: Text,
    tokens: Tokens,
) -> Result<(Loop, usize), Stop>
    ensures value { IsRead result (loop_over kind name (tokens_of tokens.entry)) }
    ensures within { IfOk result (λ found. found.1 ≤ count tokens.entry) }
{
    let (list, len) = Expr::read(alloc, tokens)?;
    let (parts, more) = many::<LoopParts>(alloc, rest(tokens, len))?;
    if fits(kind, parts.as_slice()) {
        Ok((Loop { name, list, parts }, len + more))
    } else {
        Err(Stop::NoReading)
    }
}

#[tactic(auto, unfolding(liquid_grammar::specs::Tags::loop_at))]
fn loop_at(alloc: Global, kind: LoopKind, tokens: Tokens) -> Result<(Loop, usize), Stop>
    ensures value { IsRead result (loop_at kind (tokens_of tokens.entry)) }
    ensures within { IfOk result (λ found. found.1 ≤ count tokens.entry) }
{
    let name = match name_at(tokens) {
        Some(name) => name,
        None => return Err(Stop::NoReading),
    };
    if !is_in(rest(tokens, 1)) {
        return Err(Stop::NoReading);
    }
    let name = Text::copy(alloc, name)?;
    let (found, len) = loop_over(alloc, kind, name, rest(tokens, 2))?;
    Ok((found, 2 + len))
}

/// What stands in a `for`.
pub(crate) enum ForLoop {}

impl FromTokens for ForLoop {
    type Value = Loop;

    ghost reading = { loop_at loop_kind.For };

    fn read(alloc: Global, tokens: Tokens) -> Result<(Loop, usize), Stop> {
        loop_at(alloc, LoopKind::For, tokens)
    }
}

/// What stands in a `tablerow`.
pub(crate) enum RowLoop {}

impl FromTokens for RowLoop {
    type Value = Loop;

    ghost reading = { loop_at loop_kind.TableRow };

    fn read(alloc: Global, tokens: Tokens) -> Result<(Loop, usize), Stop> {
        loop_at(alloc, LoopKind::TableRow, tokens)
    }
}
