// What a `tablerow` goes over.
ghost use Rattle.std.specs.Prelude.{◌≡◌};
ghost use Rattle.site_base.specs.View.{plain};
ghost use Rattle.read_record.specs.Queries.{run};
ghost use Rattle.read_record.specs.Answers.{Finds};
ghost use Rattle.liquid_values.specs.Standing.{place_of};
ghost use Rattle.liquid_tags.specs.Elements.{columns_of};
ghost use Rattle.liquid_tags.specs.Tables as tables;

use crate::conditions::is_nil;
use crate::elements::{Elements, Numbers, Whole, given_numbers, is_reversed};
use crate::expressions::expression;
use crate::tools::Tools;
use liquid_grammar::Loop;
use liquid_values::{Excerpts, Place, Stop};
use markdown_grammar::Convert;
use read_record::Look;
use site_base::{Hash, Value};
use std::alloc::Global;

/// The elements of a table, and how many columns a row has.
#[derive(Drop)]
pub struct Grid {
    pub elements: Elements,
    pub columns: u64,
}

/// What a `tablerow` goes over: the elements as those of a `for`, in rows of as many columns as are given, or in one row where none are.
/// Nil makes no table.
///
/// It stops at the first fault, as a `for` does, and with FilterArgument where the columns are no number.
#[tactic(auto, using(read_record::proofs::CallLaws::binds))]
pub fn table<'a, 'c, X: Excerpts, C: Convert, L: Look>(
    alloc: Global,
    tools: &mut Tools<'c, X, C>,
    place: &Place<'a>,
    assigned: &Hash,
    tag: &Loop,
    look: &mut L,
) -> Result<Option<Grid>, Stop>
    ensures same { L.view look.new ≡ L.view look.old }
    ensures gives { Finds (run (L.view look.old) (L.trace look.old) (tables.table (X.excerpts place.now.levels) (place_of place.now) assigned.now tag.now)) result (L.trace look.new) }
{
    let value = expression(alloc, tools, place, assigned, &tag.list, look)?;
    if is_nil(&value) {
        return Ok(None);
    }
    filled(alloc, tools, place, assigned, tag, value, look)
}

#[tactic(auto, using(liquid_values::proofs::PlaceLaws::settles))]
fn filled<'a, 'c, X: Excerpts, C: Convert, L: Look>(
    alloc: Global,
    tools: &mut Tools<'c, X, C>,
    place: &Place<'a>,
    assigned: &Hash,
    tag: &Loop,
    value: Value,
    look: &mut L,
) -> Result<Option<Grid>, Stop>
    ensures same { L.view look.new ≡ L.view look.old }
    ensures gives { Finds (run (L.view look.old) (L.trace look.old) (tables.filled (X.excerpts place.now.levels) (place_of place.now) assigned.now tag.now (plain value))) result (L.trace look.new) }
{
    let whole = place.found(alloc, Whole::of(value))?;
    let numbers = given_numbers(alloc, tools, place, assigned, tag.parts.as_slice(), look)?;
    Ok(Some(cut_grid(whole, &numbers, is_reversed(tag.parts.as_slice()))))
}

fn cut_grid(whole: Whole, numbers: &Numbers, is_reversed: bool) -> Grid
    ensures { result ≡ tables.cut_grid numbers.now is_reversed whole }
{
    let elements = Elements::cut(whole, numbers, is_reversed);
    let columns = columns_of(numbers.columns, elements.len());
    Grid { elements, columns }
}

// How many columns a row has.
fn columns_of(given: Option<u64>, len: u64) -> u64
    ensures { result ≡ columns_of given len }
{
    match given {
        None | Some(0) => len,
        Some(columns) => columns,
    }
}
