// The tags that print or set something.
ghost use Rattle.std.specs.Prelude.{◌≡◌, slice_get};
ghost use Rattle.site_base.specs.Plain.{get};
ghost use Rattle.site_base.specs.View.{plain};
ghost use Rattle.liquid_values.specs.LoopValues.{column_of};
ghost use Rattle.read_record.specs.Queries.{run};
ghost use Rattle.read_record.specs.Answers.{Finds};
ghost use Rattle.liquid_values.specs.Answers.{Advances, Settles};
ghost use Rattle.liquid_values.specs.Standing.{place_of};
ghost use Rattle.liquid_tags.specs.Variables as tags;
ghost use Rattle.liquid_tags.specs.Variables.{number_or_zero, group_name, operand_text, print_at, print_one, printed, next_of, place_or_zero};

use crate::expressions::expression;
use crate::state::State;
use crate::tools::Tools;
use filter_base::fit;
use liquid_grammar::{Assign, Cycle, Expr, Operand};
use liquid_values::{Excerpts, Place, Stop, column_of, count_value, operand};
use markdown_grammar::Convert;
use read_record::Look;
use site_base::{Hash, Memory, Text, Value, value_text};
use std::alloc::Global;

/// `{{ .. }}`: writes the text of a value.
#[tactic(auto, using(read_record::proofs::CallLaws::binds))]
pub fn output<'a, 'c, X: Excerpts, C: Convert, L: Look>(
    alloc: Global,
    tools: &mut Tools<'c, X, C>,
    place: &Place<'a>,
    expr: &Expr,
    state: &mut State,
    look: &mut L,
) -> Result<(), Stop>
    ensures same { L.view look.new ≡ L.view look.old }
    ensures gives { Advances (run (L.view look.old) (L.trace look.old) (tags.output (X.excerpts place.now.levels) (place_of place.now) expr.now state.old)) result state.new (L.trace look.new) }
{
    let value = expression(alloc, tools, place, &state.assigned, expr, look)?;
    state.write_value(alloc, place, &value)
}

/// `assign`: gives a variable a value.
#[tactic(auto, using(read_record::proofs::CallLaws::binds))]
pub fn assign<'a, 'c, X: Excerpts, C: Convert, L: Look>(
    alloc: Global,
    tools: &mut Tools<'c, X, C>,
    place: &Place<'a>,
    tag: &Assign,
    state: &mut State,
    look: &mut L,
) -> Result<(), Stop>
    ensures same { L.view look.new ≡ L.view look.old }
    ensures gives { Advances (run (L.view look.old) (L.trace look.old) (tags.assigned (X.excerpts place.now.levels) (place_of place.now) tag.now state.old)) result state.new (L.trace look.new) }
{
    let value = expression(alloc, tools, place, &state.assigned, &tag.value, look)?;
    Ok(state.assign(alloc, &tag.name, value)?)
}

// The number that is kept under a name, or 0.
fn number_or_zero(numbers: &Hash, name: &str) -> i64
    ensures { result ≡ number_or_zero (get name.now numbers.now) }
{
    match numbers.get(name) {
        Some(Value::Int(number)) => *number,
        _ => 0,
    }
}

/// `increment`: prints a counter, which begins at 0, and then adds 1.
#[tactic(auto, using(crate::proofs::StateLaws::settled))]
pub fn increment<'a>(
    alloc: Global,
    place: &Place<'a>,
    name: &Text,
    state: &mut State,
) -> Result<(), Stop>
    ensures { Settles (tags.increment (place_of place.now) name.now state.old) result state.new }
{
    let count = number_or_zero(&state.counters, name.as_str());
    state.write_value(alloc, place, &Value::Int(count))?;
    set_counter(alloc, place, name, i128::from(count) + 1, state)
}

#[tactic(auto, using(crate::proofs::StateLaws::settled))]
fn set_counter<'a>(
    alloc: Global,
    place: &Place<'a>,
    name: &Text,
    number: i128,
    state: &mut State,
) -> Result<(), Stop>
    ensures { Settles (tags.count (place_of place.now) name.now number state.old) result state.new }
{
    let number = place.found(alloc, fit(number))?;
    Ok(state.counters.set(name.share(alloc)?, Value::Int(number))?)
}

/// `decrement`: subtracts 1 from a counter, which begins at 0, and then prints it.
#[tactic(auto, using(crate::proofs::StateLaws::settled))]
pub fn decrement<'a>(
    alloc: Global,
    place: &Place<'a>,
    name: &Text,
    state: &mut State,
) -> Result<(), Stop>
    ensures { Settles (tags.decrement (place_of place.now) name.now state.old) result state.new }
{
    let count = number_or_zero(&state.counters, name.as_str());
    let next = place.found(alloc, fit(i128::from(count) - 1))?;
    state.counters.set(name.share(alloc)?, Value::Int(next))?;
    state.write_value(alloc, place, &Value::Int(next))
}

/// `cycle`: prints the next value of its group, which alone is evaluated. `text` is what stands in the tag, by which a group without a
/// name of its own is called.
#[tactic(auto, using(read_record::proofs::CallLaws::binds))]
pub fn cycle<'a, X: Excerpts, L: Look>(
    alloc: Global,
    excerpts: &mut X,
    place: &Place<'a>,
    text: &Text,
    tag: &Cycle,
    state: &mut State,
    look: &mut L,
) -> Result<(), Stop>
    ensures same { L.view look.new ≡ L.view look.old }
    ensures gives { Advances (run (L.view look.old) (L.trace look.old) (tags.cycle (X.excerpts place.now.levels) (place_of place.now) text.now tag.now state.old)) result state.new (L.trace look.new) }
{
    let group = group_name(
        alloc,
        excerpts,
        place,
        &state.assigned,
        &tag.group,
        text,
        look,
    )?;
    print_next(
        alloc,
        excerpts,
        place,
        tag.values.as_slice(),
        group,
        state,
        look,
    )
}

fn group_name<'a, X: Excerpts, L: Look>(
    alloc: Global,
    excerpts: &mut X,
    place: &Place<'a>,
    assigned: &Hash,
    group: &Option<Operand>,
    text: &Text,
    look: &mut L,
) -> Result<Text, Stop>
    ensures same { L.view look.new ≡ L.view look.old }
    ensures gives { Finds (run (L.view look.old) (L.trace look.old) (group_name (X.excerpts place.now.levels) (place_of place.now) assigned.now group.now text.now)) result (L.trace look.new) }
{
    match group {
        Some(name) => operand_text(alloc, excerpts, place, assigned, name, look),
        None => Ok(text.share(alloc)?),
    }
}

#[tactic(auto, using(read_record::proofs::CallLaws::binds))]
fn operand_text<'a, X: Excerpts, L: Look>(
    alloc: Global,
    excerpts: &mut X,
    place: &Place<'a>,
    assigned: &Hash,
    each: &Operand,
    look: &mut L,
) -> Result<Text, Stop>
    ensures same { L.view look.new ≡ L.view look.old }
    ensures gives { Finds (run (L.view look.old) (L.trace look.old) (operand_text (X.excerpts place.now.levels) (place_of place.now) assigned.now each.now)) result (L.trace look.new) }
{
    let value = operand(alloc, excerpts, place, assigned, each, look)?;
    Ok(value_text(alloc, &value)?)
}

// Prints the next value of a group.
fn print_next<'a, X: Excerpts, L: Look>(
    alloc: Global,
    excerpts: &mut X,
    place: &Place<'a>,
    values: &[Operand],
    group: Text,
    state: &mut State,
    look: &mut L,
) -> Result<(), Stop>
    ensures same { L.view look.new ≡ L.view look.old }
    ensures gives { Advances (run (L.view look.old) (L.trace look.old) (next_of (X.excerpts place.now.levels) (place_of place.now) values.now group state.old)) result state.new (L.trace look.new) }
{
    let at = turn(&state.turns, group.as_str(), values.len() as u64);
    print_at(alloc, excerpts, place, values, group, at, state, look)
}

// Prints the value at a place; the next of the group is the one behind it.
#[tactic(auto, using(read_record::proofs::CallLaws::binds))]
fn print_at<'a, X: Excerpts, L: Look>(
    alloc: Global,
    excerpts: &mut X,
    place: &Place<'a>,
    values: &[Operand],
    group: Text,
    at: u64,
    state: &mut State,
    look: &mut L,
) -> Result<(), Stop>
    ensures same { L.view look.new ≡ L.view look.old }
    ensures gives { Advances (run (L.view look.old) (L.trace look.old) (print_at (X.excerpts place.now.levels) (place_of place.now) values.now group at state.old)) result state.new (L.trace look.new) }
{
    print(alloc, excerpts, place, values, at, state, look)?;
    Ok(state.turns.set(group, count_value(u128::from(at) + 1))?)
}

// The place of a group's next value among so many.
fn turn(turns: &Hash, group: &str, count: u64) -> u64
    ensures { result ≡ column_of count (place_or_zero (number_or_zero (get group.now turns.now))) }
{
    match u64::try_from(number_or_zero(turns, group)) {
        Ok(place) => column_of(count, place),
        Err(_) => column_of(count, 0),
    }
}

fn print<'a, X: Excerpts, L: Look>(
    alloc: Global,
    excerpts: &mut X,
    place: &Place<'a>,
    values: &[Operand],
    at: u64,
    state: &mut State,
    look: &mut L,
) -> Result<(), Stop>
    ensures same { L.view look.new ≡ L.view look.old }
    ensures gives { Advances (run (L.view look.old) (L.trace look.old) (printed (X.excerpts place.now.levels) (place_of place.now) (slice_get values.now at) state.old)) result state.new (L.trace look.new) }
{
    match values.get(at as usize) {
        Some(each) => print_one(alloc, excerpts, place, each, state, look),
        None => Ok(()),
    }
}

#[tactic(auto, using(read_record::proofs::CallLaws::binds))]
fn print_one<'a, X: Excerpts, L: Look>(
    alloc: Global,
    excerpts: &mut X,
    place: &Place<'a>,
    each: &Operand,
    state: &mut State,
    look: &mut L,
) -> Result<(), Stop>
    ensures same { L.view look.new ≡ L.view look.old }
    ensures gives { Advances (run (L.view look.old) (L.trace look.old) (print_one (X.excerpts place.now.levels) (place_of place.now) each.now state.old)) result state.new (L.trace look.new) }
{
    let value = operand(alloc, excerpts, place, &state.assigned, each, look)?;
    state.write_value(alloc, place, &value)
}
