// What operands stand for.
ghost use Rattle.std.specs.Prelude.{◌≡◌, [], IfOk, OnOk};
ghost use Rattle.site_base.specs.View.{plain};
ghost use Rattle.site_base.specs.declared.faults.SiteFault.{SiteFault};
ghost use Rattle.read_record.specs.Queries.{run};
ghost use Rattle.read_record.specs.Answers.{Finds};
ghost use Rattle.liquid_values.specs.Answers.{found_of, in_found, in_plain, Advances, FoundAt};
ghost use Rattle.liquid_values.specs.Names.{named as variable};
ghost use Rattle.liquid_values.specs.Operands as operands;
ghost use Rattle.liquid_values.specs.OperandSteps.{stack_of, pushed, member_step, index_step, first_end_step, range_found, range_step, one_step};
ghost use Rattle.liquid_values.specs.Standing.{place_of};

use crate::excerpts::Excerpts;
use crate::found::Found;
use crate::item_members::{index_found, member};
use crate::names::named;
use crate::place::Place;
use crate::stack::Stack;
use crate::stop::Stop;
use filter_base::num;
use liquid_grammar::{Literal, Operand, Step};
use read_record::Look;
use site_base::{FaultKind, Hash, Memory, Value};
use std::alloc::Global;

/// The value of an operand, where the tag stands at a place, by the variables that were assigned. Each key is looked up where it is
/// reached, from left to right.
///
/// It stops at the first fault, which has the file and the line of the tag: Overflow and Fraction where an end of a range is no number
/// of 64 bits or has a decimal point; Undefined where a name or a member is undefined, the place is tested, and the site's `liquid` sets
/// `strict_variables`; and whatever the excerpt of an item meets. It stops, too, where an item has to be done first, and where memory is
/// wanting.
#[tactic(auto, using(read_record::proofs::CallLaws::binds))]
pub fn operand<'a, X: Excerpts, L: Look>(
    alloc: Global,
    excerpts: &mut X,
    place: &Place<'a>,
    assigned: &Hash,
    operand: &Operand,
    look: &mut L,
) -> Result<Value, Stop>
    ensures same { L.view look.new ≡ L.view look.old }
    ensures gives { Finds (run (L.view look.old) (L.trace look.old) (operands.operand (X.excerpts place.now.levels) (place_of place.now) assigned.now operand.now)) (in_plain result) (L.trace look.new) }
{
    let found = found(alloc, excerpts, place, assigned, operand, look)?;
    found.into_value(alloc, place, look)
}

// What an operand stands for, by its steps.
fn found<'a, X: Excerpts, L: Look>(
    alloc: Global,
    excerpts: &mut X,
    place: &Place<'a>,
    assigned: &Hash,
    operand: &Operand,
    look: &mut L,
) -> Result<Found<'a>, Stop>
    ensures same { L.view look.new ≡ L.view look.old }
    ensures gives { Finds (run (L.view look.old) (L.trace look.old) (operands.found (X.excerpts place.now.levels) (place_of place.now) assigned.now operand.now)) (in_found result) (L.trace look.new) }
{
    let mut stack = Stack::new(alloc);
    for step in operand.steps() {
        take_step(alloc, excerpts, place, assigned, step, &mut stack, look)?;
    }
    match stack.pop() {
        Some(found) => Ok(found),
        None => Ok(Found::Value(Value::Nil)),
    }
}

#[tactic(auto, using(read_record::proofs::CallLaws::binds))]
fn take_step<'a, X: Excerpts, L: Look>(
    alloc: Global,
    excerpts: &mut X,
    place: &Place<'a>,
    assigned: &Hash,
    step: &Step,
    stack: &mut Stack<'a>,
    look: &mut L,
) -> Result<(), Stop>
    ensures same { L.view look.new ≡ L.view look.old }
    ensures gives { Advances (run (L.view look.old) (L.trace look.old) (one_step (X.excerpts place.now.levels) (place_of place.now) assigned.now step.now (stack_of stack.old))) result (stack_of stack.new) (L.trace look.new) }
{
    match step {
        Step::Literal(literal) => Ok(stack.push(Found::Value(literal_value(alloc, literal)?))?),
        Step::Variable(name) => take_variable(alloc, place, assigned, name.as_str(), stack, look),
        Step::Member(name) => take_member(alloc, excerpts, place, name.as_str(), stack, look),
        Step::Index => take_index(alloc, excerpts, place, stack, look),
        Step::FirstEnd => take_first_end(alloc, place, stack, look),
        Step::Range => take_range(alloc, place, stack, look),
    }
}

fn literal_value(alloc: Global, literal: &Literal) -> Result<Value, Memory>
    ensures { IfOk result (λ made. plain made ≡ operands.literal_value literal.now) }
{
    match literal {
        Literal::Nil | Literal::Blank | Literal::Empty => Ok(Value::Nil),
        Literal::Bool(is_set) => Ok(Value::Bool(*is_set)),
        Literal::Int(number) => Ok(Value::Int(*number)),
        Literal::Text(text) => Ok(Value::Text(text.get().share(alloc)?)),
    }
}

#[tactic(auto, using(read_record::proofs::CallLaws::binds))]
fn take_variable<'a, L: Look>(
    alloc: Global,
    place: &Place<'a>,
    assigned: &Hash,
    name: &str,
    stack: &mut Stack<'a>,
    look: &mut L,
) -> Result<(), Stop>
    ensures same { L.view look.new ≡ L.view look.old }
    ensures gives { Advances (run (L.view look.old) (L.trace look.old) (pushed (stack_of stack.old) (variable (place_of place.now) assigned.now name.now))) result (stack_of stack.new) (L.trace look.new) }
{
    let found = named(alloc, place, assigned, name, look)?;
    Ok(stack.push(found)?)
}

// `v.name`, of the one on top.
#[tactic(auto, using(read_record::proofs::CallLaws::binds))]
fn take_member<'a, X: Excerpts, L: Look>(
    alloc: Global,
    excerpts: &mut X,
    place: &Place<'a>,
    name: &str,
    stack: &mut Stack<'a>,
    look: &mut L,
) -> Result<(), Stop>
    ensures same { L.view look.new ≡ L.view look.old }
    ensures gives { Advances (run (L.view look.old) (L.trace look.old) (member_step (X.excerpts place.now.levels) (place_of place.now) name.now (stack_of stack.old))) result (stack_of stack.new) (L.trace look.new) }
{
    let Some(found) = stack.pop() else {
        return Ok(());
    };
    let found = member(alloc, excerpts, place, found, name, look)?;
    Ok(stack.push(found)?)
}

// `v[x]`, of the two on top.
#[tactic(auto, using(read_record::proofs::CallLaws::binds))]
fn take_index<'a, X: Excerpts, L: Look>(
    alloc: Global,
    excerpts: &mut X,
    place: &Place<'a>,
    stack: &mut Stack<'a>,
    look: &mut L,
) -> Result<(), Stop>
    ensures same { L.view look.new ≡ L.view look.old }
    ensures gives { Advances (run (L.view look.old) (L.trace look.old) (index_step (X.excerpts place.now.levels) (place_of place.now) (stack_of stack.old))) result (stack_of stack.new) (L.trace look.new) }
{
    let Some(index) = stack.pop() else {
        return Ok(());
    };
    let Some(found) = stack.pop() else {
        return Ok(stack.push(index)?);
    };
    let found = index_found(alloc, excerpts, place, found, index, look)?;
    Ok(stack.push(found)?)
}

// The value of the one on top.
#[tactic(auto, using(read_record::proofs::CallLaws::binds))]
fn take_first_end<'a, L: Look>(
    alloc: Global,
    place: &Place<'a>,
    stack: &mut Stack<'a>,
    look: &mut L,
) -> Result<(), Stop>
    ensures same { L.view look.new ≡ L.view look.old }
    ensures gives { Advances (run (L.view look.old) (L.trace look.old) (first_end_step (place_of place.now) (stack_of stack.old))) result (stack_of stack.new) (L.trace look.new) }
{
    let Some(found) = stack.pop() else {
        return Ok(());
    };
    let value = found.into_value(alloc, place, look)?;
    Ok(stack.push(Found::Value(value))?)
}

// The range of the two on top.
#[tactic(auto, using(read_record::proofs::CallLaws::binds))]
fn take_range<'a, L: Look>(
    alloc: Global,
    place: &Place<'a>,
    stack: &mut Stack<'a>,
    look: &mut L,
) -> Result<(), Stop>
    ensures same { L.view look.new ≡ L.view look.old }
    ensures gives { Advances (run (L.view look.old) (L.trace look.old) (range_step (place_of place.now) (stack_of stack.old))) result (stack_of stack.new) (L.trace look.new) }
{
    let Some(last) = stack.pop() else {
        return Ok(());
    };
    let Some(first) = stack.pop() else {
        return Ok(stack.push(last)?);
    };
    let range = range_found(alloc, place, first, last, look)?;
    Ok(stack.push(range)?)
}

#[tactic(auto, using(read_record::proofs::CallLaws::binds))]
fn range_found<'a, L: Look>(
    alloc: Global,
    place: &Place<'a>,
    first: Found<'a>,
    last: Found<'a>,
    look: &mut L,
) -> Result<Found<'a>, Stop>
    ensures same { L.view look.new ≡ L.view look.old }
    ensures gives { Finds (run (L.view look.old) (L.trace look.old) (range_found (place_of place.now) (found_of first.entry) (found_of last.entry))) (in_found result) (L.trace look.new) }
{
    let first = first.into_value(alloc, place, look)?;
    range_from(alloc, place, &first, last, look)
}

// The range from a value.
#[tactic(auto, using(crate::proofs::PlaceLaws::settles))]
fn range_from<'a, L: Look>(
    alloc: Global,
    place: &Place<'a>,
    first: &Value,
    last: Found<'a>,
    look: &mut L,
) -> Result<Found<'a>, Stop>
    ensures same { L.view look.new ≡ L.view look.old }
    ensures gives { Finds (run (L.view look.old) (L.trace look.old) (operands.range_from (place_of place.now) (plain first.now) (found_of last.entry))) (in_found result) (L.trace look.new) }
{
    let last = last.into_value(alloc, place, look)?;
    let range = ranged(alloc, place, first, &last)?;
    Ok(Found::Value(range))
}

fn ranged<'a>(alloc: Global, place: &Place<'a>, first: &Value, last: &Value) -> Result<Value, Stop>
    ensures { FoundAt (place_of place.now) (operands.range_of (plain first.now) (plain last.now)) (in_plain result) }
{
    place.found(alloc, range_of(first, last))
}

fn range_of(first: &Value, last: &Value) -> Result<Value, FaultKind>
    ensures { in_plain result ≡ operands.range_of (plain first.now) (plain last.now) }
{
    Ok(Value::Range(num(first)?, num(last)?))
}
