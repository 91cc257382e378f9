// Conditions.
ghost use Rattle.std.specs.Prelude.{◌≡◌, IfOk};
ghost use Rattle.site_base.specs.View.{plain};
ghost use Rattle.read_record.specs.Queries.{run};
ghost use Rattle.read_record.specs.Answers.{Finds};
ghost use Rattle.liquid_values.specs.Standing.{place_of};
ghost use Rattle.liquid_tags.specs.Conditions as conditions;
ghost use Rattle.list_filters.specs.Choosing.{same_value};
ghost use Rattle.liquid_tags.specs.Conditions.{right_of, step_right, literal_right, equals_right, is_empty, is_white_text, is_nil, ordered, is_for, stands_in, is_element, holds, contains, compare, compared_with, decides};

use crate::blanks::is_white_space;
use filter_base::is_blank;
use liquid_grammar::{Comparison, Condition, Joint, Literal, Operand, Step, Test};
use liquid_values::{Excerpts, Place, Stop, operand};
use read_record::Look;
use site_base::{FaultKind, Hash, List, Memory, Value, equals, is_true, value_text};
use std::alloc::Global;
use std::cmp::Ordering;

/// Whether a condition holds, where its tag stands at a place, by the variables that were assigned. Its tests are read from the right,
/// and no more of them are made than decide.
///
/// It stops at the first fault: those of operands, and Unlike where values are put in order that have none.
#[tactic(auto, using(read_record::proofs::CallLaws::binds))]
pub fn condition<'a, X: Excerpts, L: Look>(
    alloc: Global,
    excerpts: &mut X,
    place: &Place<'a>,
    assigned: &Hash,
    condition: &Condition,
    look: &mut L,
) -> Result<bool, Stop>
    ensures same { L.view look.new ≡ L.view look.old }
    ensures gives { Finds (run (L.view look.old) (L.trace look.old) (conditions.condition (X.excerpts place.now.levels) (place_of place.now) assigned.now condition.now)) result (L.trace look.new) }
{
    let mut current = &condition.first;
    for joined in condition.rest.as_slice() {
        let holds = test(alloc, excerpts, place, assigned, current, look)?;
        if decides(joined.joint, holds) {
            return Ok(holds);
        }
        current = &joined.test;
    }
    test(alloc, excerpts, place, assigned, current, look)
}

// `and` is decided by what does not hold, `or` by what holds.
fn decides(joint: Joint, holds: bool) -> bool
    ensures { result ≡ decides joint holds }
{
    match joint {
        Joint::And => !holds,
        Joint::Or => holds,
    }
}

#[tactic(auto, using(liquid_values::proofs::PlaceLaws::settles))]
fn test<'a, X: Excerpts, L: Look>(
    alloc: Global,
    excerpts: &mut X,
    place: &Place<'a>,
    assigned: &Hash,
    test: &Test,
    look: &mut L,
) -> Result<bool, Stop>
    ensures same { L.view look.new ≡ L.view look.old }
    ensures gives { Finds (run (L.view look.old) (L.trace look.old) (conditions.test (X.excerpts place.now.levels) (place_of place.now) assigned.now test.now)) result (L.trace look.new) }
{
    match test {
        Test::Holds(each) => {
            let value = operand(alloc, excerpts, place, assigned, each, look)?;
            Ok(is_true(&value))
        }
        Test::Compares(left, how, right) => {
            let value = operand(alloc, excerpts, place, assigned, left.get(), look)?;
            compare_with(
                alloc,
                excerpts,
                place,
                assigned,
                &value,
                *how,
                right.get(),
                look,
            )
        }
    }
}

// Whether a comparison of a value with that of an operand holds.
#[tactic(auto, using(liquid_values::proofs::PlaceLaws::settles))]
fn compare_with<'a, X: Excerpts, L: Look>(
    alloc: Global,
    excerpts: &mut X,
    place: &Place<'a>,
    assigned: &Hash,
    value: &Value,
    how: Comparison,
    right: &Operand,
    look: &mut L,
) -> Result<bool, Stop>
    ensures same { L.view look.new ≡ L.view look.old }
    ensures gives { Finds (run (L.view look.old) (L.trace look.old) (compared_with (X.excerpts place.now.levels) (place_of place.now) assigned.now (plain value.now) how right.now)) result (L.trace look.new) }
{
    let other = operand(alloc, excerpts, place, assigned, right, look)?;
    let found = compare(alloc, how, right_of(right), value, &other)?;
    place.found(alloc, found)
}

/// What a comparison has on its right: the words `empty` and `blank` stand for no values.
#[derive(Clone, Copy)]
pub(crate) enum Right {
    Empty,
    Blank,
    Value,
}

#[tactic(auto, using(crate::proofs::ConditionLaws::rights))]
fn right_of(operand: &Operand) -> Right
    ensures { result ≡ right_of operand.now }
{
    match operand.steps() {
        [only] => step_right(only),
        _ => Right::Value,
    }
}

fn step_right(step: &Step) -> Right
    ensures { result ≡ step_right step.now }
{
    match step {
        Step::Literal(literal) => literal_right(literal),
        Step::Variable(_) | Step::Member(_) | Step::Index | Step::FirstEnd | Step::Range =>
            Right::Value,
    }
}

fn literal_right(literal: &Literal) -> Right
    ensures { result ≡ literal_right literal.now }
{
    match literal {
        Literal::Empty => Right::Empty,
        Literal::Blank => Right::Blank,
        Literal::Nil | Literal::Bool(_) | Literal::Int(_) | Literal::Text(_) => Right::Value,
    }
}

fn compare(
    alloc: Global,
    how: Comparison,
    right: Right,
    value: &Value,
    other: &Value,
) -> Result<Result<bool, FaultKind>, Memory>
    ensures { IfOk result (λ found. found ≡ compare how right (plain value.now) (plain other.now)) }
{
    match how {
        Comparison::Equal => Ok(Ok(equals_right(right, value, other))),
        Comparison::Unequal => Ok(Ok(!equals_right(right, value, other))),
        Comparison::Less => Ok(ordered(how, value, other)),
        Comparison::Greater => Ok(ordered(how, value, other)),
        Comparison::AtMost => Ok(ordered(how, value, other)),
        Comparison::AtLeast => Ok(ordered(how, value, other)),
        Comparison::Contains => Ok(Ok(contains(alloc, value, other)?)),
    }
}

/// Whether two values are equal.
pub(crate) fn is_same(value: &Value, other: &Value) -> bool
    ensures { result ≡ same_value (plain value.now) (plain other.now) }
{
    equals(value, other)
}

fn equals_right(right: Right, value: &Value, other: &Value) -> bool
    ensures { result ≡ equals_right right (plain value.now) (plain other.now) }
{
    match right {
        Right::Empty => is_empty(value),
        Right::Blank => is_blank(value) || is_white_text(value),
        Right::Value => is_same(value, other),
    }
}

fn is_empty(value: &Value) -> bool
    ensures { result ≡ is_empty (plain value.now) }
{
    match value {
        Value::Text(text) => text.len() == 0,
        Value::List(list) => list.len() == 0,
        Value::Hash(hash) => hash.len() == 0,
        _ => false,
    }
}

fn is_white_text(value: &Value) -> bool
    ensures { result ≡ is_white_text (plain value.now) }
{
    match value {
        Value::Text(text) => is_white_space(text.as_bytes()),
        _ => false,
    }
}

/// Whether a value is nil.
pub fn is_nil(value: &Value) -> bool
    ensures { result ≡ is_nil (plain value.now) }
{
    matches!(value, Value::Nil)
}

// Nil has no order with anything.
fn ordered(how: Comparison, value: &Value, other: &Value) -> Result<bool, FaultKind>
    ensures { result ≡ ordered how (plain value.now) (plain other.now) }
{
    if is_nil(value) || is_nil(other) {
        return Ok(false);
    }
    match site_base::compare(value, other) {
        Ok(order) => Ok(is_for(how, order)),
        Err(_) => Err(FaultKind::Unlike),
    }
}

// Whether an order is one that the comparison is for.
fn is_for(how: Comparison, order: Ordering) -> bool
    ensures { result ≡ is_for how order }
{
    match how {
        Comparison::Less => order.is_lt(),
        Comparison::Greater => order.is_gt(),
        Comparison::AtMost => order.is_le(),
        Comparison::AtLeast => order.is_ge(),
        _ => false,
    }
}

fn contains(alloc: Global, value: &Value, other: &Value) -> Result<bool, Memory>
    ensures { IfOk result (λ found. found ≡ contains (plain value.now) (plain other.now)) }
{
    if is_true(value) && is_true(other) {
        holds(alloc, value, other)
    } else {
        Ok(false)
    }
}

// Whether the text of a value stands in a text, a value in a list, or its text among the keys of a hash.
fn holds(alloc: Global, value: &Value, other: &Value) -> Result<bool, Memory>
    ensures { IfOk result (λ found. found ≡ holds (plain value.now) (plain other.now)) }
{
    match value {
        Value::Text(text) => {
            let part = value_text(alloc, other)?;
            Ok(stands_in(part.as_str(), text.as_str()))
        }
        Value::List(list) => Ok(is_element(other, list)),
        Value::Hash(hash) => {
            let key = value_text(alloc, other)?;
            Ok(hash.get(key.as_str()).is_some())
        }
        _ => Ok(false),
    }
}

fn stands_in(part: &str, text: &str) -> bool
    ensures { result ≡ stands_in part.now text.now }
{
    text.contains(part)
}

fn is_element(value: &Value, list: &List) -> bool
    ensures { result ≡ is_element (plain value.now) list.now }
{
    list.as_slice().iter().any(|each| is_same(value, each))
}
