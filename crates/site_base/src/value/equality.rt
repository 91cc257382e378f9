// Whether two values are equal, and in which order they stand.
ghost use Rattle.std.specs.Prelude.{◌≡◌, ◌↔◌, IsTrue};
ghost use Rattle.std.specs.Result.{result_ok};
ghost use Rattle.site_base.specs.Plain.{no_pairs, pair};
ghost use Rattle.site_base.specs.Values.{is_true, order};
ghost use Rattle.site_base.specs.View.{plain, items_of, pairs_of};

use crate::{Hash, List, Pair, Value};
use std::cmp::Ordering;

/// Two values of kinds that have no order between them.
#[derive(Clone, Copy, Debug, PartialEq, Eq)]
pub struct Unlike;

/// Whether a value passes as a condition: only nil and `false` do not.
pub fn is_true(value: &Value) -> bool
    ensures { result ≡ is_true (plain value.now) }
{
    match value {
        Value::Nil => false,
        Value::Bool(is_set) => *is_set,
        _ => true,
    }
}

/// The order of two numbers, or of two texts by their bytes. `Unlike` comes exactly for every other pair.
pub fn compare(left: &Value, right: &Value) -> Result<Ordering, Unlike>
    ensures { result_ok result ≡ order (plain left.now) (plain right.now) }
{
    match (left, right) {
        (Value::Int(left), Value::Int(right)) => Ok(left.cmp(right)),
        (Value::Text(left), Value::Text(right)) => Ok(left.as_str().cmp(right.as_str())),
        _ => Err(Unlike),
    }
}

/// Whether two values are equal: of one kind, with equal parts in one order.
#[cycle(equals)]
pub fn equals(left: &Value, right: &Value) -> bool
    ensures { IsTrue result ↔ (plain left.now ≡ plain right.now) }
{
    match (left, right) {
        (Value::Nil, Value::Nil) => true,
        (Value::Bool(left), Value::Bool(right)) => *left == *right,
        (Value::Int(left), Value::Int(right)) => *left == *right,
        (Value::Text(left), Value::Text(right)) => left.as_str() == right.as_str(),
        (Value::List(left), Value::List(right)) => left.is_same(right),
        (Value::Hash(left), Value::Hash(right)) => left.is_same(right),
        (Value::Item(left), Value::Item(right)) => *left == *right,
        (Value::Range(first, last), Value::Range(other_first, other_last)) => {
            *first == *other_first && *last == *other_last
        }
        _ => false,
    }
}

impl List {
    #[cycle(equals)]
    fn is_same(&self, other: &List) -> bool
        ensures { IsTrue result ↔ (self.now ≡ other.now) }
    {
        are_same(self.as_slice(), other.as_slice())
    }
}

impl Hash {
    #[cycle(equals)]
    fn is_same(&self, other: &Hash) -> bool
        ensures { IsTrue result ↔ (self.now ≡ other.now) }
    {
        are_same_pairs(self.as_slice(), other.as_slice())
    }
}

#[cycle(equals)]
fn are_same(left: &[Value], right: &[Value]) -> bool
    ensures { IsTrue result ↔ (items_of left.now ≡ items_of right.now) }
{
    if left.len() != right.len() {
        return false;
    }
    for (place, value) in left.iter().enumerate() {
        if !equals(value, &right[place]) {
            return false;
        }
    }
    true
}

#[cycle(equals)]
fn are_same_pairs(left: &[Pair], right: &[Pair]) -> bool
    ensures { IsTrue result ↔ (pairs_of left.now ≡ pairs_of right.now) }
{
    if left.len() != right.len() {
        return false;
    }
    for (place, pair) in left.iter().enumerate() {
        if !pair.is_same(&right[place]) {
            return false;
        }
    }
    true
}

impl Pair {
    #[cycle(equals)]
    fn is_same(&self, other: &Pair) -> bool
        ensures { IsTrue result ↔ (pair self.now.key (plain self.now.value) no_pairs ≡ pair other.now.key (plain other.now.value) no_pairs) }
    {
        self.key.as_str() == other.key.as_str() && equals(&self.value, &other.value)
    }
}
