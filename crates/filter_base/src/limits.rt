// What a filter may give: how long a text may be, and how deep a value may nest.
ghost use Rattle.std.specs.Prelude.{◌≡◌, nat_le};
ghost use Rattle.site_base.specs.View.{plain, items_of, pairs_of};
ghost use Rattle.filter_base.specs.Answers.{fitted, finished};
ghost use Rattle.filter_base.specs.Limits.{nests, items_nest, pairs_nest, text_excess, nesting_excess, excess};

use crate::stop::{Filtered, Stop};
use site_base::{FaultKind, Pair, Value};

/// The most bytes of a text that is made.
pub const MOST_TEXT: usize = 16_777_216;

/// How deep a value may nest that is made.
const MOST_NESTING: u64 = 1000;

/// The most numbers of a range that are laid out.
pub(crate) const MOST_COUNTED: u64 = 1_000_000;

/// What a filter answers that made this: a value that is too long or nests too deep is a fault.
pub fn finished(found: Result<Value, Stop>) -> Filtered
    ensures { result ≡ finished found }
{
    match found {
        Ok(value) => fitted(value),
        Err(stop) => Filtered::from(stop),
    }
}

fn fitted(value: Value) -> Filtered
    ensures { result ≡ fitted value }
{
    match fault_of(&value) {
        Some(kind) => Filtered::Fault(kind),
        None => Filtered::Value(value),
    }
}

// What is too long or nests too deep.
fn fault_of(value: &Value) -> Option<FaultKind>
    ensures { result ≡ excess (plain value.now) }
{
    match value {
        Value::Text(text) => text_fault(text.len()),
        Value::List(_) => nesting_fault(nests_within(value, MOST_NESTING)),
        Value::Hash(_) => nesting_fault(nests_within(value, MOST_NESTING)),
        _ => None,
    }
}

fn text_fault(len: usize) -> Option<FaultKind>
    ensures { result ≡ text_excess len }
{
    if len > MOST_TEXT {
        Some(FaultKind::OutputTooLong)
    } else {
        None
    }
}

fn nesting_fault(within: bool) -> Option<FaultKind>
    ensures { result ≡ nesting_excess within }
{
    if within {
        None
    } else {
        Some(FaultKind::Nesting)
    }
}

// Whether a value nests no deeper.
#[cycle(nesting)]
fn nests_within(value: &Value, most: u64) -> bool
    ensures { result ≡ nat_le (nests (plain value.now)) most }
{
    match value {
        Value::List(list) => most > 0 && items_within(list.as_slice(), most - 1),
        Value::Hash(hash) => most > 0 && pairs_within(hash.as_slice(), most - 1),
        _ => true,
    }
}

#[cycle(nesting)]
fn items_within(items: &[Value], most: u64) -> bool
    ensures { result ≡ nat_le (items_nest (items_of items.now)) most }
{
    for item in items {
        if !nests_within(item, most) {
            return false;
        }
    }
    true
}

#[cycle(nesting)]
fn pairs_within(pairs: &[Pair], most: u64) -> bool
    ensures { result ≡ nat_le (pairs_nest (pairs_of pairs.now)) most }
{
    for pair in pairs {
        if !nests_within(&pair.value, most) {
            return false;
        }
    }
    true
}
