// Flow lists and hashes.
ghost use Rattle.std.specs.Prelude.{◌≡◌, true, length};
ghost use Rattle.front_yaml.specs.Extents.{begins_value};
ghost use Rattle.front_yaml.specs.Flow.{node, part, items, with_items, pair_value, entry, hash_pairs, pairs, with_pairs, list_value, hash_value, collection, flow};
ghost use Rattle.front_yaml.specs.Given.{ReadsAt, ReadsAs, ReadsSized, ReadsEntry, ReadsItem, ReadsPair, Fits, FitsBy, EntryFits, PartFits};

use crate::extents::{begins_value, is_closed};
use crate::faults::PlaceError;
use crate::flow_parts::{Part, separator_from};
use crate::flow_scalars::{key, scalar};
use crate::gaps::skip;
use crate::growth::put;
use crate::scans::{starts, tail};
use site_base::{Hash, List, Text, Value, YamlKind};
use std::alloc::Global;

// The value at the front, in which some more lists and hashes may nest, and its bytes.
#[cycle(flow)]
fn node(alloc: Global, depth: u32, text: &[u8]) -> Result<(Value, usize), PlaceError>
    ensures value { ReadsSized result (node (collection depth) text.now) }
    ensures within { Fits (length text.now) result }
{
    if begins_value(text) {
        collection(alloc, depth, text)
    } else {
        scalar(alloc, text)
    }
}

// The list or hash at the front, and its bytes.
#[cycle(flow)]
fn collection(alloc: Global, depth: u32, text: &[u8]) -> Result<(Value, usize), PlaceError>
    requires { begins_value text.now ≡ true }
    ensures value { ReadsSized result (collection depth text.now) }
    ensures within { Fits (length text.now) result }
{
    if depth == 0 {
        return Err(PlaceError::at(0, YamlKind::Depth));
    }
    if starts(text, b'[') {
        list(alloc, depth - 1, text)
    } else {
        hash(alloc, depth - 1, text)
    }
}

// The list whose `[` stands at the front, and its bytes.
#[cycle(flow)]
fn list(alloc: Global, depth: u32, text: &[u8]) -> Result<(Value, usize), PlaceError>
    requires { begins_value text.now ≡ true }
    ensures value { ReadsSized result (list_value (node (collection depth)) text.now) }
    ensures within { Fits (length text.now) result }
{
    match items(alloc, depth, tail(text, 1)) {
        Ok((list, len)) => Ok((Value::List(list), len + 1)),
        Err(PlaceError::Fault(fault)) => Err(fault.further(1)),
        Err(PlaceError::Memory) => Err(PlaceError::Memory),
    }
}

// The hash whose `{` stands at the front, and its bytes.
#[cycle(flow)]
fn hash(alloc: Global, depth: u32, text: &[u8]) -> Result<(Value, usize), PlaceError>
    requires { begins_value text.now ≡ true }
    ensures value { ReadsSized result (hash_value (node (collection depth)) text.now) }
    ensures within { Fits (length text.now) result }
{
    match pairs(alloc, depth, tail(text, 1)) {
        Ok((pairs, len)) => Ok((Value::Hash(pairs), len + 1)),
        Err(PlaceError::Fault(fault)) => Err(fault.further(1)),
        Err(PlaceError::Memory) => Err(PlaceError::Memory),
    }
}

// The items up to the bracket that closes their list, and their bytes with it.
#[cycle(flow)]
fn items(alloc: Global, depth: u32, text: &[u8]) -> Result<(List, usize), PlaceError>
    ensures value { ReadsAt result (items (node (collection depth)) text.now) }
    ensures within { Fits (length text.now) result }
{
    let mut items = List::new(alloc);
    match add_items(alloc, depth, text, &mut items) {
        Ok(len) => Ok((items, len)),
        Err(error) => Err(error),
    }
}

// Adds the items up to the bracket that closes their list, and tells their bytes with it.
#[cycle(flow)]
fn add_items(alloc: Global, depth: u32, text: &[u8], list: &mut List) -> Result<usize, PlaceError>
    ensures value { ReadsAs (λ len. (list.new, len)) result (with_items 0 list.old (items (node (collection depth)) text.now)) }
    ensures within { FitsBy (λ len. len) (length text.now) result }
{
    let mut n = 0;
    while n < text.len() {
        match item_part(alloc, depth, tail(text, n)) {
            Ok(Part::Shut(len)) => return Ok(n + len + 1),
            Ok(Part::Last(value, len)) => {
                list.push(value)?;
                return Ok(n + len + 1);
            }
            Ok(Part::More(value, len)) => {
                list.push(value)?;
                n += len + 1;
            }
            Err(PlaceError::Fault(fault)) => return Err(fault.further(n)),
            Err(PlaceError::Memory) => return Err(PlaceError::Memory),
        }
    }
    Err(PlaceError::at(n, YamlKind::Flow))
}

// What stands in a list up to the next separator.
#[cycle(flow)]
fn item_part(alloc: Global, depth: u32, text: &[u8]) -> Result<Part<Value>, PlaceError>
    ensures value { ReadsItem result (part 93 (node (collection depth)) text.now) }
    ensures within { PartFits (length text.now) result }
{
    let gap = match skip(true, text) {
        Ok(gap) => gap,
        Err(error) => return Err(error),
    };
    let rest = tail(text, gap);
    if starts(rest, b']') {
        return Ok(Part::Shut(gap));
    }
    let (value, len) = match node(alloc, depth, rest) {
        Ok(found) => found,
        Err(PlaceError::Fault(fault)) => return Err(fault.further(gap)),
        Err(PlaceError::Memory) => return Err(PlaceError::Memory),
    };
    match separator_from(b']', text, gap + len) {
        Ok((true, more)) => Ok(Part::Last(value, gap + len + more)),
        Ok((false, more)) => Ok(Part::More(value, gap + len + more)),
        Err(error) => {
            drop(value);
            Err(error)
        }
    }
}

// The pairs up to the bracket that closes their hash, and their bytes with it.
#[cycle(flow)]
fn pairs(alloc: Global, depth: u32, text: &[u8]) -> Result<(Hash, usize), PlaceError>
    ensures value { ReadsAt result (hash_pairs (node (collection depth)) text.now) }
    ensures within { Fits (length text.now) result }
{
    let mut pairs = Hash::new(alloc);
    match add_pairs(alloc, depth, text, &mut pairs) {
        Ok(len) => Ok((pairs, len)),
        Err(error) => Err(error),
    }
}

// Adds the pairs up to the bracket that closes their hash, and tells their bytes with it.
#[cycle(flow)]
fn add_pairs(alloc: Global, depth: u32, text: &[u8], hash: &mut Hash) -> Result<usize, PlaceError>
    ensures value { ReadsAs (λ len. (hash.new, len)) result (with_pairs 0 hash.old (pairs (node (collection depth)) text.now)) }
    ensures within { FitsBy (λ len. len) (length text.now) result }
{
    let mut n = 0;
    while n < text.len() {
        match pair_part(alloc, depth, tail(text, n)) {
            Ok(Part::Shut(len)) => return Ok(n + len + 1),
            Ok(Part::Last(pair, len)) => {
                put(hash, pair.0, pair.1)?;
                return Ok(n + len + 1);
            }
            Ok(Part::More(pair, len)) => {
                put(hash, pair.0, pair.1)?;
                n += len + 1;
            }
            Err(PlaceError::Fault(fault)) => return Err(fault.further(n)),
            Err(PlaceError::Memory) => return Err(PlaceError::Memory),
        }
    }
    Err(PlaceError::at(n, YamlKind::Flow))
}

// What stands in a hash up to the next separator.
#[cycle(flow)]
fn pair_part(alloc: Global, depth: u32, text: &[u8]) -> Result<Part<(Text, Value)>, PlaceError>
    ensures value { ReadsPair result (part 125 (entry (node (collection depth))) text.now) }
    ensures within { PartFits (length text.now) result }
{
    let gap = match skip(true, text) {
        Ok(gap) => gap,
        Err(error) => return Err(error),
    };
    let rest = tail(text, gap);
    if starts(rest, b'}') {
        return Ok(Part::Shut(gap));
    }
    let (name, value, len) = match entry(alloc, depth, rest) {
        Ok(found) => found,
        Err(PlaceError::Fault(fault)) => return Err(fault.further(gap)),
        Err(PlaceError::Memory) => return Err(PlaceError::Memory),
    };
    match separator_from(b'}', text, gap + len) {
        Ok((true, more)) => Ok(Part::Last((name, value), gap + len + more)),
        Ok((false, more)) => Ok(Part::More((name, value), gap + len + more)),
        Err(error) => {
            drop(value);
            Err(error)
        }
    }
}

// The key at the front with its value, and their bytes.
#[cycle(flow)]
fn entry(alloc: Global, depth: u32, text: &[u8]) -> Result<(Text, Value, usize), PlaceError>
    ensures value { ReadsEntry result (entry (node (collection depth)) text.now) }
    ensures within { EntryFits (length text.now) result }
{
    let (name, len) = match key(alloc, text) {
        Ok(found) => found,
        Err(error) => return Err(error),
    };
    match pair_value(alloc, depth, tail(text, len)) {
        Ok((value, more)) => Ok((name, value, len + more)),
        Err(PlaceError::Fault(fault)) => Err(fault.further(len)),
        Err(PlaceError::Memory) => Err(PlaceError::Memory),
    }
}

// The value of a key, which may be nothing, and its bytes.
#[cycle(flow)]
fn pair_value(alloc: Global, depth: u32, text: &[u8]) -> Result<(Value, usize), PlaceError>
    ensures value { ReadsSized result (pair_value (node (collection depth)) text.now) }
    ensures within { Fits (length text.now) result }
{
    let gap = match skip(true, text) {
        Ok(gap) => gap,
        Err(error) => return Err(error),
    };
    let rest = tail(text, gap);
    if starts(rest, b',') || starts(rest, b'}') {
        return Ok((Value::Nil, gap));
    }
    match node(alloc, depth, rest) {
        Ok((value, len)) => Ok((value, gap + len)),
        Err(PlaceError::Fault(fault)) => Err(fault.further(gap)),
        Err(PlaceError::Memory) => Err(PlaceError::Memory),
    }
}

/// The flow value at the front, in which at most `depth` lists and hashes nest, and its bytes.
pub(crate) fn flow(alloc: Global, depth: u32, text: &[u8]) -> Result<(Value, usize), PlaceError>
    requires { begins_value text.now ≡ true }
    ensures value { ReadsSized result (flow depth text.now) }
    ensures within { Fits (length text.now) result }
{
    if is_closed(text) {
        collection(alloc, depth, text)
    } else {
        Err(PlaceError::at(0, YamlKind::Flow))
    }
}
