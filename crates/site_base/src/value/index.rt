// What finds the pairs of a hash where they are many.
ghost use Rattle.std.specs.Prelude.{◌≡◌, ◌++◌, ◌∷◌, [], Some, None, OnOk, OnErr, IfOk, ℕ, ◌==◌, ◌<◌, ◌-◌, length, take, position, if◌then◌else◌};
ghost use Rattle.std.specs.Option.{option_or};
ghost use Rattle.std.specs.Ordering.{nat_cmp};
ghost use Rattle.std.specs.BTreeMap.{get};
ghost use Rattle.std.specs.Str.{bytes_eq};
ghost use Rattle.site_base.specs.Fingerprints.{fingerprint, IsIndex, IsIndexed};

use crate::value::room::add;
use crate::{Memory, Pair};
use std::alloc::Global;
use std::collections::BTreeMap;
use std::hash::{DefaultHasher, Hasher};

/// How many pairs are looked through one by one, however often.
const FEW: usize = 16;

/// The place of the first pair with the key.
pub(crate) fn place_in(pairs: &[Pair], places: &BTreeMap<u64, usize>, key: &str) -> Option<usize>
    requires { IsIndexed pairs.now places.now }
    ensures { result ≡ position (λ pair. bytes_eq key.now pair.key) pairs.now }
{
    if places.is_empty() {
        return place_of(key, pairs);
    }
    match places.get(&fingerprint(key)) {
        Some(place) => place_from(*place, key, pairs),
        None => None,
    }
}

// The same, where this is the first place with the key's fingerprint.
fn place_from(place: usize, key: &str, pairs: &[Pair]) -> Option<usize>
    requires { Some place ≡ position (λ pair. fingerprint pair.key == fingerprint key.now) pairs.now }
    ensures { result ≡ position (λ pair. bytes_eq key.now pair.key) pairs.now }
{
    if pairs[place].key.as_str() == key {
        Some(place)
    } else {
        place_of(key, pairs)
    }
}

// The same, looked for among all pairs.
fn place_of(key: &str, pairs: &[Pair]) -> Option<usize>
    ensures { result ≡ position (λ pair. bytes_eq key.now pair.key) pairs.now }
{
    pairs
        .iter()
        .position(|pair| pair.key.as_bytes() == key.as_bytes())
}

/// Adds a pair at the end, and notes it where the others are noted.
pub(crate) fn add_pair(
    pairs: &mut Vec<Pair>,
    places: &mut BTreeMap<u64, usize>,
    pair: Pair,
) -> Result<(), Memory>
    requires { IsIndexed pairs.old.items places.old }
    ensures ok { OnOk result (pairs.new.items ≡ pairs.old.items ++ pair ∷ []) }
    ensures err { OnErr result (pairs.new.items ≡ pairs.old.items) }
    ensures indexed { IsIndexed pairs.new.items places.new }
{
    add(pairs, pair)?;
    match note_last(places, pairs.as_slice()) {
        Ok(()) => Ok(()),
        Err(Memory) => {
            let _ = pairs.pop();
            Err(Memory)
        }
    }
}

fn note_last(places: &mut BTreeMap<u64, usize>, pairs: &[Pair]) -> Result<(), Memory>
    requires some { 0 < length pairs.now }
    requires noted { IsIndexed (take (length pairs.now - 1) pairs.now) places.old }
    ensures ok { OnOk result (IsIndexed pairs.now places.new) }
    ensures err { OnErr result (IsIndexed (take (length pairs.now - 1) pairs.now) places.new) }
{
    if places.is_empty() {
        return Ok(());
    }
    let last = pairs.len() - 1;
    note(places, pairs[last].key.as_str(), last)
}

/// Notes all pairs where none is and they are many.
pub(crate) fn note_many(
    alloc: Global,
    pairs: &[Pair],
    places: &mut BTreeMap<u64, usize>,
) -> Result<(), Memory>
    requires { IsIndexed pairs.now places.old }
    ensures { IsIndexed pairs.now places.new }
{
    if places.is_empty() && pairs.len() > FEW {
        *places = index_of(alloc, pairs)?;
    }
    Ok(())
}

/// The index of pairs.
pub(crate) fn index_of(alloc: Global, pairs: &[Pair]) -> Result<BTreeMap<u64, usize>, Memory>
    ensures { IfOk result (λ places. IsIndex pairs.now places) }
{
    let mut places = BTreeMap::new(alloc);
    for (place, pair) in pairs.iter().enumerate() {
        note(&mut places, pair.key.as_str(), place)?;
    }
    Ok(places)
}

// Notes the place of a pair behind all others.
fn note(places: &mut BTreeMap<u64, usize>, key: &str, place: usize) -> Result<(), Memory>
    ensures ok { OnOk result ((print : ℕ) → get nat_cmp places.new print
        ≡ option_or (get nat_cmp places.old print) (if fingerprint key.now == print then Some place else None)) }
    ensures err { OnErr result ((print : ℕ) → get nat_cmp places.new print ≡ get nat_cmp places.old print) }
{
    places.entry(fingerprint(key))?.or_insert(place);
    Ok(())
}

/// A number that two keys hardly share: nobody knows how to choose many keys that do.
fn fingerprint(key: &str) -> u64
    ensures { result ≡ fingerprint key.now }
{
    let mut hasher = DefaultHasher::new();
    hasher.write(key.as_bytes());
    hasher.finish()
}
