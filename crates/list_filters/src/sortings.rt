// The filters that sort.
#![tactic(auto, using(filter_base::proofs::CallLaws::binds))]

ghost use Rattle.std.specs.Prelude.{◌≡◌, IfOk, map};
ghost use Rattle.std.specs.Char.{to_ascii_lowercase};
ghost use Rattle.site_base.specs.Values.{value_text};
ghost use Rattle.site_base.specs.View.{plain, items_of, pairs_of};
ghost use Rattle.read_record.specs.Queries.{run};
ghost use Rattle.filter_base.specs.Answers.{Finds, Gives, Makes, given};
ghost use Rattle.filter_base.specs.Keyed.{source};
ghost use Rattle.filter_base.specs.Taken.{found_source, source_of};
ghost use Rattle.list_filters.specs.Sortings.{named_place, names, natural, natural_items, naturally_sorted, nil_place, ordered, pair_list, pair_lists, sort, sort_by_arguments, sort_filter, sort_natural, sort_source};

use crate::key_order::{NilPlace, are_alike, sorted};
use filter_base::{Source, Stop, name_given, one_or_none, paired};
use read_record::Look;
use site_base::{FaultKind, List, Memory, Pair, Text, Value, copy, value_text};
use std::alloc::Global;

/// A filter that sorts.
#[derive(Clone, Copy, Debug, PartialEq, Eq)]
pub enum Sorting {
    Sort,
    SortNatural,
}

/// What a filter that sorts makes of an input and arguments, by the properties that it looks up. FilterArgument comes where it
/// takes other arguments, and Unlike where `sort` has keys that have no order.
pub fn sort_filter<L: Look>(
    alloc: Global,
    filter: Sorting,
    input: &Value,
    args: &[Value],
    look: &mut L,
) -> Result<Value, Stop>
    ensures same { L.view look.new ≡ L.view look.old }
    ensures gives { Gives (L.view look.old) (L.trace look.old) (sort_filter filter (plain input.now) (map plain args.now)) result (L.trace look.new) }
{
    match filter {
        Sorting::Sort => sort_by_arguments(alloc, input, args, look),
        Sorting::SortNatural => sort_natural(alloc, input, one_or_none(args)?, look),
    }
}

fn sort_by_arguments<L: Look>(
    alloc: Global,
    input: &Value,
    args: &[Value],
    look: &mut L,
) -> Result<Value, Stop>
    ensures same { L.view look.new ≡ L.view look.old }
    ensures gives { Gives (L.view look.old) (L.trace look.old) (sort_by_arguments (plain input.now) (map plain args.now)) result (L.trace look.new) }
{
    match args {
        [] => sort(alloc, input, None, NilPlace::First, look),
        [property] => sort(alloc, input, Some(property), NilPlace::First, look),
        [property, place] => sort(alloc, input, Some(property), nil_place(place)?, look),
        _ => Err(Stop::Fault(FaultKind::FilterArgument)),
    }
}

// The place that an argument names.
fn nil_place(argument: &Value) -> Result<NilPlace, FaultKind>
    ensures { result ≡ nil_place (plain argument.now) }
{
    match argument {
        Value::Text(text) => named_place(text.as_str()),
        _ => Err(FaultKind::FilterArgument),
    }
}

fn named_place(name: &str) -> Result<NilPlace, FaultKind>
    ensures { result ≡ named_place name.now }
{
    if name == "first" {
        Ok(NilPlace::First)
    } else if name == "last" {
        Ok(NilPlace::Last)
    } else {
        Err(FaultKind::FilterArgument)
    }
}

fn sort<L: Look>(
    alloc: Global,
    input: &Value,
    property: Option<&Value>,
    nils: NilPlace,
    look: &mut L,
) -> Result<Value, Stop>
    ensures same { L.view look.new ≡ L.view look.old }
    ensures gives { Gives (L.view look.old) (L.trace look.old) (sort (plain input.now) (given property.entry) nils) result (L.trace look.new) }
{
    let name = name_given(alloc, property)?;
    let source = sort_source(alloc, input, name, look)?;
    ordered(alloc, nils, &source)
}

// The elements with their keys; a hash without a property is its pairs, by their names.
fn sort_source<'a, L: Look>(
    alloc: Global,
    input: &'a Value,
    name: Option<Text>,
    look: &mut L,
) -> Result<Source<'a>, Stop>
    ensures same { L.view look.new ≡ L.view look.old }
    ensures gives { Finds (run (L.view look.old) (L.trace look.old) (sort_source name (plain input.now))) (found_source result) (L.trace look.new) }
{
    match input {
        Value::Hash(hash) => match name {
            None => Ok(pair_source(alloc, hash.as_slice())?),
            Some(name) => Source::keyed(alloc, input, Some(name), look),
        },
        _ => Source::keyed(alloc, input, name, look),
    }
}

fn pair_source<'a>(alloc: Global, pairs: &[Pair]) -> Result<Source<'a>, Memory>
    ensures { IfOk result (λ made. source_of made ≡ source (pair_lists (pairs_of pairs.now)) (names (pairs_of pairs.now))) }
{
    Ok(Source::made(pair_lists(alloc, pairs)?, names(alloc, pairs)?))
}

fn pair_lists(alloc: Global, pairs: &[Pair]) -> Result<List, Memory>
    ensures { IfOk result (λ list. list ≡ pair_lists (pairs_of pairs.now)) }
{
    let mut lists = List::with_capacity(alloc, pairs.len())?;
    for pair in pairs {
        lists.push(Value::List(pair_list(alloc, pair)?))?;
    }
    Ok(lists)
}

fn pair_list(alloc: Global, pair: &Pair) -> Result<List, Memory>
    ensures { IfOk result (λ list. list ≡ pair_list pair.now.key (plain pair.now.value)) }
{
    let mut list = List::with_capacity(alloc, 2)?;
    list.push(Value::Text(pair.key.share(alloc)?))?;
    list.push(copy(alloc, &pair.value)?)?;
    Ok(list)
}

fn names(alloc: Global, pairs: &[Pair]) -> Result<List, Memory>
    ensures { IfOk result (λ list. list ≡ names (pairs_of pairs.now)) }
{
    let mut list = List::with_capacity(alloc, pairs.len())?;
    for pair in pairs {
        list.push(Value::Text(pair.key.share(alloc)?))?;
    }
    Ok(list)
}

fn ordered(alloc: Global, nils: NilPlace, source: &Source<'_>) -> Result<Value, Stop>
    ensures { Makes (ordered nils (source_of source.now)) result }
{
    if are_alike(source.keys()) {
        let entries = source.entries(alloc)?;
        Ok(Value::List(sorted(alloc, nils, entries)?))
    } else {
        Err(Stop::Fault(FaultKind::Unlike))
    }
}

fn sort_natural<L: Look>(
    alloc: Global,
    input: &Value,
    property: Option<&Value>,
    look: &mut L,
) -> Result<Value, Stop>
    ensures same { L.view look.new ≡ L.view look.old }
    ensures gives { Gives (L.view look.old) (L.trace look.old) (sort_natural (plain input.now) (given property.entry)) result (L.trace look.new) }
{
    let source = Source::keyed_by(alloc, input, property, look)?;
    Ok(Value::List(naturally_sorted(alloc, &source)?))
}

fn naturally_sorted(alloc: Global, source: &Source<'_>) -> Result<List, Memory>
    ensures { IfOk result (λ list. list ≡ naturally_sorted (source_of source.now)) }
{
    let keys = natural_keys(alloc, source.keys())?;
    let entries = paired(alloc, source.elements(), keys.as_slice())?;
    sorted(alloc, NilPlace::First, entries)
}

fn natural_keys(alloc: Global, keys: &[Value]) -> Result<List, Memory>
    ensures { IfOk result (λ list. list ≡ natural_items (items_of keys.now)) }
{
    let mut list = List::with_capacity(alloc, keys.len())?;
    for key in keys {
        list.push(natural(alloc, key)?)?;
    }
    Ok(list)
}

// The text of what is not nil, in small letters.
fn natural(alloc: Global, key: &Value) -> Result<Value, Memory>
    ensures { IfOk result (λ made. plain made ≡ natural (plain key.now)) }
{
    match key {
        Value::Nil => Ok(Value::Nil),
        _ => Ok(Value::Text(small_text(alloc, key)?)),
    }
}

fn small_text(alloc: Global, key: &Value) -> Result<Text, Memory>
    ensures { IfOk result (λ made. made ≡ map to_ascii_lowercase (value_text (plain key.now))) }
{
    let text = value_text(alloc, key)?;
    Text::from_string(text.as_str().to_ascii_lowercase(alloc)?)
}
