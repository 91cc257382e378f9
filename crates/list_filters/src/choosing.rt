// What is chosen among elements, by their keys.
ghost use Rattle.std.specs.Prelude.{◌≡◌, [], IfOk, OnOk, map};
ghost use Rattle.site_base.specs.Plain.{no_items, onto};
ghost use Rattle.site_base.specs.View.{plain, items_of};
ghost use Rattle.filter_base.specs.Keyed.{entries};
ghost use Rattle.filter_base.specs.Taken.{entry_of, source_of};
ghost use Rattle.list_filters.specs.Choosing.{any_has_text, chosen, first_of_each, has_text, is_filled, is_wanted, item_if, shows_text};
ghost use Rattle.list_filters.specs.Tests.{passes};

use filter_base::{Entry, Source};
use site_base::{List, Memory, Text, Value, code, copy, value_text};
use std::alloc::Global;
use std::collections::HashSet;

/// What is asked of a key.
#[derive(Drop)]
pub(crate) enum Test {
    Filled,
    Empty,
    /// That it has this text, or is a list of which an element has it.
    Shows(Text),
}

/// The elements whose key is what is wanted.
pub(crate) fn wanted_of(alloc: Global, source: &Source<'_>, wanted: &Value) -> Result<List, Memory>
    ensures { IfOk result (λ list. list ≡ chosen (is_wanted (plain wanted.now)) (entries (source_of source.now))) }
{
    match wanted {
        Value::Nil => chosen(alloc, source, &Test::Empty),
        _ => chosen(alloc, source, &Test::Shows(value_text(alloc, wanted)?)),
    }
}

/// The elements whose key passes a test.
pub(crate) fn chosen(alloc: Global, source: &Source<'_>, test: &Test) -> Result<List, Memory>
    ensures { IfOk result (λ list. list ≡ chosen (passes test.now) (entries (source_of source.now))) }
{
    let entries = source.entries(alloc)?;
    chosen_of(alloc, entries.as_slice(), test)
}

fn chosen_of(alloc: Global, entries: &[Entry<'_>], test: &Test) -> Result<List, Memory>
    ensures { IfOk result (λ list. list ≡ chosen (passes test.now) (map entry_of entries.entry.now)) }
{
    let mut list = List::new(alloc);
    for entry in entries {
        let passes = test.passes(alloc, entry.key)?;
        push_if(alloc, &mut list, passes, entry.value)?;
    }
    Ok(list)
}

#[tactic(auto, using(filter_base::proofs::ItemLaws::onto_nothing))]
fn push_if(alloc: Global, list: &mut List, keep: bool, value: &Value) -> Result<(), Memory>
    ensures { OnOk result (list.new ≡ onto list.old (item_if keep (plain value.now) no_items)) }
{
    if keep {
        list.push(copy(alloc, value)?)?;
    }
    Ok(())
}

impl Test {
    fn passes(&self, alloc: Global, key: &Value) -> Result<bool, Memory>
        ensures { IfOk result (λ passed. passed ≡ passes self.now (plain key.now)) }
    {
        match self {
            Test::Filled => Ok(is_filled(key)),
            Test::Empty => Ok(!is_filled(key)),
            Test::Shows(text) => shows_text(alloc, text.as_str(), key),
        }
    }
}

/// Whether a value is not nil.
pub(crate) fn is_filled(value: &Value) -> bool
    ensures { result ≡ is_filled (plain value.now) }
{
    !matches!(value, Value::Nil)
}

// Whether a value that is not nil has the text, or is a list of which an element has it.
fn shows_text(alloc: Global, text: &str, value: &Value) -> Result<bool, Memory>
    ensures { IfOk result (λ shown. shown ≡ shows_text text.now (plain value.now)) }
{
    match value {
        Value::Nil => Ok(false),
        Value::List(list) => any_has_text(alloc, text, list.as_slice()),
        _ => has_text(alloc, text, value),
    }
}

fn any_has_text(alloc: Global, text: &str, values: &[Value]) -> Result<bool, Memory>
    ensures { IfOk result (λ any. any ≡ any_has_text text.now (items_of values.now)) }
{
    for value in values {
        if has_text(alloc, text, value)? {
            return Ok(true);
        }
    }
    Ok(false)
}

fn has_text(alloc: Global, text: &str, value: &Value) -> Result<bool, Memory>
    ensures { IfOk result (λ has. has ≡ has_text text.now (plain value.now)) }
{
    match value {
        Value::Text(own) => Ok(own.as_str() == text),
        _ => Ok(value_text(alloc, value)?.as_str() == text),
    }
}

/// The elements whose key is that of none before.
pub(crate) fn first_of_each(alloc: Global, source: &Source<'_>) -> Result<List, Memory>
    ensures { IfOk result (λ list. list ≡ first_of_each [] (entries (source_of source.now))) }
{
    let entries = source.entries(alloc)?;
    first_of_each_in(alloc, entries.as_slice())
}

fn first_of_each_in(alloc: Global, entries: &[Entry<'_>]) -> Result<List, Memory>
    ensures { IfOk result (λ list. list ≡ first_of_each [] (map entry_of entries.entry.now)) }
{
    let mut list = List::new(alloc);
    let mut met = HashSet::new(alloc);
    for entry in entries {
        let is_new = met.insert(code(alloc, entry.key)?)?;
        push_if(alloc, &mut list, is_new, entry.value)?;
    }
    Ok(list)
}
