// The elements of a filter's input, each with a key: what it is chosen or ordered by.
#![tactic(auto, using(crate::proofs::CallLaws::binds))]

ghost use Rattle.std.specs.Prelude.{◌≡◌, IfOk, map};
ghost use Rattle.site_base.specs.View.{plain, items_of};
ghost use Rattle.read_record.specs.Queries.{Give, bind, run};
ghost use Rattle.filter_base.specs.Answers.{Finds, given};
ghost use Rattle.filter_base.specs.Keyed.{entries, keyed, name_given, paired, source};
ghost use Rattle.filter_base.specs.Properties.{properties};
ghost use Rattle.filter_base.specs.Taken.{entry_of, item_values, source_of, found_source};

use crate::element_properties::properties;
use crate::elements::Elements;
use crate::stop::Stop;
use read_record::Look;
use site_base::{List, Memory, Text, Value, value_text};
use std::alloc::Global;

/// The elements of an input, and the keys of all of them.
#[derive(Drop)]
pub struct Source<'a> {
    elements: Elements<'a>,
    // None where the elements are their own keys.
    keys: Option<List>,
}

/// One element with its key.
#[derive(Clone, Copy)]
pub struct Entry<'a> {
    pub key: &'a Value,
    pub value: &'a Value,
}

/// The name of a property, where an argument gives one: nil does not.
pub fn name_given(alloc: Global, argument: Option<&Value>) -> Result<Option<Text>, Memory>
    ensures { IfOk result (λ name. name ≡ name_given (given argument.entry)) }
{
    match argument {
        None => Ok(None),
        Some(Value::Nil) => Ok(None),
        Some(value) => Ok(Some(value_text(alloc, value)?)),
    }
}

impl<'a> Source<'a> {
    /// The elements of an input. Their keys are their properties of the name, or where there is none the elements themselves.
    pub fn keyed<L: Look>(
        alloc: Global,
        input: &'a Value,
        name: Option<Text>,
        look: &mut L,
    ) -> Result<Source<'a>, Stop>
        ensures same { L.view look.new ≡ L.view look.old }
        ensures gives { Finds (run (L.view look.old) (L.trace look.old) (keyed name (plain input.now))) (found_source result) (L.trace look.new) }
    {
        let elements = Elements::of(alloc, input)?;
        match name {
            Some(name) => Source::with_properties(alloc, elements, name.as_str(), look),
            None => Ok(Source {
                elements,
                keys: None,
            }),
        }
    }

    /// The elements of an input, with their keys: their properties of the name that an argument gives, or where it gives none
    /// the elements themselves.
    pub fn keyed_by<L: Look>(
        alloc: Global,
        input: &'a Value,
        property: Option<&Value>,
        look: &mut L,
    ) -> Result<Source<'a>, Stop>
        ensures same { L.view look.new ≡ L.view look.old }
        ensures gives { Finds (run (L.view look.old) (L.trace look.old) (keyed (name_given (given property.entry)) (plain input.now))) (found_source result) (L.trace look.new) }
    {
        let name = name_given(alloc, property)?;
        Source::keyed(alloc, input, name, look)
    }

    fn with_properties<L: Look>(
        alloc: Global,
        elements: Elements<'a>,
        name: &str,
        look: &mut L,
    ) -> Result<Source<'a>, Stop>
        ensures same { L.view look.new ≡ L.view look.old }
        ensures gives { Finds (run (L.view look.old) (L.trace look.old) (bind (properties name.now (item_values elements.entry)) (λ ks. Give (source (item_values elements.entry) ks)))) (found_source result) (L.trace look.new) }
    {
        let keys = properties(alloc, name, elements.as_slice(), look)?;
        Ok(Source {
            elements,
            keys: Some(keys),
        })
    }

    /// Elements that were made, with their keys.
    pub fn made(elements: List, keys: List) -> Source<'a>
        ensures { source_of result ≡ source elements keys }
    {
        Source {
            elements: Elements::Made(elements),
            keys: Some(keys),
        }
    }

    /// The elements, in their order.
    pub fn elements(&self) -> &[Value]
        ensures { items_of result.now ≡ (source_of self.now).elements }
    {
        self.elements.as_slice()
    }

    /// The keys, in the order of the elements; the elements themselves, where these are their own keys.
    pub fn keys(&self) -> &[Value]
        ensures { items_of result.now ≡ (source_of self.now).keys }
    {
        match &self.keys {
            Some(keys) => keys.as_slice(),
            None => self.elements.as_slice(),
        }
    }

    /// Each element with its key.
    pub fn entries(&self, alloc: Global) -> Result<Vec<Entry<'_>>, Memory>
        ensures { IfOk result (λ made. map entry_of made.items ≡ entries (source_of self.now)) }
    {
        paired(alloc, self.elements(), self.keys())
    }
}

/// Each element with its key, as far as there are both.
pub fn paired<'a>(
    alloc: Global,
    elements: &'a [Value],
    keys: &'a [Value],
) -> Result<Vec<Entry<'a>>, Memory>
    ensures { IfOk result (λ made. map entry_of made.items ≡ paired (items_of elements.now) (items_of keys.now)) }
{
    let mut entries = Vec::with_capacity(alloc, elements.len())?;
    for (place, value) in elements.iter().enumerate() {
        match keys.get(place) {
            Some(key) => entries.push(Entry { key, value })?,
            None => return Ok(entries),
        }
    }
    Ok(entries)
}
