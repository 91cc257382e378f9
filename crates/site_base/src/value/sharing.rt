// Values with several holders.
ghost use Rattle.std.specs.Prelude.{◌≡◌, IfOk, OnOk};
ghost use Rattle.site_base.specs.View.{items_of};

use crate::value::index::index_of;
use crate::value::{HashBody, HashPlace, ListPlace};
use crate::{Hash, List, Memory, Pair, Text, Value};
use std::alloc::Global;
use std::collections::BTreeMap;
use std::mem;
use std::sync::Arc;

/// An equal value. What can be shared is not copied: the value is a further holder of it.
#[cycle(share)]
pub fn copy(alloc: Global, value: &Value) -> Result<Value, Memory>
    ensures { IfOk result (λ shared. shared ≡ value.now) }
{
    match value {
        Value::Nil => Ok(Value::Nil),
        Value::Bool(is_set) => Ok(Value::Bool(*is_set)),
        Value::Int(number) => Ok(Value::Int(*number)),
        Value::Text(text) => Ok(Value::Text(text.share(alloc)?)),
        Value::List(list) => Ok(Value::List(list.share(alloc)?)),
        Value::Hash(hash) => Ok(Value::Hash(hash.share(alloc)?)),
        Value::Item(name) => Ok(Value::Item(name.copy(alloc)?)),
        Value::Range(first, last) => Ok(Value::Range(*first, *last)),
    }
}

impl List {
    /// An equal list. What can be shared is not copied.
    #[cycle(share)]
    pub fn share(&self, alloc: Global) -> Result<List, Memory>
        ensures { IfOk result (λ shared. shared ≡ self.now) }
    {
        let place = match &self.place {
            ListPlace::Nowhere => ListPlace::Nowhere,
            ListPlace::Own(_) => ListPlace::Own(self.copied(alloc)?),
            ListPlace::Shared(items) => ListPlace::Shared(items.clone()?),
        };
        Ok(List { place, alloc })
    }

    /// The values, to be changed.
    #[cycle(share)]
    pub(crate) fn copied(&self, alloc: Global) -> Result<Box<Vec<Value>>, Memory>
        ensures { IfOk result (λ items. items_of items.value.items ≡ self.now) }
    {
        Ok(Box::new(alloc, copies(alloc, self.as_slice())?)?)
    }

    /// The list, which further holders can share now, as they can each of its values. Nothing is copied.
    #[cycle(into_shared)]
    pub fn into_shared(self) -> Result<List, Memory>
        ensures { IfOk result (λ shared. shared ≡ self) }
    {
        let List { place, alloc } = self;
        let place = match place {
            ListPlace::Own(items) => {
                let mut items = Box::into_inner(items);
                make_shared(items.as_mut_slice())?;
                ListPlace::Shared(Arc::new(alloc, items)?)
            }
            place => place,
        };
        Ok(List { place, alloc })
    }
}

#[cycle(share)]
fn copies(alloc: Global, values: &[Value]) -> Result<Vec<Value>, Memory>
    ensures { IfOk result (λ made. made.items ≡ values.now) }
{
    let mut made = Vec::with_capacity(alloc, values.len())?;
    for value in values {
        made.push(copy(alloc, value)?)?;
    }
    Ok(made)
}

impl Hash {
    /// An equal hash. What can be shared is not copied.
    #[cycle(share)]
    pub fn share(&self, alloc: Global) -> Result<Hash, Memory>
        ensures { IfOk result (λ shared. shared ≡ self.now) }
    {
        let place = match &self.place {
            HashPlace::Nowhere => HashPlace::Nowhere,
            HashPlace::Own(_) => HashPlace::Own(self.copied(alloc)?),
            HashPlace::Shared(body) => HashPlace::Shared(body.clone()?),
        };
        Ok(Hash { place, alloc })
    }

    /// The body, to be changed.
    #[cycle(share)]
    pub(crate) fn copied(&self, alloc: Global) -> Result<Box<HashBody>, Memory>
        ensures { IfOk result (λ body. body.value ≡ self.now) }
    {
        let body = match &self.place {
            HashPlace::Nowhere => HashBody::with_capacity(alloc, 0)?,
            HashPlace::Own(body) => body.copied(alloc)?,
            HashPlace::Shared(body) => body.copied(alloc)?,
        };
        Ok(Box::new(alloc, body)?)
    }

    /// The hash, which further holders can share now, as they can each of its values. Nothing is copied.
    #[cycle(into_shared)]
    pub fn into_shared(self) -> Result<Hash, Memory>
        ensures { IfOk result (λ shared. shared ≡ self) }
    {
        let Hash { place, alloc } = self;
        let place = match place {
            HashPlace::Own(body) => {
                let body = Box::into_inner(body).into_shared(alloc)?;
                HashPlace::Shared(Arc::new(alloc, body)?)
            }
            place => place,
        };
        Ok(Hash { place, alloc })
    }
}

impl HashBody {
    #[cycle(share)]
    fn copied(&self, alloc: Global) -> Result<HashBody, Memory>
        ensures { IfOk result (λ body. body ≡ self.now) }
    {
        let pairs = shared_pairs(alloc, self.pairs.as_slice())?;
        let places = if self.places.is_empty() {
            BTreeMap::new(alloc)
        } else {
            index_of(alloc, pairs.as_slice())?
        };
        Ok(HashBody { pairs, places })
    }
}

#[cycle(share)]
fn shared_pairs(alloc: Global, pairs: &[Pair]) -> Result<Vec<Pair>, Memory>
    ensures { IfOk result (λ made. made.items ≡ pairs.now) }
{
    let mut made = Vec::with_capacity(alloc, pairs.len())?;
    for pair in pairs {
        made.push(pair.share(alloc)?)?;
    }
    Ok(made)
}

impl Pair {
    #[cycle(share)]
    fn share(&self, alloc: Global) -> Result<Pair, Memory>
        ensures { IfOk result (λ shared. shared ≡ self.now) }
    {
        Ok(Pair {
            key: self.key.share(alloc)?,
            value: copy(alloc, &self.value)?,
        })
    }

    #[cycle(into_shared)]
    fn into_shared(self) -> Result<Pair, Memory>
        ensures { IfOk result (λ shared. shared ≡ self) }
    {
        Ok(Pair {
            key: self.key.into_shared()?,
            value: self.value.into_shared()?,
        })
    }
}

impl Value {
    /// The value, of which the lists, hashes and long texts at every depth can have further holders now. Nothing is copied.
    #[cycle(into_shared)]
    pub fn into_shared(self) -> Result<Value, Memory>
        ensures { IfOk result (λ shared. shared ≡ self) }
    {
        match self {
            Value::Text(text) => Ok(Value::Text(text.into_shared()?)),
            Value::List(list) => Ok(Value::List(list.into_shared()?)),
            Value::Hash(hash) => Ok(Value::Hash(hash.into_shared()?)),
            value => Ok(value),
        }
    }
}

#[cycle(into_shared)]
fn make_shared(values: &mut [Value]) -> Result<(), Memory>
    ensures { OnOk result (values.new ≡ values.old) }
{
    for value in values.iter_mut() {
        let taken = mem::replace(value, Value::Nil);
        *value = taken.into_shared()?;
    }
    Ok(())
}

impl HashBody {
    #[cycle(into_shared)]
    fn into_shared(self, alloc: Global) -> Result<HashBody, Memory>
        ensures { IfOk result (λ shared. shared ≡ self) }
    {
        let HashBody { mut pairs, places } = self;
        make_pairs_shared(alloc, pairs.as_mut_slice())?;
        Ok(HashBody { pairs, places })
    }
}

#[cycle(into_shared)]
fn make_pairs_shared(alloc: Global, pairs: &mut [Pair]) -> Result<(), Memory>
    ensures { OnOk result (pairs.new ≡ pairs.old) }
{
    for pair in pairs.iter_mut() {
        let empty = Pair {
            key: Text::new(alloc),
            value: Value::Nil,
        };
        *pair = mem::replace(pair, empty).into_shared()?;
    }
    Ok(())
}
