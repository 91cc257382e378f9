// The bodies of hashes: their pairs, and what finds them.
ghost use Rattle.std.specs.Prelude.{◌≡◌, IfOk, OnOk, OnErr};
ghost use Rattle.std.specs.Option.{option_copied, option_map};
ghost use Rattle.site_base.specs.Plain.{get, no_pairs, onto_pairs, pair, set, taken};
ghost use Rattle.site_base.specs.View.{plain, pairs_of};

use crate::value::HashBody;
use crate::value::index::{add_pair, note_many, place_in};
use crate::{Memory, Pair, Text, Value};
use std::alloc::Global;
use std::collections::BTreeMap;
use std::mem;

impl HashBody {
    pub(crate) fn with_capacity(alloc: Global, pairs: usize) -> Result<HashBody, Memory>
        ensures { IfOk result (λ body. body ≡ no_pairs) }
    {
        Ok(HashBody {
            pairs: Vec::with_capacity(alloc, pairs)?,
            places: BTreeMap::new(alloc),
        })
    }

    pub(crate) fn as_slice(&self) -> &[Pair]
        ensures { pairs_of result.now ≡ self.now }
    {
        self.pairs.as_slice()
    }

    /// The value of the first pair with the key.
    pub(crate) fn get(&self, key: &str) -> Option<&Value>
        ensures { option_map plain (option_copied result) ≡ get key.now self.now }
    {
        match place_in(self.pairs.as_slice(), &self.places, key) {
            Some(place) => Some(&self.pairs[place].value),
            None => None,
        }
    }

    /// Leaves room for so many more pairs and for no others.
    pub(crate) fn fit(&mut self, more: usize) -> Result<(), Memory>
        ensures { self.new ≡ self.old }
    {
        self.pairs.reserve_exact(more)?;
        self.pairs.shrink_to(self.pairs.len() + more);
        Ok(())
    }

    /// Adds a pair at the end.
    #[tactic(auto, using(crate::proofs::ValueLaws::pairs_append))]
    pub(crate) fn push(&mut self, key: Text, value: Value) -> Result<(), Memory>
        ensures ok { OnOk result (self.new ≡ onto_pairs self.old (pair key (plain value) no_pairs)) }
        ensures err { OnErr result (self.new ≡ self.old) }
    {
        add_pair(&mut self.pairs, &mut self.places, Pair { key, value })
    }

    /// Gives the first pair with the key this value, or adds a pair at the end where there is none.
    pub(crate) fn set(&mut self, key: Text, value: Value) -> Result<(), Memory>
        ensures ok { OnOk result (self.new ≡ set key (plain value) self.old) }
        ensures err { OnErr result (self.new ≡ self.old) }
    {
        let alloc = *self.pairs.allocator();
        note_many(alloc, self.pairs.as_slice(), &mut self.places)?;
        match place_in(self.pairs.as_slice(), &self.places, key.as_str()) {
            Some(place) => self.pairs[place].value = value,
            None => add_pair(&mut self.pairs, &mut self.places, Pair { key, value })?,
        }
        Ok(())
    }

    /// Takes the value of the first pair with the key out, and leaves nil in its place.
    pub(crate) fn take(&mut self, key: &str) -> Option<Value>
        ensures value { option_map plain result ≡ get key.now self.old }
        ensures rest { self.new ≡ taken key.now self.old }
    {
        match place_in(self.pairs.as_slice(), &self.places, key) {
            Some(place) => Some(mem::replace(&mut self.pairs[place].value, Value::Nil)),
            None => None,
        }
    }
}
