// Keys by their numbers.
ghost use Rattle.std.specs.Prelude.{◌≡◌, [], ◌∷◌, ◌<◌, IfOk, OnOk, OnErr, IfSome};
ghost use Rattle.read_record.specs.Stores.{held_keys, key_of, uses_of, HoldsMore, IsAt, IsThere};

use crate::Key;
use crate::shared_key::{SharedKey, TableKey};
use indexmap::IndexMap;
use site_base::Memory;
use slab::Slab;
use std::alloc::Global;
use std::marker::Model;

// No memory holds so many reads.
const MOST_READS: u64 = 9_223_372_036_854_775_807;

/// The keys of many reads, each once and under a number. Clauses see what stands at each number: a key, and how many reads have it.
#[derive(Drop)]
pub struct KeyTable {
    // each key with its number
    numbers: IndexMap<TableKey<'static>, usize>,
    slots: Slab<KeySlot>,
}

#[derive(Drop)]
pub(crate) struct KeySlot {
    key: SharedKey,
    count: u64,
}

impl Model for KeyTable {
    ghost use Rattle.std.specs.Coded.{coded_list, coded_option};
    ghost use Rattle.read_record.specs.contracts.key.Key as the_key;
    ghost use Rattle.read_record.specs.Stores.{Keys, held_key_code};
    ghost use Rattle.read_record.specs.KeyLayout.{as_keys, LeadsRight};

    ghost Value = { Keys };

    ghost coded = { coded_list (coded_option (held_key_code the_key.the_row.coded)) };

    ghost view = { λ table. as_keys table.slots };

    ghost invariant = { λ table. LeadsRight table.numbers.entries table.slots };
}

impl KeyTable {
    /// The table of no keys; it takes no memory.
    pub(crate) fn new(alloc: Global) -> KeyTable
        ensures { result ≡ [] }
    {
        KeyTable {
            numbers: IndexMap::new(alloc),
            slots: Slab::new(alloc),
        }
    }

    /// Below how many all numbers are. Nothing is promised of it.
    pub(crate) fn places(&self) -> usize {
        self.slots.capacity()
    }

    /// The key of a number.
    pub(crate) fn key(&self, number: usize) -> &Key
        requires { 0 < uses_of self.now number }
        ensures { result.now ≡ key_of self.now number }
    {
        self.slots[number].key.as_key()
    }

    /// A number of a key, for one more read of it: where the key is new, a further holder of it is kept. After `Memory` the table is as before.
    pub(crate) fn hold(&mut self, key: &SharedKey) -> Result<usize, Memory>
        ensures held { IfOk result (λ number. HoldsMore (held_keys self.old) (held_keys self.new) (number ∷ [])) }
        ensures key { IfOk result (λ number. key_of self.new number ≡ key.now) }
        ensures err { OnErr result (self.new ≡ self.old) }
    {
        match self.number_of(key.as_key()) {
            Some(number) => {
                self.hold_again(number)?;
                Ok(number)
            }
            None => self.add(key),
        }
    }

    /// The number of a key, where it has one.
    fn number_of(&self, key: &Key) -> Option<usize>
        ensures { IfSome result (λ number. IsAt self.now number key.now) }
    {
        match self.numbers.get(&TableKey::Asked(key)) {
            Some(number) => Some(*number),
            None => None,
        }
    }

    /// Counts one more read of a key that is there. After `Memory` the table is as before.
    fn hold_again(&mut self, number: usize) -> Result<(), Memory>
        requires { IsThere self.old number }
        ensures held { OnOk result (HoldsMore (held_keys self.old) (held_keys self.new) (number ∷ [])) }
        ensures key { OnOk result (key_of self.new number ≡ key_of self.old number) }
        ensures err { OnErr result (self.new ≡ self.old) }
    {
        if self.slots[number].count > MOST_READS {
            return Err(Memory);
        }
        self.slots[number].count += 1;
        Ok(())
    }

    /// Adds a key with its first read. After `Memory` the table is as before.
    fn add(&mut self, key: &SharedKey) -> Result<usize, Memory>
        ensures held { IfOk result (λ number. HoldsMore (held_keys self.old) (held_keys self.new) (number ∷ [])) }
        ensures key { IfOk result (λ number. key_of self.new number ≡ key.now) }
        ensures err { OnErr result (self.new ≡ self.old) }
    {
        let shared = key.share()?;
        let kept = TableKey::Kept(key.share()?);
        self.slots.reserve(1)?;
        let number = self.slots.vacant_key();
        self.numbers.insert(kept, number)?;
        self.slots.insert_reserved(KeySlot {
            key: shared,
            count: 1,
        });
        Ok(number)
    }

    /// Counts one read of a key less, and lets the key go with the last one. It takes no memory.
    pub(crate) fn release(&mut self, number: usize)
        requires { 0 < uses_of self.old number }
        ensures { HoldsMore (held_keys self.new) (held_keys self.old) (number ∷ []) }
    {
        if self.slots[number].count > 1 {
            self.slots[number].count -= 1;
        } else {
            self.remove(number);
        }
    }

    /// Lets the key of a number go.
    fn remove(&mut self, number: usize)
        requires { uses_of self.old number ≡ 1 }
        ensures { HoldsMore (held_keys self.new) (held_keys self.old) (number ∷ []) }
    {
        let KeySlot { key, count: _count } = self.slots.remove(number);
        self.numbers.swap_remove(&TableKey::Kept(key));
    }
}
