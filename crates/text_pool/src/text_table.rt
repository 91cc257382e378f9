// Texts by their numbers.
ghost use Rattle.std.specs.Prelude.{◌≡◌, ℕ, ◌+◌, ◌<◌, ◌^◌, IfOk, OnErr, MatchOption};
ghost use Rattle.std.specs.FinMap as map;
ghost use Rattle.text_pool.specs.Texts.{bytes_of, count_of, with_id, without_id, IsHeld, Lacks, HaveOneNumber, IsNumberOf};

use crate::text_key::TextKey;
use indexmap::IndexMap;
use site_base::Memory;
use slab::Slab;
use std::alloc::Global;
use std::marker::Model;

/// Texts, each once and under a number of its own. Clauses see a map from numbers to texts with their counts.
#[derive(Drop)]
pub(crate) struct TextTable {
    // each text with its number
    numbers: IndexMap<TextKey<'static>, usize>,
    // each number with the place of its text
    slots: Slab<Slot>,
}

#[derive(Drop)]
pub(crate) struct Slot {
    place: usize,
    count: u128,
}

impl Model for TextTable {
    ghost use Rattle.std.specs.FinMap as map;
    ghost use Rattle.std.specs.Coded.{coded_ℕ};
    ghost use Rattle.text_pool.specs.Texts.{Texts, held_code};
    ghost use Rattle.text_pool.specs.Layout.{as_texts, IsSound};

    ghost Value = { Texts };

    ghost coded = { map.code coded_ℕ held_code };

    ghost view = { λ table. as_texts table.numbers.entries table.slots };

    ghost invariant = { λ table. IsSound table.numbers.entries table.slots };
}

impl TextTable {
    /// The table of no texts; it takes no memory.
    pub(crate) fn new(alloc: Global) -> TextTable
        ensures { result ≡ map.empty }
    {
        TextTable {
            numbers: IndexMap::new(alloc),
            slots: Slab::new(alloc),
        }
    }

    /// The number of a text, or `None` where it is not held.
    fn number_of(&self, bytes: &[u8]) -> Option<usize>
        ensures { MatchOption result (Lacks self.now bytes.now) (λ number. IsHeld self.now number × (bytes_of self.now number ≡ bytes.now)) }
    {
        match self.numbers.get(&TextKey::Asked(bytes)) {
            Some(number) => Some(*number),
            None => None,
        }
    }

    /// The text of a number.
    pub(crate) fn bytes(&self, number: usize) -> &[u8]
        requires { IsHeld self.now number }
        ensures { result.now ≡ bytes_of self.now number }
    {
        let place = self.slots[number].place;
        match self.numbers.get_index(place) {
            Some((key, _)) => key.bytes(),
            None => unreachable!(),
        }
    }

    /// Keeps a text that is not held yet, with one id. After `Memory` the table is as before.
    fn add(&mut self, alloc: Global, bytes: &[u8]) -> Result<usize, Memory>
        requires { Lacks self.old bytes.now }
        ensures ok { IfOk result (λ number. self.new ≡ with_id self.old number bytes.now) }
        ensures free { IfOk result (λ number. count_of self.old number ≡ 0) }
        ensures err { OnErr result (self.new ≡ self.old) }
    {
        let kept = TextKey::Kept(bytes.to_vec(alloc)?);
        self.slots.reserve(1)?;
        let place = self.numbers.len();
        let number = self.slots.vacant_key();
        self.numbers.insert(kept, number)?;
        self.slots.insert_reserved(Slot { place, count: 1 });
        Ok(number)
    }

    /// The number of a text, which then has one more id. After `Memory` the table is as before.
    pub(crate) fn intern(&mut self, alloc: Global, bytes: &[u8]) -> Result<usize, Memory>
        requires one { HaveOneNumber self.old }
        requires fits { (number : ℕ) → count_of self.old number + 1 < 2 ^ 128 }
        ensures ok { IfOk result (λ number. self.new ≡ with_id self.old number bytes.now) }
        ensures number { IfOk result (IsNumberOf self.old bytes.now) }
        ensures err { OnErr result (self.new ≡ self.old) }
    {
        match self.number_of(bytes) {
            Some(number) => {
                self.hold(number);
                Ok(number)
            }
            None => self.add(alloc, bytes),
        }
    }

    /// Counts one more id of a number.
    pub(crate) fn hold(&mut self, number: usize)
        requires held { IsHeld self.old number }
        requires fits { count_of self.old number + 1 < 2 ^ 128 }
        ensures { self.new ≡ with_id self.old number (bytes_of self.old number) }
    {
        self.slots[number].count += 1;
    }

    /// Counts one id of a number less, and lets the text go with the last one. It takes no memory.
    pub(crate) fn release(&mut self, number: usize)
        requires { IsHeld self.old number }
        ensures { self.new ≡ without_id self.old number }
    {
        if self.slots[number].count > 1 {
            self.slots[number].count -= 1;
        } else {
            self.remove(number);
        }
    }

    fn remove(&mut self, number: usize)
        requires { IsHeld self.old number }
        ensures { self.new ≡ map.remove self.old number }
    {
        let slot = self.slots.remove(number);
        self.numbers.swap_remove_index(slot.place);
        // The last text stands there now.
        if let Some((_, moved)) = self.numbers.get_index(slot.place) {
            let moved = *moved;
            self.slots[moved].place = slot.place;
        }
    }
}
