// Records whose reads are numbers of a store.
ghost use Rattle.std.specs.Prelude.{◌≡◌, ◌<◌, ◌++◌, ℕ, [], ◌∷◌, IfOk, OnErr, Some, length, slice_get};
ghost use Rattle.read_record.specs.Stores.{resolved, Has, HasMore};

use crate::Record;
use crate::fresh_read::FreshRead;
use crate::read_store::{NumberedRead, ReadStore};
use site_base::Memory;
use std::alloc::Global;
use std::marker::Model;

/// The keys that were read, each once, in the order first read, with the code of the value that was seen: both by their numbers
/// in a store. Clauses see a list of pairs of numbers.
///
/// Its reads have to be given back to their store by `release`; where it is only dropped, they stay counted.
#[derive(Drop)]
pub struct NumberedRecord {
    reads: Vec<NumberedRead>,
}

impl Model for NumberedRecord {
    ghost use Rattle.std.specs.Coded.{coded×, coded_list, coded_ℕ};
    ghost use Rattle.read_record.specs.Stores.{Numbers};

    ghost Value = { Numbers };

    ghost coded = { coded_list (coded× coded_ℕ coded_ℕ) };

    ghost view = { λ r. r.reads.items };
}

impl NumberedRecord {
    /// How many keys were read.
    pub fn len(&self) -> u64
        ensures { result ≡ length self.now }
    {
        self.reads.len() as u64
    }

    /// The read at a place, counted from 0.
    pub(crate) fn at(&self, place: u64) -> &NumberedRead
        requires { place < length self.now }
        ensures { slice_get self.now place ≡ Some result.now }
    {
        &self.reads[place as usize]
    }

    /// Notes a read at the end. After `Memory` the record is as before, and the store holds what it held.
    fn add(&mut self, alloc: Global, store: &mut ReadStore, read: &FreshRead) -> Result<(), Memory>
        ensures ok { IfOk result (λ _. (numbered : ℕ × ℕ) × (self.new ≡ self.old ++ numbered ∷ []) × HasMore store.old store.new (numbered ∷ []) × (resolved store.new (numbered ∷ []) ≡ read.now ∷ [])) }
        ensures err { OnErr result ((self.new ≡ self.old) × HasMore store.old store.new []) }
    {
        self.reads.reserve(1)?;
        let numbered = store.add(alloc, read)?;
        self.reads.push_reserved(numbered);
        Ok(())
    }

    /// Gives the reads back; it takes no memory.
    pub(crate) fn release(self, store: &mut ReadStore)
        requires { Has store.old self }
        ensures { HasMore store.new store.old self }
    {
        for read in self.reads {
            store.release(read);
        }
    }
}

impl Record {
    /// The same record by numbers of a store. After `Memory` the store has given back what it gave.
    pub(crate) fn number(
        &self,
        alloc: Global,
        store: &mut ReadStore,
    ) -> Result<NumberedRecord, Memory>
        ensures same { IfOk result (λ numbered. resolved store.new numbered ≡ self.now) }
        ensures held { IfOk result (HasMore store.old store.new) }
        ensures err { OnErr result (HasMore store.old store.new []) }
    {
        let mut numbered = NumberedRecord {
            reads: Vec::new(alloc),
        };
        for place in 0..self.len() {
            match numbered.add(alloc, store, self.read_at(place)) {
                Ok(()) => {}
                Err(_) => {
                    numbered.release(store);
                    return Err(Memory);
                }
            }
        }
        Ok(numbered)
    }
}
