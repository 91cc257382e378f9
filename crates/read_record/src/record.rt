// The record of what was read.
ghost use Rattle.std.specs.Prelude.{◌≡◌, ◌<◌, [], Some, IfOk, length, slice_get};
ghost use Rattle.std.specs.List.{IsDistinct};
ghost use Rattle.std.specs.Map.{keys_of};
ghost use Rattle.read_record.specs.Keys.{same_key};

use crate::Key;
use crate::fresh_read::FreshRead;
use site_base::Memory;
use std::alloc::Global;
use std::marker::Model;

/// The keys that were read, each once, in the order first read, with the code of the value that was seen. Clauses
/// see a list of pairs.
#[derive(Drop)]
pub struct Record {
    reads: Vec<FreshRead>,
}

impl Model for Record {
    ghost use Rattle.std.specs.Map.{keys_of};
    ghost use Rattle.std.specs.List.{IsDistinct};
    ghost use Rattle.read_record.specs.Keys.{same_key};
    ghost use Rattle.std.specs.Coded.{coded×, coded_list, coded_ℕ};
    ghost use Rattle.read_record.specs.Queries.{Reads};
    ghost use Rattle.read_record.specs.contracts.key.Key as the_key;

    ghost Value = { Reads };

    ghost coded = { coded_list (coded× the_key.the_row.coded (coded_list coded_ℕ)) };

    ghost view = { λ r. r.reads.items };

    ghost invariant = { λ r. IsDistinct same_key (keys_of r.reads.items) };
}

impl Record {
    /// The record of reads of which no two have one key; it takes no memory.
    pub(crate) fn of(reads: Vec<FreshRead>) -> Record
        requires { IsDistinct same_key (keys_of reads.items) }
        ensures { result ≡ reads.items }
    {
        Record { reads }
    }

    /// How many keys were read.
    pub fn len(&self) -> u64
        ensures len { result ≡ length self.now }
        ensures once { IsDistinct same_key (keys_of self.now) }
    {
        self.reads.len() as u64
    }

    /// The key at a place, counted from 0.
    pub fn key_at(&self, place: u64) -> &Key
        requires { place < length self.now }
        ensures { slice_get (keys_of self.now) place ≡ Some result.now }
    {
        self.at(place).0
    }

    /// The key at a place, and the code of the value that was seen.
    pub(crate) fn at(&self, place: u64) -> (&Key, &[u8])
        requires { place < length self.now }
        ensures { slice_get self.now place ≡ Some (result.0.now, result.1.now) }
    {
        let read = self.read_at(place);
        (read.key().as_key(), read.code())
    }

    /// The read at a place.
    pub(crate) fn read_at(&self, place: u64) -> &FreshRead
        requires { place < length self.now }
        ensures { slice_get self.now place ≡ Some result.now }
    {
        &self.reads[place as usize]
    }

    /// An equal record, whose reads are further holders of the same keys and codes.
    pub(crate) fn copy(&self, alloc: Global) -> Result<Record, Memory>
        ensures { IfOk result (λ copy. copy ≡ self.now) }
    {
        let mut reads = Vec::with_capacity(alloc, self.reads.len())?;
        for place in 0..self.len() {
            reads.push(self.read_at(place).share()?)?;
        }
        Ok(Record::of(reads))
    }
}
