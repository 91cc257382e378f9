// Records that are being made.
ghost use Rattle.std.specs.Prelude.{◌≡◌, [], ◌∷◌, ◌++◌, None, is_some, OnOk, OnErr};
ghost use Rattle.std.specs.Map.{lookup};
ghost use Rattle.read_record.specs.Keys.{same_key};

use crate::fresh_read::FreshRead;
use crate::shared_key::TableKey;
use crate::{Key, Record};
use indexmap::IndexMap;
use site_base::Memory;
use std::alloc::Global;
use std::marker::Model;

/// The reads of a render so far, with an index of their keys. Clauses see the reads.
#[derive(Drop)]
pub(crate) struct RecordBuilder {
    reads: Vec<FreshRead>,
    // Only while the record is made: no record that is kept pays for it.
    index: IndexMap<TableKey<'static>, ()>,
}

impl Model for RecordBuilder {
    ghost use Rattle.std.specs.Map.{keys_of};
    ghost use Rattle.std.specs.List.{IsDistinct};
    ghost use Rattle.std.specs.Coded.{coded×, coded_list, coded_ℕ};
    ghost use Rattle.read_record.specs.Keys.{same_key};
    ghost use Rattle.read_record.specs.KeyLayout.{Indexes};
    ghost use Rattle.read_record.specs.Queries.{Reads};
    ghost use Rattle.read_record.specs.contracts.key.Key as the_key;

    ghost Value = { Reads };

    ghost coded = { coded_list (coded× the_key.the_row.coded (coded_list coded_ℕ)) };

    ghost view = { λ builder. builder.reads.items };

    ghost invariant = { λ builder. IsDistinct same_key (keys_of builder.reads.items) × Indexes builder.index.entries builder.reads.items };
}

impl RecordBuilder {
    /// No reads; it takes no memory.
    pub(crate) fn new(alloc: Global) -> RecordBuilder
        ensures { result ≡ [] }
    {
        RecordBuilder {
            reads: Vec::new(alloc),
            index: IndexMap::new(alloc),
        }
    }

    /// Whether this key was read.
    pub(crate) fn has(&self, key: &Key) -> bool
        ensures { result ≡ is_some (lookup (same_key key.now) self.now) }
    {
        self.index.contains_key(&TableKey::Asked(key))
    }

    /// Notes a read at the end, whose key was not read before. After `Memory` the reads are as before.
    pub(crate) fn add(&mut self, read: FreshRead) -> Result<(), Memory>
        requires { lookup (same_key read.0) self.old ≡ None }
        ensures ok { OnOk result (self.new ≡ self.old ++ read ∷ []) }
        ensures err { OnErr result (self.new ≡ self.old) }
    {
        let key = TableKey::Kept(read.key().share()?);
        self.reads.reserve(1)?;
        self.index.insert(key, ())?;
        self.reads.push_reserved(read);
        Ok(())
    }

    /// The record of the reads; it takes no memory.
    pub(crate) fn into_record(self) -> Record
        ensures { result ≡ self }
    {
        Record::of(self.reads)
    }
}
