// Renders that are kept, by numbers of a store.
ghost use Rattle.std.specs.Prelude.{◌≡◌, [], IfOk, OnErr};
ghost use Rattle.read_record.specs.Stores.{Has, HasMore};
ghost use Rattle.read_record.specs.Numbered.{entry_in, IsCertified};

use crate::{Entry, ItemMeaning, NumberedRecord, Outcome, ReadStore, SharedEntry};
use site_base::{ItemName, Memory};
use std::alloc::Global;
use std::marker::{Model, PhantomData};

/// A render that is kept, whose record has numbers of a store. Whether it is certified is said of it together with that store.
#[derive(Drop)]
pub struct NumberedEntry<M: ItemMeaning> {
    name: ItemName,
    reads: NumberedRecord,
    outcome: Outcome,
    meaning: PhantomData<M>,
}

impl<M: ItemMeaning> Model for NumberedEntry<M> {
    ghost use Rattle.site_base.specs.contracts.item_name.ItemName as the_name;
    ghost use Rattle.read_record.specs.contracts.outcome.Outcome as the_outcome;
    ghost use Rattle.read_record.specs.Numbered.{KeptNumbers, numbers_code};

    ghost Value = { KeptNumbers };

    ghost coded = { numbers_code the_name.the_row.coded the_outcome.the_row.coded };

    ghost view = { λ e. record { name = e.name; reads = e.reads; outcome = e.outcome } };
}

impl<M: ItemMeaning> NumberedEntry<M> {
    pub fn name(&self) -> &ItemName
        ensures { result.now ≡ self.now.name }
    {
        &self.name
    }

    /// What was read, in the order first read.
    pub fn reads(&self) -> &NumberedRecord
        ensures { result.now ≡ self.now.reads }
    {
        &self.reads
    }

    pub fn outcome(&self) -> &Outcome
        ensures { result.now ≡ self.now.outcome }
    {
        &self.outcome
    }

    /// Gives the reads back to their store; it takes no memory.
    pub fn release(self, store: &mut ReadStore)
        requires { Has store.old self.reads }
        ensures { HasMore store.new store.old self.reads }
    {
        let NumberedEntry {
            name: _name,
            reads,
            outcome: _outcome,
            meaning: _meaning,
        } = self;
        reads.release(store);
    }
}

impl<M: ItemMeaning> Entry<M> {
    /// The same entry by numbers of a store. After `Memory` the store has given back what it gave.
    pub fn number(self, alloc: Global, store: &mut ReadStore) -> Result<NumberedEntry<M>, Memory>
        ensures same { IfOk result (λ entry. entry_in store.new entry ≡ self) }
        ensures certified { IfOk result (IsCertified M.item store.new) }
        ensures held { IfOk result (λ entry. HasMore store.old store.new entry.reads) }
        ensures err { OnErr result (HasMore store.old store.new []) }
    {
        let (name, record, outcome) = self.into_parts();
        let reads = record.number(alloc, store)?;
        Ok(NumberedEntry {
            name,
            reads,
            outcome,
            meaning: PhantomData,
        })
    }
}

impl<M: ItemMeaning> SharedEntry<M> {
    /// The same entry by numbers of a store; its name and its outcome are further holders of their texts. After `Memory` the store has
    /// given back what it gave.
    pub fn number(&self, alloc: Global, store: &mut ReadStore) -> Result<NumberedEntry<M>, Memory>
        ensures same { IfOk result (λ entry. entry_in store.new entry ≡ self.now) }
        ensures certified { IfOk result (IsCertified M.item store.new) }
        ensures held { IfOk result (λ entry. HasMore store.old store.new entry.reads) }
        ensures err { OnErr result (HasMore store.old store.new []) }
    {
        let entry = self.as_entry();
        let name = entry.name().copy(alloc)?;
        let outcome = entry.outcome().copy(alloc)?;
        let reads = entry.reads().number(alloc, store)?;
        Ok(NumberedEntry {
            name,
            reads,
            outcome,
            meaning: PhantomData,
        })
    }
}
