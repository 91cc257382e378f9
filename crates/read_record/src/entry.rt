// Renders that are kept.
ghost use Rattle.std.specs.Prelude.{◌≡◌, IfOk};
ghost use Rattle.read_record.specs.Records.{Certifies};
ghost use Rattle.read_record.specs.Outcomes.{met_of};

use crate::{ItemMeaning, Outcome, Record};
use site_base::{ItemName, Memory};
use std::alloc::Global;
use std::marker::{Model, PhantomData};

/// A render that is kept, which keeps that it is certified: its record alone gives its outcome, and each key of
/// the record is needed.
#[derive(Drop)]
pub struct Entry<M: ItemMeaning> {
    name: ItemName,
    reads: Record,
    outcome: Outcome,
    meaning: PhantomData<M>,
}

impl<M: ItemMeaning> Model for Entry<M> {
    ghost use Rattle.std.specs.Coded.{coded×, coded_list, coded_ℕ};
    ghost use Rattle.site_base.specs.contracts.item_name.ItemName as the_name;
    ghost use Rattle.read_record.specs.contracts.key.Key as the_key;
    ghost use Rattle.read_record.specs.contracts.outcome.Outcome as the_outcome;
    ghost use Rattle.read_record.specs.Records.{Certifies};
    ghost use Rattle.read_record.specs.Outcomes.{met_of};
    ghost use Rattle.read_record.specs.Entries.{Kept, kept_code};

    ghost Value = { Kept };

    ghost coded = { kept_code the_name.the_row.coded (coded_list (coded× the_key.the_row.coded (coded_list coded_ℕ))) the_outcome.the_row.coded };

    ghost view = { λ e. record { name = e.name; reads = e.reads; outcome = e.outcome } };

    ghost invariant = { λ e. Certifies e.reads (M.item e.name) (met_of e.outcome) };
}

impl<M: ItemMeaning> Entry<M> {
    pub(crate) fn new(name: ItemName, reads: Record, outcome: Outcome) -> Entry<M>
        requires { Certifies reads (M.item name) (met_of outcome) }
        ensures { result ≡ record { name = name; reads = reads; outcome = outcome } }
    {
        Entry {
            name,
            reads,
            outcome,
            meaning: PhantomData,
        }
    }

    pub fn name(&self) -> &ItemName
        ensures name { result.now ≡ self.now.name }

        // The record alone gives the outcome, and each key of it is needed.
        ensures certified { Certifies self.now.reads (M.item self.now.name) (met_of self.now.outcome) }
    {
        &self.name
    }

    /// What was read, in the order first read.
    pub fn reads(&self) -> &Record
        ensures { result.now ≡ self.now.reads }
    {
        &self.reads
    }

    pub fn outcome(&self) -> &Outcome
        ensures { result.now ≡ self.now.outcome }
    {
        &self.outcome
    }

    // Its parts, which are certified.
    pub(crate) fn into_parts(self) -> (ItemName, Record, Outcome)
        ensures name { result.0 ≡ self.name }
        ensures reads { result.1 ≡ self.reads }
        ensures outcome { result.2 ≡ self.outcome }
        ensures certified { Certifies self.reads (M.item self.name) (met_of self.outcome) }
    {
        let Entry {
            name,
            reads,
            outcome,
            meaning: _meaning,
        } = self;
        (name, reads, outcome)
    }

    /// An equal entry.
    pub fn copy(&self, alloc: Global) -> Result<Entry<M>, Memory>
        ensures { IfOk result (λ entry. entry ≡ self.now) }
    {
        Ok(Entry {
            name: self.name.copy(alloc)?,
            reads: self.reads.copy(alloc)?,
            outcome: self.outcome.copy(alloc)?,
            meaning: PhantomData,
        })
    }
}
