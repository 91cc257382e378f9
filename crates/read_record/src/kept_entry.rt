// Entries that are lent.
ghost use Rattle.std.specs.Prelude.{◌≡◌, ◌<◌, ℕ, Some, length, slice_get};
ghost use Rattle.std.specs.Map.{keys_of};
ghost use Rattle.site_base.specs.declared.faults.SiteFault.{SiteFault};
ghost use Rattle.read_record.specs.declared.key.Key.{Key};
ghost use Rattle.read_record.specs.Queries.{Query, Met, Missed, Missing, interpret};
ghost use Rattle.read_record.specs.Records.{first_other, Certifies, Misses};
ghost use Rattle.read_record.specs.Outcomes.{Page, met_of};
ghost use Rattle.read_record.specs.Stores.{Has};
ghost use Rattle.read_record.specs.Numbered.{entry_in, IsCertified};

use crate::{
    Checked, Entry, Finished, ItemMeaning, Key, NumberedEntry, Outcome, ReadStore, World, check,
    check_numbers,
};
use site_base::ItemName;
use std::marker::Model;

/// An entry that is lent, as it was made or by numbers of a store. It keeps that it is certified. Clauses see the entry with its
/// keys and codes.
#[derive(Drop)]
pub struct KeptEntry<'a, M: ItemMeaning> {
    place: EntryPlace<'a, M>,
}

#[derive(Drop)]
pub(crate) enum EntryPlace<'a, M: ItemMeaning> {
    Whole(&'a Entry<M>),
    Numbered(&'a NumberedEntry<M>, &'a ReadStore),
}

impl<'a, M: ItemMeaning> Model for KeptEntry<'a, M> {
    ghost use Rattle.std.specs.Coded.{coded×, coded_list, coded_ℕ};
    ghost use Rattle.site_base.specs.contracts.item_name.ItemName as the_name;
    ghost use Rattle.read_record.specs.contracts.key.Key as the_key;
    ghost use Rattle.read_record.specs.contracts.outcome.Outcome as the_outcome;
    ghost use Rattle.read_record.specs.Records.{Certifies};
    ghost use Rattle.read_record.specs.Outcomes.{met_of};
    ghost use Rattle.read_record.specs.Entries.{Kept, kept_code};
    ghost use Rattle.read_record.specs.KeptPlaces.{entry_at, HasReads};

    ghost Value = { Kept };

    ghost coded = { kept_code the_name.the_row.coded (coded_list (coded× the_key.the_row.coded (coded_list coded_ℕ))) the_outcome.the_row.coded };

    ghost view = { λ kept. entry_at kept.place };

    ghost invariant = { λ kept. HasReads kept.place × (let entry = entry_at kept.place in Certifies entry.reads (M.item entry.name) (met_of entry.outcome)) };
}

impl<'a, M: ItemMeaning> KeptEntry<'a, M> {
    /// An entry as it was made.
    pub fn whole(entry: &'a Entry<M>) -> KeptEntry<'a, M>
        ensures { result ≡ entry.now }
    {
        // The name tells that the entry is certified.
        let _name = entry.name();
        KeptEntry {
            place: EntryPlace::Whole(entry),
        }
    }

    /// An entry beside the store that its numbers are of.
    pub fn numbered(entry: &'a NumberedEntry<M>, store: &'a ReadStore) -> KeptEntry<'a, M>
        requires held { Has store.now entry.now.reads }
        requires certified { IsCertified M.item store.now entry.now }
        ensures { result ≡ entry_in store.now entry.now }
    {
        KeptEntry {
            place: EntryPlace::Numbered(entry, store),
        }
    }

    pub fn name(&self) -> &'a ItemName
        ensures name { result.now ≡ self.now.name }

        // The record alone gives the outcome, and each key of it is needed.
        ensures certified { Certifies self.now.reads (M.item self.now.name) (met_of self.now.outcome) }
    {
        match &self.place {
            EntryPlace::Whole(entry) => entry.name(),
            EntryPlace::Numbered(entry, _) => entry.name(),
        }
    }

    pub fn outcome(&self) -> &'a Outcome
        ensures { result.now ≡ self.now.outcome }
    {
        match &self.place {
            EntryPlace::Whole(entry) => entry.outcome(),
            EntryPlace::Numbered(entry, _) => entry.outcome(),
        }
    }

    /// How many keys were read.
    pub fn len(&self) -> u64
        ensures { result ≡ length self.now.reads }
    {
        match &self.place {
            EntryPlace::Whole(entry) => entry.reads().len(),
            EntryPlace::Numbered(entry, _) => entry.reads().len(),
        }
    }

    /// The key at a place, counted from 0.
    pub fn key_at(&self, place: u64) -> &'a Key
        requires { place < length self.now.reads }
        ensures { slice_get (keys_of self.now.reads) place ≡ Some result.now }
    {
        match &self.place {
            EntryPlace::Whole(entry) => entry.reads().key_at(place),
            EntryPlace::Numbered(entry, store) => store.key(entry.reads().at(place)),
        }
    }

    /// Whether the world still gives a reader what was seen, up to the first key that it does not; it takes no memory.
    pub fn check<W: World, F: Finished>(&self, world: &W, reader: u32, outs: &F) -> Checked
        requires { reader < length (W.names world.now) }
        ensures first { result ≡ first_other self.now.reads (W.sight world.now reader (F.outcomes outs.now)) }

        // Where the record agrees, what it certifies of a query is what the query gives over the world's view.
        ensures carries { result ≡ Checked.Agrees → (query : Query SiteFault Page) (met : Met SiteFault Page)
            → Certifies self.now.reads query met → interpret (W.sight world.now reader (F.outcomes outs.now)) query ≡ met }
        // And where it lacks a key that the world lacks too, that key is what the query lacks.
        ensures carries_miss { result ≡ Checked.Agrees → (query : Query SiteFault Page) (key : Key) (item : ℕ)
            → Misses self.now.reads query key → W.sight world.now reader (F.outcomes outs.now) key ≡ Missing item
            → interpret (W.sight world.now reader (F.outcomes outs.now)) query ≡ Missed key item }
    {
        match &self.place {
            EntryPlace::Whole(entry) => check(entry.reads(), world, reader, outs),
            EntryPlace::Numbered(entry, store) => {
                check_numbers(entry.reads(), store, world, reader, outs)
            }
        }
    }
}
