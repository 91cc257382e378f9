// A memo in a round that merges as it goes.
ghost use Rattle.std.specs.Prelude.{◌≡◌, ◌<◌, IfSome, OnErr, OnOk, length, option_map};
ghost use Rattle.std.specs.FinMap as map;
ghost use Rattle.read_record.specs.Records.{first_other};
ghost use Rattle.read_record.specs.Noted.{AreRight};
ghost use Rattle.memo_table.specs.Entries.{with_entry};
ghost use Rattle.memo_table.specs.Stored.{as_entries, IsSound};

use crate::Memo;
use crate::by_name::{ByName, place_of};
use crate::keeping::keep;
use crate::lent::checked_in;
use read_record::{
    Checked, Entry, Finished, ItemMeaning, KeptEntry, Notes, NumberedEntry, ReadStore, SharedEntry,
    World,
};
use site_base::{ItemName, Memory};
use std::alloc::Global;
use std::marker::Model;

/// The entries of a memo for one who asks a world and merges what is made anew, with notes of what was found. Clauses see the
/// entries and the world.
///
/// A note is of the numbers of a key and a code. They stand for the same as long as nothing is given back, so what is replaced
/// here waits until the entries are a memo's again.
#[derive(Drop)]
pub struct NotedMemo<'a, M: ItemMeaning, W: World> {
    entries: ByName<NumberedEntry<M>>,
    store: ReadStore,
    replaced: Vec<NumberedEntry<M>>,
    world: &'a W,
    notes: Notes,
}

impl<'a, M: ItemMeaning, W: World> Model for NotedMemo<'a, M, W> {
    ghost use Rattle.std.specs.Coded.{coded×, coded_list, coded_ℕ};
    ghost use Rattle.std.specs.FinMap as map;
    ghost use Rattle.site_base.specs.contracts.item_name.ItemName as the_name;
    ghost use Rattle.read_record.specs.contracts.key.Key as the_key;
    ghost use Rattle.read_record.specs.contracts.outcome.Outcome as the_outcome;
    ghost use Rattle.read_record.specs.Entries.{kept_code};
    ghost use Rattle.read_record.specs.Noted.{AreRight};
    ghost use Rattle.memo_table.specs.Lending.{EntriesAndWorld, lent_code};
    ghost use Rattle.memo_table.specs.Stored.{as_entries, IsSound};

    ghost Value = { EntriesAndWorld W };

    ghost coded = { lent_code (map.code the_name.the_row.coded (kept_code the_name.the_row.coded (coded_list (coded× the_key.the_row.coded (coded_list coded_ℕ))) the_outcome.the_row.coded)) W.code };

    ghost view = { λ memo. record { entries = as_entries memo.store memo.entries.entries; world = memo.world.now } };

    ghost invariant = { λ memo. IsSound M.item memo.store memo.entries.entries memo.replaced.items × AreRight memo.store (W.sight memo.world.now) memo.notes };
}

impl<'a, M: ItemMeaning, W: World> NotedMemo<'a, M, W> {
    /// The entries of a memo, with what waits there and with these notes.
    pub(crate) fn of(
        entries: ByName<NumberedEntry<M>>,
        store: ReadStore,
        replaced: Vec<NumberedEntry<M>>,
        world: &'a W,
        notes: Notes,
    ) -> NotedMemo<'a, M, W>
        requires sound { IsSound M.item store entries.entries replaced.items }
        requires right { AreRight store (W.sight world.now) notes }
        ensures { result ≡ record { entries = as_entries store entries.entry.entries; world = world.now } }
    {
        NotedMemo {
            entries,
            store,
            replaced,
            world,
            notes,
        }
    }

    /// The world that is asked.
    pub fn world(&self) -> &'a W
        ensures { result.now ≡ self.now.world }
    {
        self.world
    }

    /// The entry of a name, or `None` where none is kept. It takes no memory.
    pub fn entry(&self, name: &ItemName) -> Option<KeptEntry<'_, M>>
        ensures found { result ≡ map.get self.now.entries name.now }
        ensures named { IfSome result (λ entry. entry.name ≡ name.now) }
    {
        match place_of(&self.entries, name) {
            Some(place) => Some(KeptEntry::numbered(&self.entries[place], &self.store)),
            None => None,
        }
    }

    /// The first key that the world does not give a reader as the entry of a name has seen it, or `None` where none is kept. What was
    /// found before is not looked up again. It takes no memory.
    pub fn checked<F: Finished>(
        &mut self,
        name: &ItemName,
        reader: u32,
        outs: &F,
    ) -> Option<Checked>
        requires { reader < length (W.names self.old.world) }
        ensures same { self.new ≡ self.old }
        ensures found { result ≡ option_map (λ kept. first_other kept.reads (W.sight self.old.world reader (F.outcomes outs.now))) (map.get self.old.entries name.now) }
    {
        match checked_in(
            &self.entries,
            &self.store,
            &mut self.notes,
            self.world,
            name,
            reader,
            outs,
        ) {
            Some((_, checked)) => Some(checked),
            None => None,
        }
    }

    /// Keeps an entry, in place of the one of its name. The one error is want of memory, after which the memo is as before.
    pub fn merge(&mut self, alloc: Global, entry: Entry<M>) -> Result<(), Memory>
        ensures ok { OnOk result (self.new ≡ record { entries = with_entry entry self.old.entries; world = self.old.world }) }
        ensures err { OnErr result (self.new ≡ self.old) }
    {
        let shared = SharedEntry::new(alloc, entry)?;
        self.merge_shared(alloc, &shared)
    }

    /// The same of an entry that others share.
    pub fn merge_shared(&mut self, alloc: Global, entry: &SharedEntry<M>) -> Result<(), Memory>
        ensures ok { OnOk result (self.new ≡ record { entries = with_entry entry.now self.old.entries; world = self.old.world }) }
        ensures err { OnErr result (self.new ≡ self.old) }
    {
        keep(
            alloc,
            &mut self.entries,
            &mut self.store,
            &mut self.replaced,
            entry,
        )
    }

    /// Puts the entries into a memo, in place of those that it has.
    pub fn give_back(self, memo: &mut Memo<M>)
        ensures { memo.new ≡ self.entry.entries }
    {
        let NotedMemo {
            entries,
            store,
            replaced,
            world: _world,
            notes: _notes,
        } = self;
        *memo = Memo::of(entries, store, replaced);
    }
}
