// The entries that are kept.
ghost use Rattle.std.specs.Prelude.{◌≡◌, IfOk, IfSome, OnOk, OnErr};
ghost use Rattle.std.specs.FinMap as map;
ghost use Rattle.text_pool.specs.Texts.{held_ids};
ghost use Rattle.memo_table.specs.Entries.{of_names, with_entry};
ghost use Rattle.memo_table.specs.Stored.{as_entries, read_count, HoldsKept, IsSound};

use crate::by_name::{ByName, gather, place_of};
use crate::keeping::keep;
use crate::releasing::{release_all, release_behind};
use crate::{Lent, NotedMemo};
use indexmap::IndexMap;
use read_record::{
    Entry, ItemMeaning, KeptEntry, Notes, NumberedEntry, ReadStore, SharedEntry, World,
};
use site_base::{ItemName, Memory};
use std::alloc::Global;
use std::marker::Model;
use std::mem;

/// The entries that are kept, at most one of a name. Clauses see a map from names to entries.
///
/// Of the keys and codes in their records each is kept once, in a store. What a record gives back is not given out again as long
/// as the record waits among those that were replaced.
#[derive(Drop)]
pub struct Memo<M: ItemMeaning> {
    entries: ByName<NumberedEntry<M>>,
    store: ReadStore,
    replaced: Vec<NumberedEntry<M>>,
}

impl<M: ItemMeaning> Model for Memo<M> {
    ghost use Rattle.std.specs.Coded.{coded×, coded_list, coded_ℕ};
    ghost use Rattle.std.specs.FinMap as map;
    ghost use Rattle.site_base.specs.contracts.item_name.ItemName as the_name;
    ghost use Rattle.read_record.specs.contracts.key.Key as the_key;
    ghost use Rattle.read_record.specs.contracts.outcome.Outcome as the_outcome;
    ghost use Rattle.read_record.specs.Entries.{kept_code};
    ghost use Rattle.memo_table.specs.Entries.{Entries};
    ghost use Rattle.memo_table.specs.Stored.{as_entries, IsSound};

    ghost Value = { Entries };

    ghost coded = { map.code the_name.the_row.coded (kept_code the_name.the_row.coded (coded_list (coded× the_key.the_row.coded (coded_list coded_ℕ))) the_outcome.the_row.coded) };

    ghost view = { λ memo. as_entries memo.store memo.entries.entries };

    ghost invariant = { λ memo. IsSound M.item memo.store memo.entries.entries memo.replaced.items };
}

impl<M: ItemMeaning> Memo<M> {
    /// The memo of no entries; it takes no memory.
    pub fn new(alloc: Global) -> Memo<M>
        ensures { result ≡ map.empty }
    {
        Memo {
            entries: IndexMap::new(alloc),
            store: ReadStore::new(alloc),
            replaced: Vec::new(alloc),
        }
    }

    /// The memo of these entries, with those that wait.
    pub(crate) fn of(
        entries: ByName<NumberedEntry<M>>,
        store: ReadStore,
        replaced: Vec<NumberedEntry<M>>,
    ) -> Memo<M>
        requires { IsSound M.item store entries.entries replaced.items }
        ensures { result ≡ as_entries store entries.entry.entries }
    {
        Memo {
            entries,
            store,
            replaced,
        }
    }

    /// The entry of a name, or `None` where none is kept. It takes no memory.
    pub fn entry(&self, name: &ItemName) -> Option<KeptEntry<'_, M>>
        ensures found { result ≡ map.get self.now name.now }
        ensures named { IfSome result (λ entry. entry.name ≡ name.now) }
    {
        match place_of(&self.entries, name) {
            Some(place) => Some(KeptEntry::numbered(&self.entries[place], &self.store)),
            None => None,
        }
    }

    /// The memo, lent to one who asks this world. The one error is want of memory.
    pub fn lend<'a, W: World>(
        &'a self,
        alloc: Global,
        world: &'a W,
    ) -> Result<Lent<'a, M, W>, Memory>
        ensures { IfOk result (λ lent. lent ≡ record { entries = self.now; world = world.now }) }
    {
        Lent::new(alloc, &self.entries, &self.store, world)
    }

    /// Keeps an entry, in place of the one of its name. The one error is want of memory, after which the memo is as before.
    pub fn merge(&mut self, alloc: Global, entry: Entry<M>) -> Result<(), Memory>
        ensures ok { OnOk result (self.new ≡ with_entry entry self.old) }
        ensures err { OnErr result (self.new ≡ self.old) }
    {
        let shared = SharedEntry::new(alloc, entry)?;
        self.merge_shared(alloc, &shared)
    }

    /// The same of an entry that others share.
    pub fn merge_shared(&mut self, alloc: Global, entry: &SharedEntry<M>) -> Result<(), Memory>
        ensures ok { OnOk result (self.new ≡ with_entry entry.now self.old) }
        ensures err { OnErr result (self.new ≡ self.old) }
    {
        keep(
            alloc,
            &mut self.entries,
            &mut self.store,
            &mut self.replaced,
            entry,
        )
    }

    /// Takes the entries out for a round that merges as it goes, together with notes of what it finds of this world. After `Ok`
    /// this memo has no entries, until they are given back. The one error is want of memory, after which the memo is as before.
    pub fn noted<'a, W: World>(
        &mut self,
        alloc: Global,
        world: &'a W,
    ) -> Result<NotedMemo<'a, M, W>, Memory>
        ensures ok { IfOk result (λ noted. noted ≡ record { entries = self.old; world = world.now }) }
        ensures err { OnErr result (self.new ≡ self.old) }
    {
        let notes = Notes::new(alloc, &self.store)?;
        let Memo {
            entries,
            store,
            replaced,
        } = mem::replace(self, Memo::new(alloc));
        Ok(NotedMemo::of(entries, store, replaced, world, notes))
    }

    /// Drops the entries of the names that no item of the world has, and lets those go that were replaced. It takes no memory,
    /// and goes over the items once.
    pub fn forget_missing<W: World>(&mut self, world: &W)
        ensures { self.new ≡ of_names (W.names world.now) self.old }
    {
        let gathered = gather(&mut self.entries, world);
        release_behind(&mut self.entries, &mut self.store, gathered);
        self.pool();
    }
}

impl<M: ItemMeaning> Memo<M> {
    ghost use Rattle.std.specs.Borrow.{sem};
    ghost use Rattle.std.specs.Io.BufRead.{Rests};
    ghost use Rattle.memo_table.specs.contracts.memo.Memo.{the_row};

    /// Lets the entries go that were replaced, and lends the store, which then holds just the reads of the entries that are kept. It
    /// takes no memory.
    pub fn pool(&mut self) -> &ReadStore
        ensures* same { sem 𝓛 (Rests (the_row M.row M.ItemMeaning) self.entry (λ new. new ≡ self.old)) }
        ensures just { HoldsKept result.now self.old }

        // So of no entries it holds no code.
        ensures count { held_ids result.now.codes ≡ read_count self.old }
    {
        release_all(&mut self.replaced, &mut self.store);
        // The number of entries tells that no two have one name.
        let _entries = self.entries.len();
        &self.store
    }
}
