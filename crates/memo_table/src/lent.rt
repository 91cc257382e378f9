// A memo that is lent.
ghost use Rattle.std.specs.Prelude.{◌≡◌, ◌<◌, None, Some, IfOk, IfSome, MatchOption, length};
ghost use Rattle.std.specs.FinMap as map;
ghost use Rattle.read_record.specs.Noted.{AreRight};
ghost use Rattle.read_record.specs.Records.{first_other};
ghost use Rattle.memo_table.specs.Lending.{IsLent};
ghost use Rattle.memo_table.specs.Stored.{as_entries};

use crate::by_name::{ByName, place_of};
use read_record::{
    Checked, Finished, ItemMeaning, KeptEntry, Notes, NumberedEntry, ReadStore, World, check_noted,
};
use site_base::{ItemName, Memory};
use std::alloc::Global;
use std::marker::Model;

/// A memo that is lent to one who asks a world, with notes of what was found. Clauses see the entries and the world.
#[derive(Drop)]
pub struct Lent<'a, M: ItemMeaning, W: World> {
    entries: &'a ByName<NumberedEntry<M>>,
    store: &'a ReadStore,
    world: &'a W,
    notes: Notes,
}

impl<'a, M: ItemMeaning, W: World> Model for Lent<'a, M, W> {
    ghost use Rattle.std.specs.Coded.{coded×, coded_list, coded_ℕ};
    ghost use Rattle.std.specs.FinMap as map;
    ghost use Rattle.site_base.specs.contracts.item_name.ItemName as the_name;
    ghost use Rattle.read_record.specs.contracts.key.Key as the_key;
    ghost use Rattle.read_record.specs.contracts.outcome.Outcome as the_outcome;
    ghost use Rattle.read_record.specs.Entries.{kept_code};
    ghost use Rattle.read_record.specs.Noted.{AreRight};
    ghost use Rattle.memo_table.specs.Lending.{EntriesAndWorld, lent_code, IsLent};
    ghost use Rattle.memo_table.specs.Stored.{as_entries};

    ghost Value = { EntriesAndWorld W };

    ghost coded = { lent_code (map.code the_name.the_row.coded (kept_code the_name.the_row.coded (coded_list (coded× the_key.the_row.coded (coded_list coded_ℕ))) the_outcome.the_row.coded)) W.code };

    ghost view = { λ lent. record { entries = as_entries lent.store.now lent.entries.now.entries; world = lent.world.now } };

    ghost invariant = { λ lent. IsLent M.item lent.store.now lent.entries.now.entries × AreRight lent.store.now (W.sight lent.world.now) lent.notes };
}

impl<'a, M: ItemMeaning, W: World> Lent<'a, M, W> {
    /// With room for notes of all keys, and no notes. The one error is want of memory.
    pub(crate) fn new(
        alloc: Global,
        entries: &'a ByName<NumberedEntry<M>>,
        store: &'a ReadStore,
        world: &'a W,
    ) -> Result<Lent<'a, M, W>, Memory>
        requires { IsLent M.item store.now entries.now.entries }
        ensures { IfOk result (λ lent. lent ≡ record { entries = as_entries store.now entries.now.entries; world = world.now }) }
    {
        let notes = Notes::new(alloc, store)?;
        Ok(Lent {
            entries,
            store,
            world,
            notes,
        })
    }

    /// The world that is asked.
    pub fn world(&self) -> &'a W
        ensures { result.now ≡ self.now.world }
    {
        self.world
    }

    /// The entry of a name, or `None` where none is kept, with the first key that the world does not give a reader as it was seen.
    /// What was found before is not looked up again. It takes no memory.
    pub fn checked<F: Finished>(
        &mut self,
        name: &ItemName,
        reader: u32,
        outs: &F,
    ) -> Option<(KeptEntry<'a, M>, Checked)>
        requires { reader < length (W.names self.old.world) }
        ensures same { self.new ≡ self.old }
        ensures found { MatchOption result (map.get self.old.entries name.now ≡ None) (λ r. (map.get self.old.entries name.now ≡ Some r.0) × (r.1 ≡ first_other r.0.reads (W.sight self.old.world reader (F.outcomes outs.now)))) }
        ensures named { IfSome result (λ r. r.0.name ≡ name.now) }
    {
        checked_in(
            self.entries,
            self.store,
            &mut self.notes,
            self.world,
            name,
            reader,
            outs,
        )
    }
}

/// The entry of a name among those that are lent, with the first key that the world does not give a reader as it was seen.
pub(crate) fn checked_in<'a, M: ItemMeaning, W: World, F: Finished>(
    entries: &'a ByName<NumberedEntry<M>>,
    store: &'a ReadStore,
    notes: &mut Notes,
    world: &W,
    name: &ItemName,
    reader: u32,
    outs: &F,
) -> Option<(KeptEntry<'a, M>, Checked)>
    requires in_range { reader < length (W.names world.now) }
    requires lent { IsLent M.item store.now entries.now.entries }
    requires right { AreRight store.now (W.sight world.now) notes.old }
    ensures found { MatchOption result (map.get (as_entries store.now entries.now.entries) name.now ≡ None) (λ r. (map.get (as_entries store.now entries.now.entries) name.now ≡ Some r.0) × (r.1 ≡ first_other r.0.reads (W.sight world.now reader (F.outcomes outs.now)))) }
    ensures named { IfSome result (λ r. r.0.name ≡ name.now) }
    ensures right { AreRight store.now (W.sight world.now) notes.new }
{
    match place_of(entries, name) {
        Some(place) => {
            let entry = &entries[place];
            let checked = check_noted(entry.reads(), store, notes, world, reader, outs);
            Some((KeptEntry::numbered(entry, store), checked))
        }
        None => None,
    }
}
