// What one worker knows.
ghost use Rattle.std.specs.Prelude.{◌≡◌, ◌<◌, Some, None, IfOk, MatchOption, length, replicate, slice_get};
ghost use Rattle.read_record.specs.Records.{first_other};
ghost use Rattle.memo_table.specs.Entries.{Entries};
ghost use Rattle.read_record.specs.Entries.{Kept};
ghost use Rattle.round_core.specs.Meant.{given_by, kept_in};
ghost use Rattle.round_core.specs.Facts.{AreMeant};
ghost use Rattle.round_core.specs.Hands.{hand_outs, taken};

use memo_table::Lent;
use read_record::{Checked, Finished, ItemMeaning, KeptEntry, Outcome, World};
use site_base::Memory;
use std::alloc::Global;
use std::marker::Model;

/// The items that one worker knows, with their entries. Clauses see of each item of the world its entry, where it is known.
#[derive(Drop)]
pub struct Hand<'a, M: ItemMeaning> {
    entries: Vec<Option<KeptEntry<'a, M>>>,
}

impl<'a, M: ItemMeaning> Model for Hand<'a, M> {
    ghost use Rattle.round_core.specs.Hands.{Hand as Hand'};
    ghost use Rattle.std.specs.Coded.{coded×, coded_list, coded_option, coded_ℕ};
    ghost use Rattle.site_base.specs.contracts.item_name.ItemName as the_name;
    ghost use Rattle.read_record.specs.contracts.key.Key as the_key;
    ghost use Rattle.read_record.specs.contracts.outcome.Outcome as the_outcome;
    ghost use Rattle.read_record.specs.Entries.{kept_code};

    ghost Value = { Hand' };

    ghost coded = { coded_list (coded_option (kept_code the_name.the_row.coded (coded_list (coded× the_key.the_row.coded (coded_list coded_ℕ))) the_outcome.the_row.coded)) };

    ghost view = { λ h. h.entries.items };
}

impl<'a, M: ItemMeaning> Hand<'a, M> {
    /// Nothing is known. It takes the memory for every item of the world; the one error is want of it.
    pub fn new<W: World>(alloc: Global, world: &W) -> Result<Hand<'a, M>, Memory>
        ensures { IfOk result (λ hand. hand ≡ replicate (length (W.names world.now)) None) }
    {
        let items = world.items();
        let mut entries: Vec<Option<KeptEntry<'a, M>>> = Vec::with_capacity(alloc, items as usize)?;
        for _ in 0..items {
            entries.push(None)?;
        }
        Ok(Hand { entries })
    }

    /// Checks an entry of an item, which is not known, over what is known: it is known from here on exactly where its record
    /// agrees. It takes no memory.
    pub fn take<W: World>(&mut self, world: &W, item: u32, kept: KeptEntry<'a, M>) -> Checked
        requires world { length self.old ≡ length (W.names world.now) }
        requires item { item < length (W.names world.now) }
        requires named { slice_get (W.names world.now) item ≡ Some kept.name }
        requires unknown { slice_get self.old item ≡ Some None }
        ensures first { result ≡ first_other kept.entry.reads (W.sight world.now item (hand_outs self.old)) }
        ensures taken { self.new ≡ taken result item kept.entry self.old }
        ensures right { (entries : Entries) → let given = given_by (W.names world.now) (W.sight world.now) M.item entries in
            AreMeant given (hand_outs self.old) → AreMeant given (hand_outs self.new) }
    {
        // The name tells that the entry is certified.
        let _name = kept.name();
        let checked = kept.check(world, item, self);
        self.know(item, kept, checked);
        checked
    }

    /// Checks what a memo that is lent has under the name of an item, which is not known, over what is known, without looking up again
    /// what was found before: it is known from here on exactly where its record agrees. `None` tells that the memo has nothing under the
    /// name. It takes no memory.
    pub fn take_kept<W: World>(&mut self, lent: &mut Lent<'a, M, W>, item: u32) -> Option<Checked>
        requires world { length self.old ≡ length (W.names lent.old.world) }
        requires item { item < length (W.names lent.old.world) }
        requires unknown { slice_get self.old item ≡ Some None }
        ensures lent { lent.new ≡ lent.old }
        ensures taken { MatchOption result ((kept_in (W.names lent.old.world) lent.old.entries item ≡ None) × (self.new ≡ self.old))
            (λ checked. (kept : Kept) × (kept_in (W.names lent.old.world) lent.old.entries item ≡ Some kept) × (checked ≡ first_other kept.reads (W.sight lent.old.world item (hand_outs self.old))) × (self.new ≡ taken checked item kept self.old)) }
        ensures right { (entries : Entries) → let given = given_by (W.names lent.old.world) (W.sight lent.old.world) M.item entries in
            AreMeant given (hand_outs self.old) → AreMeant given (hand_outs self.new) }
    {
        let world = lent.world();
        match lent.checked(world.name(item), item, self) {
            Some((kept, checked)) => {
                // The name tells that the entry is certified.
                let _name = kept.name();
                self.know(item, kept, checked);
                Some(checked)
            }
            None => None,
        }
    }

    /// An entry that was checked is known where it agrees.
    fn know(&mut self, item: u32, kept: KeptEntry<'a, M>, checked: Checked)
        requires { item < length self.old }
        ensures { self.new ≡ taken checked item kept.entry self.old }
    {
        match checked {
            Checked::Agrees => self.entries[item as usize] = Some(kept),
            Checked::Differs(_) => {}
            Checked::Needs(_) => {}
        }
    }
}

impl<'a, M: ItemMeaning> Finished for Hand<'a, M> {
    ghost use Rattle.round_core.specs.Hands.{hand_outs};

    ghost outcomes = { λ h. hand_outs h };

    fn done(&self, item: u32) -> Option<&Outcome> {
        match self.entries.get(item as usize) {
            Some(Some(entry)) => Some(entry.outcome()),
            _ => None,
        }
    }
}
