// The state of a round.
ghost use Rattle.std.specs.Prelude.{◌≡◌, None, Some, MatchOption, OnOk};
ghost use Rattle.round_core.specs.States.{nobody, at, knows, with_claim, with_cell, knowing};

use crate::{Known, Made};
use read_record::ItemMeaning;
use site_base::Memory;
use std::alloc::Global;
use std::marker::Model;

/// Who claimed which items, what the cells hold, and which items each worker knows: three lists, each in the order
/// in which it came to be.
#[derive(Drop)]
pub struct Core<M: ItemMeaning> {
    claims: Vec<(u32, u32)>,
    cells: Vec<(u32, Made<M>)>,
    known: Vec<Known>,
}

impl<M: ItemMeaning> Model for Core<M> {
    ghost use Rattle.std.specs.Coded.{coded×, coded_list, coded_ℕ};
    ghost use Rattle.site_base.specs.contracts.item_name.ItemName as the_name;
    ghost use Rattle.read_record.specs.contracts.key.Key as the_key;
    ghost use Rattle.read_record.specs.contracts.outcome.Outcome as the_outcome;
    ghost use Rattle.read_record.specs.Entries.{kept_code};
    ghost use Rattle.round_core.specs.States.{State, state_code};

    ghost Value = { State M };

    ghost coded = { state_code (kept_code the_name.the_row.coded (coded_list (coded× the_key.the_row.coded (coded_list coded_ℕ))) the_outcome.the_row.coded) };

    ghost view = { λ c. record { claims = c.claims.items; cells = c.cells.items; known = c.known.items } };
}

impl<M: ItemMeaning> Core<M> {
    /// Nothing is claimed, set or known; it takes no memory.
    pub(crate) fn new(alloc: Global) -> Core<M>
        ensures { result ≡ nobody }
    {
        Core {
            claims: Vec::new(alloc),
            cells: Vec::new(alloc),
            known: Vec::new(alloc),
        }
    }

    /// The items that are claimed, each with the worker.
    pub fn claims(&self) -> &[(u32, u32)]
        ensures { result.now ≡ self.now.claims }
    {
        self.claims.as_slice()
    }

    /// The items whose cells are set, each with what its cell holds.
    pub fn cells(&self) -> &[(u32, Made<M>)]
        ensures { result.now ≡ self.now.cells }
    {
        self.cells.as_slice()
    }

    /// The workers that know an item, each with the items that it knows.
    pub fn known(&self) -> &[Known]
        ensures { result.now ≡ self.now.known }
    {
        self.known.as_slice()
    }

    pub(crate) fn claimant(&self, item: u32) -> Option<u32>
        ensures { result ≡ at item self.now.claims }
    {
        for claim in &self.claims {
            if claim.0 == item {
                return Some(claim.1);
            }
        }
        None
    }

    pub(crate) fn cell(&self, item: u32) -> Option<&Made<M>>
        ensures { MatchOption result (at item self.now.cells ≡ None) (λ m. at item self.now.cells ≡ Some m.now) }
    {
        for cell in &self.cells {
            if cell.0 == item {
                return Some(&cell.1);
            }
        }
        None
    }

    pub(crate) fn knows(&self, worker: u32, item: u32) -> bool
        ensures { result ≡ knows worker item self.now.known }
    {
        for known in &self.known {
            if known.worker() == worker {
                return known.has(item);
            }
        }
        false
    }

    pub(crate) fn add_claim(&mut self, worker: u32, item: u32) -> Result<(), Memory>
        ensures { OnOk result (self.new ≡ with_claim worker item self.old) }
    {
        self.claims.push((item, worker))?;
        Ok(())
    }

    pub(crate) fn add_cell(&mut self, item: u32, made: Made<M>) -> Result<(), Memory>
        ensures { OnOk result (self.new ≡ with_cell item made self.old) }
    {
        self.cells.push((item, made))?;
        Ok(())
    }

    pub(crate) fn add_known(&mut self, alloc: Global, worker: u32, item: u32) -> Result<(), Memory>
        ensures { OnOk result (self.new ≡ knowing worker item self.old) }
    {
        for place in 0..self.known.len() {
            if self.known[place].worker() == worker {
                return self.known[place].add(item);
            }
        }
        let known = Known::of(alloc, worker, item)?;
        self.known.push(known)?;
        Ok(())
    }
}
