// What a worker brings back.
ghost use Rattle.std.specs.Prelude.{◌≡◌, ◌<◌, ◌∷◌, ◌++◌, [], OnOk};
ghost use Rattle.claim_table.specs.Counts.{times};
ghost use Rattle.claim_table.specs.Seats.{finished};

use crate::Why;
use claim_table::{ClaimSeat, ClaimTable};
use read_record::{ItemMeaning, SharedEntry, Tally};
use site_base::Memory;
use std::alloc::Global;

/// What was made of an item.
#[derive(Drop)]
pub(crate) enum Work<M: ItemMeaning> {
    /// What is kept of it stays.
    Kept,
    /// It was rendered anew. Its cell holds the same entry.
    New(SharedEntry<M>, Why),
}

/// An item with what was made of it.
#[derive(Drop)]
pub(crate) struct Brought<M: ItemMeaning> {
    pub(crate) item: u32,
    pub(crate) work: Work<M>,
}

/// The items that a worker has finished, and the names of those that it rendered.
#[derive(Drop)]
pub(crate) struct Part<M: ItemMeaning> {
    pub(crate) seat: ClaimSeat,
    pub(crate) tally: Tally,
    pub(crate) brought: Vec<Brought<M>>,
}

impl<M: ItemMeaning> Part<M> {
    /// No items; it takes no memory.
    pub(crate) fn new(alloc: Global, seat: ClaimSeat) -> Part<M>
        ensures seat { result.seat ≡ seat }
        ensures tally { result.tally ≡ [] }
        ensures brought { result.brought.items ≡ [] }
    {
        Part {
            seat,
            tally: Tally::new(alloc),
            brought: Vec::new(alloc),
        }
    }

    /// Ends the work on an item that the seat has claimed.
    pub(crate) fn add(&mut self, table: &ClaimTable, item: u32, work: Work<M>) -> Result<(), Memory>
        requires table { self.old.seat.table ≡ table.now }
        requires mine { 0 < times item self.old.seat.mine }
        ensures seat { OnOk result (self.new.seat ≡ finished item self.old.seat) }
        ensures brought { OnOk result (self.new.brought.items ≡ self.old.brought.items ++ record { item = item; work = work } ∷ []) }
        ensures tally { self.new.tally ≡ self.old.tally }
    {
        table.finish(&mut self.seat, item);
        self.brought.push(Brought { item, work })?;
        Ok(())
    }
}
