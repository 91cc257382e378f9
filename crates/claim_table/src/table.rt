// The table of claims.
ghost use Rattle.std.specs.Prelude.{◌≡◌, ◌<◌, max, IfOk};
ghost use Rattle.claim_table.specs.Counts.{times, EachOnce};
ghost use Rattle.claim_table.specs.Seats.{empty_seat, finished, joined, Tries};

use crate::rule::{ClaimRule, ClaimStep, FinishStep, JoinStep, LoadStep, SeatLists, SplitStep};
use crate::seat::ClaimSeat;
use atomic_table::Table;
use site_base::Memory;
use std::alloc::Global;
use std::marker::Model;

const FREE: u64 = 0;

const CLAIMED: u64 = 1;

const FINISHED: u64 = 2;

/// Whether the item was free, and so belongs to the seat now, or was claimed or finished before.
#[derive(Clone, Copy, Debug, PartialEq, Eq)]
pub enum Claimed {
    Mine,
    Taken,
    Finished,
}

/// Which items are claimed and which are finished: one word for each item, and at least one.
#[derive(Drop)]
pub struct ClaimTable {
    table: Table<(), SeatLists, usize, ClaimRule, Global>,
}

impl Model for ClaimTable {
    ghost use Rattle.std.specs.Prelude.{◌≡◌, ◌<◌};
    ghost use Rattle.atomic_table.specs.Seated.{TableId};

    ghost Value = { TableId };

    ghost view = { λ t. t.table.shared.table_id };

    ghost invariant = { λ t. (0 < t.table.shared.table_id.words) × (t.table.shared.key ≡ t.table.shared.table_id.words) };
}

impl ClaimTable {
    /// A table whose items are free, and its first seat.
    pub fn new(alloc: Global, items: u32) -> Result<(ClaimTable, ClaimSeat), Memory>
        ensures words { IfOk result (λ made. made.0.words ≡ max items 1) }
        ensures seat { IfOk result (λ made. made.1 ≡ empty_seat made.0) }
    {
        let count = items.max(1) as usize;
        let words = Vec::from_elem(alloc, FREE, count)?;
        let (table, seat) = Table::of_words(alloc, words.as_slice(), &count)?;
        Ok((ClaimTable { table }, ClaimSeat { seat }))
    }

    /// Claims an item where it is free. The answer tells the word that this call's step found.
    pub fn try_claim(&self, seat: &mut ClaimSeat, item: u32) -> Claimed
        requires table { seat.old.table ≡ self.now }
        requires item { item < self.now.words }
        ensures table { seat.new.table ≡ seat.old.table }
        ensures done { seat.new.done ≡ seat.old.done }
        ensures tries { Tries result item seat.old seat.new }
        ensures mine { result ≡ Claimed.Mine → 0 < times item seat.new.mine }
        ensures once { EachOnce seat.new.mine seat.new.done }
    {
        let shared = &self.table.shared;
        let place = item as usize;
        let found = shared.compare_exchange::<ClaimStep>(&mut seat.seat, place, FREE, CLAIMED);
        match found {
            FREE => Claimed::Mine,
            CLAIMED => Claimed::Taken,
            _ => Claimed::Finished,
        }
    }

    /// Ends the work on an item that the seat has claimed.
    pub fn finish(&self, seat: &mut ClaimSeat, item: u32)
        requires table { seat.old.table ≡ self.now }
        requires mine { 0 < times item seat.old.mine }
        ensures finished { seat.new ≡ finished item seat.old }
        ensures once { EachOnce seat.new.mine seat.new.done }
    {
        let shared = &self.table.shared;
        shared.store::<FinishStep>(&mut seat.seat, item as usize, FINISHED);
    }

    /// A seat of this table with empty lists.
    pub fn split(&self, seat: &mut ClaimSeat) -> ClaimSeat
        requires table { seat.old.table ≡ self.now }
        ensures same { seat.new ≡ seat.old }
        ensures new { result ≡ empty_seat seat.old.table }
    {
        let seat = self.table.shared.split_seat::<SplitStep>(&mut seat.seat);
        ClaimSeat { seat }
    }

    /// Adds the lists of another seat. No item stands twice in the lists that the seat then has.
    pub fn join(&self, into: &mut ClaimSeat, from: ClaimSeat)
        requires into { into.old.table ≡ self.now }
        requires from { from.table ≡ self.now }
        ensures joined { into.new ≡ joined into.old from }
        ensures once { EachOnce into.new.mine into.new.done }
    {
        let shared = &self.table.shared;
        shared.join_seat::<JoinStep>(&mut into.seat, from.seat);
        shared.load::<LoadStep>(&mut into.seat, 0);
    }
}
