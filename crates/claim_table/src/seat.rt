// What one thread has claimed and finished.
use crate::rule::SeatLists;
use atomic_table::Seat;
use std::marker::Model;

/// A thread's place at a table. It takes no bytes: its lists stand in proofs alone.
#[derive(Drop)]
pub struct ClaimSeat {
    pub(crate) seat: Seat<(), SeatLists>,
}

impl Model for ClaimSeat {
    ghost use Rattle.std.specs.Prelude.{◌≡◌, []};
    ghost use Rattle.claim_table.specs.Counts.{AllBelow};
    ghost use Rattle.claim_table.specs.Seats.{Seated};

    ghost Value = { Seated };

    ghost view = { λ s. record { table = s.seat.table_id; mine = s.seat.me.0.mine; done = s.seat.me.0.done; found = s.seat.me.0.found } };

    ghost invariant = { λ s. (s.seat.me.1 ≡ []) × AllBelow s.seat.table_id.words s.seat.me.0.mine };
}
