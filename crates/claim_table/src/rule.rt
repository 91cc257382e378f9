// The rule of the table and the kinds of its steps. No value of these types is made.
ghost use Rattle.claim_table.specs.Rule.{Agrees};
ghost use Rattle.claim_table.specs.Steps.{empty_lists, joined_lists, claims, finishes, looks};

use atomic_table::{Join, Play, Split, TableRule};
use std::collections::LinkedList;

/// What a seat knows: the items that it claimed and did not finish, those that it finished, and each that it tried to
/// claim, with the word that this step found.
pub struct SeatLists {
    pub mine: LinkedList<u32>,
    pub done: LinkedList<u32>,
    pub found: LinkedList<(u32, u64)>,
}

pub(crate) struct ClaimRule;

impl TableRule<(), SeatLists, usize> for ClaimRule {
    ghost holds = { λ count state. Agrees count state.words state.views };

    ghost first = { λ _. empty_lists };
}

/// An exchange of 0 by 1, which is a mere load where it finds 1 or 2.
pub(crate) struct ClaimStep;

impl Play<(), SeatLists> for ClaimStep {
    ghost then = { claims };
}

pub(crate) struct FinishStep;

impl Play<(), SeatLists> for FinishStep {
    ghost then = { finishes };
}

pub(crate) struct LoadStep;

impl Play<(), SeatLists> for LoadStep {
    ghost then = { looks };
}

/// A new seat has empty lists.
pub(crate) struct SplitStep;

impl Split<SeatLists> for SplitStep {
    ghost left = { λ lists. lists };

    ghost right = { λ _. empty_lists };
}

/// One seat gets the lists of both, and the other is spent.
pub(crate) struct JoinStep;

impl Join<SeatLists> for JoinStep {
    ghost both = { joined_lists };

    ghost spent = { empty_lists };
}
