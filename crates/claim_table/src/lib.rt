//! Items that several threads claim, each at most once.
#![tactic(auto)]

mod crossing;
mod rule;
mod seat;
mod table;

pub use rule::SeatLists;
pub use seat::ClaimSeat;
pub use table::{ClaimTable, Claimed};

#[cfg(test)]
mod tests;
#[cfg(test)]
mod thread_tests;
