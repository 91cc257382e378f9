//! The words of a command line: which command they order, with its options.
#![tactic(auto)]

mod faults;
mod numbers;
mod options;
mod orders;
mod reading;

pub use faults::{UsageKind, WordsError};
pub use orders::{Options, Order};
pub use reading::read_words;
