//! The filters of Liquid that choose among elements or sort them, by properties that are looked up.
#![tactic(auto)]

mod choosing;
mod key_order;
mod selections;
mod sortings;

pub use selections::{Selection, selection_filter};
pub use sortings::{Sorting, sort_filter};
