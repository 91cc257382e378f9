//! The links of pages, where they lead, and which are broken.
#![tactic(auto)]

mod answering;
mod finding;
mod leading;
mod notes;
mod page;
mod resolving;
mod table;
mod tags;
mod value_key;
mod value_table;
mod values;

pub use answering::{Broken, BrokenList, Paths, is_broken, push_broken};
pub use finding::{LinkList, links};
pub use leading::{LinkTarget, target};
pub use table::LinkTable;
