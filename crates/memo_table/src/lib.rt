//! The entries that are kept from build to build, each under the name of its item.
#![tactic(auto)]

mod by_name;
mod crossing;
mod keeping;
mod lent;
mod memo;
mod name_key;
mod noted;
mod releasing;

pub use lent::Lent;
pub use memo::Memo;
pub use noted::NotedMemo;
