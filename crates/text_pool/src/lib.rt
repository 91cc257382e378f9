//! Texts that many hold, each kept once and named by a number.
#![tactic(auto)]

mod crossing;
mod pool;
mod text_id;
mod text_key;
mod text_table;

pub use pool::Pool;
pub use text_id::TextId;
