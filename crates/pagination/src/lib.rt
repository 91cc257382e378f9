//! The pages over which posts are spread: how many there are, and where each stands.
#![tactic(auto)]

mod count;
mod path;

pub use count::page_count;
pub use path::page_path;
