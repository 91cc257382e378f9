//! The files below a real folder, for a source and for an output that are folders, and what a call on a folder cannot get past.
#![tactic(auto)]

mod obstacle;
mod walk;

pub use obstacle::{Obstacle, Reason};
pub use walk::{Skips, WalkError, list_folder};
