//! The output of a site, what is believed of it, and how it is made equal to a tree of files.
#![tactic(auto)]

mod attempts;
mod device;
mod disk;
mod disk_files;
mod keep;
mod keeper;
mod memory;
mod plan;
mod planning;
mod state;
mod step;
mod tree;

pub use device::OutTree;
pub use disk::DiskOut;
pub use keep::KeepList;
pub use keeper::{Applied, OutKeeper};
pub use memory::MemoryOut;
pub use plan::Plan;
pub use state::State;
pub use step::{Call, Step};
pub use tree::Tree;
