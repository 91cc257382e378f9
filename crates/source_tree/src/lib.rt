//! The files of a site: where they come from, and what is held of them.
#![tactic(auto)]

mod disk;
mod distinct;
mod fitting;
mod held;
mod limits;
mod memory;
mod put_error;
mod reading;
mod rescanned;
mod scan_error;
mod sharing;
mod source;

pub use disk::DiskSource;
pub use distinct::{paths_differ, paths_stand_apart};
pub use held::Held;
pub use memory::MemorySource;
pub use put_error::PutError;
pub use rescanned::Rescanned;
pub use scan_error::ScanError;
pub use source::SourceTree;
