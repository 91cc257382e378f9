//! Archive pages: which posts a page for a tag or a category lists, and where it stands.
#![tactic(auto)]

mod archive;
mod gathering;
mod group;
mod name_key;
mod page;

pub use archive::{Archive, ArchiveError, ArchiveList, ArchivePost, ArchivePosts, ArchiveWord};
pub use gathering::archives;
