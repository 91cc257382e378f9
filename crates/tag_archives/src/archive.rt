// Posts by their terms, and archives.
use site_base::{ItemName, List, Memory, Sequence, SitePath, Text};
use std::alloc::AllocError;

/// Posts, the oldest first; their names differ.
pub type ArchivePosts = Sequence<ArchivePost>;

/// Archives in byte order of their paths.
pub type ArchiveList = Sequence<Archive>;

/// What archives are made of.
#[derive(Clone, Copy, Debug, PartialEq, Eq)]
pub enum ArchiveWord {
    Tag,
    Category,
}

/// Why there are no archives.
#[derive(Clone, Copy, Debug, PartialEq, Eq)]
pub enum ArchiveError {
    /// The path of an archive is too long.
    BadPath,
    /// There are more than 100,000 archives.
    TooMany,
    Memory,
}

impl From<Memory> for ArchiveError {
    ghost use Rattle.std.specs.Prelude.{◌≡◌};
    ghost use Rattle.tag_archives.specs.declared.archive.ArchiveError.TheVariants as archive_error;

    ghost from_gives = { λ _ error. error ≡ archive_error.Memory };

    fn from(_: Memory) -> ArchiveError {
        ArchiveError::Memory
    }
}

impl From<AllocError> for ArchiveError {
    ghost use Rattle.std.specs.Prelude.{◌≡◌};
    ghost use Rattle.tag_archives.specs.declared.archive.ArchiveError.TheVariants as archive_error;

    ghost from_gives = { λ _ error. error ≡ archive_error.Memory };

    fn from(_: AllocError) -> ArchiveError {
        ArchiveError::Memory
    }
}

/// A post, with the terms whose texts are its tags or its categories.
#[derive(Drop)]
pub struct ArchivePost {
    pub name: ItemName,
    pub terms: List,
}

/// The page of all posts that have a tag or a category.
#[derive(Drop)]
pub struct Archive {
    /// The first name with the slug.
    pub title: Text,
    pub slug: Text,
    pub path: SitePath,
    /// The posts as items, the newest first.
    pub posts: List,
}
