// What cells hold.
use read_record::{ItemMeaning, SharedEntry};

/// What a cell holds.
#[derive(Drop)]
pub enum Made<M: ItemMeaning> {
    /// The entry that is kept under the item's name.
    Kept,
    /// An entry that was made, which others share.
    New(SharedEntry<M>),
}
