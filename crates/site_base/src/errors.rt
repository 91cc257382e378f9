// The errors that several crates share.
use std::alloc::{AllocError, AllocFailed};

/// Memory was wanting.
#[derive(Clone, Copy, Debug, PartialEq, Eq)]
pub struct Memory;

impl From<AllocError> for Memory {
    fn from(_: AllocError) -> Memory {
        Memory
    }
}

impl<T: Drop> From<AllocFailed<T>> for Memory {
    fn from(_: AllocFailed<T>) -> Memory {
        Memory
    }
}

/// An end outside the program failed.
#[derive(Clone, Copy, Debug, PartialEq, Eq)]
pub struct Failed;

/// Why an end gave no list of its files.
#[derive(Clone, Copy, Debug, PartialEq, Eq)]
pub enum ListError {
    Failed,
    Memory,
}

impl From<Memory> for ListError {
    ghost use Rattle.std.specs.Prelude.{◌≡◌};
    ghost use Rattle.site_base.specs.declared.errors.ListError.TheVariants as list_error;

    ghost from_gives = { λ _ error. error ≡ list_error.Memory };

    fn from(_: Memory) -> ListError {
        ListError::Memory
    }
}

/// Why an end gave no bytes of a file.
#[derive(Clone, Copy, Debug, PartialEq, Eq)]
pub enum ReadError {
    Failed,
    Memory,
}

impl From<Memory> for ReadError {
    ghost use Rattle.std.specs.Prelude.{◌≡◌};
    ghost use Rattle.site_base.specs.declared.errors.ReadError.TheVariants as read_error;

    ghost from_gives = { λ _ error. error ≡ read_error.Memory };

    fn from(_: Memory) -> ReadError {
        ReadError::Memory
    }
}
