// Why a file is no item.
ghost use Rattle.std.specs.Prelude.{◌≡◌};

use site_base::{FaultKind, Memory};
use std::alloc::AllocError;

/// What is wrong in a file, and the line, from 1, or 0 where the kind has no line.
#[derive(Clone, Copy, Debug, PartialEq, Eq)]
pub struct LineFault {
    pub line: u64,
    pub kind: FaultKind,
}

/// Why nothing was made of a file.
#[derive(Clone, Copy, Debug, PartialEq, Eq)]
pub enum ItemError {
    /// The file has a fault; this is its first.
    Fault(LineFault),
    /// Memory was wanting.
    Memory,
}

/// That a value of a configuration or of an item has no meaning.
pub(crate) fn config_fault() -> ItemError
    ensures { result ≡ ItemError.Fault (record { line = 0; kind = FaultKind.Config }) }
{
    ItemError::Fault(LineFault {
        line: 0,
        kind: FaultKind::Config,
    })
}

/// That a file is no UTF-8.
pub(crate) fn utf8_fault() -> ItemError
    ensures { result ≡ ItemError.Fault (record { line = 0; kind = FaultKind.NotUtf8 }) }
{
    ItemError::Fault(LineFault {
        line: 0,
        kind: FaultKind::NotUtf8,
    })
}

impl From<Memory> for ItemError {
    ghost use Rattle.std.specs.Prelude.{◌≡◌};
    ghost use Rattle.site_items.specs.declared.item_error.ItemError.TheVariants as item_error;

    ghost from_gives = { λ _ error. error ≡ item_error.Memory };

    fn from(_: Memory) -> ItemError {
        ItemError::Memory
    }
}

impl From<AllocError> for ItemError {
    ghost use Rattle.std.specs.Prelude.{◌≡◌};
    ghost use Rattle.site_items.specs.declared.item_error.ItemError.TheVariants as item_error;

    ghost from_gives = { λ _ error. error ≡ item_error.Memory };

    fn from(_: AllocError) -> ItemError {
        ItemError::Memory
    }
}
