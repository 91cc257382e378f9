// Why a text is no template.
ghost use Rattle.std.specs.Prelude.{◌≡◌};
ghost use Rattle.liquid_parse.specs.declared.error.ParseError.TheVariants as parse_error;
ghost use Rattle.liquid_parse.specs.declared.error.ItemError.TheVariants as item_error;

use liquid_expr::ReadExprError;
use site_base::{FaultKind, Memory};
use std::alloc::{AllocError, AllocFailed};

/// Why a text is no template.
#[derive(Clone, Copy, Debug, PartialEq, Eq)]
pub enum ParseError {
    /// The line of the first fault, counted from 1, and its kind.
    Fault(u64, FaultKind),
    Memory,
}

impl From<AllocError> for ParseError {
    ghost from_gives = { λ _ error. error ≡ parse_error.Memory };

    fn from(_: AllocError) -> ParseError {
        ParseError::Memory
    }
}

impl<T: Drop> From<AllocFailed<T>> for ParseError {
    ghost from_gives = { λ _ error. error ≡ parse_error.Memory };

    fn from(_: AllocFailed<T>) -> ParseError {
        ParseError::Memory
    }
}

impl From<Memory> for ParseError {
    ghost from_gives = { λ _ error. error ≡ parse_error.Memory };

    fn from(_: Memory) -> ParseError {
        ParseError::Memory
    }
}

/// Why a piece says nothing.
#[derive(Clone, Copy, Debug, PartialEq, Eq)]
pub(crate) enum ItemError {
    Fault(FaultKind),
    Memory,
}

impl From<Memory> for ItemError {
    ghost from_gives = { λ _ error. error ≡ item_error.Memory };

    fn from(_: Memory) -> ItemError {
        ItemError::Memory
    }
}

impl From<ReadExprError> for ItemError {
    ghost use Rattle.std.specs.Prelude.{◌≡◌};
    ghost use Rattle.liquid_parse.specs.ItemErrors.{item_error_of};

    ghost from_gives = { λ read error. error ≡ item_error_of read };

    fn from(error: ReadExprError) -> ItemError {
        match error {
            ReadExprError::Syntax => ItemError::Fault(FaultKind::LiquidSyntax),
            ReadExprError::Overflow => ItemError::Fault(FaultKind::Overflow),
            ReadExprError::Memory => ItemError::Memory,
        }
    }
}
