// Why a reading stops.
ghost use Rattle.std.specs.Prelude.{◌≡◌};
ghost use Rattle.liquid_expr.specs.declared.stop.Stop.TheVariants as stop;
ghost use Rattle.liquid_expr.specs.declared.stop.ReadExprError.TheVariants as read_error;

use site_base::Memory;
use std::alloc::{AllocError, AllocFailed};

/// Why a reading stops.
#[derive(Clone, Copy, Debug, PartialEq, Eq)]
pub(crate) enum Stop {
    /// The tokens have no such reading.
    NoReading,
    Memory,
}

impl From<AllocError> for Stop {
    ghost from_gives = { λ _ error. error ≡ stop.Memory };

    fn from(_: AllocError) -> Stop {
        Stop::Memory
    }
}

impl<T: Drop> From<AllocFailed<T>> for Stop {
    ghost from_gives = { λ _ error. error ≡ stop.Memory };

    fn from(_: AllocFailed<T>) -> Stop {
        Stop::Memory
    }
}

impl From<Memory> for Stop {
    ghost from_gives = { λ _ error. error ≡ stop.Memory };

    fn from(_: Memory) -> Stop {
        Stop::Memory
    }
}

/// Why a text is not read.
#[derive(Clone, Copy, Debug, PartialEq, Eq)]
pub enum ReadExprError {
    /// The text has no reading. More than 100 open brackets have none.
    Syntax,
    /// The text has a reading, and a whole number in it is no `i64`.
    Overflow,
    Memory,
}

impl From<Memory> for ReadExprError {
    ghost from_gives = { λ _ error. error ≡ read_error.Memory };

    fn from(_: Memory) -> ReadExprError {
        ReadExprError::Memory
    }
}

impl<T: Drop> From<AllocFailed<T>> for ReadExprError {
    ghost from_gives = { λ _ error. error ≡ read_error.Memory };

    fn from(_: AllocFailed<T>) -> ReadExprError {
        ReadExprError::Memory
    }
}
