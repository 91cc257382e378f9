// Why a call that looks things up has no value.
ghost use Rattle.std.specs.Prelude.{◌≡◌};
ghost use Rattle.read_record.specs.declared.stop.Stop.TheVariants as stop;

use site_base::{FaultKind, Memory, SiteFault};
use std::alloc::{AllocError, AllocFailed};

/// Why there is no value.
#[derive(Drop)]
pub enum Stop<F> {
    Fault(F),
    /// This item has to be done first.
    Needs(u32),
    Memory,
}

impl From<FaultKind> for Stop<FaultKind> {
    ghost from_gives = { λ kind made. made ≡ stop.Fault kind };

    fn from(kind: FaultKind) -> Stop<FaultKind> {
        Stop::Fault(kind)
    }
}

impl From<SiteFault> for Stop<SiteFault> {
    ghost from_gives = { λ fault made. made ≡ stop.Fault fault };

    fn from(fault: SiteFault) -> Stop<SiteFault> {
        Stop::Fault(fault)
    }
}

impl<F> From<Memory> for Stop<F> {
    ghost from_gives = { λ _ made. made ≡ stop.Memory };

    fn from(_: Memory) -> Stop<F> {
        Stop::Memory
    }
}

impl<F> From<AllocError> for Stop<F> {
    ghost from_gives = { λ _ made. made ≡ stop.Memory };

    fn from(_: AllocError) -> Stop<F> {
        Stop::Memory
    }
}

impl<F, T: Drop> From<AllocFailed<T>> for Stop<F> {
    ghost from_gives = { λ _ made. made ≡ stop.Memory };

    fn from(_: AllocFailed<T>) -> Stop<F> {
        Stop::Memory
    }
}
