// How a filter ends.
ghost use Rattle.std.specs.Prelude.{◌≡◌};

use site_base::{FaultKind, Value};

/// What a filter answers.
#[derive(Drop)]
pub enum Filtered {
    Value(Value),
    Fault(FaultKind),
    /// This item has to be done first.
    Needs(u32),
    /// There is no filter of the name.
    Unknown,
    Memory,
}

/// Why a filter gives no value.
pub type Stop = read_record::Stop<FaultKind>;

impl From<Stop> for Filtered {
    ghost use Rattle.filter_base.specs.Answers.{stopped};

    ghost from_gives = { λ stop made. made ≡ stopped stop };

    fn from(stop: Stop) -> Filtered {
        match stop {
            Stop::Fault(kind) => Filtered::Fault(kind),
            Stop::Needs(item) => Filtered::Needs(item),
            Stop::Memory => Filtered::Memory,
        }
    }
}
