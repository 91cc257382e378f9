// Why a text has no value.
ghost use Rattle.std.specs.Prelude.{◌≡◌, ◌⊎◌, ◌<◌, ◌+◌, ◌^◌, option_map, IfSome};
ghost use Rattle.front_yaml.specs.Folding.{as_fault, earlier};
ghost use Rattle.front_yaml.specs.Given.{as_pair};
ghost use Rattle.front_yaml.specs.declared.faults.YamlError.TheVariants.{Fault};
ghost use Rattle.front_yaml.specs.declared.faults.PlaceError.TheVariants as place_error;

use site_base::{Memory, YamlKind};

/// What is wrong with a YAML text first, and the number of the line, from 1, where it is met.
#[derive(Clone, Copy, Debug, PartialEq, Eq)]
pub struct YamlFault {
    pub line: u64,
    pub kind: YamlKind,
}

/// Why a YAML text has no value.
#[derive(Clone, Copy, Debug, PartialEq, Eq)]
pub enum YamlError {
    /// The text has no value; this is its first fault.
    Fault(YamlFault),
    /// Memory was wanting.
    Memory,
}

impl YamlError {
    pub(crate) fn at(line: u64, kind: YamlKind) -> YamlError
        ensures { result ≡ Fault (record { line = line; kind = kind }) }
    {
        YamlError::Fault(YamlFault { line, kind })
    }
}

impl From<Memory> for YamlError {
    ghost use Rattle.std.specs.Prelude.{◌≡◌};
    ghost use Rattle.front_yaml.specs.declared.faults.YamlError.TheVariants as yaml_error;

    ghost from_gives = { λ _ error. error ≡ yaml_error.Memory };

    fn from(_: Memory) -> YamlError {
        YamlError::Memory
    }
}

/// What is wrong within a text, and the place of the byte where it is met.
#[derive(Clone, Copy)]
pub(crate) struct PlaceFault {
    pub place: usize,
    pub kind: YamlKind,
}

impl PlaceFault {
    /// A fault of a kind at a place, where there is one.
    pub(crate) fn at(kind: YamlKind, place: Option<usize>) -> Option<PlaceFault>
        ensures value { option_map as_pair result ≡ as_fault kind place }
        ensures there { IfSome result (λ fault. place ≡ Some fault.place) }
    {
        match place {
            Some(place) => Some(PlaceFault { place, kind }),
            None => None,
        }
    }

    /// The error of this fault, told from some bytes before.
    pub(crate) fn further(self, by: usize) -> PlaceError
        requires { by + self.place < 2 ^ 64 }
        ensures { result ≡ place_error.Fault (record { place = by + self.place; kind = self.kind }) }
    {
        PlaceError::Fault(PlaceFault {
            place: by + self.place,
            kind: self.kind,
        })
    }

    /// The earlier of two faults, and of two at one place the first.
    pub(crate) fn earlier(one: Option<PlaceFault>, other: Option<PlaceFault>) -> Option<PlaceFault>
        ensures value { option_map as_pair result ≡ earlier (option_map as_pair one) (option_map as_pair other) }
        ensures among { IfSome result (λ fault. (one ≡ Some fault) ⊎ (other ≡ Some fault)) }
    {
        match (one, other) {
            (Some(first), Some(second)) => Some(if first.place <= second.place {
                first
            } else {
                second
            }),
            (Some(fault), None) | (None, Some(fault)) => Some(fault),
            (None, None) => None,
        }
    }
}

/// Why a part of a text has no value.
#[derive(Clone, Copy)]
pub(crate) enum PlaceError {
    Fault(PlaceFault),
    Memory,
}

impl PlaceError {
    pub(crate) fn at(place: usize, kind: YamlKind) -> PlaceError
        ensures { result ≡ place_error.Fault (record { place = place; kind = kind }) }
    {
        PlaceError::Fault(PlaceFault { place, kind })
    }
}

impl From<Memory> for PlaceError {
    ghost use Rattle.std.specs.Prelude.{◌≡◌};
    ghost use Rattle.front_yaml.specs.declared.faults.PlaceError.TheVariants as place_error;

    ghost from_gives = { λ _ error. error ≡ place_error.Memory };

    fn from(_: Memory) -> PlaceError {
        PlaceError::Memory
    }
}
