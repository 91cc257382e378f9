// Why a scenario cannot be run.
use site_base::{Memory, PathError};
use std::alloc::{AllocError, AllocFailed};
use thiserror::Error;

/// Why a scenario cannot be run.
#[derive(Debug, Drop, PartialEq, Eq, Error)]
pub enum ScenarioError {
    #[error("memory is wanting")]
    Memory,
    /// A path is none of a site.
    #[error("a path is none of a site")]
    Path,
    /// Two sources, or two outputs, have one path, or the path of one is a folder of the other's.
    #[error("two paths clash")]
    Clash,
}

impl From<Memory> for ScenarioError {
    ghost use Rattle.std.specs.Prelude.{◌≡◌};
    ghost use Rattle.site_tests.specs.declared.scenario_error.ScenarioError.TheVariants as scenario_error;

    ghost from_gives = { λ _ error. error ≡ scenario_error.Memory };

    fn from(_: Memory) -> ScenarioError {
        ScenarioError::Memory
    }
}

impl From<AllocError> for ScenarioError {
    ghost use Rattle.std.specs.Prelude.{◌≡◌};
    ghost use Rattle.site_tests.specs.declared.scenario_error.ScenarioError.TheVariants as scenario_error;

    ghost from_gives = { λ _ error. error ≡ scenario_error.Memory };

    fn from(_: AllocError) -> ScenarioError {
        ScenarioError::Memory
    }
}

impl<T: Drop> From<AllocFailed<T>> for ScenarioError {
    ghost use Rattle.std.specs.Prelude.{◌≡◌};
    ghost use Rattle.site_tests.specs.declared.scenario_error.ScenarioError.TheVariants as scenario_error;

    ghost from_gives = { λ _ error. error ≡ scenario_error.Memory };

    fn from(_: AllocFailed<T>) -> ScenarioError {
        ScenarioError::Memory
    }
}

impl From<PathError> for ScenarioError {
    ghost use Rattle.std.specs.Prelude.{◌≡◌};
    ghost use Rattle.site_tests.specs.Scenarios.{of_path};

    ghost from_gives = { λ given error. error ≡ of_path given };

    fn from(error: PathError) -> ScenarioError {
        match error {
            PathError::Memory => ScenarioError::Memory,
            _ => ScenarioError::Path,
        }
    }
}
