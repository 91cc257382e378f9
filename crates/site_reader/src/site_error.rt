// Why files make no site.
ghost use Rattle.std.specs.Prelude.{◌≡◌, Err};
ghost use Rattle.site_reader.specs.Found.{IsFirst, Tells, in_file};

use site_base::{FaultKind, Memory, SiteFault, SitePath};
use site_items::ItemError;
use std::alloc::{AllocError, AllocFailed, Global};

/// Why no site was made of its files.
#[derive(Drop)]
pub enum SiteError {
    /// The files have a fault; this is the first.
    Fault(SiteFault),
    /// Memory was wanting.
    Memory,
}

impl From<Memory> for SiteError {
    ghost use Rattle.std.specs.Prelude.{◌≡◌};
    ghost use Rattle.site_reader.specs.declared.site_error.SiteError.TheVariants as site_error;

    ghost from_gives = { λ _ error. error ≡ site_error.Memory };

    fn from(_: Memory) -> SiteError {
        SiteError::Memory
    }
}

impl From<AllocError> for SiteError {
    ghost use Rattle.std.specs.Prelude.{◌≡◌};
    ghost use Rattle.site_reader.specs.declared.site_error.SiteError.TheVariants as site_error;

    ghost from_gives = { λ _ error. error ≡ site_error.Memory };

    fn from(_: AllocError) -> SiteError {
        SiteError::Memory
    }
}

impl<T: Drop> From<AllocFailed<T>> for SiteError {
    ghost use Rattle.std.specs.Prelude.{◌≡◌};
    ghost use Rattle.site_reader.specs.declared.site_error.SiteError.TheVariants as site_error;

    ghost from_gives = { λ _ error. error ≡ site_error.Memory };

    fn from(_: AllocFailed<T>) -> SiteError {
        SiteError::Memory
    }
}

/// A file's fault, with its path.
pub(crate) fn fault_at(alloc: Global, path: &SitePath, line: u64, kind: FaultKind) -> SiteError
    ensures { IsFirst (in_file {A = Unit {0}} path.now (Err (line, kind))) result }
{
    match path.copy(alloc) {
        Ok(path) => SiteError::Fault(SiteFault { path, line, kind }),
        Err(Memory) => SiteError::Memory,
    }
}

/// The same of an error of a file.
pub(crate) fn error_at(alloc: Global, path: &SitePath, error: ItemError) -> SiteError
    ensures { Tells path.now error result }
{
    match error {
        ItemError::Fault(fault) => match path.copy(alloc) {
            Ok(path) => SiteError::Fault(SiteFault {
                path,
                line: fault.line,
                kind: fault.kind,
            }),
            Err(Memory) => SiteError::Memory,
        },
        ItemError::Memory => SiteError::Memory,
    }
}
