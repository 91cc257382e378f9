// Why a scan gave no files.
ghost use Rattle.std.specs.Prelude.{◌≡◌};
ghost use Rattle.site_base.specs.Faults.{fault_at};

use site_base::{FaultKind, Memory, ReadError, SiteFault, SitePath};

/// Why a scan gave no files.
#[derive(Drop)]
pub enum ScanError {
    /// The source failed.
    Failed,
    /// The files pass a limit, first at this one.
    Limit(SiteFault),
    Memory,
}

impl ScanError {
    // A limit that is passed at a file.
    pub(crate) fn limit(kind: FaultKind, path: SitePath) -> ScanError
        ensures { result ≡ ScanError.Limit (fault_at kind path) }
    {
        ScanError::Limit(SiteFault {
            path,
            line: 0,
            kind,
        })
    }
}

/// A file that could not be read is a failure of the source.
impl From<ReadError> for ScanError {
    ghost use Rattle.std.specs.Prelude.{◌≡◌};
    ghost use Rattle.source_tree.specs.Unread.{unread};

    ghost from_gives = { λ read error. error ≡ unread read };

    fn from(error: ReadError) -> ScanError {
        match error {
            ReadError::Failed => ScanError::Failed,
            ReadError::Memory => ScanError::Memory,
        }
    }
}

impl From<Memory> for ScanError {
    ghost use Rattle.std.specs.Prelude.{◌≡◌};
    ghost use Rattle.source_tree.specs.declared.scan_error.ScanError.TheVariants as scan_error;

    ghost from_gives = { λ _ error. error ≡ scan_error.Memory };

    fn from(_: Memory) -> ScanError {
        ScanError::Memory
    }
}
