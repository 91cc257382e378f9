// Why a file is not held.
use site_base::Memory;
use thiserror::Error;

/// Why a file is not held.
#[derive(Clone, Copy, Debug, PartialEq, Eq, Error)]
pub enum PutError {
    #[error("FileTooLong")]
    FileTooLong,
    #[error("TooManyFiles")]
    TooManyFiles,
    #[error("SiteTooLong")]
    SiteTooLong,
    /// A path would be a folder of another.
    #[error("Clash")]
    Clash,
    #[error("Memory")]
    Memory,
}

impl From<Memory> for PutError {
    ghost use Rattle.std.specs.Prelude.{◌≡◌};
    ghost use Rattle.source_tree.specs.declared.put_error.PutError.TheVariants as put_error;

    ghost from_gives = { λ _ error. error ≡ put_error.Memory };

    fn from(_: Memory) -> PutError {
        PutError::Memory
    }
}
