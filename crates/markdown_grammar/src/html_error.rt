// Why a text has no HTML.
ghost use Rattle.std.specs.Prelude.{◌≡◌};
ghost use Rattle.markdown_grammar.specs.declared.html_error.HtmlError.TheVariants as html_error;

use site_base::Memory;
use std::alloc::{AllocError, AllocFailed};
use thiserror::Error;

/// Why a text was not turned into HTML.
#[derive(Clone, Copy, Debug, PartialEq, Eq, Error)]
pub enum HtmlError {
    #[error("the HTML is longer than it may be")]
    TooLong,
    #[error("memory was wanting")]
    Memory,
}

impl From<Memory> for HtmlError {
    ghost from_gives = { λ _ error. error ≡ html_error.Memory };

    fn from(_: Memory) -> HtmlError {
        HtmlError::Memory
    }
}

impl From<AllocError> for HtmlError {
    ghost from_gives = { λ _ error. error ≡ html_error.Memory };

    fn from(_: AllocError) -> HtmlError {
        HtmlError::Memory
    }
}

impl<T: Drop> From<AllocFailed<T>> for HtmlError {
    ghost from_gives = { λ _ error. error ≡ html_error.Memory };

    fn from(_: AllocFailed<T>) -> HtmlError {
        HtmlError::Memory
    }
}
