// Includes.
ghost use Rattle.std.specs.Prelude.{◌≡◌, MatchResult};
ghost use Rattle.site_items.specs.Files.{include};
ghost use Rattle.site_items.specs.Outcomes.{IsFault};

use crate::folders::behind;
use crate::item_error::{ItemError, utf8_fault};
use site_base::{SharedBytes, Text};
use std::alloc::Global;
use std::str;

/// An include, as its file makes it.
#[derive(Drop)]
pub struct IncludeFile {
    /// Its path below `_includes`.
    pub name: Text,
    pub body: Text,
}

impl IncludeFile {
    /// The include that a file below `_includes` is. Its body shares the bytes of the file.
    ///
    /// `Fault` comes exactly where the file is no UTF-8 (`NotUtf8`).
    pub fn read(alloc: Global, path: &str, bytes: &SharedBytes) -> Result<IncludeFile, ItemError>
        ensures { MatchResult result (λ made. include path.now bytes.now ≡ Ok made) (IsFault (include path.now bytes.now)) }
    {
        match str::from_utf8(bytes.as_slice()) {
            Ok(text) => Ok(IncludeFile {
                name: Text::copy(alloc, behind("_includes/", path))?,
                body: Text::end_of(alloc, bytes, 0, text)?,
            }),
            Err(_) => Err(utf8_fault()),
        }
    }
}
