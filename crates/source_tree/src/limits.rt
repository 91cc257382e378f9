// How much of a site may be held.
ghost use Rattle.std.specs.Prelude.{◌≡◌, ◌+◌, ◌<◌, ◌≤◌};
ghost use Rattle.source_tree.specs.Limits.{most_site_bytes};
ghost use Rattle.source_tree.specs.Put.{passed_limit};

use crate::PutError;
use site_base::MOST_BYTES;

// Files of a site.
pub(crate) const MOST_FILES: usize = 50_000;

// Bytes of all files together.
pub(crate) const MOST_SITE_BYTES: u64 = 536_870_912;

// The first limit that a file of so many bytes passes, besides so many files of so many bytes together.
pub(crate) fn passed_limit(bytes: usize, files: usize, total: u64) -> Option<PutError>
    requires { total ≤ most_site_bytes }
    ensures { result ≡ passed_limit bytes (files + 1) (total + bytes) }
{
    if bytes > MOST_BYTES {
        Some(PutError::FileTooLong)
    } else if files >= MOST_FILES {
        Some(PutError::TooManyFiles)
    } else if total + bytes as u64 > MOST_SITE_BYTES {
        Some(PutError::SiteTooLong)
    } else {
        None
    }
}
