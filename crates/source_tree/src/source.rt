// Where a site's files come from.
ghost use Rattle.std.specs.Prelude.{◌≡◌, ℕ, Option, IfOk};
ghost use Rattle.site_base.specs.Clash.{ClashFree};
ghost use Rattle.site_base.specs.Ends.{HasCauseOf};
ghost use Rattle.site_base.specs.Listing.{Has, Lists, Reads};
ghost use Rattle.site_base.specs.Places.{Files};
ghost use Rattle.source_tree.specs.Measuring.{Measures};

use site_base::{ListError, ReadError, SitePath};
use std::alloc::Global;

/// Where a site's files come from.
pub trait SourceTree {
    /// Its files, where it tells them.
    ghost files: { Self → Option Files };

    /// How often it has failed.
    ghost failures: { Self → ℕ };

    /// The paths of its files, in any order. None is a folder of another.
    fn list(&mut self, alloc: Global) -> Result<Vec<SitePath>, ListError>
        ensures lists { Lists (files self.old) result }
        ensures clash_free { IfOk result (λ paths. ClashFree paths.items) }
        ensures same { files self.new ≡ files self.old }
        ensures cause { HasCauseOf ListError.Failed (failures self.old) (failures self.new) result };

    /// The bytes of a file, cut after 16,777,217.
    fn read(&mut self, alloc: Global, path: &SitePath) -> Result<Vec<u8>, ReadError>
        requires { Has (files self.old) path.now }
        ensures reads { Reads (files self.old) path.now result }
        ensures same { files self.new ≡ files self.old }
        ensures cause { HasCauseOf ReadError.Failed (failures self.old) (failures self.new) result };

    /// How many bytes `read` would give. A source that knows it without reading the file says so here.
    fn measure(&mut self, alloc: Global, path: &SitePath) -> Result<usize, ReadError>
        requires { Has (files self.old) path.now }
        ensures measures { Measures (files self.old) path.now result }
        ensures same { files self.new ≡ files self.old }
        ensures cause { HasCauseOf ReadError.Failed (failures self.old) (failures self.new) result }
    {
        match self.read(alloc, path) {
            Ok(bytes) => Ok(bytes.len()),
            Err(error) => Err(error),
        }
    }
}
