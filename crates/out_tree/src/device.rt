// Where the files of a site go.
ghost use Rattle.std.specs.Prelude.{◌≡◌, ℕ, List, [], ◌∷◌, Option, is_ok};
ghost use Rattle.site_base.specs.Places.{Files};
ghost use Rattle.site_base.specs.Ends.{HasCause, HasCauseOf};
ghost use Rattle.site_base.specs.Listing.{Lists};
ghost use Rattle.out_tree.specs.Device.{Tells, Calls};
ghost use Rattle.out_tree.specs.declared.step.Step.TheVariants.{Remove, Write};
ghost use Rattle.out_tree.specs.declared.step.Call.{Call};
ghost use Rattle.out_tree.specs.declared.step.Call.TheVariants as call;

use site_base::{Failed, ListError, SitePath};
use std::alloc::Global;

/// Where the files of a site go.
pub trait OutTree {
    /// What it holds, where it tells that.
    ghost contents: { Self → Option Files };

    /// Its calls so far, where it tells them.
    ghost calls: { Self → Option (List Call) };

    /// How often it has failed.
    ghost failures: { Self → ℕ };

    /// The paths of its files, each once. It changes none of the files; it may make the folder for them, and remove what a run left there that was cut off.
    /// `Failed` is a failure of the output.
    fn list(&mut self, alloc: Global) -> Result<Vec<SitePath>, ListError>
        ensures lists { Lists (contents self.old) result }
        ensures same { contents self.new ≡ contents self.old }
        ensures calls { Calls (calls self.old) (calls self.new) (call.List ∷ []) }
        ensures cause { HasCauseOf ListError.Failed (failures self.old) (failures self.new) result };

    /// Gives the path these bytes. Where that fails, this one path may have any bytes, or be absent.
    fn write(&mut self, path: &SitePath, bytes: &[u8]) -> Result<(), Failed>
        ensures tells { Tells (contents self.old) (contents self.new) (Write path.now bytes.now) (is_ok result) }
        ensures calls { Calls (calls self.old) (calls self.new) (call.Try (Write path.now bytes.now) ∷ []) }
        ensures cause { HasCause (failures self.old) (failures self.new) result };

    /// Takes the path away, if it is there. Where that fails, this one path may have any bytes, or be absent.
    fn remove(&mut self, path: &SitePath) -> Result<(), Failed>
        ensures tells { Tells (contents self.old) (contents self.new) (Remove path.now) (is_ok result) }
        ensures calls { Calls (calls self.old) (calls self.new) (call.Try (Remove path.now) ∷ []) }
        ensures cause { HasCause (failures self.old) (failures self.new) result };
}
