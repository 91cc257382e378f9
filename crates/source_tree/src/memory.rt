// A source in memory.
ghost use Rattle.std.specs.Prelude.{false, ◌≡◌, ◌+◌, ◌-◌, ◌^◌, ◌↔◌, ◌≤◌, min, ℕ, List, Option, Some, Contains, IfOk, IsErrOf, IsTrue};
ghost use Rattle.std.specs.FinMap as map;
ghost use Rattle.site_base.specs.Clash.{ClashFree};
ghost use Rattle.site_base.specs.Ends.{HasCauseOf, Rose};
ghost use Rattle.site_base.specs.Listing.{Has, Lists, Reads};
ghost use Rattle.site_base.specs.Places.{AllDiffer, paths_of};
ghost use Rattle.source_tree.specs.Put.{plain};

use crate::SourceTree;
use site_base::{ListError, MOST_BYTES, Memory, PathMap, ReadError, SitePath};
use std::alloc::Global;
use std::marker::Model;

// One byte more than a file may have shows that it is too long.
pub(crate) const MOST_READ: usize = MOST_BYTES + 1;

/// A source in memory, which fails at listed calls.
#[derive(Drop)]
pub struct MemorySource {
    files: PathMap<Vec<u8>>,
    fail: Vec<u64>,
    calls: u64,
    failures: u64,
}

impl Model for MemorySource {
    ghost use Rattle.site_base.specs.Clash.{HasNoClash};
    ghost use Rattle.site_base.specs.PathMap.{as_map};
    ghost use Rattle.source_tree.specs.Memory.{SourceState, plain_files, state_code};

    ghost Value = { SourceState };

    ghost coded = { state_code };

    ghost view = { λ source. record {
      files = plain_files (as_map source.files);
      fail = source.fail.items;
      calls = source.calls;
      failures = source.failures;
    } };

    ghost invariant = { λ source. HasNoClash (plain_files (as_map source.files)) };
}

impl MemorySource {
    /// A source of these files, which fails at the calls of these numbers, counted from 1.
    pub fn new(files: Vec<(SitePath, Vec<u8>)>, fail: Vec<u64>) -> MemorySource
        requires differ { AllDiffer (paths_of files.items) }
        requires clash_free { ClashFree (paths_of files.items) }
        ensures { result ≡ record { files = map.from_entries (plain files.items); fail = fail.items; calls = 0; failures = 0 } }
    {
        MemorySource {
            files: PathMap::from_entries(files).unwrap(),
            fail,
            calls: 0,
            failures: 0,
        }
    }

    // The paths of its files.
    fn paths(&self, alloc: Global) -> Result<Vec<SitePath>, Memory>
        ensures paths { IfOk result (λ paths. paths.items ≡ map.keys self.now.files) }
        ensures differ { IfOk result (λ paths. AllDiffer paths.items) }
        ensures clash_free { IfOk result (λ paths. ClashFree paths.items) }
    {
        self.files.paths(alloc)
    }

    // The bytes of one of its files.
    fn bytes_at(&self, path: &SitePath) -> &[u8]
        requires { IsTrue (map.contains_key self.now.files path.now) }
        ensures { map.get self.now.files path.now ≡ Some result.now }
    {
        self.files.get(path).unwrap()
    }

    // Counts a call, and says whether it is to fail.
    fn fails(&mut self) -> bool
        ensures files { self.new.files ≡ self.old.files }
        ensures fail { self.new.fail ≡ self.old.fail }
        ensures calls { self.new.calls ≡ min (self.old.calls + 1) (2 ^ 64 - 1) }
        ensures listed { IsTrue result ↔ Contains self.old.fail self.new.calls }
        ensures later { self.old.failures ≤ self.new.failures }
        ensures rose { IsTrue result → Rose self.old.failures self.new.failures }
        ensures steady { result ≡ false → self.new.failures ≡ self.old.failures }
    {
        self.calls = self.calls.saturating_add(1);
        let fails = self.fail.contains(&self.calls);
        if fails {
            self.failures = self.failures.saturating_add(1);
        }
        fails
    }
}

impl SourceTree for MemorySource {
    ghost files = { λ source. Some source.files };

    ghost failures = { λ source. source.failures };

    fn list(&mut self, alloc: Global) -> Result<Vec<SitePath>, ListError>
        ensures lists { Lists (Some self.old.files) result }
        ensures clash_free { IfOk result (λ paths. ClashFree paths.items) }
        ensures same { Some self.new.files ≡ Some self.old.files }
        ensures cause { HasCauseOf ListError.Failed self.old.failures self.new.failures result }
        // It fails exactly at the listed calls.
        ensures listed { IsErrOf result ListError.Failed ↔ Contains self.old.fail self.new.calls }
        ensures calls { self.new.calls ≡ min (self.old.calls + 1) (2 ^ 64 - 1) }
        ensures fail { self.new.fail ≡ self.old.fail }
    {
        if self.fails() {
            return Err(ListError::Failed);
        }
        Ok(self.paths(alloc)?)
    }

    fn read(&mut self, alloc: Global, path: &SitePath) -> Result<Vec<u8>, ReadError>
        requires { Has (Some self.old.files) path.now }
        ensures reads { Reads (Some self.old.files) path.now result }
        ensures same { Some self.new.files ≡ Some self.old.files }
        ensures cause { HasCauseOf ReadError.Failed self.old.failures self.new.failures result }
        // It fails exactly at the listed calls.
        ensures listed { IsErrOf result ReadError.Failed ↔ Contains self.old.fail self.new.calls }
        ensures calls { self.new.calls ≡ min (self.old.calls + 1) (2 ^ 64 - 1) }
        ensures fail { self.new.fail ≡ self.old.fail }
    {
        if self.fails() {
            return Err(ReadError::Failed);
        }
        let bytes = self.bytes_at(path);
        let most = bytes.len().min(MOST_READ);
        match bytes[..most].to_vec(alloc) {
            Ok(bytes) => Ok(bytes),
            Err(_) => Err(ReadError::Memory),
        }
    }
}
