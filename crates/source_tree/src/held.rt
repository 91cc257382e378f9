// The files that are held.
ghost use Rattle.std.specs.Prelude.{◌≡◌, ◌⊎◌, ◌<◌, ◌≤◌, ◌↔◌, ◌||◌, ◌+◌, IsTrue, ℕ, List, Option, Some, None, Err, IfOk, OnOk, OnErr, MatchResult, slice_get, slice_index_or};
ghost use Rattle.std.specs.FinMap as map;
ghost use Rattle.std.specs.Option.{option_copied};
ghost use Rattle.site_base.specs.Clash.{has_below, has_folder};
ghost use Rattle.site_base.specs.Ends.{HasCauseOf};
ghost use Rattle.site_base.specs.PathMap.{as_map};
ghost use Rattle.site_base.specs.Places.{AllDiffer, Files, paths_of};
ghost use Rattle.site_base.specs.declared.faults.SiteFault.{SiteFault};
ghost use Rattle.source_tree.specs.Limits.{CanBeHeld, most_site_bytes, site_bytes};
ghost use Rattle.source_tree.specs.Put.{clash_refusal, first_refusal, plain, put_refusal};
ghost use Rattle.source_tree.specs.Scan.{scan_fault};

use crate::fitting::held_of;
use crate::limits::passed_limit;
use crate::reading::read_all_files;
use crate::sharing::holder_of;
use crate::{PutError, Rescanned, ScanError, SourceTree};
use site_base::{Memory, PathMap, SharedBytes, SitePath};
use std::alloc::Global;
use std::marker::Model;

/// The files of a site that are held, from paths to bytes, within the limits.
#[derive(Drop)]
pub struct Held {
    files: PathMap<SharedBytes>,
    // The bytes of all files together.
    total: u64,
}

impl Model for Held {
    ghost use Rattle.std.specs.Prelude.{List, ℕ, ◌≡◌};
    ghost use Rattle.std.specs.Coded.{coded_ℕ, coded_list};
    ghost use Rattle.std.specs.FinMap as map;
    ghost use Rattle.site_base.specs.PathMap.{as_map};
    ghost use Rattle.site_base.specs.Places.{path_cmp};
    ghost use Rattle.source_tree.specs.Limits.{CanBeHeld, site_bytes};

    ghost Value = { map.FinMap path_cmp (List ℕ) };

    ghost coded = { map.code (coded_list coded_ℕ) (coded_list coded_ℕ) };

    ghost view = { λ held. as_map held.files };

    ghost invariant = { λ held. (held.total ≡ site_bytes (as_map held.files)) × CanBeHeld (as_map held.files) };
}

impl Held {
    /// No files.
    pub fn new(alloc: Global) -> Held
        ensures { result ≡ map.empty }
    {
        Held {
            files: PathMap::new(alloc),
            total: 0,
        }
    }

    // These files, with their bytes together.
    pub(crate) fn of(files: PathMap<SharedBytes>, total: u64) -> Held
        requires total { total ≡ site_bytes (as_map files) }
        requires files { CanBeHeld (as_map files) }
        ensures { result ≡ as_map files }
    {
        Held { files, total }
    }

    /// How many files are held.
    pub fn len(&self) -> u32
        ensures number { result ≡ map.len self.now }
        // What is held passes no limit, and no path is a folder of another.
        ensures within { CanBeHeld self.now }
    {
        self.files.len() as u32
    }

    pub fn is_empty(&self) -> bool
        ensures { IsTrue result ↔ (map.len self.now ≡ 0) }
    {
        self.files.is_empty()
    }

    /// The file at a place of the byte order of paths.
    pub fn at(&self, place: u32) -> (&SitePath, &[u8])
        requires { place < map.len self.now }
        ensures { (result.0.now, result.1.now)
            ≡ slice_index_or (map.entries self.now) place (result.0.now, result.1.now) }
    {
        let (path, bytes) = self.files.at(place as usize);
        (path, bytes.as_slice())
    }

    /// The file at a place of the byte order, with a holder of its bytes.
    pub fn shared_at(&self, place: u32) -> (&SitePath, &SharedBytes)
        requires { place < map.len self.now }
        ensures { (result.0.now, result.1.now)
            ≡ slice_index_or (map.entries self.now) place (result.0.now, result.1.now) }
    {
        self.files.at(place as usize)
    }

    /// A holder of the bytes of the file with a path.
    pub fn get_shared(&self, path: &SitePath) -> Option<&SharedBytes>
        ensures { option_copied result ≡ map.get self.now path.now }
    {
        self.files.get(path)
    }

    /// The bytes of the file with a path.
    pub fn get(&self, path: &SitePath) -> Option<&[u8]>
        ensures { option_copied result ≡ map.get self.now path.now }
    {
        match self.files.get(path) {
            Some(bytes) => Some(bytes.as_slice()),
            None => None,
        }
    }

    /// Adds or replaces a file. A refusal for another reason than memory is the first in the order of `PutError`,
    /// and leaves all as it was.
    pub fn put(&mut self, path: SitePath, bytes: Vec<u8>) -> Result<(), PutError>
        ensures { MatchResult result
            (λ _. (self.new ≡ map.insert self.old path bytes.items) × (put_refusal self.old path bytes.items ≡ None))
            (λ error. (self.new ≡ self.old)
            × ((error ≡ PutError.Memory) ⊎ (put_refusal self.old path bytes.items ≡ Some error))) }
    {
        if let Some(refusal) = self.refusal(&path, &bytes) {
            return Err(refusal);
        }
        let total = self.total_besides(&path) + bytes.len() as u64;
        let alloc = *bytes.allocator();
        let shared = holder_of(alloc, &self.files, &path, bytes)?;
        self.files.put(path, shared)?;
        self.total = total;
        Ok(())
    }

    // Why a file is refused.
    fn refusal(&self, path: &SitePath, bytes: &[u8]) -> Option<PutError>
        ensures { result ≡ put_refusal self.now path.now bytes.now }
    {
        match passed_limit(
            bytes.len(),
            self.len_besides(path),
            self.total_besides(path),
        ) {
            Some(limit) => Some(limit),
            None => self.clash_refusal(path),
        }
    }

    fn clash_refusal(&self, path: &SitePath) -> Option<PutError>
        ensures { result ≡ clash_refusal self.now path.now }
    {
        if self.clashes_with(path) {
            Some(PutError::Clash)
        } else {
            None
        }
    }

    // Whether a file is a folder of this path, or the path a folder of one.
    fn clashes_with(&self, path: &SitePath) -> bool
        ensures { result ≡ (has_folder path.now (map.keys self.now) || has_below path.now (map.keys self.now)) }
    {
        self.files.has_folder(path) || self.files.has_below(path)
    }

    // How many files are held besides the one with this path.
    fn len_besides(&self, path: &SitePath) -> usize
        ensures { result ≡ map.len (map.remove self.now path.now) }
    {
        match self.files.get(path) {
            Some(_) => self.files.len() - 1,
            None => self.files.len(),
        }
    }

    // The bytes of all files together besides the one with this path.
    fn total_besides(&self, path: &SitePath) -> u64
        ensures is { result ≡ site_bytes (map.remove self.now path.now) }
        ensures bound { result ≤ most_site_bytes }
    {
        match self.files.get(path) {
            Some(bytes) => self.total - bytes.len(),
            None => self.total,
        }
    }

    /// Deletes a file, and says whether it was held.
    pub fn delete(&mut self, path: &SitePath) -> bool
        ensures map { self.new ≡ map.remove self.old path.now }
        ensures was { result ≡ map.contains_key self.old path.now }
    {
        self.total = self.total_besides(path);
        self.files.remove(path)
    }

    /// Holds these files in place of all that was held. It is refused where one of them would be, were they put one
    /// after another, for the reason of the first such; a refusal leaves all as it was.
    pub fn replace_all(
        &mut self,
        alloc: Global,
        files: Vec<(SitePath, Vec<u8>)>,
    ) -> Result<(), PutError>
        requires { AllDiffer (paths_of files.items) }
        ensures { MatchResult result
            (λ _. (self.new ≡ map.from_entries (plain files.items))
            × (first_refusal map.empty (plain files.items) ≡ None))
            (λ error. (self.new ≡ self.old)
            × ((error ≡ PutError.Memory) ⊎ (first_refusal map.empty (plain files.items) ≡ Some error))) }
    {
        match held_of(alloc, files) {
            Ok(held) => *self = held,
            Err(error) => return Err(error),
        }
        Ok(())
    }

    /// Reads the whole source, holds its files in place of all that was held, and answers their number.
    pub fn scan<S: SourceTree>(&mut self, alloc: Global, source: &mut S) -> Result<u32, ScanError>
        // Where the source tells its files, these are held then, and they have no fault,
        ensures held { (files : Files) → S.files source.old ≡ Some files →
            OnOk result ((self.new ≡ files) × (scan_fault (map.entries files) ≡ None)) }
        // or the limit is their first fault.
        ensures limit { (files : Files) (fault : SiteFault) → S.files source.old ≡ Some files →
            result ≡ Err (ScanError.Limit fault) → scan_fault (map.entries files) ≡ Some fault }

        ensures number { IfOk result (λ number. number ≡ map.len self.new) }
        ensures err { OnErr result (self.new ≡ self.old) }
        ensures same { S.files source.new ≡ S.files source.old }
        ensures cause { HasCauseOf ScanError.Failed (S.failures source.old) (S.failures source.new) result }
    {
        match self.rescan(alloc, source) {
            Ok(found) => Ok(found.number),
            Err(error) => Err(error),
        }
    }

    /// The same, and says besides whether the files are those that were held before. A file whose bytes are found again is held
    /// once, whoever else holds it.
    pub fn rescan<S: SourceTree>(
        &mut self,
        alloc: Global,
        source: &mut S,
    ) -> Result<Rescanned, ScanError>
        ensures held { (files : Files) → S.files source.old ≡ Some files →
            OnOk result ((self.new ≡ files) × (scan_fault (map.entries files) ≡ None)) }
        ensures limit { (files : Files) (fault : SiteFault) → S.files source.old ≡ Some files →
            result ≡ Err (ScanError.Limit fault) → scan_fault (map.entries files) ≡ Some fault }

        ensures number { IfOk result (λ found. found.number ≡ map.len self.new) }
        ensures is_same { IfOk result (λ found. IsTrue found.is_same ↔ (self.new ≡ self.old)) }
        ensures err { OnErr result (self.new ≡ self.old) }
        ensures same { S.files source.new ≡ S.files source.old }
        ensures cause { HasCauseOf ScanError.Failed (S.failures source.old) (S.failures source.new) result }
    {
        let held = match read_all_files(alloc, source, &self.files) {
            Ok(held) => held,
            Err(error) => return Err(error),
        };
        let found = Rescanned {
            number: held.len(),
            is_same: held.has_files_of(self),
        };
        *self = held;
        Ok(found)
    }

    // Whether it holds the same files as another.
    fn has_files_of(&self, other: &Held) -> bool
        ensures { IsTrue result ↔ (self.now ≡ other.now) }
    {
        if self.len() != other.len() {
            return false;
        }
        for place in 0..self.len() {
            if !self.has_file_of(other, place) {
                return false;
            }
        }
        true
    }

    // Whether the file at a place is the same as another's.
    fn has_file_of(&self, other: &Held, place: u32) -> bool
        requires mine { place < map.len self.now }
        requires its { place < map.len other.now }
        ensures { IsTrue result ↔ (slice_get (map.entries self.now) place ≡ slice_get (map.entries other.now) place) }
    {
        let (path, bytes) = self.at(place);
        let (other_path, other_bytes) = other.at(place);
        path == other_path && bytes == other_bytes
    }
}
