// Reading all files of a source.
ghost use Rattle.std.specs.Prelude.{◌≡◌, ℕ, ◌≤◌, All, List, Option, Some, None, [], length, IfOk, IfErr, IsErrOf, OnOk, Err};
ghost use Rattle.std.specs.FinMap as map;
ghost use Rattle.site_base.specs.Clash.{ClashFree};
ghost use Rattle.site_base.specs.Ends.{HasCauseOf};
ghost use Rattle.site_base.specs.Faults.{fault_at};
ghost use Rattle.site_base.specs.Listing.{Has, Reads};
ghost use Rattle.site_base.specs.Places.{Files};
ghost use Rattle.site_base.specs.declared.faults.FaultKind.TheVariants.{FileTooLong};
ghost use Rattle.site_base.specs.declared.faults.SiteFault.{SiteFault};
ghost use Rattle.site_base.specs.Limits.{most_bytes};
ghost use Rattle.source_tree.specs.Limits.{bytes_of, most_files, most_site_bytes};
ghost use Rattle.source_tree.specs.Measuring.{Measures};
ghost use Rattle.source_tree.specs.Rise.{Rise};
ghost use Rattle.source_tree.specs.Scan.{first_long, scan_fault};

use crate::held::Held;
use crate::limits::{MOST_FILES, MOST_SITE_BYTES};
use crate::sharing::holder_of;
use crate::{ScanError, SourceTree};
use site_base::{FaultKind, ListError, MOST_BYTES, Memory, PathMap, SharedBytes, SitePath};
use std::alloc::Global;

// The files that were read, in byte order, or the path at which their sum passed its limit.
#[derive(Drop)]
pub(crate) struct Reading {
    files: Vec<(SitePath, SharedBytes)>,
    total: u64,
    over: Option<SitePath>,
    ghost sum: { total ≡ bytes_of files.items },
    ghost within: { total ≤ most_site_bytes },
    ghost short: { All (λ file. length file.1 ≤ most_bytes) files.items },
}

impl Reading {
    ghost use Rattle.source_tree.specs.Reading.{Adds, Follows, Going};

    // Adds a file, by the holder of its bytes where they are held already. Once the sum is past its limit, nothing is kept.
    fn add(
        &mut self,
        alloc: Global,
        held: &PathMap<SharedBytes>,
        path: SitePath,
        bytes: Vec<u8>,
    ) -> Result<(), Memory>
        requires { length bytes.items ≤ most_bytes }
        ensures { OnOk result (Adds self.old self.new path bytes.items) }
    {
        if self.over.is_some() {
            return Ok(());
        }
        let total = self.total + bytes.len() as u64;
        if total > MOST_SITE_BYTES {
            self.pass(path);
            return Ok(());
        }
        let holder = holder_of(alloc, held, &path, bytes)?;
        self.files.push((path, holder))?;
        self.total = total;
        Ok(())
    }

    fn pass(&mut self, path: SitePath)
        ensures { self.new.over ≡ Some path }
    {
        self.files.clear();
        self.total = 0;
        self.over = Some(path);
    }

    // Reads the files with these paths, beside those that are held. A file that is too long ends it.
    fn read_all<S: SourceTree>(
        alloc: Global,
        source: &mut S,
        held: &PathMap<SharedBytes>,
        paths: Vec<SitePath>,
    ) -> Result<Reading, ScanError>
        requires listed { (files : Files) → S.files source.old ≡ Some files → paths.items ≡ map.keys files }

        ensures all { IfOk result (λ reading. Follows paths.items [] reading) }
        ensures told { IfOk result (λ reading. (files : Files) → S.files source.old ≡ Some files → Going files [] reading) }
        ensures limit { IfErr result (λ error. (fault : SiteFault) → error ≡ ScanError.Limit fault →
            (files : Files) → S.files source.old ≡ Some files →
            (fault ≡ fault_at FileTooLong fault.path) × (first_long (map.entries files) ≡ Some fault.path)) }
        ensures same { S.files source.new ≡ S.files source.old }
        ensures cause { HasCauseOf ScanError.Failed (S.failures source.old) (S.failures source.new) result }
    {
        let mut reading = Reading {
            files: Vec::new(alloc),
            total: 0,
            over: None,
        };
        for path in paths {
            if reading.over.is_some() {
                // Nothing more is kept; a file that is too long is still the first fault.
                if measure_one(alloc, source, &path)? > MOST_BYTES {
                    return Err(ScanError::limit(FaultKind::FileTooLong, path));
                }
                continue;
            }
            let bytes = read_one(alloc, source, &path)?;
            if bytes.len() > MOST_BYTES {
                return Err(ScanError::limit(FaultKind::FileTooLong, path));
            }
            reading.add(alloc, held, path, bytes)?;
        }
        Ok(reading)
    }
}

// The site of a source, where it may be held. A file whose bytes are held already has the same holder of them.
pub(crate) fn read_all_files<S: SourceTree>(
    alloc: Global,
    source: &mut S,
    held: &PathMap<SharedBytes>,
) -> Result<Held, ScanError>
    ensures told { (files : Files) → S.files source.old ≡ Some files →
        IfOk result (λ held. (held ≡ files) × (scan_fault (map.entries files) ≡ None)) }
    ensures limit { (files : Files) (fault : SiteFault) → S.files source.old ≡ Some files →
        result ≡ Err (ScanError.Limit fault) → scan_fault (map.entries files) ≡ Some fault }
    ensures same { S.files source.new ≡ S.files source.old }
    ensures cause { HasCauseOf ScanError.Failed (S.failures source.old) (S.failures source.new) result }
{
    let paths = list_sorted(alloc, source)?;
    let reading = match Reading::read_all(alloc, source, held, paths) {
        Ok(reading) => reading,
        Err(error) => return Err(error),
    };
    let Reading { files, total, over } = reading;
    match over {
        Some(path) => Err(ScanError::limit(FaultKind::SiteTooLong, path)),
        None => Ok(Held::of(PathMap::from_rising(files), total)),
    }
}

// The paths of a source in byte order, of which there are no more than may be held.
fn list_sorted<S: SourceTree>(alloc: Global, source: &mut S) -> Result<Vec<SitePath>, ScanError>
    ensures rise { IfOk result (λ paths. Rise paths.items) }
    ensures few { IfOk result (λ paths. length paths.items ≤ most_files) }
    ensures clash_free { IfOk result (λ paths. ClashFree paths.items) }
    ensures listed { IfOk result (λ paths. (files : Files) → S.files source.old ≡ Some files → paths.items ≡ map.keys files) }
    ensures limit { (files : Files) (fault : SiteFault) → S.files source.old ≡ Some files →
        result ≡ Err (ScanError.Limit fault) → scan_fault (map.entries files) ≡ Some fault }
    ensures same { S.files source.new ≡ S.files source.old }
    ensures cause { HasCauseOf ScanError.Failed (S.failures source.old) (S.failures source.new) result }
{
    let mut paths = match source.list(alloc) {
        Ok(paths) => paths,
        Err(ListError::Failed) => return Err(ScanError::Failed),
        Err(ListError::Memory) => return Err(ScanError::Memory),
    };
    paths.sort_unstable();
    if paths.len() > MOST_FILES {
        let path = paths.swap_remove(MOST_FILES);
        return Err(ScanError::limit(FaultKind::TooManyFiles, path));
    }
    Ok(paths)
}

fn read_one<S: SourceTree>(
    alloc: Global,
    source: &mut S,
    path: &SitePath,
) -> Result<Vec<u8>, ScanError>
    requires { Has (S.files source.old) path.now }
    ensures reads { Reads (S.files source.old) path.now result }
    ensures same { S.files source.new ≡ S.files source.old }
    ensures cause { HasCauseOf ScanError.Failed (S.failures source.old) (S.failures source.new) result }
    ensures no_limit { (fault : SiteFault) → IsErrOf result (ScanError.Limit fault) → ⊥ }
{
    Ok(source.read(alloc, path)?)
}

fn measure_one<S: SourceTree>(
    alloc: Global,
    source: &mut S,
    path: &SitePath,
) -> Result<usize, ScanError>
    requires { Has (S.files source.old) path.now }
    ensures measures { Measures (S.files source.old) path.now result }
    ensures same { S.files source.new ≡ S.files source.old }
    ensures cause { HasCauseOf ScanError.Failed (S.failures source.old) (S.failures source.new) result }
    ensures no_limit { (fault : SiteFault) → IsErrOf result (ScanError.Limit fault) → ⊥ }
{
    Ok(source.measure(alloc, path)?)
}
