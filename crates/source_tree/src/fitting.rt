// Files that are to be held in place of all others.
ghost use Rattle.std.specs.Prelude.{◌≡◌, ◌⊎◌, ◌<◌, ◌≤◌, ◌+◌, None, IfOk, MatchResult, length, take, is_some};
ghost use Rattle.std.specs.FinMap as map;
ghost use Rattle.site_base.specs.PathMap.{as_map};
ghost use Rattle.site_base.specs.Places.{AllDiffer, paths_of};
ghost use Rattle.source_tree.specs.Fitting.{count_fitting, first_limit};
ghost use Rattle.source_tree.specs.Limits.{bytes_of};
ghost use Rattle.source_tree.specs.Put.{first_refusal, plain};

use crate::PutError;
use crate::held::Held;
use crate::limits::passed_limit;
use site_base::{Memory, PathMap, SharedBytes, SitePath};
use std::alloc::Global;

// What is held once these files were put one after another.
//
// The files before the first that passes a limit tell whether any put before it is a clash, so they are sorted once.
pub(crate) fn held_of(alloc: Global, files: Vec<(SitePath, Vec<u8>)>) -> Result<Held, PutError>
    requires { AllDiffer (paths_of files.items) }
    ensures { MatchResult result
        (λ held. (held ≡ map.from_entries (plain files.items))
        × (first_refusal map.empty (plain files.items) ≡ None))
        (λ error. (error ≡ PutError.Memory)
        ⊎ (first_refusal map.empty (plain files.items) ≡ Some error)) }
{
    let fitting = count_fitting(&files);
    let files = map_of_front(alloc, files, fitting.number)?;
    if files.find_clash().is_some() {
        return Err(PutError::Clash);
    }
    match fitting.limit {
        Some(limit) => Err(limit),
        None => Ok(Held::of(files, fitting.total)),
    }
}

// How many files at the front of a list pass no limit, their bytes together, and the limit that the next one passes.
#[derive(Drop)]
struct Fitting {
    number: usize,
    total: u64,
    limit: Option<PutError>,
}

fn count_fitting(files: &[(SitePath, Vec<u8>)]) -> Fitting
    ensures number { result.number ≡ count_fitting 0 0 (plain files.now) }
    ensures bound { result.number ≤ length files.now }
    ensures total { result.total ≡ bytes_of (take result.number (plain files.now)) }
    ensures limit { result.limit ≡ first_limit 0 0 (plain files.now) }
{
    let mut total = 0;
    for number in 0..files.len() {
        let bytes = files[number].1.len();
        let limit = passed_limit(bytes, number, total);
        if limit.is_some() {
            return Fitting {
                number,
                total,
                limit,
            };
        }
        total += bytes as u64;
    }
    Fitting {
        number: files.len(),
        total,
        limit: None,
    }
}

// The first of the files as a map.
fn map_of_front(
    alloc: Global,
    mut files: Vec<(SitePath, Vec<u8>)>,
    number: usize,
) -> Result<PathMap<SharedBytes>, Memory>
    requires { AllDiffer (paths_of files.items) }
    ensures { IfOk result (λ made. as_map made ≡ map.from_entries (take number (plain files.items))) }
{
    files.truncate(number);
    let entries = with_shared_bytes(alloc, files)?;
    Ok(PathMap::from_entries(entries).unwrap())
}

fn with_shared_bytes(
    alloc: Global,
    files: Vec<(SitePath, Vec<u8>)>,
) -> Result<Vec<(SitePath, SharedBytes)>, Memory>
    ensures { IfOk result (λ made. made.items ≡ plain files.items) }
{
    let mut made = Vec::with_capacity(alloc, files.len())?;
    for (path, bytes) in files {
        made.push((path, SharedBytes::from_vec(alloc, bytes)?))?;
    }
    Ok(made)
}
