// Whether a list of files is one of differing paths.
ghost use Rattle.std.specs.Prelude.{◌≡◌, ◌↔◌, IfOk, IsTrue, List, MatchOption, map};
ghost use Rattle.std.specs.FinMap as finmap;
ghost use Rattle.site_base.specs.Clash.{ClashFree};
ghost use Rattle.site_base.specs.PathMap.{as_map};
ghost use Rattle.site_base.specs.Places.{AllDiffer, paths_of};
ghost use Rattle.source_tree.specs.Rise.{units};

use site_base::{Memory, PathMap, SitePath};
use std::alloc::Global;

/// Whether no path stands twice in a list of files.
pub fn paths_differ(alloc: Global, files: &[(SitePath, Vec<u8>)]) -> Result<bool, Memory>
    ensures { IfOk result (λ differ. IsTrue differ ↔ AllDiffer (paths_of files.now)) }
{
    Ok(distinct_paths(alloc, files)?.is_some())
}

/// Whether no path stands twice in a list of files, and none is a folder of another.
pub fn paths_stand_apart(alloc: Global, files: &[(SitePath, Vec<u8>)]) -> Result<bool, Memory>
    ensures { IfOk result (λ apart. IsTrue apart ↔ (AllDiffer (paths_of files.now) × ClashFree (paths_of files.now))) }
{
    match distinct_paths(alloc, files)? {
        Some(paths) => Ok(paths.find_clash().is_none()),
        None => Ok(false),
    }
}

// The paths of a list of files, where they differ.
fn distinct_paths(
    alloc: Global,
    files: &[(SitePath, Vec<u8>)],
) -> Result<Option<PathMap<()>>, Memory>
    ensures { IfOk result (λ paths. MatchOption paths
        (AllDiffer (paths_of files.now) → ⊥)
        (λ paths. AllDiffer (paths_of files.now) × (as_map paths ≡ finmap.from_entries (units (paths_of files.now))))) }
{
    let mut paths = Vec::new(alloc);
    for file in files {
        paths.push((file.0.copy(alloc)?, ()))?;
    }
    Ok(PathMap::from_entries(paths))
}
