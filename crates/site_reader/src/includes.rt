// The includes of a site.
ghost use Rattle.std.specs.Prelude.{◌≡◌, [], MatchResult, Ok, map};
ghost use Rattle.site_reader.specs.Found.{IsFirst, each};
ghost use Rattle.site_reader.specs.Placing.{seen};
ghost use Rattle.site_reader.specs.Sites.{add_include, includes, read_include};

use crate::placed_file::PlacedFile;
use crate::site_error::{SiteError, error_at};
use site_base::{Sequence, SharedBytes, SitePath};
use site_files::Place;
use site_items::IncludeFile;
use std::alloc::Global;

/// The includes, in the order of their paths.
pub(crate) fn includes(
    alloc: Global,
    files: &[PlacedFile],
) -> Result<Sequence<IncludeFile>, SiteError>
    ensures { let found = includes (map seen files.entry.now) in
        MatchResult result (λ made. found ≡ Ok made) (IsFirst found) }
{
    match include_list(alloc, files) {
        Ok(includes) => Ok(Sequence::from_vec(includes)),
        Err(error) => Err(error),
    }
}

fn include_list(alloc: Global, files: &[PlacedFile]) -> Result<Vec<IncludeFile>, SiteError>
    ensures { let found = each add_include (map seen files.entry.now) [] in
        MatchResult result (λ made. found ≡ Ok made.items) (IsFirst found) }
{
    let mut includes = Vec::new(alloc);
    for file in files {
        add_include(alloc, file, &mut includes)?;
    }
    Ok(includes)
}

fn add_include(
    alloc: Global,
    file: &PlacedFile,
    includes: &mut Vec<IncludeFile>,
) -> Result<(), SiteError>
    ensures { let found = add_include (seen file.entry.now) includes.old.items in
        MatchResult result (λ _. found ≡ Ok includes.new.items) (IsFirst found) }
{
    match file.place {
        Place::Include => read_include(alloc, file.path, file.content.bytes(), includes),
        _ => Ok(()),
    }
}

fn read_include(
    alloc: Global,
    path: &SitePath,
    bytes: &SharedBytes,
    includes: &mut Vec<IncludeFile>,
) -> Result<(), SiteError>
    ensures { let found = read_include (path.now, bytes.now) includes.old.items in
        MatchResult result (λ _. found ≡ Ok includes.new.items) (IsFirst found) }
{
    match IncludeFile::read(alloc, path.text(), bytes) {
        Ok(made) => Ok(includes.push(made)?),
        Err(error) => Err(error_at(alloc, path, error)),
    }
}
