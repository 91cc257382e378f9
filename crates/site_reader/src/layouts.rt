// The layouts of a site.
ghost use Rattle.std.specs.Prelude.{◌≡◌, [], MatchResult, Ok, OnOk, map};
ghost use Rattle.site_reader.specs.Found.{IsFirst, each};
ghost use Rattle.site_reader.specs.Placing.{seen};
ghost use Rattle.site_reader.specs.Sites.{add_layout, layouts, read_layout, with_layout};

use crate::name::Name;
use crate::placed_file::PlacedFile;
use crate::site_error::{SiteError, error_at};
use crate::values::values;
use site_base::{Memory, Sequence, SitePath};
use site_files::Place;
use site_items::{FileContent, LayoutFile};
use std::alloc::Global;
use std::collections::BTreeMap;

/// The layouts, in the order of their names; of those with one name the last.
pub(crate) fn layouts(
    alloc: Global,
    files: &[PlacedFile],
) -> Result<Sequence<LayoutFile>, SiteError>
    ensures { let found = layouts (map seen files.entry.now) in
        MatchResult result (λ made. found ≡ Ok made) (IsFirst found) }
{
    match named_layouts(alloc, files) {
        Ok(layouts) => Ok(values(alloc, layouts)?),
        Err(error) => Err(error),
    }
}

fn named_layouts(
    alloc: Global,
    files: &[PlacedFile],
) -> Result<BTreeMap<Name, LayoutFile>, SiteError>
    ensures { let found = each add_layout (map seen files.entry.now) [] in
        MatchResult result (λ made. found ≡ Ok made.entries) (IsFirst found) }
{
    let mut layouts = BTreeMap::new(alloc);
    for file in files {
        add_layout(alloc, file, &mut layouts)?;
    }
    Ok(layouts)
}

fn add_layout(
    alloc: Global,
    file: &PlacedFile,
    layouts: &mut BTreeMap<Name, LayoutFile>,
) -> Result<(), SiteError>
    ensures { let found = add_layout (seen file.entry.now) layouts.old.entries in
        MatchResult result (λ _. found ≡ Ok layouts.new.entries) (IsFirst found) }
{
    match file.place {
        Place::Layout => read_layout(alloc, file.path, &file.content, layouts),
        _ => Ok(()),
    }
}

fn read_layout(
    alloc: Global,
    path: &SitePath,
    content: &FileContent,
    layouts: &mut BTreeMap<Name, LayoutFile>,
) -> Result<(), SiteError>
    ensures { let found = read_layout (path.now, content.now) layouts.old.entries in
        MatchResult result (λ _. found ≡ Ok layouts.new.entries) (IsFirst found) }
{
    match LayoutFile::read(alloc, path, content) {
        Ok(made) => Ok(put_layout(alloc, layouts, made)?),
        Err(error) => Err(error_at(alloc, path, error)),
    }
}

fn put_layout(
    alloc: Global,
    layouts: &mut BTreeMap<Name, LayoutFile>,
    made: LayoutFile,
) -> Result<(), Memory>
    ensures { OnOk result (layouts.new.entries ≡ with_layout made layouts.old.entries) }
{
    let name = Name::copy(alloc, made.name.as_str())?;
    match layouts.insert(name, made) {
        Ok(_) => Ok(()),
        Err(_) => Err(Memory),
    }
}
