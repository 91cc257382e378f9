// Folders in paths.
ghost use Rattle.std.specs.Prelude.{◌≡◌, OnOk, fold};
ghost use Rattle.std.specs.List.{join_with_byte};
ghost use Rattle.site_base.specs.Path.{segments};
ghost use Rattle.site_items.specs.Addresses.{above_posts, behind, behind_posts, below_folder, path_part, without_extension};
ghost use Rattle.site_items.specs.Items.{folders_above};
ghost use Rattle.site_items.specs.Labels.{add_name};

use crate::cuts::cut_at;
use crate::kind::Kind;
use crate::labels::add_name;
use site_base::{Hash, Memory, Text};
use site_config::Config;
use site_files::{extension, file_name, folder};
use std::alloc::Global;

/// What a URL may have of an item's path: of a page its folder, and of a document its path below its collection's folder,
/// without extension.
pub(crate) fn path_part<'a>(config: &Config, kind: Kind, path: &'a str) -> &'a str
    ensures { result.now ≡ path_part config.now kind path.entry.now }
{
    match kind {
        Kind::Page => folder(path),
        _ => without_extension(below_folder(config, kind, path)),
    }
}

/// What of a path is below the folder of the item's kind.
pub fn below_folder<'a>(config: &Config, kind: Kind, path: &'a str) -> &'a str
    ensures { result.now ≡ below_folder config.now kind path.entry.now }
{
    match kind {
        Kind::Page => path,
        Kind::Post => below_posts(path),
        Kind::Draft => behind("_drafts/", path),
        Kind::Document(_) => {
            behind("/", behind(kind.collection_name(config), behind("_", path)))
        }
    }
}

// What is behind the first folder `_posts`; nothing where there is none.
fn below_posts(path: &str) -> &str
    ensures { result.now ≡ join_with_byte 47 (behind_posts (segments path.now)) }
{
    let mut rest = path;
    while let Some((segment, behind)) = cut_at(rest, '/') {
        if segment == "_posts" {
            return behind;
        }
        rest = behind;
    }
    ""
}

/// A text without this front, where it begins with it.
pub fn behind<'a>(front: &str, text: &'a str) -> &'a str
    ensures { result.now ≡ behind front.now text.entry.now }
{
    match text.strip_prefix(front) {
        Some(rest) => rest,
        None => text,
    }
}

/// A path without the extension of its file's name.
pub fn without_extension(path: &str) -> &str
    ensures { result.now ≡ without_extension path.now }
{
    &path[..path.len() - extension(file_name(path)).len()]
}

/// Adds the names of the folders above the folder `_posts` of a post that is below one.
pub(crate) fn add_folders(
    alloc: Global,
    names: &mut Hash,
    kind: Kind,
    path: &str,
) -> Result<(), Memory>
    ensures { OnOk result (names.new ≡ fold add_name names.old (folders_above kind path.now)) }
{
    match kind {
        Kind::Post => add_above_posts(alloc, names, path),
        _ => Ok(()),
    }
}

fn add_above_posts(alloc: Global, names: &mut Hash, path: &str) -> Result<(), Memory>
    ensures { OnOk result (names.new ≡ fold add_name names.old (above_posts (segments path.now))) }
{
    let mut rest = path;
    while let Some((segment, behind)) = cut_at(rest, '/') {
        if segment == "_posts" {
            return Ok(());
        }
        add_name(names, Text::copy(alloc, segment)?)?;
        rest = behind;
    }
    if rest == "_posts" {
        return Ok(());
    }
    add_name(names, Text::copy(alloc, rest)?)
}
