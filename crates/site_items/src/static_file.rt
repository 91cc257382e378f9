// Files that are copied.
ghost use Rattle.std.specs.Prelude.{◌≡◌, IfOk, None, if◌then◌else◌};
ghost use Rattle.site_items.specs.Addresses.{has_output};
ghost use Rattle.site_items.specs.Files.{path_or_none, shown_path, static_file};

use crate::folders::behind;
use crate::kind::Kind;
use site_base::{Memory, PathError, SitePath, Text};
use site_config::Config;
use std::alloc::Global;

/// A file that is copied.
#[derive(Drop)]
pub struct StaticFile {
    pub path: SitePath,
    pub url: Text,
    /// The path of its output, where it is written.
    pub dest: Option<SitePath>,
}

impl StaticFile {
    /// The file at a path: `Document` where it is in the folder of a collection, which has it at its path without the folder's
    /// `_`, and writes it where it has output.
    pub fn at(
        alloc: Global,
        config: &Config,
        kind: Kind,
        path: &SitePath,
    ) -> Result<StaticFile, Memory>
        ensures { IfOk result (λ made. made ≡ static_file config.now kind path.now) }
    {
        let shown = shown_path(kind, path.text());
        let mut url = Text::copy(alloc, "/")?;
        url.push_str(shown)?;
        Ok(StaticFile {
            path: path.copy(alloc)?,
            url,
            dest: dest_of(alloc, config, kind, shown)?,
        })
    }
}

fn shown_path(kind: Kind, path: &str) -> &str
    ensures { result.now ≡ shown_path kind path.now }
{
    match kind {
        Kind::Document(_) => behind("_", path),
        Kind::Page | Kind::Post | Kind::Draft => path,
    }
}

fn dest_of(
    alloc: Global,
    config: &Config,
    kind: Kind,
    shown: &str,
) -> Result<Option<SitePath>, Memory>
    ensures { IfOk result (λ dest. dest ≡ (if has_output config.now kind then path_or_none shown.now else None)) }
{
    if kind.has_output(config) {
        path_or_none(alloc, shown)
    } else {
        Ok(None)
    }
}

fn path_or_none(alloc: Global, path: &str) -> Result<Option<SitePath>, Memory>
    ensures { IfOk result (λ made. made ≡ path_or_none path.now) }
{
    match SitePath::read(alloc, path) {
        Ok(path) => Ok(Some(path)),
        Err(PathError::Memory) => Err(Memory),
        Err(_) => Ok(None),
    }
}
