// The files of a site that are copied.
ghost use Rattle.std.specs.Prelude.{◌≡◌, ◌++◌, IfOk, OnOk, map};
ghost use Rattle.site_reader.specs.Placing.{as_copy, seen};
ghost use Rattle.site_reader.specs.Sites.{copied, copies};

use crate::placed_file::PlacedFile;
use site_base::{Memory, Sequence};
use site_config::Config;
use site_items::StaticFile;
use std::alloc::Global;

/// The files that are copied, in the order of their paths.
pub(crate) fn copies(
    alloc: Global,
    config: &Config,
    files: &[PlacedFile],
) -> Result<Sequence<StaticFile>, Memory>
    ensures { IfOk result (λ made. made ≡ copies config.now (map seen files.entry.now)) }
{
    let mut copies = Vec::new(alloc);
    for file in files {
        add_copy(alloc, config, file, &mut copies)?;
    }
    Ok(Sequence::from_vec(copies))
}

fn add_copy(
    alloc: Global,
    config: &Config,
    file: &PlacedFile,
    copies: &mut Vec<StaticFile>,
) -> Result<(), Memory>
    ensures { OnOk result (copies.new.items ≡ copies.old.items ++ copied config.now file.now.path.now (as_copy (seen file.now))) }
{
    if let Some(kind) = file.as_copy() {
        copies.push(StaticFile::at(alloc, config, kind, file.path)?)?;
    }
    Ok(())
}
