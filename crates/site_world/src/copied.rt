// The files that are copied.
ghost use Rattle.std.specs.Prelude.{◌≡◌, ◌<◌, ℕ, List, IfOk, slice_index_or};
ghost use Rattle.std.specs.FinMap.{entries, len};
ghost use Rattle.std.specs.List.{sum_by};
ghost use Rattle.site_world.specs.Copied.{copied_length};
ghost use Rattle.site_world.specs.Named.{named};
ghost use Rattle.site_world.specs.Sights.{copy_at};
ghost use Rattle.source_tree.specs.Limits.{CanBeHeld};

use crate::named::Named;
use site_base::Memory;
use site_items::StaticFile;
use source_tree::Held;
use std::alloc::Global;

/// The files that are copied, by their paths.
pub(crate) fn copies<'a>(
    alloc: Global,
    files: &'a [StaticFile],
) -> Result<Named<'a, StaticFile>, Memory>
    ensures { IfOk result (λ made. (path : List ℕ) → named made path ≡ copy_at path files.now) }
{
    let mut made = Named::with_room(alloc, files.len())?;
    for file in files {
        made.add(file.path.text(), file)?;
    }
    Ok(made)
}

/// How many bytes the held files have that are copied.
pub(crate) fn copied_bytes(held: &Held, copies: &Named<StaticFile>) -> u64
    ensures is { result ≡ sum_by (copied_length copies.now) (entries held.now) }
    // What is held passes no limit.
    ensures within { CanBeHeld held.now }
{
    let mut bytes = 0;
    for place in 0..held.len() {
        bytes += copied_at(held, copies, place);
    }
    bytes
}

fn copied_at(held: &Held, copies: &Named<StaticFile>, place: u32) -> u64
    requires { place < len held.now }
    ensures { (d : List ℕ × List ℕ) → result ≡ copied_length copies.now (slice_index_or (entries held.now) place d) }
{
    let (path, bytes) = held.at(place);
    match copies.find(path.text()) {
        Some(_) => bytes.len() as u64,
        None => 0,
    }
}
