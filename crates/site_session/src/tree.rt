// The files that a site writes.
ghost use Rattle.std.specs.Prelude.{◌≡◌, IfOk, OnOk};
ghost use Rattle.std.specs.FinMap.{get};
ghost use Rattle.site_session.specs.Full.{copy_bytes, item_bytes, tree_of, winner_bytes, with_bytes};

use out_tree::Tree;
use read_record::Outcome;
use site_base::{Memory, SharedBytes, SitePath, Text};
use site_items::StaticFile;
use site_reader::{Site, Winner, winners};
use source_tree::Held;
use std::alloc::Global;

/// The files of the output: each path that some output has, with the bytes of the output that wins it. The paths rise, so none is
/// searched for.
pub(crate) fn tree_of(
    alloc: Global,
    held: &Held,
    site: &Site,
    outs: &[Outcome],
) -> Result<Tree, Memory>
    ensures { IfOk result (λ tree. tree ≡ tree_of held.now site.now outs.now) }
{
    let items = site.items.as_slice();
    let won = winners(alloc, &site.config, items, site.statics.as_slice())?;
    let mut tree = Tree::new(alloc);
    for (path, winner) in won {
        let bytes = winner_bytes(alloc, held, site, outs, winner)?;
        put(&mut tree, path, bytes)?;
    }
    Ok(tree)
}

fn put(tree: &mut Tree, path: SitePath, bytes: Option<SharedBytes>) -> Result<(), Memory>
    ensures { OnOk result (tree.new ≡ with_bytes tree.old path bytes) }
{
    match bytes {
        Some(bytes) => tree.put_shared(path, bytes),
        None => Ok(()),
    }
}

// The bytes of the output that wins a path.
fn winner_bytes(
    alloc: Global,
    held: &Held,
    site: &Site,
    outs: &[Outcome],
    winner: Winner,
) -> Result<Option<SharedBytes>, Memory>
    ensures { IfOk result (λ bytes. bytes ≡ winner_bytes held.now site.now outs.now winner) }
{
    match winner {
        Winner::Page(place) => item_bytes(alloc, outs, place),
        Winner::Document(place) => item_bytes(alloc, outs, place),
        Winner::Copy(place) => copy_bytes(held, site.statics.as_slice(), place),
    }
}

fn item_bytes(alloc: Global, outs: &[Outcome], place: u64) -> Result<Option<SharedBytes>, Memory>
    ensures { IfOk result (λ bytes. bytes ≡ item_bytes outs.now place) }
{
    match outs.get(place as usize) {
        Some(Outcome::Done { output, .. }) => Ok(Some(text_bytes(alloc, output)?)),
        Some(Outcome::Fault(_)) => Ok(None),
        None => Ok(None),
    }
}

// The bytes of a text, which are shared where it is a file of its own.
fn text_bytes(alloc: Global, text: &Text) -> Result<SharedBytes, Memory>
    ensures { IfOk result (λ bytes. bytes ≡ text.now) }
{
    match text.whole_file() {
        Some(file) => file.share(),
        None => SharedBytes::from_vec(alloc, text.as_bytes().to_vec(alloc)?),
    }
}

// The bytes of a copied file, which are shared with the held one.
fn copy_bytes(held: &Held, copies: &[StaticFile], place: u64) -> Result<Option<SharedBytes>, Memory>
    ensures { IfOk result (λ bytes. bytes ≡ copy_bytes held.now copies.now place) }
{
    match copies.get(place as usize) {
        Some(copy) => held_bytes(held, &copy.path),
        None => Ok(None),
    }
}

fn held_bytes(held: &Held, path: &SitePath) -> Result<Option<SharedBytes>, Memory>
    ensures { IfOk result (λ bytes. bytes ≡ get held.now path.now) }
{
    match held.get_shared(path) {
        Some(bytes) => Ok(Some(bytes.share()?)),
        None => Ok(None),
    }
}
