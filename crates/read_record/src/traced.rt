// Renders that keep what they read.
ghost use Rattle.std.specs.Prelude.{◌≡◌, ◌<◌, IfSome, length, slice_get};
ghost use Rattle.read_record.specs.Traces.{IsTraced, traced_names};

use crate::recorder::Recorder;
use crate::{Entry, Finished, ItemMeaning, ReadShares, Rendered, Renderer, Tally, World};
use std::alloc::Global;
use std::mem;

/// What a render answers that keeps what it read.
#[derive(Drop)]
pub enum Traced<M: ItemMeaning> {
    Entry(Entry<M>),
    /// This item has to be done first.
    Needs(u32),
    Memory,
}

/// Renders an item of a world, and keeps what it read. The name joins the tally exactly where an entry is answered.
pub fn render_traced<R: Renderer, W: World, F: Finished>(
    alloc: Global,
    renderer: &R,
    world: &W,
    item: u32,
    outs: &F,
    tally: &mut Tally,
) -> Traced<R::Meaning>
    requires { item < length (W.names world.now) }
    ensures traced { IfSome (slice_get (W.names world.now) item) (IsTraced (W.sight world.now item (F.outcomes outs.now)) R.Meaning.item result) }
    ensures tallied { IfSome (slice_get (W.names world.now) item) (λ name. tally.new ≡ traced_names result name tally.old) }
{
    let mut shares = ReadShares::new(alloc);
    render_sharing(alloc, renderer, world, item, outs, tally, &mut shares)
}

/// The same, where what it read is shared with the other records that were made with these shares.
pub fn render_sharing<R: Renderer, W: World, F: Finished>(
    alloc: Global,
    renderer: &R,
    world: &W,
    item: u32,
    outs: &F,
    tally: &mut Tally,
    shares: &mut ReadShares,
) -> Traced<R::Meaning>
    requires { item < length (W.names world.now) }
    ensures traced { IfSome (slice_get (W.names world.now) item) (IsTraced (W.sight world.now item (F.outcomes outs.now)) R.Meaning.item result) }
    ensures tallied { IfSome (slice_get (W.names world.now) item) (λ name. tally.new ≡ traced_names result name tally.old) }
{
    let name = world.name(item);
    // All other memory that an entry takes is taken before its name is added.
    let kept_name = match name.copy(alloc) {
        Ok(kept_name) => kept_name,
        Err(_) => return Traced::Memory,
    };
    let lent = mem::replace(shares, ReadShares::new(alloc));
    let mut look = Recorder::new(alloc, world, item, outs, lent);
    let rendered = renderer.render(alloc, name, &mut look, tally);
    let (reads, lent) = look.into_parts();
    *shares = lent;
    match rendered {
        Rendered::Out(outcome) => Traced::Entry(Entry::new(kept_name, reads, outcome)),
        Rendered::Needs(item) => Traced::Needs(item),
        Rendered::Memory => Traced::Memory,
    }
}
