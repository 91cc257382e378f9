// One try at an item.
ghost use Rattle.std.specs.Prelude.{◌≡◌, ◌<◌, IfSome, Some, None, MatchOption, length, slice_get};
ghost use Rattle.std.specs.FinMap.{get};
ghost use Rattle.read_record.specs.Records.{first_other};
ghost use Rattle.render_workers.specs.Tallies.{Grows};
ghost use Rattle.render_workers.specs.Turns.{IsFound, IsSettled, IsRendered, kept_in, with_check};

use crate::Why;
use memo_table::{Lent, Memo};
use read_record::{
    Checked, Entry, Finished, ItemMeaning, KeptEntry, Key, ReadShares, Renderer, Tally, Traced,
    World, render_sharing,
};
use std::alloc::Global;

/// What a try at an item came to.
#[derive(Drop)]
pub(crate) enum Settled<'a, M: ItemMeaning> {
    /// What is kept of it agrees.
    Kept(KeptEntry<'a, M>),
    /// It was rendered anew.
    New(Entry<M>, Why),
    /// This item has to be done first.
    Needs(u32),
    Memory,
}

/// Keeps an item, or renders it anew, over the outcomes that are known. Its name joins the tally exactly where it was
/// rendered. The memo is lent, so no key is looked up twice.
pub(crate) fn settle_lent<'a, R: Renderer, W: World, F: Finished>(
    alloc: Global,
    renderer: &R,
    world: &W,
    memo: &'a Memo<R::Meaning>,
    lent: &mut Lent<'a, R::Meaning, W>,
    item: u32,
    outs: &F,
    tally: &mut Tally,
    shares: &mut ReadShares,
) -> Settled<'a, R::Meaning>
    requires item { item < length (W.names world.now) }
    requires lent { lent.old ≡ record { entries = memo.now; world = world.now } }
    ensures lent { lent.new ≡ record { entries = memo.now; world = world.now } }
    ensures grows { Grows tally.old tally.new }
    ensures settled { IfSome (slice_get (W.names world.now) item)
        (λ name. IsSettled (get memo.now name) (W.sight world.now item (F.outcomes outs.now)) name (R.Meaning.item name) result tally.old tally.new) }
{
    let found = lent.checked(world.name(item), item, outs);
    settle(alloc, renderer, world, item, outs, found, tally, shares)
}

/// The entry of an item with what came of its check, where one is kept.
pub(crate) fn with_check<'a, M: ItemMeaning>(
    entry: Option<KeptEntry<'a, M>>,
    checked: Option<Checked>,
) -> Option<(KeptEntry<'a, M>, Checked)>
    ensures { result ≡ with_check entry.entry checked }
{
    Some((entry?, checked?))
}

#[tactic(auto, using(crate::proofs::TallyLaws::grows_none, crate::proofs::TallyLaws::grows_more, crate::proofs::TallyLaws::grows_traced))]
/// Keeps an item of which this was found, or renders it anew.
pub(crate) fn settle<'a, R: Renderer, W: World, F: Finished>(
    alloc: Global,
    renderer: &R,
    world: &W,
    item: u32,
    outs: &F,
    found: Option<(KeptEntry<'a, R::Meaning>, Checked)>,
    tally: &mut Tally,
    shares: &mut ReadShares,
) -> Settled<'a, R::Meaning>
    requires item { item < length (W.names world.now) }
    requires found { IfSome (slice_get (W.names world.now) item)
        (λ name. IfSome found (IsFound (W.sight world.now item (F.outcomes outs.now)) name)) }
    ensures grows { Grows tally.old tally.new }
    ensures settled { IfSome (slice_get (W.names world.now) item)
        (λ name. IsSettled (kept_in found.entry) (W.sight world.now item (F.outcomes outs.now)) name (R.Meaning.item name) result tally.old tally.new) }
{
    let Some((entry, checked)) = found else {
        return render(alloc, renderer, world, item, outs, None, tally, shares);
    };
    // The name tells that the entry is certified.
    let _certified = entry.name();
    match checked {
        Checked::Agrees => Settled::Kept(entry),
        Checked::Differs(place) => match entry.key_at(place).copy(alloc) {
            Ok(key) => render(alloc, renderer, world, item, outs, Some(key), tally, shares),
            Err(_) => Settled::Memory,
        },
        Checked::Needs(item) => Settled::Needs(item),
    }
}

#[tactic(auto, using(crate::proofs::TallyLaws::grows_none, crate::proofs::TallyLaws::grows_more, crate::proofs::TallyLaws::grows_traced))]
/// Renders an item anew, for this reason.
fn render<'a, R: Renderer, W: World, F: Finished>(
    alloc: Global,
    renderer: &R,
    world: &W,
    item: u32,
    outs: &F,
    key: Option<Key>,
    tally: &mut Tally,
    shares: &mut ReadShares,
) -> Settled<'a, R::Meaning>
    requires { item < length (W.names world.now) }
    ensures grows { Grows tally.old tally.new }
    ensures rendered { IfSome (slice_get (W.names world.now) item)
        (λ name. IsRendered (W.sight world.now item (F.outcomes outs.now)) name (R.Meaning.item name) key result tally.old tally.new) }
{
    let name = match world.name(item).copy(alloc) {
        Ok(name) => name,
        Err(_) => return Settled::Memory,
    };
    match render_sharing(alloc, renderer, world, item, outs, tally, shares) {
        Traced::Entry(entry) => Settled::New(entry, Why { name, key }),
        Traced::Needs(item) => Settled::Needs(item),
        Traced::Memory => Settled::Memory,
    }
}
