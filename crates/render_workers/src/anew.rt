// A round that renders all items anew and keeps nothing, for whoever builds once.
ghost use Rattle.std.specs.Prelude.{◌≡◌, ◌<◌, IfSome, None, length, slice_get};
ghost use Rattle.std.specs.FinMap.{empty};
ghost use Rattle.read_record.specs.Answers.{Renders, rendered_names};
ghost use Rattle.read_record.specs.Queries.{run};
ghost use Rattle.round_core.specs.Meant.{given_by};
ghost use Rattle.render_workers.specs.Folds.{AreDone, IsTold, fold_of};
ghost use Rattle.render_workers.specs.Rounds.{IsRoundAnew};
ghost use Rattle.render_workers.specs.Tallies.{Grows};
ghost use Rattle.render_workers.specs.Turns.{IsTurnAnew};

use crate::plain_look::PlainLook;
use crate::progress::{Progress, round_of};
use crate::{Round, RoundError, Why};
use read_record::{Finished, Rendered, Renderer, Tally, World};
use std::alloc::Global;

/// Renders the items one after another, and keeps nothing but what each comes to. It answers as `regenerate_serial` does
/// where nothing is kept: each item is told as new, and its name joins the tally. The error `Fault` is the first fault, and
/// comes exactly where there is one; behind it nothing is rendered. The other error is want of memory.
pub fn render_all<R: Renderer, W: World>(
    alloc: Global,
    renderer: &R,
    world: &W,
    tally: &mut Tally,
) -> Result<Round, RoundError>
    ensures round { IsRoundAnew (given_by (W.names world.now) (W.sight world.now) R.Meaning.item empty) (W.fixed world.now) result tally.old tally.new }
    // The tally keeps the names that it had, also where memory is wanting.
    ensures grows { Grows tally.old tally.new }

    // Rendering them one after another never waits for an item.
    ensures told { IsTold (fold_of (given_by (W.names world.now) (W.sight world.now) R.Meaning.item empty) (W.fixed world.now)) }
{
    let mut progress = Progress::new(alloc, world.fixed_bytes());
    for item in 0..world.items() {
        match render_next(alloc, renderer, world, item, &mut progress, tally) {
            Ok(()) => {}
            Err(error) => return Err(error),
        }
    }
    Ok(round_of(progress, world.items()))
}

/// Renders the next item, behind those that are done.
fn render_next<R: Renderer, W: World>(
    alloc: Global,
    renderer: &R,
    world: &W,
    item: u32,
    progress: &mut Progress,
    tally: &mut Tally,
) -> Result<(), RoundError>
    requires item { item < length (W.names world.now) }
    requires done { AreDone item (slice_get progress.old.outs) }
    ensures grows { Grows tally.old tally.new }
    ensures turn { IfSome (slice_get (W.names world.now) item)
        (λ name. IsTurnAnew (W.sight world.now item (slice_get progress.old.outs)) name (R.Meaning.item name) result progress.old progress.new tally.old tally.new) }
{
    match render(alloc, renderer, world, item, progress, tally) {
        Rendered::Out(outcome) => {
            let name = world.name(item);
            let why = Why {
                name: name.copy(alloc)?,
                key: None,
            };
            progress.add_rendered(alloc, name, outcome, why)
        }
        // All items before it are done.
        Rendered::Needs(_) => unreachable!(),
        Rendered::Memory => Err(RoundError::Memory),
    }
}

#[tactic(auto, using(crate::proofs::TallyLaws::grows_rendered))]
/// What an item comes to over the outcomes that are known.
fn render<R: Renderer, W: World, F: Finished>(
    alloc: Global,
    renderer: &R,
    world: &W,
    item: u32,
    outs: &F,
    tally: &mut Tally,
) -> Rendered
    requires { item < length (W.names world.now) }
    ensures grows { Grows tally.old tally.new }
    ensures rendered { IfSome (slice_get (W.names world.now) item)
        (λ name. Renders (run (W.sight world.now item (F.outcomes outs.now)) None (R.Meaning.item name)) result None) }
    ensures tallied { IfSome (slice_get (W.names world.now) item) (λ name. tally.new ≡ rendered_names result name tally.old) }
{
    let mut look = PlainLook::new(world, item, outs);
    renderer.render(alloc, world.name(item), &mut look, tally)
}
