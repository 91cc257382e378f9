// Lists of events.
ghost use Rattle.std.specs.Prelude.{◌≡◌, IfOk};
ghost use Rattle.round_core.specs.Meant.{given_by};
ghost use Rattle.round_core.specs.Steps.{IsStepped, IsRun, IsOnly, OnDone};
ghost use Rattle.round_core.specs.Facts.{IsSound, IsClaimedOnce, AreClaimed, AreSet, AreRight, AreFresh, KnowRight};

use crate::stepping::{Round, Stepped, claim, finish, keep, take};
use crate::{Core, Event};
use memo_table::Memo;
use read_record::{Renderer, World};
use std::alloc::Global;

/// Why a list of events leaves no state.
#[derive(Clone, Copy, Debug, PartialEq, Eq)]
pub enum CoreError {
    /// The event at this place, counted from 0, is the first that is not allowed.
    Refused(u64),
    Memory,
}

fn step<R: Renderer, W: World>(
    alloc: Global,
    renderer: &R,
    round: &Round<R::Meaning, W>,
    core: &mut Core<R::Meaning>,
    event: &Event,
) -> Stepped
    ensures step { IsStepped (given_by (W.names round.now.world.now) (W.sight round.now.world.now) R.Meaning.item round.now.memo.now) round.now.workers result core.old event.now core.new }
    ensures sound { OnDone result (IsSound (given_by (W.names round.now.world.now) (W.sight round.now.world.now) R.Meaning.item round.now.memo.now) event.now) }
{
    match event {
        Event::Claim(worker, item) => claim(round, core, *worker, *item),
        Event::Take(worker, item) => take(alloc, round, core, *worker, *item),
        Event::Keep(worker, item) => keep(round, core, *worker, *item),
        Event::Finish(worker, item) => finish(alloc, renderer, round, core, *worker, *item),
    }
}

/// The state that these events leave, one after another, beginning with nothing claimed, set or known; of the workers and
/// the items only those are there whose numbers are below these counts. The first event that is not allowed is the error
/// `Refused`, by its place; want of memory is the other.
pub fn run<R: Renderer, W: World>(
    alloc: Global,
    renderer: &R,
    world: &W,
    memo: &Memo<R::Meaning>,
    workers: u32,
    events: &[Event],
) -> Result<Core<R::Meaning>, CoreError>
    ensures run { IsRun (given_by (W.names world.now) (W.sight world.now) R.Meaning.item memo.now) workers events.now result }
    ensures only { IsOnly (given_by (W.names world.now) (W.sight world.now) R.Meaning.item memo.now) workers events.now result }
    ensures once { IfOk result (λ core. IsClaimedOnce (given_by (W.names world.now) (W.sight world.now) R.Meaning.item memo.now) core) }
    ensures claimed { IfOk result (λ core. AreClaimed (given_by (W.names world.now) (W.sight world.now) R.Meaning.item memo.now) core) }
    ensures set { IfOk result (λ core. AreSet (given_by (W.names world.now) (W.sight world.now) R.Meaning.item memo.now) core) }
    ensures right { IfOk result (λ core. AreRight (given_by (W.names world.now) (W.sight world.now) R.Meaning.item memo.now) core) }
    ensures known { IfOk result (λ core. KnowRight (given_by (W.names world.now) (W.sight world.now) R.Meaning.item memo.now) core) }
    ensures fresh { IfOk result (λ core. AreFresh (given_by (W.names world.now) (W.sight world.now) R.Meaning.item memo.now) core) }
{
    let round = Round {
        world,
        memo,
        workers,
    };
    let mut core = Core::new(alloc);
    let mut place: u64 = 0;
    for event in events {
        match step(alloc, renderer, &round, &mut core, event) {
            Stepped::Done => place += 1,
            Stepped::Refused => return Err(CoreError::Refused(place)),
            Stepped::Memory => return Err(CoreError::Memory),
        }
    }
    Ok(core)
}
