// A round of many workers.
ghost use Rattle.std.specs.Prelude.{◌≡◌, ◌≤◌};
ghost use Rattle.round_core.specs.Meant.{given_by};
ghost use Rattle.render_workers.specs.Folds.{IsTold, fold_of};
ghost use Rattle.render_workers.specs.Tallies.{Grows};
ghost use Rattle.render_workers.specs.Worked.{IsWorked};

use crate::collecting::collect;
use crate::serial::{let_go, never_waits, regenerate_serial};
use crate::spreading::work_all;
use crate::{Round, RoundError};
use memo_table::Memo;
use read_record::{Renderer, Tally, World};
use std::alloc::Global;
use std::sync::Wait;
use std::thread::Threads;

#[tactic(auto, using(crate::proofs::OneWorker::worked_alone))]
/// Keeps or renders the items by this number of workers, with the answers of `regenerate_serial`. The names of the items that were
/// rendered join the tally at its end in any order, each once. At a fault they are those of the stale items up to the one with the
/// fault, and besides at most those of later stale items, each once at most. However it ends, what only replaced entries had read is
/// let go.
pub fn regenerate<H: Threads + Wait + Sync, R: Renderer + Sync, W: World + Sync>(
    rt: &H,
    alloc: Global,
    renderer: &R,
    world: &W,
    memo: &mut Memo<R::Meaning>,
    jobs: u32,
    tally: &mut Tally,
) -> Result<Round, RoundError>
where
    R::Meaning: Send + Sync,
    requires { (1 ≤ jobs) × (jobs ≤ 64) }
    ensures round { IsWorked (given_by (W.names world.now) (W.sight world.now) R.Meaning.item memo.old) (W.fixed world.now) result memo.new tally.old tally.new }
    // The tally keeps the names that it had, also where memory is wanting.
    ensures grows { Grows tally.old tally.new }

    // Rendering them one after another never waits for an item.
    ensures told { IsTold (fold_of (given_by (W.names world.now) (W.sight world.now) R.Meaning.item memo.old) (W.fixed world.now)) }
{
    never_waits(world, memo);
    if jobs == 1 {
        // One after another each entry is put away as it is made, and none waits for the others.
        return regenerate_serial(alloc, renderer, world, memo, tally);
    }
    let round = by_many(rt, alloc, renderer, world, memo, jobs, tally);
    let_go(memo);
    round
}

fn by_many<H: Threads + Wait + Sync, R: Renderer + Sync, W: World + Sync>(
    rt: &H,
    alloc: Global,
    renderer: &R,
    world: &W,
    memo: &mut Memo<R::Meaning>,
    jobs: u32,
    tally: &mut Tally,
) -> Result<Round, RoundError>
where
    R::Meaning: Send + Sync,
    ensures round { IsWorked (given_by (W.names world.now) (W.sight world.now) R.Meaning.item memo.old) (W.fixed world.now) result memo.new tally.old tally.new }
    ensures grows { Grows tally.old tally.new }
{
    let all = work_all(rt, alloc, renderer, world, memo, jobs)?;
    collect(alloc, renderer, world, memo, all, tally)
}
