// One build: the tree that the held files stand for, and the output made equal to it.
ghost use Rattle.std.specs.Prelude.{◌≡◌, ◌+◌, ◌-◌, ◌^◌, ◌≤◌, min, ℕ, Option, Some, None, Ok, Err, OnOk, OnErr, IfOk, List, length, true, false, [], ◌∷◌, IsSome};
ghost use Rattle.std.specs.FinMap as map;
ghost use Rattle.site_base.specs.Places.{Files};
ghost use Rattle.out_tree.specs.Belief.{Belief, believed, IsTrueOf};
ghost use Rattle.site_session.specs.Standing.{Standing, Holds, MakesBut, MarksExactly};
ghost use Rattle.site_session.specs.Session.{Given, Reply, event_of, failed_of, build_tree, build_listed, output_failures, plan, TheList};
ghost use Rattle.out_tree.specs.Tries.{CallsFor};
ghost use Rattle.site_session.specs.Makes.{Finishes};
ghost use Rattle.site_session.specs.Settled.{NothingPlanned, idle_report};
ghost use Rattle.site_session.specs.Replies.{based_by, built_reply, Called, FailedAt};
ghost use Rattle.site_session.specs.declared.build.Report.{Report};

use crate::output::{Output, Written};
use out_tree::{OutKeeper, OutTree};
use render_workers::Whys;
use site_base::{ListError, Memory, PathList, SiteFault, Text};
use site_reader::SiteError;
use std::alloc::Global;

/// What a build did.
#[derive(Drop)]
pub struct Report {
    /// How many items were rendered.
    pub rendered: u32,
    /// How many items were kept from an earlier build.
    pub reused: u32,
    /// How many files were written.
    pub written: u64,
    /// How many files were removed.
    pub removed: u64,
    /// The items that were rendered, with the reason.
    pub why: Whys,
}

impl Report {
    /// What a build did that had nothing to do, and kept so many items. It takes no memory.
    pub(crate) fn idle(alloc: Global, reused: u32) -> Report
        ensures { result ≡ idle_report reused }
    {
        Report {
            rendered: 0,
            reused,
            written: 0,
            removed: 0,
            why: Whys::new(alloc),
        }
    }
}

/// How a rebuild ended.
#[derive(Drop)]
pub enum Rebuilt {
    /// The output is exactly what the held files stand for.
    Built(Report),
    /// The held files have this first fault, and nothing was written.
    Fault(SiteFault),
    /// The writes and removals of these paths failed, in the order tried.
    Marked(PathList),
    /// The output gave no list of its files, and nothing was written.
    Unlisted,
}

// Makes the output what a build found that the held files stand for, and sets the base of its addresses; files with a fault leave both alone.
pub(crate) fn finish<O: OutTree>(
    keeper: &mut OutKeeper,
    base: &mut Text,
    alloc: Global,
    output: Result<Output, SiteError>,
    out: &mut O,
) -> Result<Rebuilt, Memory>
    ensures { Finishes O.contents O.calls O.failures output result keeper.old keeper.new base.old base.new out.old out.new }
{
    match output {
        Ok(output) => make(keeper, base, alloc, output, out),
        Err(SiteError::Fault(fault)) => Ok(Rebuilt::Fault(fault)),
        Err(SiteError::Memory) => Err(Memory),
    }
}

// Lists the output where it has not been listed, and makes it equal to the tree.
fn make<O: OutTree>(
    keeper: &mut OutKeeper,
    base: &mut Text,
    alloc: Global,
    output: Output,
    out: &mut O,
) -> Result<Rebuilt, Memory>
    ensures answers { (given : Given) (now : Standing) (reply : Reply) → now.belief ≡ keeper.old → now.base ≡ base.old → Holds (O.contents out.old) keeper.old given.output →
        built_reply result ≡ Some reply →
        build_tree given now output keeper.old (event_of reply) ≡ (record now { belief = keeper.new; base = base.new }, reply) }
    ensures based { base.new ≡ based_by result base.old output.written.base }
    ensures belief { (first : Files) → Holds (O.contents out.old) keeper.old first → Holds (O.contents out.new) keeper.new first }
    ensures made { (first : Files) (failed : List (List ℕ)) → Holds (O.contents out.old) keeper.old first → FailedAt result failed →
        MakesBut failed output.written (O.contents out.old) (O.contents out.new) × MarksExactly failed output.written.keep keeper.new }
    ensures unlisted_same { result ≡ Ok Rebuilt.Unlisted → O.contents out.new ≡ O.contents out.old }
    ensures no_fault { (fault : SiteFault) → result ≡ Ok (Rebuilt.Fault fault) → ⊥ }
    ensures later { O.failures out.old ≤ O.failures out.new }
    ensures cause { (reply : Reply) → built_reply result ≡ Some reply → min (O.failures out.old + output_failures reply) (2 ^ 64 - 1) ≤ O.failures out.new }
    ensures steady { (report : Report) → result ≡ Ok (Rebuilt.Built report) → O.failures out.new ≡ O.failures out.old }
    ensures idle { (belief : Belief) → keeper.old ≡ Some belief → plan belief output.written ≡ [] → out.new ≡ out.old }
    ensures settled { (report : Report) → result ≡ Ok (Rebuilt.Built report) → NothingPlanned output.written keeper.new }
    ensures counts { (report : Report) → result ≡ Ok (Rebuilt.Built report) → (report.rendered ≡ output.rendered) × (report.reused ≡ output.reused) }
    ensures called { (first : Files) → Holds (O.contents out.old) keeper.old first →
        Called keeper.old first output.written result (O.calls out.old) (O.calls out.new) }
    ensures err { OnErr result (O.contents out.new ≡ O.contents out.old) }
    ensures short { OnErr result (O.failures out.new ≡ O.failures out.old) }
{
    match keeper.list_once(alloc, out) {
        Ok(()) => make_listed(keeper, base, alloc, output, out),
        Err(ListError::Failed) => Ok(Rebuilt::Unlisted),
        Err(ListError::Memory) => Err(Memory),
    }
}

// Makes an output that has been listed equal to the tree.
fn make_listed<O: OutTree>(
    keeper: &mut OutKeeper,
    base: &mut Text,
    alloc: Global,
    output: Output,
    out: &mut O,
) -> Result<Rebuilt, Memory>
    requires some { IsSome keeper.old }
    ensures answers { (now : Standing) (reply : Reply) → built_reply result ≡ Some reply →
        build_listed now output (believed keeper.old) (failed_of (event_of reply)) ≡ (record now { belief = keeper.new; base = base.new }, reply) }
    ensures based { base.new ≡ based_by result base.old output.written.base }
    ensures belief { (old : Files) → O.contents out.old ≡ Some old → IsTrueOf (believed keeper.old) old →
        Holds (O.contents out.new) keeper.new old }
    ensures made { (old : Files) (failed : List (List ℕ)) → O.contents out.old ≡ Some old → IsTrueOf (believed keeper.old) old → FailedAt result failed →
        MakesBut failed output.written (O.contents out.old) (O.contents out.new) × MarksExactly failed output.written.keep keeper.new }
    ensures unlisted_same { result ≡ Ok Rebuilt.Unlisted → O.contents out.new ≡ O.contents out.old }
    ensures no_fault { (fault : SiteFault) → result ≡ Ok (Rebuilt.Fault fault) → ⊥ }
    ensures listed { IsSome keeper.new }
    ensures later { O.failures out.old ≤ O.failures out.new }
    ensures cause { (reply : Reply) → built_reply result ≡ Some reply → min (O.failures out.old + output_failures reply) (2 ^ 64 - 1) ≤ O.failures out.new }
    ensures unlisted { (reply : Reply) → built_reply result ≡ Some reply → event_of reply ≡ TheList → ⊥ }
    ensures steady { (report : Report) → result ≡ Ok (Rebuilt.Built report) → O.failures out.new ≡ O.failures out.old }
    ensures idle { plan (believed keeper.old) output.written ≡ [] → out.new ≡ out.old }
    ensures settled { (report : Report) → result ≡ Ok (Rebuilt.Built report) → plan (believed keeper.new) output.written ≡ [] }
    ensures counts { (report : Report) → result ≡ Ok (Rebuilt.Built report) → (report.rendered ≡ output.rendered) × (report.reused ≡ output.reused) }
    ensures called { OnOk result (CallsFor (plan (believed keeper.old) output.written) (O.calls out.old) (O.calls out.new)) }
    ensures err { OnErr result ((keeper.new ≡ keeper.old) × (out.new ≡ out.old)) }
{
    let Output {
        written,
        rendered,
        reused,
        why,
    } = output;
    let Written {
        tree,
        keep,
        base: its_base,
    } = written;
    let applied = match keeper.make_equal(alloc, &tree, &keep, out) {
        Ok(applied) => applied,
        Err(Memory) => return Err(Memory),
    };
    *base = its_base;
    if applied.failed.is_empty() {
        return Ok(Rebuilt::Built(Report {
            rendered,
            reused,
            written: applied.written,
            removed: applied.removed,
            why,
        }));
    }
    Ok(Rebuilt::Marked(applied.failed))
}
