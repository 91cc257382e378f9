// One build from nothing: a scan, and the build where it answers a number.
ghost use Rattle.std.specs.Prelude.{◌≡◌, ◌≤◌, MatchResult, true};
ghost use Rattle.site_base.specs.Ends.{Rose};
ghost use Rattle.site_script.specs.Line.{is_moment};
ghost use Rattle.site_session.specs.Session.{start};
ghost use Rattle.site_session.specs.Scenes.{source_seen};
ghost use Rattle.site_program.specs.OneBuild.{BuildStops, BuildTold, OneBuild, ScanStops, ScanTold};
ghost use Rattle.site_program.specs.Stages.{stage};

use crate::line::write_reply;
use crate::status::{Status, Stop, status_of};
use out_tree::OutTree;
use page_render::PageMeaning;
use read_record::{Renderer, Tally};
use site_base::{ByteSink, Memory};
use site_session::{Crew, Rebuilt, Reply, Session};
use site_words::Options;
use source_tree::SourceTree;
use std::alloc::Global;
use std::sync::Wait;
use std::thread::Threads;

// Rendered one item after another.
pub(crate) fn build_one_by_one<
    S: SourceTree,
    O: OutTree,
    K: ByteSink,
    R: Renderer<Meaning = PageMeaning>,
>(
    alloc: Global,
    options: Options,
    moment: i64,
    source: &mut S,
    out: &mut O,
    sink: &mut K,
    renderer: &R,
    tally: &mut Tally,
) -> Status
    requires { is_moment moment ≡ true }
    ensures { let at = stage S.files S.failures O.contents O.calls O.failures K.taken K.failures in
        OneBuild (start options.settings moment) options.why (at source.old out.old tally.old sink.old) (at source.new out.new tally.new sink.new) result }
{
    let mut session = Session::for_one_build(alloc, options.settings, moment);
    let scanned = match tell_scan(alloc, options.why, &mut session, source, sink) {
        Ok(scanned) => scanned,
        Err(stop) => return stop.status(),
    };
    match scanned {
        Reply::Scanned(_) => {}
        other => return status_of(other),
    }
    let rebuilt = session.build_once(alloc, out, renderer, tally);
    match tell_build(alloc, options.why, rebuilt, sink) {
        Ok(reply) => status_of(reply),
        Err(stop) => stop.status(),
    }
}

/// Builds once by a crew, and answers its status. The session ends with its build, so nobody uses what would be kept of it: one job keeps nothing.
pub(crate) fn build<
    H: Threads + Wait + Sync,
    S: SourceTree,
    O: OutTree,
    K: ByteSink,
    R: Renderer<Meaning = PageMeaning> + Sync,
>(
    alloc: Global,
    options: Options,
    moment: i64,
    source: &mut S,
    out: &mut O,
    sink: &mut K,
    crew: &Crew<'_, H, R>,
    tally: &mut Tally,
) -> Status
    requires moment { is_moment moment ≡ true }
    requires jobs { (1 ≤ crew.now.jobs) × (crew.now.jobs ≤ 64) }
    ensures { let at = stage S.files S.failures O.contents O.calls O.failures K.taken K.failures in
        OneBuild (start options.settings moment) options.why (at source.old out.old tally.old sink.old) (at source.new out.new tally.new sink.new) result }
{
    if crew.jobs == 1 {
        build_one_by_one(
            alloc,
            options,
            moment,
            source,
            out,
            sink,
            crew.renderer,
            tally,
        )
    } else {
        build_by_crew(alloc, options, moment, source, out, sink, crew, tally)
    }
}

// Rendered by the threads of a crew.
fn build_by_crew<
    H: Threads + Wait + Sync,
    S: SourceTree,
    O: OutTree,
    K: ByteSink,
    R: Renderer<Meaning = PageMeaning> + Sync,
>(
    alloc: Global,
    options: Options,
    moment: i64,
    source: &mut S,
    out: &mut O,
    sink: &mut K,
    crew: &Crew<'_, H, R>,
    tally: &mut Tally,
) -> Status
    requires moment { is_moment moment ≡ true }
    requires jobs { (1 ≤ crew.now.jobs) × (crew.now.jobs ≤ 64) }
    ensures { let at = stage S.files S.failures O.contents O.calls O.failures K.taken K.failures in
        OneBuild (start options.settings moment) options.why (at source.old out.old tally.old sink.old) (at source.new out.new tally.new sink.new) result }
{
    let mut session = Session::for_one_build(alloc, options.settings, moment);
    let scanned = match tell_scan(alloc, options.why, &mut session, source, sink) {
        Ok(scanned) => scanned,
        Err(stop) => return stop.status(),
    };
    match scanned {
        Reply::Scanned(_) => {}
        other => return status_of(other),
    }
    let rebuilt = session.rebuild(alloc, crew.rt, crew.jobs, out, crew.renderer, tally);
    match tell_build(alloc, options.why, rebuilt, sink) {
        Ok(reply) => status_of(reply),
        Err(stop) => stop.status(),
    }
}

// Scans the source, as the first line of a session, and tells the reply.
fn tell_scan<S: SourceTree, K: ByteSink>(
    alloc: Global,
    why: bool,
    session: &mut Session,
    source: &mut S,
    sink: &mut K,
) -> Result<Reply, Stop>
    ensures told { MatchResult result
        (λ reply. ScanTold why session.old session.new (source_seen S.files S.failures source.old) (source_seen S.files S.failures source.new) (K.taken sink.old) (K.taken sink.new) reply)
        (λ stop. ScanStops (stop ≡ Stop.Memory) why session.old (source_seen S.files S.failures source.old) (source_seen S.files S.failures source.new) (K.taken sink.old) (K.taken sink.new)) }
    ensures later { K.failures sink.old ≤ K.failures sink.new }
    ensures cause { result ≡ Err Stop.Sink → Rose (K.failures sink.old) (K.failures sink.new) }
{
    let reply = match session.answer_scan(alloc, 1, source) {
        Ok(reply) => reply,
        Err(Memory) => return Err(Stop::Memory),
    };
    match write_reply(alloc, why, &reply, sink) {
        Ok(()) => Ok(reply),
        Err(stop) => Err(stop),
    }
}

// Tells how a build ended.
fn tell_build<K: ByteSink>(
    alloc: Global,
    why: bool,
    rebuilt: Result<Rebuilt, Memory>,
    sink: &mut K,
) -> Result<Reply, Stop>
    ensures told { MatchResult result
        (λ reply. BuildTold why rebuilt (K.taken sink.old) (K.taken sink.new) reply)
        (λ stop. BuildStops (stop ≡ Stop.Memory) why rebuilt (K.taken sink.old) (K.taken sink.new)) }
    ensures later { K.failures sink.old ≤ K.failures sink.new }
    ensures cause { result ≡ Err Stop.Sink → Rose (K.failures sink.old) (K.failures sink.new) }
{
    let reply = match rebuilt {
        Ok(rebuilt) => Reply::of_build(rebuilt),
        Err(Memory) => return Err(Stop::Memory),
    };
    match write_reply(alloc, why, &reply, sink) {
        Ok(()) => Ok(reply),
        Err(stop) => Err(stop),
    }
}
