// One line of a session, with its reply.
ghost use Rattle.std.specs.Prelude.{◌≡◌, ◌≤◌, ◌++◌, [], take, ℕ, List, Some, Err, IfOk, IfErr};
ghost use Rattle.site_base.specs.Places.{Files};
ghost use Rattle.site_base.specs.Ends.{Rose};
ghost use Rattle.site_script.specs.Line.{IsInTime};
ghost use Rattle.site_session.specs.Standing.{Holds};
ghost use Rattle.site_session.specs.Session.{Given, Answers};
ghost use Rattle.site_session.specs.Replies.{LineLeaves};
ghost use Rattle.site_session.specs.Bytes.{reply_bytes};
ghost use Rattle.site_session.specs.Scenes.{scene};
ghost use Rattle.site_program.specs.Runs.{Stopped};

use crate::status::Stop;
use out_tree::OutTree;
use page_render::PageMeaning;
use read_record::{Renderer, Tally};
use site_base::{ByteSink, Memory};
use site_script::Line;
use site_session::{Crew, Reply, Session};
use source_tree::SourceTree;
use std::alloc::Global;
use std::sync::Wait;
use std::thread::Threads;

// Does a line, and writes what is replied, with the reasons of a build where `why` asks for them.
pub(crate) fn do_line<
    H: Threads + Wait + Sync,
    S: SourceTree,
    O: OutTree,
    K: ByteSink,
    R: Renderer<Meaning = PageMeaning> + Sync,
>(
    alloc: Global,
    why: bool,
    session: &mut Session,
    number: u64,
    line: Line,
    source: &mut S,
    out: &mut O,
    sink: &mut K,
    crew: &Crew<'_, H, R>,
    tally: &mut Tally,
) -> Result<Reply, Stop>
    requires line { IsInTime line }
    requires jobs { (1 ≤ crew.now.jobs) × (crew.now.jobs ≤ 64) }
    ensures answers { (given : Given) → S.files source.old ≡ Some given.source → Holds (O.contents out.old) session.old.belief given.output →
        IfOk result (λ reply. Answers given session.old number line reply session.new) }
    ensures bytes { (before : List ℕ) → K.taken sink.old ≡ Some before → IfOk result (λ reply. K.taken sink.new ≡ Some (before ++ reply_bytes why reply)) }
    ensures belief { (first : Files) → Holds (O.contents out.old) session.old.belief first → Holds (O.contents out.new) session.new.belief first }
    ensures leaves { let at = scene S.files S.failures O.contents O.calls O.failures in
        IfOk result (λ reply. LineLeaves session.old line reply session.new.belief (at source.old out.old tally.old) (at source.new out.new tally.new)) }

    // Where the run is cut short, the line was not done, or done without its whole reply.
    ensures stopped { (given : Given) (before : List ℕ) → given.why ≡ why → S.files source.old ≡ Some given.source →
        Holds (O.contents out.old) session.old.belief given.output → K.taken sink.old ≡ Some before → let at = scene S.files S.failures O.contents O.calls O.failures in
        IfErr result (λ stop. (part : List ℕ) × Stopped (stop ≡ Stop.Memory) given session.old number line (at source.old out.old tally.old) (at source.new out.new tally.new) part
        × (K.taken sink.new ≡ Some (before ++ part)) × (stop ≡ Stop.Memory → part ≡ [])) }

    ensures source_same { S.files source.new ≡ S.files source.old }
    ensures sink_later { K.failures sink.old ≤ K.failures sink.new }
    ensures sink_cause { result ≡ Err Stop.Sink → Rose (K.failures sink.old) (K.failures sink.new) }
{
    let reply = match session.answer(alloc, number, line, source, out, crew, tally) {
        Ok(reply) => reply,
        Err(Memory) => return Err(Stop::Memory),
    };
    match write_reply(alloc, why, &reply, sink) {
        Ok(()) => Ok(reply),
        Err(stop) => Err(stop),
    }
}

/// Writes a reply, with the reasons of a build where `why` asks for them.
pub(crate) fn write_reply<K: ByteSink>(
    alloc: Global,
    why: bool,
    reply: &Reply,
    sink: &mut K,
) -> Result<(), Stop>
    ensures ok { (before : List ℕ) → K.taken sink.old ≡ Some before → IfOk result (λ _. K.taken sink.new ≡ Some (before ++ reply_bytes why reply.now)) }
    ensures err { (before : List ℕ) → K.taken sink.old ≡ Some before →
        IfErr result (λ stop. (k : ℕ) × (K.taken sink.new ≡ Some (before ++ take k (reply_bytes why reply.now))) × (stop ≡ Stop.Memory → k ≡ 0)) }
    ensures later { K.failures sink.old ≤ K.failures sink.new }
    ensures cause { result ≡ Err Stop.Sink → Rose (K.failures sink.old) (K.failures sink.new) }
{
    let Ok(text) = reply.text(alloc, why) else {
        return Err(Stop::Memory);
    };
    match sink.write(text.as_bytes()) {
        Ok(()) => Ok(()),
        Err(_) => Err(Stop::Sink),
    }
}
