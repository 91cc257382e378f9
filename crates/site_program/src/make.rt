// The made-up site, built, edited and built again in memory.
ghost use Rattle.std.specs.Prelude.{◌≡◌, ◌≤◌, ℕ, List, Some, OnOk, IfSome, true};
ghost use Rattle.std.specs.FinMap.{empty};
ghost use Rattle.site_base.specs.Ends.{Rose};
ghost use Rattle.site_generator.specs.Generator.{edited_site, made_site};
ghost use Rattle.site_script.specs.Line.{is_moment};
ghost use Rattle.site_session.specs.Replies.{built_reply};
ghost use Rattle.site_session.specs.Session.{Nothing, event_of, first_fault};
ghost use Rattle.site_session.specs.Standing.{Holds};
ghost use Rattle.site_program.specs.Checks.{EndsAs, Said, verdict_status};
ghost use Rattle.site_program.specs.Makes.{MakeDone, build_bytes, built};
ghost use Rattle.site_program.specs.Stages.{sink_seen};

use crate::line::write_reply;
use crate::status::{Status, status_of};
use out_tree::MemoryOut;
use page_render::PageMeaning;
use read_record::{Renderer, Tally};
use site_base::{ByteSink, Memory, Settings};
use site_generator::{edited_path, edited_post, make_site};
use site_session::{Rebuilt, Reply, Session};
use source_tree::PutError;
use std::alloc::Global;

// Builds the site of a number with so many posts over an output in memory, gives one post another title, builds it again,
// and writes both replies; it ends after a reply that tells a fault.
pub(crate) fn make<K: ByteSink, R: Renderer<Meaning = PageMeaning>>(
    alloc: Global,
    number: u64,
    count: u32,
    moment: i64,
    sink: &mut K,
    renderer: &R,
) -> Status
    requires moment { is_moment moment ≡ true }
    requires low { 1 ≤ count }
    requires high { count ≤ 1000 }
    ensures { MakeDone number count moment (sink_seen K.taken K.failures sink.old) (sink_seen K.taken K.failures sink.new) result }
{
    let Ok(held) = make_site(alloc, number, count) else {
        return Status::Memory;
    };
    let settings = Settings {
        drafts: false,
        future: true,
    };
    let mut session = Session::holding(alloc, held, settings, moment);
    let mut out = MemoryOut::new(alloc, Vec::new(alloc), Vec::new(alloc));
    match tell_build(alloc, &mut session, &mut out, sink, renderer) {
        Status::Done => {}
        other => return other,
    }
    match edit(alloc, &mut session, number, count) {
        Ok(()) => tell_build(alloc, &mut session, &mut out, sink, renderer),
        Err(Memory) => Status::Memory,
    }
}

// Builds what the session holds, and writes the reply.
fn tell_build<K: ByteSink, R: Renderer<Meaning = PageMeaning>>(
    alloc: Global,
    session: &mut Session,
    out: &mut MemoryOut,
    sink: &mut K,
    renderer: &R,
) -> Status
    requires { Holds (Some out.old.files) session.old.belief empty }
    ensures ends { EndsAs (verdict_status (first_fault session.old)) result }
    ensures new { result ≡ Status.Done → session.new ≡ (built session.old).0 }
    ensures files { session.new.files ≡ session.old.files }
    ensures belief { Holds (Some out.new.files) session.new.belief empty }
    ensures took { (before : List ℕ) → K.taken sink.old ≡ Some before →
        Said (build_bytes session.old) (verdict_status (first_fault session.old)) before (K.taken sink.new) result }
    ensures later { K.failures sink.old ≤ K.failures sink.new }
    ensures sink_fault { result ≡ Status.SinkFault → Rose (K.failures sink.old) (K.failures sink.new) }
{
    let mut tally = Tally::new(alloc);
    let Some(reply) = reply_to(session.rebuild_serial(alloc, out, renderer, &mut tally)) else {
        return Status::Memory;
    };
    match write_reply(alloc, false, &reply, sink) {
        Ok(()) => status_of(reply),
        Err(stop) => stop.status(),
    }
}

// The reply to a build over an output in memory, which fails for want of memory alone.
fn reply_to(rebuilt: Result<Rebuilt, Memory>) -> Option<Reply>
    ensures { IfSome result (λ reply. (built_reply rebuilt ≡ Some reply) × (event_of reply ≡ Nothing)) }
{
    match rebuilt {
        Ok(Rebuilt::Built(report)) => Some(Reply::Built(report)),
        Ok(Rebuilt::Fault(fault)) => Some(Reply::Faulty(fault)),
        _ => None,
    }
}

// Gives one post its other title.
fn edit(alloc: Global, session: &mut Session, number: u64, count: u32) -> Result<(), Memory>
    requires low { 1 ≤ count }
    requires high { count ≤ 1000 }
    requires made { session.old.files ≡ made_site number count }
    ensures { OnOk result (session.new ≡ record session.old { files = edited_site number count }) }
{
    let path = edited_path(alloc, number, count)?;
    match session.put(path, edited_post(alloc)?) {
        Ok(()) => Ok(()),
        Err(PutError::Memory) => Err(Memory),
        // The site takes the edit.
        Err(_) => unreachable!(),
    }
}
