// The check of a site, which does not touch the output.
ghost use Rattle.std.specs.Prelude.{◌≡◌, ◌≤◌, ℕ, List, Some, None, true, false};
ghost use Rattle.site_base.specs.Ends.{Rose};
ghost use Rattle.site_script.specs.Line.{is_moment};
ghost use Rattle.site_session.specs.Bytes.{reply_bytes};
ghost use Rattle.site_session.specs.Session.{first_fault, start};
ghost use Rattle.site_session.specs.declared.reply.Reply.TheVariants.{Scanned};
ghost use Rattle.site_session.specs.Scenes.{source_seen};
ghost use Rattle.site_program.specs.Checks.{CheckDone, EndsAs, Said, SaidBoth, verdict, verdict_status};
ghost use Rattle.site_program.specs.Stages.{sink_seen};
ghost use Rattle.site_program.specs.Runs.{reply_status};

use crate::line::write_reply;
use crate::status::{Status, status_of};
use page_render::PageMeaning;
use read_record::Renderer;
use site_base::{ByteSink, Memory, Settings, SiteFault};
use site_session::{Reply, Session};
use source_tree::{ScanError, SourceTree};
use std::alloc::Global;

// Scans the source and, where that answers a number, tells the first fault of what its files stand for, or that they are clean.
pub(crate) fn scan_and_check<S: SourceTree, K: ByteSink, R: Renderer<Meaning = PageMeaning>>(
    alloc: Global,
    settings: Settings,
    moment: i64,
    source: &mut S,
    sink: &mut K,
    renderer: &R,
) -> Status
    requires { is_moment moment ≡ true }
    ensures { CheckDone (start settings moment) (source_seen S.files S.failures source.old) (source_seen S.files S.failures source.new) (sink_seen K.taken K.failures sink.old) (sink_seen K.taken K.failures sink.new) result }
{
    let mut session = Session::open(alloc, settings, moment);
    match session.scan(alloc, source) {
        Ok(count) => check_held(alloc, &session, count, sink, renderer),
        Err(ScanError::Failed) => tell(alloc, Reply::ScanFailed, sink),
        Err(ScanError::Limit(fault)) => tell(alloc, Reply::Faulty(fault), sink),
        Err(ScanError::Memory) => Status::Memory,
    }
}

// Tells how many files are held, and the verdict on them.
fn check_held<K: ByteSink, R: Renderer<Meaning = PageMeaning>>(
    alloc: Global,
    session: &Session,
    count: u32,
    sink: &mut K,
    renderer: &R,
) -> Status
    ensures ends { EndsAs (verdict_status (first_fault session.now)) result }
    ensures took { (before : List ℕ) → K.taken sink.old ≡ Some before →
        SaidBoth (reply_bytes false (Scanned count)) (verdict (first_fault session.now)) (verdict_status (first_fault session.now)) before (K.taken sink.new) result }
    ensures sink_fault { result ≡ Status.SinkFault → Rose (K.failures sink.old) (K.failures sink.new) }
{
    match write_reply(alloc, false, &Reply::Scanned(count), sink) {
        Ok(()) => judge_held(alloc, session, sink, renderer),
        Err(stop) => stop.status(),
    }
}

// Tells the first fault of what is held, or that it is clean.
fn judge_held<K: ByteSink, R: Renderer<Meaning = PageMeaning>>(
    alloc: Global,
    session: &Session,
    sink: &mut K,
    renderer: &R,
) -> Status
    ensures ends { EndsAs (verdict_status (first_fault session.now)) result }
    ensures took { (before : List ℕ) → K.taken sink.old ≡ Some before →
        Said (verdict (first_fault session.now)) (verdict_status (first_fault session.now)) before (K.taken sink.new) result }
    ensures later { K.failures sink.old ≤ K.failures sink.new }
    ensures sink_fault { result ≡ Status.SinkFault → Rose (K.failures sink.old) (K.failures sink.new) }
{
    match session.first_fault(alloc, renderer) {
        Ok(fault) => tell_verdict(alloc, fault, sink),
        Err(Memory) => Status::Memory,
    }
}

fn tell_verdict<K: ByteSink>(alloc: Global, fault: Option<SiteFault>, sink: &mut K) -> Status
    ensures ends { EndsAs (verdict_status fault) result }
    ensures took { (before : List ℕ) → K.taken sink.old ≡ Some before → Said (verdict fault) (verdict_status fault) before (K.taken sink.new) result }
    ensures later { K.failures sink.old ≤ K.failures sink.new }
    ensures sink_fault { result ≡ Status.SinkFault → Rose (K.failures sink.old) (K.failures sink.new) }
{
    match fault {
        Some(fault) => tell(alloc, Reply::Faulty(fault), sink),
        None => tell_clean(sink),
    }
}

// Tells a reply, with which the check ends.
fn tell<K: ByteSink>(alloc: Global, reply: Reply, sink: &mut K) -> Status
    ensures ends { EndsAs (reply_status reply) result }
    ensures took { (before : List ℕ) → K.taken sink.old ≡ Some before → Said (reply_bytes false reply) (reply_status reply) before (K.taken sink.new) result }
    ensures later { K.failures sink.old ≤ K.failures sink.new }
    ensures sink_fault { result ≡ Status.SinkFault → Rose (K.failures sink.old) (K.failures sink.new) }
{
    match write_reply(alloc, false, &reply, sink) {
        Ok(()) => status_of(reply),
        Err(stop) => stop.status(),
    }
}

fn tell_clean<K: ByteSink>(sink: &mut K) -> Status
    ensures ends { EndsAs Status.Done result }
    ensures took { (before : List ℕ) → K.taken sink.old ≡ Some before → Said (verdict None) Status.Done before (K.taken sink.new) result }
    ensures later { K.failures sink.old ≤ K.failures sink.new }
    ensures sink_fault { result ≡ Status.SinkFault → Rose (K.failures sink.old) (K.failures sink.new) }
{
    match sink.write(b"clean\n") {
        Ok(()) => Status::Done,
        Err(_) => Status::SinkFault,
    }
}
