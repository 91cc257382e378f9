// Builds and sessions.
ghost use Rattle.std.specs.Prelude.{◌≡◌, ◌≤◌, ℕ, List, Some, Ok, Err, true, IfNone, IfSome};
ghost use Rattle.site_base.specs.Ends.{Rose};
ghost use Rattle.site_base.specs.Places.{Files};
ghost use Rattle.site_script.specs.Line.{IsInTime, is_moment};
ghost use Rattle.site_session.specs.Standing.{Holds};
ghost use Rattle.site_session.specs.Session.{Given, start};
ghost use Rattle.site_words.specs.declared.faults.UsageKind.{UsageKind};
ghost use Rattle.site_words.specs.declared.orders.Options.{Options};
ghost use Rattle.site_words.specs.declared.orders.Order.TheVariants as order;
ghost use Rattle.site_program.specs.Once.{jobs_order};
ghost use Rattle.site_program.specs.OneBuild.{OneBuild};
ghost use Rattle.site_program.specs.Refused.{IsUsage};
ghost use Rattle.site_program.specs.Sessions.{OneSession, SessionRun, EndsAt, GoesOn, EndsSession, bad_status};
ghost use Rattle.site_program.specs.Stages.{Blames, BlamesInput, input_seen, stage};

use crate::line::do_line;
use crate::one_build::build;
use crate::status::Status;
use crate::usage::{TopCall, read_order, tell_usage};
use out_tree::OutTree;
use page_render::PageMeaning;
use read_record::{Renderer, Tally};
use site_base::{ByteSink, ByteSource, Words};
use site_script::{Line, ScriptReader, next_line};
use site_session::{Crew, Reply, Session};
use site_words::{Options, Order, WordsError};
use source_tree::SourceTree;
use std::alloc::Global;
use std::sync::Wait;
use std::thread::Threads;

/// The commands `session`, which does the lines of the script on the input, and `build`, which is the script `scan`,
/// `build` and leaves the build out where the scan answers no number. Each build renders by as many threads as the words order,
/// and answers what one thread would.
///
/// It waits for its input, which may have no end, and for the threads that it started.
pub fn run_jobs<
    H: Threads + Wait + Sync,
    S: SourceTree,
    O: OutTree,
    I: ByteSource,
    K: ByteSink,
    R: Renderer<Meaning = PageMeaning> + Sync,
>(
    rt: &H,
    alloc: Global,
    words: &Words,
    moment: i64,
    source: &mut S,
    out: &mut O,
    input: &mut I,
    sink: &mut K,
    renderer: &R,
    tally: &mut Tally,
) -> Status
    // A session does the lines of its script one after another, and takes no byte behind a line before it is done.
    ensures session { (options : Options) → jobs_order words.now moment ≡ Ok (order.Session options) → let at = stage S.files S.failures O.contents O.calls O.failures K.taken K.failures in let read = input_seen I.left I.failures in
        OneSession (start options.settings moment) options.why (at source.old out.old tally.old sink.old) (at source.new out.new tally.new sink.new) (read input.old) (read input.new) result }
    // A build is one from nothing, and leaves the input alone.
    ensures build { (options : Options) → jobs_order words.now moment ≡ Ok (order.Build options) → let at = stage S.files S.failures O.contents O.calls O.failures K.taken K.failures in
        OneBuild (start options.settings moment) options.why (at source.old out.old tally.old sink.old) (at source.new out.new tally.new sink.new) result × (input.new ≡ input.old) }
    // The words alone decide about Usage.
    ensures usage { (kind : UsageKind) → jobs_order words.now moment ≡ Err kind → let at = stage S.files S.failures O.contents O.calls O.failures K.taken K.failures in
        IsUsage kind (at source.old out.old tally.old sink.old) (at source.new out.new tally.new sink.new) result × (input.new ≡ input.old) }
    ensures only_usage { (kind : UsageKind) → result ≡ Status.Usage kind → jobs_order words.now moment ≡ Err kind }
    // Whatever the words and the ends tell, a failure is answered only where that end failed in this call.
    ensures blames { let at = stage S.files S.failures O.contents O.calls O.failures K.taken K.failures in let read = input_seen I.left I.failures in
        Blames (at source.old out.old tally.old sink.old) (at source.new out.new tally.new sink.new) result × BlamesInput (read input.old) (read input.new) result }
{
    match read_order(alloc, words, TopCall::Jobs, moment) {
        Ok(order) => match order {
            Order::Build(options) => {
                let crew = Crew {
                    rt,
                    jobs: options.jobs,
                    renderer,
                };
                build(alloc, options, moment, source, out, sink, &crew, tally)
            }
            Order::Session(options) => {
                let crew = Crew {
                    rt,
                    jobs: options.jobs,
                    renderer,
                };
                run_session(
                    alloc, options, moment, source, out, input, sink, &crew, tally,
                )
            }
            _ => unreachable!(),
        },
        Err(WordsError::Usage(kind)) => tell_usage(alloc, kind, sink),
        Err(WordsError::Memory) => Status::Memory,
    }
}

// The script on the input.
fn run_session<
    H: Threads + Wait + Sync,
    S: SourceTree,
    O: OutTree,
    I: ByteSource,
    K: ByteSink,
    R: Renderer<Meaning = PageMeaning> + Sync,
>(
    alloc: Global,
    options: Options,
    moment: i64,
    source: &mut S,
    out: &mut O,
    input: &mut I,
    sink: &mut K,
    crew: &Crew<'_, H, R>,
    tally: &mut Tally,
) -> Status
    requires moment { is_moment moment ≡ true }
    requires jobs { (1 ≤ crew.now.jobs) × (crew.now.jobs ≤ 64) }
    ensures { let at = stage S.files S.failures O.contents O.calls O.failures K.taken K.failures in let read = input_seen I.left I.failures in
        OneSession (start options.settings moment) options.why (at source.old out.old tally.old sink.old) (at source.new out.new tally.new sink.new) (read input.old) (read input.new) result }
{
    let mut session = Session::open(alloc, options.settings, moment);
    do_lines(
        alloc,
        options.why,
        &mut session,
        source,
        out,
        input,
        sink,
        crew,
        tally,
    )
}

// The lines on the input, one after another.
fn do_lines<
    H: Threads + Wait + Sync,
    S: SourceTree,
    O: OutTree,
    I: ByteSource,
    K: ByteSink,
    R: Renderer<Meaning = PageMeaning> + Sync,
>(
    alloc: Global,
    why: bool,
    session: &mut Session,
    source: &mut S,
    out: &mut O,
    input: &mut I,
    sink: &mut K,
    crew: &Crew<'_, H, R>,
    tally: &mut Tally,
) -> Status
    requires { (1 ≤ crew.now.jobs) × (crew.now.jobs ≤ 64) }
    ensures run { (given : Given) (text before : List ℕ) → given.why ≡ why → S.files source.old ≡ Some given.source → Holds (O.contents out.old) session.old.belief given.output →
        I.left input.old ≡ Some text → K.taken sink.old ≡ Some before → let at = stage S.files S.failures O.contents O.calls O.failures K.taken K.failures in
        SessionRun given session.old text before (I.left input.new) (at source.old out.old tally.old sink.old) (at source.new out.new tally.new sink.new) result }
    ensures status { EndsSession result }
    ensures input_fault { result ≡ Status.InputFault → Rose (I.failures input.old) (I.failures input.new) }
    ensures input_steady { (result ≡ Status.InputFault → ⊥) → I.failures input.new ≡ I.failures input.old }
    ensures sink_fault { result ≡ Status.SinkFault → Rose (K.failures sink.old) (K.failures sink.new) }
{
    let mut reader = ScriptReader::new();
    'lines: for _ in crew.rt.forever() {
        let line = next_line(alloc, &mut reader, input);
        match turn(
            alloc,
            why,
            session,
            reader.number(),
            line,
            source,
            out,
            sink,
            crew,
            tally,
        ) {
            Some(status) => return status,
            None => {}
        }
    }
    unreachable!()
}

// Does what a line says; `None` where the session goes on.
fn turn<
    H: Threads + Wait + Sync,
    S: SourceTree,
    O: OutTree,
    K: ByteSink,
    R: Renderer<Meaning = PageMeaning> + Sync,
>(
    alloc: Global,
    why: bool,
    session: &mut Session,
    number: u64,
    line: Line,
    source: &mut S,
    out: &mut O,
    sink: &mut K,
    crew: &Crew<'_, H, R>,
    tally: &mut Tally,
) -> Option<Status>
    requires line { IsInTime line }
    requires jobs { (1 ≤ crew.now.jobs) × (crew.now.jobs ≤ 64) }
    ensures next { (given : Given) (before : List ℕ) → given.why ≡ why → S.files source.old ≡ Some given.source → Holds (O.contents out.old) session.old.belief given.output →
        K.taken sink.old ≡ Some before → let at = stage S.files S.failures O.contents O.calls O.failures K.taken K.failures in
        IfNone result (GoesOn given session.old number line before session.new (at source.old out.old tally.old sink.old) (at source.new out.new tally.new sink.new)) }
    ensures ends { (given : Given) (before : List ℕ) → given.why ≡ why → S.files source.old ≡ Some given.source → Holds (O.contents out.old) session.old.belief given.output →
        K.taken sink.old ≡ Some before → let at = stage S.files S.failures O.contents O.calls O.failures K.taken K.failures in
        IfSome result (λ status. EndsAt given session.old number line before session.new (at source.old out.old tally.old sink.old) (at source.new out.new tally.new sink.new) status) }
    ensures belief { (first : Files) → Holds (O.contents out.old) session.old.belief first → Holds (O.contents out.new) session.new.belief first }
    ensures status { IfSome result (λ status. EndsSession status) }
    ensures input { result ≡ Some Status.InputFault → line ≡ Line.Failed }
    ensures failed { line ≡ Line.Failed → result ≡ Some Status.InputFault }
    ensures source_same { S.files source.new ≡ S.files source.old }
    ensures sink_later { K.failures sink.old ≤ K.failures sink.new }
    ensures sink_cause { result ≡ Some Status.SinkFault → Rose (K.failures sink.old) (K.failures sink.new) }
{
    match line {
        Line::End => Some(Status::Done),
        Line::Eof => Some(Status::Done),
        Line::Failed => Some(Status::InputFault),
        Line::Memory => Some(Status::Memory),
        line => match do_line(
            alloc, why, session, number, line, source, out, sink, crew, tally,
        ) {
            Ok(reply) => bad_status(reply),
            Err(stop) => Some(stop.status()),
        },
    }
}

// A bad line ends the session.
fn bad_status(reply: Reply) -> Option<Status>
    ensures { result ≡ bad_status reply }
{
    match reply {
        Reply::BadLine(number, kind) => Some(Status::Script(number, kind)),
        _ => None,
    }
}
