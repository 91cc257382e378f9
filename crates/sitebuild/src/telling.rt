// What is said to a person.
ghost use Rattle.std.specs.Prelude.{◌≡◌, IfOk};
ghost use Rattle.std.specs.String.{string_bytes};
ghost use Rattle.site_sentences.specs.Questions.{asked};
ghost use Rattle.sitebuild.specs.Telling.{StatusSays, WordsSay, failure_of_folder, output_failure};

use folder_walk::Obstacle;
use front_yaml::{Front, split_front};
use site_base::{FaultKind, SiteFault, Words};
use site_program::Status;
use site_sentences::{
    Failure, answer, asked, failure_line, failure_sentence, fault_line, obstacle_line, script_line,
    usage_lines,
};
use site_words::UsageKind;
use source_tree::{DiskSource, SourceTree};
use std::alloc::{AllocError, Global};
use std::process::ExitCode;

/// The exit code of a run with these words, which an obstacle in a folder may have cut short. Standard error is told how it ended, unless it was done, or answers what the words ask; nothing comes of it where
/// standard error fails.
pub(crate) fn end(
    rt: &HostRuntime,
    words: &Words,
    status: Status,
    obstacle: Option<&Obstacle>,
) -> ExitCode {
    let _ = match end_text(rt.alloc(), words, &status, obstacle) {
        Ok(text) => rt.eprint(text),
        Err(_) => rt.eprintln(failure_sentence(Failure::Memory)),
    };
    ExitCode::from(status.number())
}

/// The status for a person, who looks into the file: the line of a fault in a template is counted in its body, and here it is that of its
/// file. Where the file cannot be read, the line stays.
pub(crate) fn in_file(
    alloc: Global,
    source: &mut DiskSource<HostRuntime>,
    status: Status,
) -> Status {
    match status {
        Status::Site(fault) => Status::Site(SiteFault {
            line: file_line(alloc, source, &fault),
            ..fault
        }),
        other => other,
    }
}

fn file_line(alloc: Global, source: &mut DiskSource<HostRuntime>, fault: &SiteFault) -> u64 {
    if !is_in_body(fault) {
        return fault.line;
    }
    match source.read(alloc, &fault.path) {
        Ok(bytes) => fault.line.saturating_add(lines_before_body(&bytes)),
        Err(_) => fault.line,
    }
}

// Whether the line of a fault is counted in the body of its file: from F10 on, but for includes, which are templates from their first line.
fn is_in_body(fault: &SiteFault) -> bool {
    fault.line != 0
        && fault.kind.number() >= FaultKind::LiquidSyntax.number()
        && !fault.path.text().starts_with("_includes/")
}

fn lines_before_body(file: &[u8]) -> u64 {
    match split_front(file) {
        Front::Page { body, .. } => line_ends(&file[..body]),
        Front::Open | Front::Plain => 0,
    }
}

fn line_ends(text: &[u8]) -> u64 {
    text.iter().filter(|byte| **byte == b'\n').count() as u64
}

// What is said at the end: of an obstacle, where it is known, and else of the status.
fn end_text(
    alloc: Global,
    words: &Words,
    status: &Status,
    obstacle: Option<&Obstacle>,
) -> Result<String, AllocError> {
    match (failure_of_folder(status), obstacle) {
        (Some(failure), Some(obstacle)) => {
            obstacle_line(alloc, failure, obstacle.place(), obstacle.reason())
        }
        _ => status_text(alloc, words, status),
    }
}

// The failure of a folder that a status tells.
fn failure_of_folder(status: &Status) -> Option<Failure>
    ensures { result ≡ failure_of_folder status.now }
{
    match status {
        Status::SourceFault => Some(Failure::Source),
        Status::OutFault(count) => Some(output_failure(*count)),
        _ => None,
    }
}

// What is said of a status: nothing where all is done.
fn status_text(alloc: Global, words: &Words, status: &Status) -> Result<String, AllocError>
    ensures { IfOk result (λ text. StatusSays words.now status.now (string_bytes text)) }
{
    match status {
        Status::Done => Ok(String::new(alloc)),
        Status::Site(fault) => fault_line(alloc, fault),
        Status::Usage(kind) => usage_text(alloc, words, *kind),
        Status::SourceFault => failure_line(alloc, Failure::Source),
        Status::OutFault(count) => failure_line(alloc, output_failure(*count)),
        Status::InputFault => failure_line(alloc, Failure::Input),
        Status::SinkFault => failure_line(alloc, Failure::Sink),
        Status::Script(number, kind) => script_line(alloc, *number, *kind),
        Status::Memory => failure_line(alloc, Failure::Memory),
    }
}

// What is said of words that give no command: the answer, where they ask something, and else what is wrong with them.
fn usage_text(alloc: Global, words: &Words, kind: UsageKind) -> Result<String, AllocError>
    ensures { IfOk result (λ text. WordsSay (asked words.now) kind (string_bytes text)) }
{
    match asked(words) {
        Some(question) => answer(alloc, question),
        None => usage_lines(alloc, kind),
    }
}

// How an output failed: at so many paths, or, where that is 0, by giving no list of its files.
fn output_failure(count: u64) -> Failure
    ensures { result ≡ output_failure count }
{
    if count == 0 {
        Failure::List
    } else {
        Failure::Writes(count)
    }
}
