// What is seen of a run.
use crate::scenario::{RunEnd, Scenario};
use crate::scenario_error::ScenarioError;
use std::alloc::Global;
use std::process::Abort;
use std::sync::Wait;
use std::thread::Threads;

// 2024-01-01T00:00:00Z, in seconds from the beginning of 1970.
pub(crate) const NEW_YEAR: i64 = 1_704_067_200;

// Paths with texts.
pub(crate) type Files = &'static [(&'static str, &'static str)];

// The word `once`, no files, and ends that do not fail.
pub(crate) const PLAIN: Scenario<'static> = Scenario {
    words: &["once"],
    script: "",
    sources: &[],
    outputs: &[],
    source_fails: &[],
    output_fails: &[],
    input_fails: &[],
    sink_fails: &[],
};

// What is given for a run at the new year, and what comes of it: the status number, the replies, and the output's files.
pub(crate) struct Row {
    pub(crate) given: Scenario<'static>,
    pub(crate) status: u8,
    pub(crate) replies: &'static str,
    pub(crate) outputs: Files,
}

// Whether the words ask for a command that takes its time: a build, or a session.
fn is_for_jobs(words: &[&str]) -> bool {
    match words.first() {
        Some(word) => *word == "build" || *word == "session",
        None => false,
    }
}

// Runs what is given with the top call that knows its command.
fn run(
    rt: &(impl Threads + Wait + Sync),
    alloc: Global,
    given: &Scenario<'_>,
) -> Result<RunEnd, ScenarioError> {
    if is_for_jobs(given.words) {
        given.run_jobs(rt, alloc, NEW_YEAR)
    } else {
        given.run(alloc, NEW_YEAR)
    }
}

// Whether the output has exactly these files.
pub(crate) fn has_outputs(alloc: Global, outcome: &RunEnd, outputs: &[(&str, &str)]) -> bool {
    match outcome.ends.have(alloc, outputs) {
        Ok(have) => have,
        Err(_) => false,
    }
}

// Whether the replies are these.
pub(crate) fn replies_are(outcome: &RunEnd, replies: &str) -> bool {
    outcome.ends.sink.bytes() == replies.as_bytes()
}

fn is_seen(alloc: Global, outcome: &RunEnd, row: &Row) -> bool {
    outcome.status.number() == row.status
        && replies_are(outcome, row.replies)
        && has_outputs(alloc, outcome, row.outputs)
}

fn comes_out(rt: &(impl Threads + Wait + Sync), alloc: Global, row: &Row) -> bool {
    match run(rt, alloc, &row.given) {
        Ok(outcome) => is_seen(alloc, &outcome, row),
        Err(_) => false,
    }
}

// Runs what is given, and looks at what comes of it.
pub(crate) fn check(rt: &(impl Abort + Threads + Wait + Sync), alloc: Global, rows: &[Row]) {
    for row in rows {
        assert!(rt; comes_out(rt, alloc, row), "not with {}", row.replies);
    }
}
