// The top calls: each command once where it is done, what they answer to words and moments that the program does not hand them, and which calls a
// session makes of its ends.
use crate::scenario::{RunEnd, Scenario};
use crate::seen::{NEW_YEAR, PLAIN, Row, check, replies_are};
use site_program::Status;
use site_words::UsageKind;
use std::alloc::Global;
use std::sync::Wait;
use std::thread::Threads;

const PAGE: &str = "---\ntitle: Hi\n---\n<h1>{{ page.title }}</h1>\n";

// Each command, where nothing is in its way.
const DONE: &[Row] = &[
    Row {
        given: Scenario {
            sources: &[("a.txt", "x"), ("index.html", PAGE)],
            outputs: &[(".git/HEAD", "ref"), ("old.html", "old")],
            ..PLAIN
        },
        status: 0,
        replies: "scanned 2\nbuilt rendered=1 reused=0 written=2 removed=1\n",
        outputs: &[
            (".git/HEAD", "ref"),
            ("a.txt", "x"),
            ("index.html", "<h1>Hi</h1>\n"),
        ],
    },
    Row {
        given: Scenario {
            words: &["check"],
            sources: &[("index.html", PAGE)],
            outputs: &[("old.html", "old")],
            ..PLAIN
        },
        status: 0,
        replies: "scanned 1\nclean\n",
        outputs: &[("old.html", "old")],
    },
    Row {
        given: Scenario {
            words: &["make", "1", "3"],
            ..PLAIN
        },
        status: 0,
        replies: "built rendered=4 reused=0 written=4 removed=0\nbuilt rendered=2 reused=2 written=2 removed=0\n",
        outputs: &[],
    },
    Row {
        given: Scenario {
            words: &["build", "--why"],
            script: "never read",
            sources: &[("index.html", PAGE)],
            ..PLAIN
        },
        status: 0,
        replies: "scanned 1\nwhy index.html new\nbuilt rendered=1 reused=0 written=1 removed=0\n",
        outputs: &[("index.html", "<h1>Hi</h1>\n")],
    },
    Row {
        given: Scenario {
            words: &["session"],
            script: "put b 1\nyscan\nbuild\ndelete b\nend\n",
            sources: &[("a.txt", "x")],
            ..PLAIN
        },
        status: 0,
        replies: "ok\nscanned 1\nbuilt rendered=0 reused=0 written=1 removed=0\nabsent\n",
        outputs: &[("a.txt", "x")],
    },
];

#[test]
fn each_command_is_done(rt: HostRuntime) {
    check(&rt, rt.alloc(), DONE);
}

// Words and a moment, and what is wrong with them. `build` is a command of the other call, and the words are looked at before the moment.
const WRONG: &[(&[&str], i64, UsageKind, &str)] = &[
    (&["build"], NEW_YEAR, UsageKind::Command, "usage 2\n"),
    (
        &["build", "once"],
        NEW_YEAR,
        UsageKind::Command,
        "usage 2\n",
    ),
    (&["once", "--why"], -1, UsageKind::Option, "usage 3\n"),
    (&["make", "1", "2"], -1, UsageKind::Moment, "usage 5\n"),
    (&["once"], -1, UsageKind::Moment, "usage 5\n"),
    (&["check", "--future"], -1, UsageKind::Moment, "usage 5\n"),
    (&["once"], 253_402_214_400, UsageKind::Moment, "usage 5\n"),
];

const SITE: &[(&str, &str)] = &[("a.txt", "x")];

fn is_usage(outcome: &RunEnd, kind: UsageKind) -> bool {
    match &outcome.status {
        Status::Usage(other) => *other == kind && outcome.status.number() == 2,
        _ => false,
    }
}

fn is_refused(alloc: Global, words: &[&str], moment: i64, kind: UsageKind, reply: &str) -> bool {
    let given = Scenario {
        words,
        ..Scenario::once(SITE)
    };
    match given.run(alloc, moment) {
        Ok(outcome) => {
            is_usage(&outcome, kind) && replies_are(&outcome, reply) && outcome.ends.out.is_empty()
        }
        Err(_) => false,
    }
}

#[test]
fn words_and_moments_are_refused(rt: HostRuntime) {
    for (words, moment, kind, reply) in WRONG {
        assert!(rt;
            is_refused(rt.alloc(), words, *moment, *kind, reply),
            "no {reply}"
        );
    }
}

fn is_done(alloc: Global, moment: i64) -> bool {
    match Scenario::once(SITE).run(alloc, moment) {
        Ok(outcome) => outcome.status.number() == 0,
        Err(_) => false,
    }
}

#[test]
fn the_first_moment_and_the_last_are_taken(rt: HostRuntime) {
    assert!(rt; is_done(rt.alloc(), 0));
    assert!(rt; is_done(rt.alloc(), 253_402_214_399));
}

fn ends_with(outcome: &RunEnd, status: u8, replies: &str) -> bool {
    outcome.status.number() == status && replies_are(outcome, replies)
}

fn run_ends_with(
    rt: &(impl Threads + Wait + Sync),
    alloc: Global,
    given: &Scenario<'_>,
    status: u8,
    replies: &str,
) -> bool {
    match given.run_jobs(rt, alloc, NEW_YEAR) {
        Ok(outcome) => ends_with(&outcome, status, replies),
        Err(_) => false,
    }
}

// The other top call's command.
#[test]
fn once_is_no_command_for_jobs(rt: HostRuntime) {
    assert!(rt; run_ends_with(&rt, rt.alloc(), &PLAIN, 2, "usage 2\n"));
}

const TWO_BUILDS: &str =
    "put index.html 44\n---\ntitle: Hi\n---\n<h1>{{ page.title }}</h1>\nbuild\nbuild\nend\nbuild\n";

// Whether there were one list and one write, and what follows `end` stays unread.
fn is_called_once(outcome: &RunEnd) -> bool {
    outcome.ends.out.calls() == 2 && outcome.ends.input.len() == 6
}

fn second_build_calls_nobody(rt: &(impl Threads + Wait + Sync), alloc: Global) -> bool {
    match Scenario::session(TWO_BUILDS).run_jobs(rt, alloc, NEW_YEAR) {
        Ok(outcome) => {
            replies_are(
                &outcome,
                "ok\nbuilt rendered=1 reused=0 written=1 removed=0\nbuilt rendered=0 reused=1 written=0 removed=0\n",
            ) && is_called_once(&outcome)
        }
        Err(_) => false,
    }
}

#[test]
fn a_second_build_calls_nobody(rt: HostRuntime) {
    assert!(rt; second_build_calls_nobody(&rt, rt.alloc()));
}
