// Runs over ends in memory that fail at calls of which each row has the numbers. A real folder fails at no call that a row could name.
use crate::scenario::Scenario;
use crate::seen::{PLAIN, Row, check};

const PAGE: &str = "---\ntitle: Hi\n---\n<h1>{{ page.title }}</h1>\n";

const ONCE_AND_CHECK: &[Row] = &[
    // The source gives no list.
    Row {
        given: Scenario {
            sources: &[("a.txt", "x")],
            outputs: &[("old.html", "old")],
            source_fails: &[1],
            ..PLAIN
        },
        status: 3,
        replies: "scan-fault\n",
        outputs: &[("old.html", "old")],
    },
    // The source gives no bytes of its second file.
    Row {
        given: Scenario {
            sources: &[("a.txt", "x"), ("b.txt", "y")],
            source_fails: &[3],
            ..PLAIN
        },
        status: 3,
        replies: "scan-fault\n",
        outputs: &[],
    },
    // The output gives no list.
    Row {
        given: Scenario {
            sources: &[("a.txt", "x")],
            outputs: &[("old.html", "old")],
            output_fails: &[1],
            ..PLAIN
        },
        status: 4,
        replies: "scanned 1\nout-fault 0\n",
        outputs: &[("old.html", "old")],
    },
    // A write fails: the path is named, and the other file is right.
    Row {
        given: Scenario {
            sources: &[("p.html", "p"), ("q.html", "q")],
            output_fails: &[2],
            ..PLAIN
        },
        status: 4,
        replies: "scanned 2\nout-fault 1\nmarked p.html\n",
        outputs: &[("q.html", "q")],
    },
    // A write over a file fails: the file is left as it was, and not taken away.
    Row {
        given: Scenario {
            sources: &[("p.html", "new"), ("q.html", "q")],
            outputs: &[("p.html", "old")],
            output_fails: &[2],
            ..PLAIN
        },
        status: 4,
        replies: "scanned 2\nout-fault 1\nmarked p.html\n",
        outputs: &[("p.html", "old"), ("q.html", "q")],
    },
    // A removal fails: all else is done all the same.
    Row {
        given: Scenario {
            sources: &[("p.html", "p")],
            outputs: &[("n.html", "n"), ("o.html", "o")],
            output_fails: &[2],
            ..PLAIN
        },
        status: 4,
        replies: "scanned 1\nout-fault 1\nmarked n.html\n",
        outputs: &[("n.html", "n"), ("p.html", "p")],
    },
    // The sink fails at its first call, and at its second.
    Row {
        given: Scenario {
            sources: &[("a.txt", "x")],
            sink_fails: &[1],
            ..PLAIN
        },
        status: 6,
        replies: "",
        outputs: &[],
    },
    Row {
        given: Scenario {
            sources: &[("a.txt", "x")],
            sink_fails: &[2],
            ..PLAIN
        },
        status: 6,
        replies: "scanned 1\n",
        outputs: &[("a.txt", "x")],
    },
    // A check: the source gives no list, and the sink fails at its second call.
    Row {
        given: Scenario {
            sources: &[("index.html", PAGE)],
            words: &["check"],
            source_fails: &[1],
            ..PLAIN
        },
        status: 3,
        replies: "scan-fault\n",
        outputs: &[],
    },
    Row {
        given: Scenario {
            sources: &[("index.html", PAGE)],
            words: &["check"],
            sink_fails: &[2],
            ..PLAIN
        },
        status: 6,
        replies: "scanned 1\n",
        outputs: &[],
    },
];

const BUILDS: &[Row] = &[
    // The source gives no list.
    Row {
        given: Scenario {
            words: &["build"],
            script: "never read",
            source_fails: &[1],
            ..PLAIN
        },
        status: 3,
        replies: "scan-fault\n",
        outputs: &[],
    },
    // The output gives no list.
    Row {
        given: Scenario {
            words: &["build"],
            script: "never read",
            output_fails: &[1],
            ..PLAIN
        },
        status: 4,
        replies: "scanned 0\nout-fault 0\n",
        outputs: &[],
    },
    // A write fails: the path is named, and the other file is right.
    Row {
        given: Scenario {
            words: &["build"],
            script: "never read",
            sources: &[("p.html", "p"), ("q.html", "q")],
            output_fails: &[2],
            ..PLAIN
        },
        status: 4,
        replies: "scanned 2\nout-fault 1\nmarked p.html\n",
        outputs: &[("q.html", "q")],
    },
];

const SESSIONS: &[Row] = &[
    // A write fails: its path is marked, and the next build writes it alone.
    Row {
        given: Scenario {
            words: &["session"],
            script: "put p.html 10\n---\n---\np\nput q.html 10\n---\n---\nq\nbuild\nbuild\n",
            output_fails: &[2],
            ..PLAIN
        },
        status: 0,
        replies: "ok\nok\nout-fault 1\nmarked p.html\nbuilt rendered=0 reused=2 written=1 removed=0\n",
        outputs: &[("p.html", "p\n"), ("q.html", "q\n")],
    },
    // The source fails, and the session goes on.
    Row {
        given: Scenario {
            words: &["session"],
            script: "scan\nscan\nbuild\nend\n",
            sources: &[("a.txt", "x")],
            source_fails: &[1],
            ..PLAIN
        },
        status: 0,
        replies: "scan-fault\nscanned 1\nbuilt rendered=0 reused=0 written=1 removed=0\n",
        outputs: &[("a.txt", "x")],
    },
    // The output gives no list, and then does.
    Row {
        given: Scenario {
            words: &["session"],
            script: "build\nbuild\n",
            outputs: &[("old", "o")],
            output_fails: &[1],
            ..PLAIN
        },
        status: 0,
        replies: "out-fault 0\nbuilt rendered=0 reused=0 written=0 removed=1\n",
        outputs: &[],
    },
    // The input fails inside a body.
    Row {
        given: Scenario {
            words: &["session"],
            script: "put a 1\nxbuild\nput b 9\n123456789build\n",
            input_fails: &[20],
            ..PLAIN
        },
        status: 5,
        replies: "ok\nbuilt rendered=0 reused=0 written=1 removed=0\n",
        outputs: &[("a", "x")],
    },
    // The sink fails at its first write, and at its second, when the build is done already.
    Row {
        given: Scenario {
            words: &["session"],
            script: "put a 1\nxbuild\n",
            sink_fails: &[1],
            ..PLAIN
        },
        status: 6,
        replies: "",
        outputs: &[],
    },
    Row {
        given: Scenario {
            words: &["session"],
            script: "put a 1\nxbuild\nput b 1\ny",
            sink_fails: &[2],
            ..PLAIN
        },
        status: 6,
        replies: "ok\n",
        outputs: &[("a", "x")],
    },
    // A write of a later build fails; then something else is edited.
    Row {
        given: Scenario {
            words: &["session"],
            script: "put a 1\nxput b 1\nybuild\nput a 1\nzbuild\nput b 1\nwbuild\nbuild\n",
            output_fails: &[4],
            ..PLAIN
        },
        status: 0,
        replies: "ok\nok\nbuilt rendered=0 reused=0 written=2 removed=0\nok\nout-fault 1\nmarked a\nok\nbuilt rendered=0 reused=0 written=2 removed=0\nbuilt rendered=0 reused=0 written=0 removed=0\n",
        outputs: &[("a", "z"), ("b", "w")],
    },
    // Both writes fail, and the next build makes good both.
    Row {
        given: Scenario {
            words: &["session"],
            script: "put p.html 10\n---\n---\np\nput q.html 10\n---\n---\nq\nbuild\nbuild\n",
            output_fails: &[2, 3],
            ..PLAIN
        },
        status: 0,
        replies: "ok\nok\nout-fault 2\nmarked p.html\nmarked q.html\nbuilt rendered=0 reused=2 written=2 removed=0\n",
        outputs: &[("p.html", "p\n"), ("q.html", "q\n")],
    },
    // A removal fails, and the next build makes it good.
    Row {
        given: Scenario {
            words: &["session"],
            script: "build\nbuild\n",
            outputs: &[("old.html", "old")],
            output_fails: &[2],
            ..PLAIN
        },
        status: 0,
        replies: "out-fault 1\nmarked old.html\nbuilt rendered=0 reused=0 written=0 removed=1\n",
        outputs: &[],
    },
    // The output gives no list: the page that was rendered is kept, and written by the next build.
    Row {
        given: Scenario {
            words: &["session"],
            script: "put index.html 44\n---\ntitle: Hi\n---\n<h1>{{ page.title }}</h1>\nbuild\nbuild\n",
            output_fails: &[1],
            ..PLAIN
        },
        status: 0,
        replies: "ok\nout-fault 0\nbuilt rendered=0 reused=1 written=1 removed=0\n",
        outputs: &[("index.html", "<h1>Hi</h1>\n")],
    },
    // A second scan meets a failing read: the files of the first are held.
    Row {
        given: Scenario {
            words: &["session"],
            script: "scan\nscan\nbuild\n",
            sources: &[("a.txt", "x")],
            source_fails: &[4],
            ..PLAIN
        },
        status: 0,
        replies: "scanned 1\nscan-fault\nbuilt rendered=0 reused=0 written=1 removed=0\n",
        outputs: &[("a.txt", "x")],
    },
];

#[test]
fn once_and_check_end_where_an_end_fails(rt: HostRuntime) {
    check(&rt, rt.alloc(), ONCE_AND_CHECK);
}

#[test]
fn builds_end_where_an_end_fails(rt: HostRuntime) {
    check(&rt, rt.alloc(), BUILDS);
}

#[test]
fn sessions_go_on_or_end_where_an_end_fails(rt: HostRuntime) {
    check(&rt, rt.alloc(), SESSIONS);
}
