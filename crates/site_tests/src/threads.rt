// Builds by one thread and by several, with what they render and which calls they make of the output.
use crate::runs::{Ends, FileList};
use site_base::SitePath;
use std::alloc::Global;
use std::sync::Wait;
use std::thread::Threads;

// What is given for a run, and what comes of it: the status number, the replies, and the output's files.
struct Row {
    command: &'static str,
    script: &'static str,
    sources: &'static [(&'static str, &'static str)],
    status: u8,
    replies: &'static str,
    outputs: &'static [(&'static str, &'static str)],
}

fn ends_of(alloc: Global, row: &Row, most_turns: u64) -> Option<Ends> {
    let sources = files(alloc, row.sources)?;
    Ends::new(alloc, sources, row.script, most_turns)
}

fn files(alloc: Global, given: &[(&str, &str)]) -> Option<FileList> {
    let mut files = Vec::new(alloc);
    for (path, text) in given {
        let path = SitePath::read(alloc, path).ok()?;
        let text = text.as_bytes().to_vec(alloc).ok()?;
        files.push((path, text)).ok()?;
    }
    Some(files)
}

// Whether the output has exactly these files.
fn has_just(alloc: Global, ends: &Ends, wanted: &[(&str, &str)]) -> bool {
    for (path, text) in wanted {
        match SitePath::read(alloc, path) {
            Ok(path) if ends.has_output(&path, text) => {}
            _ => return false,
        }
    }
    ends.out.len() == wanted.len()
}

// Whether the row comes out with so many jobs.
fn comes_out<H: Threads + Wait + Sync>(
    rt: &H,
    alloc: Global,
    jobs: &str,
    row: &Row,
    ends: &mut Ends,
) -> bool {
    ends.end_with(rt, alloc, row.command, jobs, row.status, row.replies)
        && has_just(alloc, ends, row.outputs)
}

const JOBS: &[&str] = &["1", "4"];

// A document gets a date, and moves before those that show it.
const MOVED: Row = Row {
    command: "session",
    script: "put _config.yml 35\ncollections:\n  c:\n    output: true\nput _c/1.html 79\n---\n---\n{% for d in site.c %}{% if d.t %}{{ d.content }}{% endif %}{% endfor %}put _c/2.md 16\n---\nt: 1\n---\n*x*put _c/3.html 79\n---\n---\n{% for d in site.c %}{% if d.t %}{{ d.content }}{% endif %}{% endfor %}build\nput _c/2.md 33\n---\nt: 1\ndate: 2020-01-01\n---\n*x*build\nend\n",
    sources: &[],
    status: 0,
    replies: "ok\nok\nok\nok\nbuilt rendered=3 reused=0 written=3 removed=0\nok\nbuilt rendered=2 reused=1 written=1 removed=0\n",
    outputs: &[
        ("c/1.html", "<p><em>x</em></p>\n"),
        ("c/2.html", "<p><em>x</em></p>\n"),
        ("c/3.html", "<p><em>x</em></p>\n"),
    ],
};

// The second build finds nothing to do.
const TWICE: Row = Row {
    command: "session",
    script: "put index.html 44\n---\ntitle: Hi\n---\n<h1>{{ page.title }}</h1>\nbuild\nbuild\nend\n",
    sources: &[],
    status: 0,
    replies: "ok\nbuilt rendered=1 reused=0 written=1 removed=0\nbuilt rendered=0 reused=1 written=0 removed=0\n",
    outputs: &[("index.html", "<h1>Hi</h1>\n")],
};

// Whether the row comes out after so many renders that come to an outcome, and so many calls of the output.
fn renders<H: Threads + Wait + Sync>(
    rt: &H,
    alloc: Global,
    jobs: &str,
    row: &Row,
    outcomes: u64,
    calls: u64,
) -> bool {
    match ends_of(alloc, row, 0) {
        Some(mut ends) => {
            comes_out(rt, alloc, jobs, row, &mut ends)
                && ends.renderer.outcomes() == outcomes
                && ends.out.calls() == calls
        }
        None => false,
    }
}

#[test]
fn renders_what_is_stale_alone(rt: HostRuntime) {
    for jobs in JOBS {
        assert!(rt;
            renders(&rt, rt.alloc(), jobs, &MOVED, 5, 5),
            "not 5 with {jobs} jobs"
        );
        assert!(rt;
            renders(&rt, rt.alloc(), jobs, &TWICE, 1, 2),
            "not 1 with {jobs} jobs"
        );
    }
}

const TWO_PAGES: Row = Row {
    command: "build",
    script: "never read",
    sources: &[("a.html", "---\n---\na"), ("b.html", "---\n---\nb")],
    status: 0,
    replies: "scanned 2\nbuilt rendered=2 reused=0 written=2 removed=0\n",
    outputs: &[("a.html", "a"), ("b.html", "b")],
};

// Whether two jobs build both pages, and the second begins while the first is held.
fn render_together<H: Threads + Wait + Sync>(rt: &H, alloc: Global) -> bool {
    match ends_of(alloc, &TWO_PAGES, 50_000_000) {
        Some(mut ends) => comes_out(rt, alloc, "2", &TWO_PAGES, &mut ends)
            && ends.renderer.has_met(),
        None => false,
    }
}

#[test]
fn two_jobs_render_together(rt: HostRuntime) {
    assert!(rt; render_together(&rt, rt.alloc()));
}
