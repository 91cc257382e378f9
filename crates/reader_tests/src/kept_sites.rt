// One reader that reads a site again and again while files, moment and settings change: what it answers, how many files it says that it read
// anew, and how often it had front matter read.
ghost use Rattle.site_dates.specs.Moment.{IsMoment};

use front_yaml::{YamlError, read_yaml};
use site_base::{Settings, SitePath, Value};
use site_reader::{FrontParser, KeptReader, Site, SiteError};
use source_tree::Held;
use std::alloc::{AllocError, Global};

// Counts what it reads; it answers want of memory where it is to refuse.
#[derive(Drop)]
struct CountingParser {
    calls: u32,
    refuses: bool,
}

impl FrontParser for CountingParser {
    fn read(&mut self, alloc: Global, text: &str) -> Result<Value, YamlError> {
        self.calls = self.calls.saturating_add(1);
        if self.refuses {
            return Err(YamlError::Memory);
        }
        read_yaml(alloc, text)
    }
}

// The beginnings of years.
#[derive(Clone, Copy)]
enum Year {
    Y2024,
    Y2025,
    Y2031,
}

fn moment(year: Year) -> i64
    ensures { IsMoment result }
{
    match year {
        Year::Y2024 => 1_704_067_200,
        Year::Y2025 => 1_735_689_600,
        Year::Y2031 => 1_924_992_000,
    }
}

// A path with a text that is put, or without one, where it is deleted.
type Change = (&'static str, Option<&'static str>);

// What is changed, and when and how the site is read then; the URLs of its items, or its fault; how many files were read anew by the reader's
// word and by the parser's.
#[derive(Clone, Copy)]
struct Step {
    changes: &'static [Change],
    year: Year,
    drafts: bool,
    future: bool,
    refuses: bool,
    want: &'static str,
    parsed: u32,
    calls: u32,
}

const START: Step = Step {
    changes: &[],
    year: Year::Y2024,
    drafts: true,
    future: false,
    refuses: false,
    want: "/2020/a.html /2024/d.html /p ",
    parsed: 0,
    calls: 0,
};

fn change(alloc: Global, held: &mut Held, change: &Change) -> Option<()> {
    let path = SitePath::read(alloc, change.0).ok()?;
    match change.1 {
        Some(text) => held.put(path, text.as_bytes().to_vec(alloc).ok()?).ok(),
        None => { if held.delete(&path) { Some(()) } else { None } }
    }
}

fn urls(alloc: Global, site: &Site) -> Result<String, AllocError> {
    let mut text = String::new(alloc);
    for item in site.items.as_slice() {
        text.push_str(item.url.as_str())?;
        text.push(' ')?;
    }
    Ok(text)
}

fn shown(alloc: Global, read: &Result<Site, SiteError>) -> Result<String, AllocError> {
    match read {
        Ok(site) => urls(alloc, site),
        Err(SiteError::Fault(fault)) => {
            let mut text = String::from_str(alloc, fault.path.text())?;
            text.push_str(if fault.line == 2 {
                " in its line 2"
            } else {
                ""
            })?;
            Ok(text)
        }
        Err(SiteError::Memory) => String::from_str(alloc, "want of memory"),
    }
}

fn read_shown(
    alloc: Global,
    reader: &mut KeptReader,
    held: &Held,
    step: &Step,
    parser: &mut CountingParser,
) -> Option<String> {
    let settings = Settings {
        drafts: step.drafts,
        future: step.future,
    };
    let read = reader.read(alloc, held, moment(step.year), &settings, parser);
    shown(alloc, &read).ok()
}

fn does(alloc: Global, reader: &mut KeptReader, held: &mut Held, step: &Step) -> bool {
    for made in step.changes {
        if change(alloc, held, made).is_none() {
            return false;
        }
    }
    let mut parser = CountingParser {
        calls: 0,
        refuses: step.refuses,
    };
    match read_shown(alloc, reader, held, step, &mut parser) {
        Some(text) => {
            text.as_str() == step.want
                && reader.parsed() == step.parsed
                && parser.calls == step.calls
        }
        None => false,
    }
}

fn all_do(alloc: Global, steps: &[Step]) -> bool {
    let mut reader = KeptReader::new(alloc);
    let mut held = Held::new(alloc);
    for step in steps {
        if !does(alloc, &mut reader, &mut held, step) {
            return false;
        }
    }
    true
}

const BLOG: &[Change] = &[
    (
        "_config.yml",
        Some(
            "title: Notes\nurl: https://example.org\npaginate: 2\ndefaults:\n  - scope:\n      path: \"\"\n      type: posts\n    values:\n      layout: post\n",
        ),
    ),
    (
        "_layouts/default.html",
        Some("---\n---\n<title>{{ page.title | default: site.title }}</title>\n{{ content }}\n"),
    ),
    (
        "_layouts/post.html",
        Some("---\nlayout: default\n---\n<h1>{{ page.title }}</h1>\n{{ content }}\n"),
    ),
    (
        "_posts/2023-05-01-first-note.md",
        Some("---\ntags: [a, b]\n---\nHello *world*.\n\nMore.\n"),
    ),
    (
        "_posts/2023-05-02-second.md",
        Some("---\ntitle: Two & more\n---\nSee [first]({% post_url 2023-05-01-first-note %}).\n"),
    ),
    ("_posts/2023-05-03-third.md", Some("---\n---\nThird.\n")),
    (
        "index.html",
        Some("---\nlayout: default\n---\n{{ paginator.page }}\n"),
    ),
    ("style.css", Some("b{}\n")),
    ("logo.png", Some("logo")),
];

const BLOG_URLS: &str =
    "/2023/05/01/first-note.html /2023/05/02/second.html /2023/05/03/third.html / /page2/ ";

const EDITS: &[Step] = &[
    Step {
        changes: BLOG,
        want: BLOG_URLS,
        parsed: 6,
        calls: 6,
        ..START
    },
    Step {
        changes: &[(
            "index.html",
            Some("---\nlayout: default\n---\n{{ paginator.page }}\n "),
        )],
        want: BLOG_URLS,
        parsed: 1,
        calls: 1,
        ..START
    },
];

#[test]
fn reads_only_what_changed(rt: HostRuntime) {
    assert!(rt; all_do(rt.alloc(), EDITS));
}

// A draft without a date, a post of 2030 whose address is faulty, a post and a page.
const SMALL: &[Change] = &[
    ("_config.yml", Some(BY_YEAR)),
    ("_drafts/d.md", Some("---\n---\n")),
    ("_posts/2020-01-01-a.md", Some("---\n---\n")),
    (
        "_posts/2030-01-01-z.md",
        Some("---\npermalink: /:nothing\n---\n"),
    ),
    PAGE,
];

const BY_YEAR: &str = "permalink: /:year/:title.html\n";

const PAGE: Change = ("p.html", Some("---\n---\n"));

const FIRST: Step = Step {
    changes: SMALL,
    parsed: 4,
    calls: 4,
    ..START
};

const MOMENTS: &[Step] = &[
    FIRST,
    Step {
        year: Year::Y2025,
        want: "/2020/a.html /2025/d.html /p ",
        ..START
    },
    Step {
        year: Year::Y2031,
        want: "_posts/2030-01-01-z.md",
        ..START
    },
    START,
    Step {
        future: true,
        want: "_posts/2030-01-01-z.md",
        ..START
    },
    Step {
        drafts: false,
        want: "/2020/a.html /p ",
        ..START
    },
    START,
];

#[test]
fn the_moment_is_never_kept(rt: HostRuntime) {
    assert!(rt; all_do(rt.alloc(), MOMENTS));
}

const CONFIGURATIONS: &[Step] = &[
    FIRST,
    Step {
        changes: &[("_config.yml", Some("permalink: /:title.html\n"))],
        want: "/a.html /d.html /p ",
        ..START
    },
    Step {
        changes: &[("_config.yml", Some("exclude: [p.html]\n"))],
        want: "/2020/01/01/a.html /2024/01/01/d.html ",
        ..START
    },
    Step {
        changes: &[("_config.yml", Some(BY_YEAR))],
        ..START
    },
];

#[test]
fn a_configuration_is_never_kept(rt: HostRuntime) {
    assert!(rt; all_do(rt.alloc(), CONFIGURATIONS));
}

// Two documents of one date, whose paths and variables sort them differently.
const DOCUMENTS: &[Change] = &[
    ("_config.yml", Some("collections: [c]\n")),
    ("_c/1.md", Some("---\nw: 2\n---\n")),
    ("_c/2.md", Some("---\nw: 1\n---\n")),
];

const ORDERS: &[Step] = &[
    Step {
        changes: DOCUMENTS,
        want: "/c/1.html /c/2.html ",
        parsed: 2,
        calls: 2,
        ..START
    },
    // Sorted by a list, no more, and by a variable, which changes then.
    Step {
        changes: &[("_config.yml", Some("collections: {c: {order: [2.md]}}\n"))],
        want: "/c/2.html /c/1.html ",
        ..START
    },
    Step {
        changes: &[("_config.yml", Some("collections: [c]\n"))],
        want: "/c/1.html /c/2.html ",
        ..START
    },
    Step {
        changes: &[("_config.yml", Some("collections: {c: {sort_by: w}}\n"))],
        want: "/c/2.html /c/1.html ",
        ..START
    },
    Step {
        changes: &[("_c/2.md", Some("---\nw: 3\n---\n"))],
        want: "/c/1.html /c/2.html ",
        parsed: 1,
        calls: 1,
        ..START
    },
];

#[test]
fn an_order_is_never_kept(rt: HostRuntime) {
    assert!(rt; all_do(rt.alloc(), ORDERS));
}

const BYTES: &[Step] = &[
    FIRST,
    // The same bytes, put again, and after they were deleted.
    Step {
        changes: &[PAGE],
        ..START
    },
    Step {
        changes: &[("p.html", None), PAGE],
        ..START
    },
    // Deleted, and found again by a later reading.
    Step {
        changes: &[("p.html", None)],
        want: "/2020/a.html /2024/d.html ",
        ..START
    },
    Step {
        changes: &[PAGE],
        parsed: 1,
        calls: 1,
        ..START
    },
    // Damaged: what was read anew before stays told. Then mended.
    Step {
        changes: &[("p.html", Some("---\na: [\n---\n"))],
        want: "p.html in its line 2",
        parsed: 1,
        calls: 1,
        ..START
    },
    Step {
        changes: &[PAGE],
        parsed: 1,
        calls: 1,
        ..START
    },
    // Memory is refused, and then it is there.
    Step {
        changes: &[("p.html", Some("---\n---\nx"))],
        refuses: true,
        want: "want of memory",
        parsed: 1,
        calls: 1,
        ..START
    },
    Step {
        parsed: 1,
        calls: 1,
        ..START
    },
    START,
];

#[test]
fn what_is_kept_is_of_its_bytes(rt: HostRuntime) {
    assert!(rt; all_do(rt.alloc(), BYTES));
}
