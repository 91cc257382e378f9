// Look-ups over a site of a few files, each by the table of what a key gives.
ghost use Rattle.site_dates.specs.Moment.{IsMoment};
ghost use Rattle.site_reader.specs.Lawful.{IsLawful};

use read_record::{Agreement, Answer, Finished, Key, Outcome, World};
use site_base::{ItemName, List, Settings, SitePath, Text, Value, same_code};
use site_reader::{Site, read_site};
use site_world::SiteWorld;
use source_tree::Held;
use std::alloc::Global;
use std::process::Abort;

// 2024-01-01T00:00:00Z
const NOW: i64 = 1_704_067_200;

const FILES: &[(&str, &str)] = &[
    ("_config.yml", "title: T\n"),
    ("_layouts/page.html", "---\ntitle: L\n---\n<b>"),
    ("_includes/note.html", "a note"),
    ("_data/people.yml", "ann: 7\n"),
    ("_posts/2020-01-01-early.md", "---\n---\nearly"),
    ("_posts/2020-01-02-late.md", "---\n---\nlate"),
    ("about.md", "---\ntitle: A\n---\nabout"),
    ("plain.txt", "plain"),
];

/// What is known of the first item.
#[derive(Drop)]
struct First(Outcome);

impl Finished for First {
    ghost use Rattle.std.specs.Prelude.{◌==◌, Some, None, if◌then◌else◌};

    ghost outcomes = { λ f item. if item == 0 then Some f.0 else None };

    fn done(&self, item: u32) -> Option<&Outcome> {
        if item == 0 { Some(&self.0) } else { None }
    }
}

// What the third item sees: the kind of a key, a path or a name, the name of a variable, and the code of the value. The first item is
// done, the second is not.
const SEEN: &[(&str, &str, &str, &str)] = &[
    ("source", "about.md", "", "s5:about"),
    ("source", "_posts/2020-01-02-late.md", "", "s4:late"),
    ("source", "none.md", "", "n"),
    ("content", "_posts/2020-01-01-early.md", "", "s1:C"),
    ("content", "about.md", "", "s5:about"),
    ("content", "none.md", "", "n"),
    ("output", "_posts/2020-01-01-early.md", "", "s1:O"),
    ("output", "about.md", "", "n"),
    ("output", "none.md", "", "n"),
    ("variable", "about.md", "title", "s1:A"),
    ("variable", "about.md", "none", "n"),
    ("variable", "none.md", "title", "n"),
    ("paginator", "about.md", "", "n"),
    ("paginator", "none.md", "", "n"),
    ("site", "title", "", "s1:T"),
    ("site", "none", "", "n"),
    ("data", "", "", "h1:s6:peopleh1:s3:anni7;"),
    ("below", "people", "", "h1:s3:anni7;"),
    ("below", "none", "", "n"),
    (
        "layout",
        "page",
        "",
        "h3:s4:paths18:_layouts/page.htmls4:varsh1:s5:titles1:Ls4:bodys3:<b>",
    ),
    ("layout", "none", "", "n"),
    ("include", "note.html", "", "s6:a note"),
    ("include", "none", "", "n"),
    ("file", "plain.txt", "", "s5:plain"),
    ("file", "none", "", "n"),
    ("link", "about.md", "", "s11:/about.html"),
    ("link", "plain.txt", "", "s10:/plain.txt"),
    ("link", "none.md", "", "n"),
    ("post", "2020-01-01-early", "", "s22:/2020/01/01/early.html"),
    ("post", "none", "", "n"),
    ("moment", "", "", "i1704067200;"),
];

// What many items look up.
const KEPT: &[(&str, &str, &str, &str)] = &[
    ("site", "title", "", "s1:T"),
    ("data", "", "", "h1:s6:peopleh1:s3:anni7;"),
    ("include", "note.html", "", "s6:a note"),
];

// What an earlier item gives that is not done.
const AWAITED: &[(&str, &str, &str, &str)] = &[
    ("content", "_posts/2020-01-02-late.md", "", ""),
    ("output", "_posts/2020-01-02-late.md", "", ""),
];

fn held_of(alloc: Global) -> Option<Held> {
    let mut held = Held::new(alloc);
    for (path, text) in FILES {
        let bytes = text.as_bytes().to_vec(alloc).ok()?;
        let path = SitePath::read(alloc, path).ok()?;
        held.put(path, bytes).ok()?;
    }
    Some(held)
}

fn now() -> i64
    ensures { IsMoment result }
{
    NOW
}

fn name_of(alloc: Global, path: &str) -> Option<ItemName> {
    let path = SitePath::read(alloc, path).ok()?;
    Some(ItemName { path, part: 0 })
}

fn text_of(alloc: Global, text: &str) -> Option<Text> {
    Text::copy(alloc, text).ok()
}

fn path_of(alloc: Global, path: &str) -> Option<SitePath> {
    SitePath::read(alloc, path).ok()
}

fn below(alloc: Global, name: &str) -> Option<Key> {
    let mut keys = List::new(alloc);
    keys.push(Value::Text(text_of(alloc, name)?)).ok()?;
    Some(Key::Data(keys))
}

fn item_key(alloc: Global, kind: &str, name: ItemName, variable: &str) -> Option<Key> {
    match kind {
        "source" => Some(Key::Source(name)),
        "content" => Some(Key::Content(name)),
        "output" => Some(Key::Output(name)),
        "paginator" => Some(Key::Paginator(name)),
        _ => Some(Key::Var(name, text_of(alloc, variable)?)),
    }
}

fn site_key(alloc: Global, kind: &str, name: &str) -> Option<Key> {
    match kind {
        "site" => Some(Key::SiteVar(text_of(alloc, name)?)),
        "below" => below(alloc, name),
        "layout" => Some(Key::Layout(text_of(alloc, name)?)),
        "include" => Some(Key::Include(text_of(alloc, name)?)),
        "file" => Some(Key::File(path_of(alloc, name)?)),
        "link" => Some(Key::Link(path_of(alloc, name)?)),
        "post" => Some(Key::Post(text_of(alloc, name)?)),
        "data" => Some(Key::Data(List::new(alloc))),
        _ => Some(Key::Moment),
    }
}

fn key_of(alloc: Global, kind: &str, name: &str, variable: &str) -> Option<Key> {
    match kind {
        "source" | "content" | "output" | "paginator" | "variable" => {
            item_key(alloc, kind, name_of(alloc, name)?, variable)
        }
        _ => site_key(alloc, kind, name),
    }
}

fn first_done(alloc: Global) -> Option<First> {
    Some(First(Outcome::Done {
        content: text_of(alloc, "C")?,
        output: text_of(alloc, "O")?,
    }))
}

// Whether the third item sees this code, and nothing else agrees.
fn sees(alloc: Global, world: &SiteWorld, key: &Key, outs: &First, want: &str) -> bool {
    if world.items() != 3 {
        return false;
    }
    match world.look(alloc, 2, key, outs) {
        Answer::Seen(value) => same_code(&value, want.as_bytes()),
        _ => false,
    }
}

fn agrees(world: &SiteWorld, key: &Key, outs: &First, want: &str) -> bool {
    world.items() == 3
        && world.agrees(2, key, outs, want.as_bytes()) == Agreement::Same
        && world.agrees(2, key, outs, b"f") == Agreement::Other
}

// Whether the third item has to wait for the second.
fn waits(alloc: Global, world: &SiteWorld, key: &Key, outs: &First) -> bool {
    if world.items() != 3 {
        return false;
    }
    match world.look(alloc, 2, key, outs) {
        Answer::Needs(item) => {
            item == 1 && world.agrees(2, key, outs, b"n") == Agreement::Needs(1)
        }
        _ => false,
    }
}

// Whether the code of what is found is kept, and is this.
fn keeps(alloc: Global, world: &SiteWorld, key: &Key, outs: &First, want: &str) -> bool {
    if world.items() != 3 {
        return false;
    }
    match world.shared_code(alloc, 2, key, outs) {
        Ok(Some(code)) => code.as_slice() == want.as_bytes(),
        _ => false,
    }
}

// What a row asks of the world of the site.
#[derive(Clone, Copy, PartialEq, Eq)]
enum Question {
    Sees,
    Agrees,
    Keeps,
    Waits,
}

fn answers(alloc: Global, world: &SiteWorld, question: Question, key: &Key, want: &str) -> bool {
    let Some(outs) = first_done(alloc) else {
        return false;
    };
    match question {
        Question::Sees => sees(alloc, world, key, &outs, want),
        Question::Agrees => agrees(world, key, &outs, want),
        Question::Keeps => keeps(alloc, world, key, &outs, want),
        Question::Waits => waits(alloc, world, key, &outs),
    }
}

fn all_answer(
    alloc: Global,
    world: &SiteWorld,
    rows: &[(&str, &str, &str, &str)],
    question: Question,
) -> bool {
    for (kind, name, variable, want) in rows {
        match key_of(alloc, kind, name, variable) {
            Some(key) if answers(alloc, world, question, &key, want) => {}
            _ => return false,
        }
    }
    true
}

fn world_answers(
    alloc: Global,
    held: &Held,
    site: &Site,
    rows: &[(&str, &str, &str, &str)],
    question: Question,
) -> bool
    requires { IsLawful held.now site.now }
{
    if site.moment < 0 {
        return false;
    }
    match SiteWorld::new(alloc, site, held) {
        Ok(world) => all_answer(alloc, &world, rows, question),
        Err(_) => false,
    }
}

fn site_answers(alloc: Global, rows: &[(&str, &str, &str, &str)], question: Question) -> bool {
    let Some(held) = held_of(alloc) else {
        return false;
    };
    let settings = Settings {
        drafts: false,
        future: false,
    };
    match read_site(alloc, &held, now(), &settings) {
        Ok(site) => world_answers(alloc, &held, &site, rows, question),
        Err(_) => false,
    }
}

#[test]
fn sees_what_each_key_gives(rt: HostRuntime) {
    assert!(rt; site_answers(rt.alloc(), SEEN, Question::Sees));
}

#[test]
fn agrees_with_what_is_seen_and_nothing_else(rt: HostRuntime) {
    assert!(rt; site_answers(rt.alloc(), SEEN, Question::Agrees));
}

#[test]
fn keeps_the_codes_of_what_many_share(rt: HostRuntime) {
    assert!(rt; site_answers(rt.alloc(), KEPT, Question::Keeps));
}

#[test]
fn waits_for_an_earlier_item(rt: HostRuntime) {
    assert!(rt; site_answers(rt.alloc(), AWAITED, Question::Waits));
}
