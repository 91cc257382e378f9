// Lists of events over a small site of three items, and what they leave.
ghost use Rattle.std.specs.Prelude.{◌≡◌, ◌≢◌, IfOk, IsTrue, codes};
ghost use Rattle.site_base.specs.View.{plain};
ghost use Rattle.site_base.specs.Plain.{text};
ghost use Rattle.read_record.specs.Queries.{View, Trace, Gave, Known, run, ran};
ghost use Rattle.read_record.specs.Records.{agreement_of};
ghost use Rattle.read_record.specs.Outcomes.{met_of};
ghost use Rattle.read_record.specs.Answers.{IsNoted, IsReply, Renders};
ghost use Rattle.read_record.specs.declared.key.Key.TheVariants.{Content, Var};
ghost use Rattle.read_record.specs.Forms.{is_words};
ghost use Rattle.round_core.specs.Samples.{content_reply, page_of, variable_page, sample_item};

use crate::text_code::is_text_code;
use memo_table::Memo;
use read_record::{
    Agreement, Answer, Checked, Entry, Finished, ItemMeaning, KeptEntry, Key, Look, Outcome,
    Rendered, Renderer, Tally, Traced, World, render_traced,
};
use round_core::{Core, CoreError, Event, Hand, Made, run};
use site_base::{
    FaultKind, ItemName, Memory, SharedBytes, SiteFault, SitePath, Text, Value, copy, is_true,
    same_code, value_text,
};
use std::alloc::Global;

/// The names of three items, which are the parts 0, 1 and 2 of one path.
#[derive(Drop)]
struct Names {
    first: ItemName,
    second: ItemName,
    third: ItemName,
    ghost first_part: { first.part ≡ 0 },
    ghost second_part: { second.part ≡ 1 },
    ghost third_part: { third.part ≡ 2 },
}

/// Three items. Item 1 shows its variable. The others show the content of item 1: its source where they stand before it, and
/// what was made of it where they stand behind it.
#[derive(Drop)]
pub(crate) struct Three {
    names: Names,
    source: Value,
    variable: Value,
    copied: u64,
    ghost source_words: { IsTrue (is_words (plain source)) },
}

impl World for Three {
    ghost use Rattle.std.specs.Prelude.{◌∷◌, []};
    ghost use Rattle.site_base.specs.View.{plain};
    ghost use Rattle.round_core.specs.Samples.{sample_sight, sample-lawful, sample-formed, sample-names_differ};

    ghost names = { λ w. w.names.first ∷ w.names.second ∷ w.names.third ∷ [] };

    ghost fixed = { λ w. w.copied };

    ghost sight = { λ w. sample_sight (plain w.source) (plain w.variable) };

    ghost names_differ = { λ w. sample-names_differ w.names.first w.names.second w.names.third w.names.first_part w.names.second_part w.names.third_part };

    ghost lawful = { λ w. sample-lawful (plain w.source) (plain w.variable) };

    ghost formed = { λ w. sample-formed (plain w.source) (plain w.variable) w.source_words };

    fn items(&self) -> u32 {
        3
    }

    fn name(&self, item: u32) -> &ItemName {
        if item == 0 {
            &self.names.first
        } else if item == 1 {
            &self.names.second
        } else {
            &self.names.third
        }
    }

    fn fixed_bytes(&self) -> u64 {
        self.copied
    }

    fn look<F: Finished>(&self, alloc: Global, reader: u32, key: &Key, outs: &F) -> Answer {
        match key {
            Key::Var(_, _) => seen(alloc, &self.variable),
            Key::Content(_) => content(alloc, &self.source, reader, outs),
            Key::Moment => Answer::Seen(Value::Int(0)),
            _ => Answer::Seen(Value::Nil),
        }
    }

    fn shared_code<F: Finished>(
        &self,
        _alloc: Global,
        _reader: u32,
        _key: &Key,
        _outs: &F,
    ) -> Result<Option<SharedBytes>, Memory> {
        Ok(None)
    }

    fn agrees<F: Finished>(&self, reader: u32, key: &Key, outs: &F, seen: &[u8]) -> Agreement {
        match key {
            Key::Var(_, _) => same(&self.variable, seen),
            Key::Content(_) => content_agrees(&self.source, reader, outs, seen),
            Key::Moment => same(&Value::Int(0), seen),
            _ => same(&Value::Nil, seen),
        }
    }
}

fn seen(alloc: Global, value: &Value) -> Answer
    ensures { IsReply (Known (plain value.now)) result }
{
    match copy(alloc, value) {
        Ok(value) => Answer::Seen(value),
        Err(_) => Answer::Memory,
    }
}

fn content<F: Finished>(alloc: Global, source: &Value, reader: u32, outs: &F) -> Answer
    ensures { IsReply (content_reply (plain source.now) reader (F.outcomes outs.now)) result }
{
    if reader < 2 {
        return seen(alloc, source);
    }
    match outs.done(1) {
        Some(Outcome::Done { content, output: _ }) => seen_text(alloc, content),
        Some(Outcome::Fault(_)) => Answer::Needs(1),
        None => Answer::Needs(1),
    }
}

fn seen_text(alloc: Global, content: &Text) -> Answer
    ensures { IsReply (Known (text content.now)) result }
{
    match content.share(alloc) {
        Ok(content) => Answer::Seen(Value::Text(content)),
        Err(_) => Answer::Memory,
    }
}

fn content_agrees<F: Finished>(source: &Value, reader: u32, outs: &F, seen: &[u8]) -> Agreement
    ensures { result ≡ agreement_of (content_reply (plain source.now) reader (F.outcomes outs.now)) seen.now }
{
    if reader < 2 {
        return same(source, seen);
    }
    match outs.done(1) {
        Some(Outcome::Done { content, output: _ }) => same_text(content, seen),
        Some(Outcome::Fault(_)) => Agreement::Needs(1),
        None => Agreement::Needs(1),
    }
}

fn same_text(content: &Text, seen: &[u8]) -> Agreement
    ensures { result ≡ agreement_of (Known (text content.now)) seen.now }
{
    if is_text_code(content, seen) {
        Agreement::Same
    } else {
        Agreement::Other
    }
}

fn same(value: &Value, seen: &[u8]) -> Agreement
    ensures { result ≡ agreement_of (Known (plain value.now)) seen.now }
{
    if same_code(value, seen) {
        Agreement::Same
    } else {
        Agreement::Other
    }
}

pub(crate) struct ThreeItems;

impl ItemMeaning for ThreeItems {
    ghost use Rattle.round_core.specs.Samples.{sample_item};

    ghost item = { sample_item };
}

pub(crate) struct ThreeRenderer;

impl Renderer for ThreeRenderer {
    type Meaning = ThreeItems;

    fn render<L: Look>(
        &self,
        alloc: Global,
        name: &ItemName,
        look: &mut L,
        tally: &mut Tally,
    ) -> Rendered {
        match render_item(alloc, name, look) {
            Rendered::Out(outcome) => match tally.add(alloc, name) {
                Ok(()) => Rendered::Out(outcome),
                Err(_) => Rendered::Memory,
            },
            Rendered::Needs(item) => Rendered::Needs(item),
            Rendered::Memory => Rendered::Memory,
        }
    }
}

fn render_item<L: Look>(alloc: Global, name: &ItemName, look: &mut L) -> Rendered
    ensures same { L.view look.new ≡ L.view look.old }
    ensures outcome { Renders (run (L.view look.old) (L.trace look.old) (sample_item name.now)) result (L.trace look.new) }
{
    if name.part == 1 {
        render_variable(alloc, name, look)
    } else {
        render_content(alloc, name, look)
    }
}

fn render_variable<L: Look>(alloc: Global, name: &ItemName, look: &mut L) -> Rendered
    requires { name.now.part ≡ 1 }
    ensures same { L.view look.new ≡ L.view look.old }
    ensures outcome { Renders (run (L.view look.old) (L.trace look.old) (sample_item name.now)) result (L.trace look.new) }
{
    match look_own(alloc, name, look) {
        Answer::Seen(value) => match variable_page(alloc, name, &value) {
            Ok(outcome) => Rendered::Out(outcome),
            Err(_) => Rendered::Memory,
        },
        Answer::Needs(item) => Rendered::Needs(item),
        Answer::Memory => Rendered::Memory,
    }
}

fn render_content<L: Look>(alloc: Global, name: &ItemName, look: &mut L) -> Rendered
    requires { name.now.part ≢ 1 }
    ensures same { L.view look.new ≡ L.view look.old }
    ensures outcome { Renders (run (L.view look.old) (L.trace look.old) (sample_item name.now)) result (L.trace look.new) }
{
    match look_content(alloc, name, look) {
        Answer::Seen(value) => match page_of(alloc, &value) {
            Ok(outcome) => Rendered::Out(outcome),
            Err(_) => Rendered::Memory,
        },
        Answer::Needs(item) => Rendered::Needs(item),
        Answer::Memory => Rendered::Memory,
    }
}

fn look_own<L: Look>(alloc: Global, name: &ItemName, look: &mut L) -> Answer
    ensures same { L.view look.new ≡ L.view look.old }
    ensures noted { IsNoted (L.view look.old (Var name.now (codes "v"))) (Var name.now (codes "v")) (L.trace look.old) result (L.trace look.new) }
{
    match own_key(alloc, name) {
        Ok(key) => look.look(alloc, &key),
        Err(_) => Answer::Memory,
    }
}

// The content of the second item.
fn look_content<L: Look>(alloc: Global, name: &ItemName, look: &mut L) -> Answer
    ensures same { L.view look.new ≡ L.view look.old }
    ensures noted { IsNoted (L.view look.old (Content (record { path = name.now.path; part = 1 }))) (Content (record { path = name.now.path; part = 1 })) (L.trace look.old) result (L.trace look.new) }
{
    match content_key(alloc, name) {
        Ok(key) => look.look(alloc, &key),
        Err(_) => Answer::Memory,
    }
}

fn variable_page(alloc: Global, name: &ItemName, variable: &Value) -> Result<Outcome, Memory>
    ensures { IfOk result (λ outcome. (view : View) (trace : Trace) → run view trace (variable_page name.now (plain variable.now)) ≡ ran (met_of outcome) trace) }
{
    if is_true(variable) {
        page_of(alloc, variable)
    } else {
        Ok(Outcome::Fault(SiteFault {
            path: name.path.copy(alloc)?,
            line: 1,
            kind: FaultKind::Undefined,
        }))
    }
}

fn own_key(alloc: Global, name: &ItemName) -> Result<Key, Memory>
    ensures { IfOk result (λ key. key ≡ Var name.now (codes "v")) }
{
    Ok(Key::Var(name.copy(alloc)?, Text::copy(alloc, "v")?))
}

fn content_key(alloc: Global, name: &ItemName) -> Result<Key, Memory>
    ensures { IfOk result (λ key. key ≡ Content (record { path = name.now.path; part = 1 })) }
{
    Ok(Key::Content(ItemName {
        path: name.path.copy(alloc)?,
        part: 1,
    }))
}

fn page_of(alloc: Global, value: &Value) -> Result<Outcome, Memory>
    ensures { IfOk result (λ outcome. met_of outcome ≡ Gave (page_of (plain value.now))) }
{
    Ok(Outcome::Done {
        content: value_text(alloc, value)?,
        output: value_text(alloc, value)?,
    })
}

/// The variable of a second item.
#[derive(Clone, Copy)]
pub(crate) enum Variable<'a> {
    Nil,
    One,
    Text(&'a str),
}

/// Three items at a path, and what their world is made of.
#[derive(Clone, Copy)]
pub(crate) struct Site<'a> {
    pub path: &'a str,
    /// The source of the second item.
    pub source: Option<&'a str>,
    pub variable: Variable<'a>,
    /// How many bytes are copied beside the items.
    pub copied: u64,
}

fn name(alloc: Global, path: &str, part: u32) -> Result<ItemName, Memory>
    ensures part { IfOk result (λ name. name.part ≡ part) }
    ensures name { IfOk result (λ name. name ≡ record { path = path.now; part = part }) }
{
    match SitePath::read(alloc, path) {
        Ok(path) => Ok(ItemName { path, part }),
        Err(_) => Err(Memory),
    }
}

fn make_names(alloc: Global, path: &str) -> Result<Names, Memory>
    ensures { IfOk result (λ names. names.second ≡ record { path = path.now; part = 1 }) }
{
    let first = name(alloc, path, 0)?;
    let second = name(alloc, path, 1)?;
    let third = name(alloc, path, 2)?;
    Ok(Names {
        first,
        second,
        third,
    })
}

fn source_of(alloc: Global, source: Option<&str>) -> Result<Value, Memory>
    ensures { IfOk result (λ value. IsTrue (is_words (plain value))) }
{
    match source {
        Some(source) => Ok(Value::Text(Text::copy(alloc, source)?)),
        None => Ok(Value::Nil),
    }
}

fn variable_of(alloc: Global, variable: &Variable<'_>) -> Result<Value, Memory> {
    match variable {
        Variable::Nil => Ok(Value::Nil),
        Variable::One => Ok(Value::Int(1)),
        Variable::Text(text) => Ok(Value::Text(Text::copy(alloc, text)?)),
    }
}

pub(crate) fn three_of(alloc: Global, site: &Site<'_>) -> Result<Three, Memory>
    ensures { IfOk result (λ three. three.names.second ≡ record { path = site.now.path.now; part = 1 }) }
{
    let names = make_names(alloc, site.path)?;
    let source = source_of(alloc, site.source)?;
    let variable = variable_of(alloc, &site.variable)?;
    Ok(Three {
        names,
        source,
        variable,
        copied: site.copied,
    })
}

const SOURCE: &str = "*x*";

const MADE: &str = "<p><em>x</em></p>\n";

// The three items where this was made of the second one's source.
fn make_three(alloc: Global, made: &str) -> Result<Three, Memory>
    ensures { IfOk result (λ three. three.names.second ≡ record { path = codes "a.html"; part = 1 }) }
{
    let site = Site {
        path: "a.html",
        source: Some(SOURCE),
        variable: Variable::Text(made),
        copied: 0,
    };
    three_of(alloc, &site)
}

type ThreeMemo = Memo<ThreeItems>;

// Whether an item's cell holds a new entry with this output.
fn is_made(core: &Core<ThreeItems>, item: u32, output: &str) -> bool {
    for (set, made) in core.cells() {
        if *set == item {
            return is_new(made, output);
        }
    }
    false
}

fn is_new(made: &Made<ThreeItems>, want: &str) -> bool {
    match made {
        Made::Kept => false,
        Made::New(entry) => is_output(entry.as_entry().outcome(), want),
    }
}

fn is_output(outcome: &Outcome, want: &str) -> bool {
    match outcome {
        Outcome::Done { content: _, output } => output.as_str() == want,
        Outcome::Fault(_) => false,
    }
}

// Whether an item's cell holds what is kept of it.
fn is_kept(core: &Core<ThreeItems>, item: u32) -> bool {
    for (set, made) in core.cells() {
        if *set == item {
            return matches!(made, Made::Kept);
        }
    }
    false
}

/// What a list of events leaves.
#[derive(Clone, Copy)]
enum Left {
    /// The event at this place is the first that is not allowed.
    Refused(u64),
    /// So many items are claimed, so many cells are set, and so many workers know an item.
    Counts(usize, usize, usize),
    /// The first and the last cell hold new entries with these outputs.
    Outputs(&'static str, &'static str),
    /// The second cell holds what was kept.
    Kept,
    /// The second cell holds something else.
    NotKept,
}

fn is_left(core: &Core<ThreeItems>, want: &Left) -> bool {
    match want {
        Left::Refused(_) => false,
        Left::Counts(claims, cells, known) => {
            core.claims().len() == *claims
                && core.cells().len() == *cells
                && core.known().len() == *known
        }
        Left::Outputs(first, last) => is_made(core, 0, first) && is_made(core, 2, last),
        Left::Kept => is_kept(core, 1),
        Left::NotKept => !is_kept(core, 1),
    }
}

fn is_refused(error: CoreError, want: &Left) -> bool {
    match want {
        Left::Refused(place) => error == CoreError::Refused(*place),
        _ => false,
    }
}

// Whether this is what the events of so many workers leave over what is kept.
fn leaves(alloc: Global, memo: &ThreeMemo, workers: u32, events: &[Event], want: &Left) -> bool {
    let Ok(world) = make_three(alloc, MADE) else {
        return false;
    };
    match run(alloc, &ThreeRenderer, &world, memo, workers, events) {
        Ok(core) => is_left(&core, want),
        Err(error) => is_refused(error, want),
    }
}

const WITH_TAKE: &[Event] = &[
    Event::Claim(0, 2),
    Event::Claim(1, 1),
    Event::Finish(1, 1),
    Event::Claim(1, 0),
    Event::Finish(1, 0),
    Event::Take(0, 1),
    Event::Finish(0, 2),
];

const WITHOUT_TAKE: &[Event] = &[
    Event::Claim(0, 2),
    Event::Claim(1, 1),
    Event::Finish(1, 1),
    Event::Claim(1, 0),
    Event::Finish(1, 0),
    Event::Finish(0, 2),
];

// Whether this is what the events of two workers leave where nothing is kept.
fn two_leave(alloc: Global, events: &[Event], want: &Left) -> bool {
    leaves(alloc, &Memo::new(alloc), 2, events, want)
}

const LEFT: &[(&str, &[Event], Left)] = &[
    ("no events", &[], Left::Counts(0, 0, 0)),
    ("three items, one taken", WITH_TAKE, Left::Counts(3, 3, 1)),
    (
        "the source before the second item, what is made of it behind",
        WITH_TAKE,
        Left::Outputs(SOURCE, MADE),
    ),
    (
        "an item that was needed and not taken",
        WITHOUT_TAKE,
        Left::Refused(5),
    ),
];

#[test]
fn leaves_what_was_made(rt: HostRuntime) {
    for (what, events, want) in LEFT {
        assert!(rt; two_leave(rt.alloc(), events, want), "at {what}");
    }
}

const REFUSED: &[(&str, &[Event], u64)] = &[
    (
        "a claim of an item that is claimed",
        &[Event::Claim(0, 0), Event::Claim(0, 0)],
        1,
    ),
    (
        "a claim of what another claimed",
        &[Event::Claim(0, 0), Event::Claim(1, 0)],
        1,
    ),
    (
        "a claim by a worker that is not there",
        &[Event::Claim(2, 0)],
        0,
    ),
    (
        "a claim of an item that is not there",
        &[Event::Claim(1, 2), Event::Claim(1, 3)],
        1,
    ),
    (
        "a take of an empty cell",
        &[Event::Claim(0, 1), Event::Take(0, 1)],
        1,
    ),
    (
        "a take of an item that is known",
        &[
            Event::Claim(0, 1),
            Event::Finish(0, 1),
            Event::Take(0, 1),
            Event::Take(0, 1),
        ],
        3,
    ),
    (
        "a take of an item that waits for another",
        &[
            Event::Claim(0, 1),
            Event::Finish(0, 1),
            Event::Take(0, 1),
            Event::Claim(0, 2),
            Event::Finish(0, 2),
            Event::Take(1, 2),
        ],
        5,
    ),
    (
        "a take by a worker that is not there",
        &[Event::Claim(0, 1), Event::Finish(0, 1), Event::Take(2, 1)],
        2,
    ),
    (
        "a keep where nothing is kept",
        &[Event::Claim(0, 1), Event::Keep(0, 1)],
        1,
    ),
    (
        "a finish of what another claimed",
        &[Event::Claim(0, 1), Event::Finish(1, 1)],
        1,
    ),
    ("a finish of what nobody claimed", &[Event::Finish(1, 1)], 0),
    (
        "a finish of a cell that is set",
        &[Event::Claim(0, 1), Event::Finish(0, 1), Event::Finish(0, 1)],
        2,
    ),
];

#[test]
fn refuses_at_the_first_event_that_is_not_allowed(rt: HostRuntime) {
    for (what, events, place) in REFUSED {
        assert!(rt;
            two_leave(rt.alloc(), events, &Left::Refused(*place)),
            "at {what}"
        );
    }
}

/// Of no item it is known what it came to.
struct Nothing;

impl Finished for Nothing {
    ghost use Rattle.std.specs.Prelude.{None};

    ghost outcomes = { λ _ _. None };

    fn done(&self, _item: u32) -> Option<&Outcome> {
        None
    }
}

fn render_in(alloc: Global, world: &Three) -> Result<Entry<ThreeItems>, Memory>
    ensures { IfOk result (λ entry. entry.name ≡ world.now.names.second) }
{
    let mut tally = Tally::new(alloc);
    match render_traced(alloc, &ThreeRenderer, world, 1, &Nothing, &mut tally) {
        Traced::Entry(entry) => Ok(entry),
        Traced::Needs(_) => Err(Memory),
        Traced::Memory => Err(Memory),
    }
}

// The entry of the second item, where this was made of it.
fn second_entry(alloc: Global, made: &str) -> Result<Entry<ThreeItems>, Memory>
    ensures { IfOk result (λ entry. entry.name ≡ record { path = codes "a.html"; part = 1 }) }
{
    match make_three(alloc, made) {
        Ok(world) => render_in(alloc, &world),
        Err(_) => Err(Memory),
    }
}

fn kept_second(alloc: Global, made: &str) -> Result<ThreeMemo, Memory> {
    let mut memo = Memo::new(alloc);
    memo.merge(alloc, second_entry(alloc, made)?)?;
    Ok(memo)
}

// Whether this is what the events of one worker leave where the second item's entry is kept, as it is where this was made of it.
fn one_leaves(alloc: Global, made: &str, events: &[Event], want: &Left) -> bool {
    match kept_second(alloc, made) {
        Ok(memo) => leaves(alloc, &memo, 1, events, want),
        Err(_) => false,
    }
}

const KEEPS: &[Event] = &[Event::Claim(0, 1), Event::Keep(0, 1)];

const FINISHES: &[Event] = &[Event::Claim(0, 1), Event::Finish(0, 1)];

const OVER_KEPT: &[(&str, &str, &[Event], Left)] = &[
    ("a keep of what agrees", MADE, KEEPS, Left::Kept),
    ("a render of what agrees", MADE, FINISHES, Left::Refused(1)),
    ("a keep of what differs", "y", KEEPS, Left::Refused(1)),
    ("a render of what differs", "y", FINISHES, Left::NotKept),
];

#[test]
fn keeps_what_agrees_and_renders_what_differs(rt: HostRuntime) {
    for (what, made, events, want) in OVER_KEPT {
        assert!(rt; one_leaves(rt.alloc(), made, events, want), "at {what}");
    }
}

// What a hand answers of the second item's entry, and whether it has the item then.
fn takes_in(alloc: Global, world: &Three, entry: &Entry<ThreeItems>) -> Option<(Checked, bool)>
    requires { entry.now.name ≡ world.now.names.second }
{
    match Hand::new(alloc, world) {
        Ok(mut hand) => {
            let checked = hand.take(world, 1, KeptEntry::whole(entry));
            Some((checked, hand.done(1).is_some()))
        }
        Err(_) => None,
    }
}

fn takes(alloc: Global, made: &str) -> Option<(Checked, bool)> {
    let Ok(world) = make_three(alloc, MADE) else {
        return None;
    };
    match second_entry(alloc, made) {
        Ok(entry) => takes_in(alloc, &world, &entry),
        Err(_) => None,
    }
}

#[test]
fn takes_what_agrees(rt: HostRuntime) {
    assert!(rt; takes(rt.alloc(), MADE) == Some((Checked::Agrees, true)));
    assert!(rt; takes(rt.alloc(), "y") == Some((Checked::Differs(0), false)));
}
