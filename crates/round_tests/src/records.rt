// A small site in memory, and what is read there.
ghost use Rattle.std.specs.Prelude.{◌≡◌, ◌≢◌, ◌<◌, IfOk, codes};
ghost use Rattle.site_base.specs.View.{plain};
ghost use Rattle.read_record.specs.Queries.{Ask, Gave, Give, Known, run};
ghost use Rattle.read_record.specs.Records.{agreement_of};
ghost use Rattle.read_record.specs.Outcomes.{met_of};
ghost use Rattle.read_record.specs.Answers.{IsNoted, IsReply, Renders};
ghost use Rattle.read_record.specs.declared.key.Key.TheVariants.{Content, SiteVar, Var};
ghost use Rattle.read_record.specs.Samples.{content_reply, page_of, sample_item, variable_of};

use read_record::{
    Agreement, Answer, Checked, Entry, Finished, ItemMeaning, Key, Look, Outcome, Record, Rendered,
    Renderer, Tally, Traced, World, check, render_traced,
};
use site_base::{
    ItemName, Memory, SharedBytes, SitePath, Text, Value, copy, same_code, value_text,
};
use std::alloc::Global;

/// Two items, which are the parts 0 and 1 of one path. Each has one variable.
#[derive(Drop)]
pub(crate) struct Sample {
    first: ItemName,
    second: ItemName,
    variable: Value,
    other_variable: Value,
    ghost first_part: { first.part ≡ 0 },
    ghost second_part: { second.part ≡ 1 },
}

impl Sample {
    fn variable_of(&self, name: &ItemName) -> &Value
        ensures { plain result.now ≡ variable_of (plain self.now.variable) (plain self.now.other_variable) name.now.part }
    {
        if name.part == 0 {
            &self.variable
        } else {
            &self.other_variable
        }
    }
}

impl World for Sample {
    ghost use Rattle.std.specs.Prelude.{◌∷◌, []};
    ghost use Rattle.site_base.specs.View.{plain};
    ghost use Rattle.read_record.specs.Samples.{sample_sight, sample-lawful, sample-formed, sample-names_differ};

    ghost names = { λ w. w.first ∷ w.second ∷ [] };

    ghost fixed = { λ _. 0 };

    ghost sight = { λ w. sample_sight (plain w.variable) (plain w.other_variable) };

    ghost names_differ = { λ w. sample-names_differ w.first w.second w.first_part w.second_part };

    ghost lawful = { λ w. sample-lawful (plain w.variable) (plain w.other_variable) };

    ghost formed = { λ w. sample-formed (plain w.variable) (plain w.other_variable) };

    fn items(&self) -> u32 {
        2
    }

    fn name(&self, item: u32) -> &ItemName {
        if item == 0 { &self.first } else { &self.second }
    }

    fn fixed_bytes(&self) -> u64 {
        0
    }

    fn look<F: Finished>(&self, alloc: Global, reader: u32, key: &Key, outs: &F) -> Answer {
        match key {
            Key::Var(name, _) => match copy(alloc, self.variable_of(name)) {
                Ok(value) => Answer::Seen(value),
                Err(_) => Answer::Memory,
            },
            Key::Content(_) => content(reader, outs),
            Key::Moment => Answer::Seen(Value::Int(0)),
            _ => Answer::Seen(Value::Nil),
        }
    }

    fn shared_code<F: Finished>(
        &self,
        _alloc: Global,
        _reader: u32,
        _key: &Key,
        _outs: &F,
    ) -> Result<Option<SharedBytes>, Memory> {
        Ok(None)
    }

    fn agrees<F: Finished>(&self, reader: u32, key: &Key, outs: &F, seen: &[u8]) -> Agreement {
        match key {
            Key::Var(name, _) => same(self.variable_of(name), seen),
            Key::Content(_) => content_agrees(reader, outs, seen),
            Key::Moment => same(&Value::Int(0), seen),
            _ => same(&Value::Nil, seen),
        }
    }
}

fn content<F: Finished>(reader: u32, outs: &F) -> Answer
    ensures { IsReply (content_reply reader (F.outcomes outs.now)) result }
{
    if reader == 0 {
        return Answer::Seen(Value::Nil);
    }
    match outs.done(0) {
        Some(
            Outcome::Done {
                content: _,
                output: _,
            },
        ) => Answer::Seen(Value::Nil),
        Some(Outcome::Fault(_)) => Answer::Needs(0),
        None => Answer::Needs(0),
    }
}

fn content_agrees<F: Finished>(reader: u32, outs: &F, seen: &[u8]) -> Agreement
    ensures { result ≡ agreement_of (content_reply reader (F.outcomes outs.now)) seen.now }
{
    if reader == 0 {
        return same(&Value::Nil, seen);
    }
    match outs.done(0) {
        Some(
            Outcome::Done {
                content: _,
                output: _,
            },
        ) => same(&Value::Nil, seen),
        Some(Outcome::Fault(_)) => Agreement::Needs(0),
        None => Agreement::Needs(0),
    }
}

fn same(value: &Value, seen: &[u8]) -> Agreement
    ensures { result ≡ agreement_of (Known (plain value.now)) seen.now }
{
    if same_code(value, seen) {
        Agreement::Same
    } else {
        Agreement::Other
    }
}

/// What is known of item 0.
#[derive(Drop)]
pub(crate) struct First(pub(crate) Option<Outcome>);

impl Finished for First {
    ghost use Rattle.std.specs.Prelude.{◌==◌, None, if◌then◌else◌};

    ghost outcomes = { λ f item. if item == 0 then f.0 else None };

    fn done(&self, item: u32) -> Option<&Outcome> {
        if item == 0 { self.0.as_ref() } else { None }
    }
}

/// What the items of a sample mean.
#[derive(Drop)]
pub(crate) struct SampleItems;

impl ItemMeaning for SampleItems {
    ghost use Rattle.read_record.specs.Samples.{sample_item};

    ghost item = { sample_item };
}

struct SampleRenderer;

impl Renderer for SampleRenderer {
    type Meaning = SampleItems;

    fn render<L: Look>(
        &self,
        alloc: Global,
        name: &ItemName,
        look: &mut L,
        tally: &mut Tally,
    ) -> Rendered {
        match render_item(alloc, name, look) {
            Rendered::Out(outcome) => match tally.add(alloc, name) {
                Ok(()) => Rendered::Out(outcome),
                Err(_) => Rendered::Memory,
            },
            Rendered::Needs(item) => Rendered::Needs(item),
            Rendered::Memory => Rendered::Memory,
        }
    }
}

fn render_item<L: Look>(alloc: Global, name: &ItemName, look: &mut L) -> Rendered
    ensures same { L.view look.new ≡ L.view look.old }
    ensures outcome { Renders (run (L.view look.old) (L.trace look.old) (sample_item name.now)) result (L.trace look.new) }
{
    if name.part == 0 {
        render_first(alloc, name, look)
    } else {
        render_second(alloc, name, look)
    }
}

fn render_first<L: Look>(alloc: Global, name: &ItemName, look: &mut L) -> Rendered
    requires { name.now.part ≡ 0 }
    ensures same { L.view look.new ≡ L.view look.old }
    ensures outcome { Renders (run (L.view look.old) (L.trace look.old) (sample_item name.now)) result (L.trace look.new) }
{
    match look_site(alloc, look) {
        Answer::Seen(_) => render_own_and_site(alloc, name, look),
        Answer::Needs(item) => Rendered::Needs(item),
        Answer::Memory => Rendered::Memory,
    }
}

fn render_own_and_site<L: Look>(alloc: Global, name: &ItemName, look: &mut L) -> Rendered
    ensures same { L.view look.new ≡ L.view look.old }
    ensures outcome { Renders (run (L.view look.old) (L.trace look.old) (Ask (Var name.now (codes "v")) (λ v. Ask (SiteVar (codes "t")) (λ _. Give (page_of v))))) result (L.trace look.new) }
{
    match look_own(alloc, name, look) {
        Answer::Seen(variable) => render_site(alloc, &variable, look),
        Answer::Needs(item) => Rendered::Needs(item),
        Answer::Memory => Rendered::Memory,
    }
}

fn render_site<L: Look>(alloc: Global, variable: &Value, look: &mut L) -> Rendered
    ensures same { L.view look.new ≡ L.view look.old }
    ensures outcome { Renders (run (L.view look.old) (L.trace look.old) (Ask (SiteVar (codes "t")) (λ _. Give (page_of (plain variable.now))))) result (L.trace look.new) }
{
    match look_site(alloc, look) {
        Answer::Seen(_) => match page_of(alloc, variable) {
            Ok(outcome) => Rendered::Out(outcome),
            Err(_) => Rendered::Memory,
        },
        Answer::Needs(item) => Rendered::Needs(item),
        Answer::Memory => Rendered::Memory,
    }
}

fn render_second<L: Look>(alloc: Global, name: &ItemName, look: &mut L) -> Rendered
    requires { name.now.part ≢ 0 }
    ensures same { L.view look.new ≡ L.view look.old }
    ensures outcome { Renders (run (L.view look.old) (L.trace look.old) (sample_item name.now)) result (L.trace look.new) }
{
    match look_content(alloc, name, look) {
        Answer::Seen(_) => render_own(alloc, name, look),
        Answer::Needs(item) => Rendered::Needs(item),
        Answer::Memory => Rendered::Memory,
    }
}

fn render_own<L: Look>(alloc: Global, name: &ItemName, look: &mut L) -> Rendered
    ensures same { L.view look.new ≡ L.view look.old }
    ensures outcome { Renders (run (L.view look.old) (L.trace look.old) (Ask (Var name.now (codes "v")) (λ v. Give (page_of v)))) result (L.trace look.new) }
{
    match look_own(alloc, name, look) {
        Answer::Seen(variable) => match page_of(alloc, &variable) {
            Ok(outcome) => Rendered::Out(outcome),
            Err(_) => Rendered::Memory,
        },
        Answer::Needs(item) => Rendered::Needs(item),
        Answer::Memory => Rendered::Memory,
    }
}

// The variable of the site, which has none.
fn look_site<L: Look>(alloc: Global, look: &mut L) -> Answer
    ensures same { L.view look.new ≡ L.view look.old }
    ensures noted { IsNoted (L.view look.old (SiteVar (codes "t"))) (SiteVar (codes "t")) (L.trace look.old) result (L.trace look.new) }
{
    match site_key(alloc) {
        Ok(key) => look.look(alloc, &key),
        Err(_) => Answer::Memory,
    }
}

fn look_own<L: Look>(alloc: Global, name: &ItemName, look: &mut L) -> Answer
    ensures same { L.view look.new ≡ L.view look.old }
    ensures noted { IsNoted (L.view look.old (Var name.now (codes "v"))) (Var name.now (codes "v")) (L.trace look.old) result (L.trace look.new) }
{
    match own_key(alloc, name) {
        Ok(key) => look.look(alloc, &key),
        Err(_) => Answer::Memory,
    }
}

// The content of the first item.
fn look_content<L: Look>(alloc: Global, name: &ItemName, look: &mut L) -> Answer
    ensures same { L.view look.new ≡ L.view look.old }
    ensures noted { IsNoted (L.view look.old (Content (record { path = name.now.path; part = 0 }))) (Content (record { path = name.now.path; part = 0 })) (L.trace look.old) result (L.trace look.new) }
{
    match first_key(alloc, name) {
        Ok(key) => look.look(alloc, &key),
        Err(_) => Answer::Memory,
    }
}

fn site_key(alloc: Global) -> Result<Key, Memory>
    ensures { IfOk result (λ key. key ≡ SiteVar (codes "t")) }
{
    Ok(Key::SiteVar(Text::copy(alloc, "t")?))
}

fn own_key(alloc: Global, name: &ItemName) -> Result<Key, Memory>
    ensures { IfOk result (λ key. key ≡ Var name.now (codes "v")) }
{
    Ok(Key::Var(name.copy(alloc)?, Text::copy(alloc, "v")?))
}

fn first_key(alloc: Global, name: &ItemName) -> Result<Key, Memory>
    ensures { IfOk result (λ key. key ≡ Content (record { path = name.now.path; part = 0 })) }
{
    Ok(Key::Content(ItemName {
        path: name.path.copy(alloc)?,
        part: 0,
    }))
}

fn page_of(alloc: Global, variable: &Value) -> Result<Outcome, Memory>
    ensures { IfOk result (λ outcome. met_of outcome ≡ Gave (page_of (plain variable.now))) }
{
    Ok(Outcome::Done {
        content: value_text(alloc, variable)?,
        output: value_text(alloc, variable)?,
    })
}

fn name(alloc: Global, part: u32) -> Result<ItemName, Memory>
    ensures { IfOk result (λ name. name.part ≡ part) }
{
    name_at(alloc, "a.html", part)
}

pub(crate) fn name_at(alloc: Global, path: &str, part: u32) -> Result<ItemName, Memory>
    ensures { IfOk result (λ name. name.part ≡ part) }
{
    match SitePath::read(alloc, path) {
        Ok(path) => Ok(ItemName { path, part }),
        Err(_) => Err(Memory),
    }
}

fn make_sample(alloc: Global, variable: i64) -> Result<Sample, Memory> {
    sample_at(alloc, "a.html", variable)
}

pub(crate) fn sample_at(alloc: Global, path: &str, variable: i64) -> Result<Sample, Memory> {
    let first = name_at(alloc, path, 0)?;
    let second = name_at(alloc, path, 1)?;
    Ok(Sample {
        first,
        second,
        variable: Value::Int(variable),
        other_variable: Value::Int(2),
    })
}

pub(crate) fn entry_of(
    alloc: Global,
    world: &Sample,
    item: u32,
    outs: &First,
) -> Result<Entry<SampleItems>, Memory>
    requires { item < 2 }
{
    let mut tally = Tally::new(alloc);
    match render_traced(alloc, &SampleRenderer, world, item, outs, &mut tally) {
        Traced::Entry(entry) => Ok(entry),
        Traced::Needs(_) => Err(Memory),
        Traced::Memory => Err(Memory),
    }
}

fn first_entry(alloc: Global) -> Result<Entry<SampleItems>, Memory> {
    let world = make_sample(alloc, 1)?;
    entry_of(alloc, &world, 0, &First(None))
}

fn first_done(alloc: Global) -> Result<First, Memory> {
    let entry = first_entry(alloc)?;
    let outcome = entry.outcome().copy(alloc)?;
    Ok(First(Some(outcome)))
}

fn second_entry(alloc: Global) -> Result<Entry<SampleItems>, Memory> {
    let outs = first_done(alloc)?;
    let world = make_sample(alloc, 1)?;
    entry_of(alloc, &world, 1, &outs)
}

fn is_key_at(reads: &Record, place: u64, key: &Key) -> bool {
    place < reads.len() && *reads.key_at(place) == *key
}

fn reads_site_at(alloc: Global, reads: &Record, place: u64) -> bool {
    match site_key(alloc) {
        Ok(key) => is_key_at(reads, place, &key),
        Err(_) => false,
    }
}

fn reads_own_at(alloc: Global, entry: &Entry<SampleItems>, place: u64) -> bool {
    match own_key(alloc, entry.name()) {
        Ok(key) => is_key_at(entry.reads(), place, &key),
        Err(_) => false,
    }
}

// How many keys the first item's record has, whether the first is the site's variable, and whether the second is the item's own.
fn first_reads(alloc: Global) -> Option<(u64, bool, bool)> {
    match first_entry(alloc) {
        Ok(entry) => Some((
            entry.reads().len(),
            reads_site_at(alloc, entry.reads(), 0),
            reads_own_at(alloc, &entry, 1),
        )),
        Err(_) => None,
    }
}

// Each key once, also the one that found nothing, in the order first read.
#[test]
fn records_each_key_once(rt: HostRuntime) {
    assert!(rt; first_reads(rt.alloc()) == Some((2, true, true)));
}

fn needs_first(alloc: Global, world: &Sample, tally: &mut Tally) -> bool {
    match render_traced(alloc, &SampleRenderer, world, 1, &First(None), tally) {
        Traced::Needs(item) => item == 0,
        Traced::Entry(_) => false,
        Traced::Memory => false,
    }
}

// Whether the second item waits for the first, and how many names are told then.
fn waits(alloc: Global) -> Option<(bool, usize)> {
    let mut tally = Tally::new(alloc);
    match make_sample(alloc, 1) {
        Ok(world) => {
            let waits = needs_first(alloc, &world, &mut tally);
            Some((waits, tally.rendered().len()))
        }
        Err(_) => None,
    }
}

#[test]
fn waits_for_the_first_item(rt: HostRuntime) {
    assert!(rt; waits(rt.alloc()) == Some((true, 0)));
}

fn second_reads(alloc: Global) -> Option<u64> {
    match second_entry(alloc) {
        Ok(entry) => Some(entry.reads().len()),
        Err(_) => None,
    }
}

#[test]
fn renders_the_second_item_behind_the_first(rt: HostRuntime) {
    assert!(rt; second_reads(rt.alloc()) == Some(2));
}

fn renders_first(alloc: Global, world: &Sample, tally: &mut Tally) -> bool {
    match render_traced(alloc, &SampleRenderer, world, 0, &First(None), tally) {
        Traced::Entry(_) => true,
        Traced::Needs(_) => false,
        Traced::Memory => false,
    }
}

// What is told of a render of the first item.
fn first_told(alloc: Global) -> Result<Tally, Memory> {
    let world = make_sample(alloc, 1)?;
    let mut tally = Tally::new(alloc);
    if renders_first(alloc, &world, &mut tally) {
        Ok(tally)
    } else {
        Err(Memory)
    }
}

// The same behind the second item's name.
fn both_told(alloc: Global) -> Result<Tally, Memory> {
    let mut tally = Tally::new(alloc);
    tally.add(alloc, &name(alloc, 1)?)?;
    tally.join(first_told(alloc)?)?;
    Ok(tally)
}

fn told_parts(alloc: Global) -> Option<(u32, u32)> {
    match both_told(alloc) {
        Ok(tally) => parts(tally.rendered()),
        Err(_) => None,
    }
}

fn parts(names: &[ItemName]) -> Option<(u32, u32)> {
    match names {
        [first, second] => Some((first.part, second.part)),
        _ => None,
    }
}

#[test]
fn tells_what_was_rendered(rt: HostRuntime) {
    assert!(rt; told_parts(rt.alloc()) == Some((1, 0)));
}

// What a site says of a record whose first item has this variable, where nothing is done.
fn checked(alloc: Global, variable: i64, reads: &Record, item: u32) -> Option<Checked>
    requires { item < 2 }
{
    match make_sample(alloc, variable) {
        Ok(world) => Some(check(reads, &world, item, &First(None))),
        Err(_) => None,
    }
}

fn first_checked(alloc: Global, variable: i64) -> Option<Checked> {
    match first_entry(alloc) {
        Ok(entry) => checked(alloc, variable, entry.reads(), 0),
        Err(_) => None,
    }
}

fn second_checked(alloc: Global, variable: i64) -> Option<Checked> {
    match second_entry(alloc) {
        Ok(entry) => checked(alloc, variable, entry.reads(), 1),
        Err(_) => None,
    }
}

#[test]
fn agrees_where_nothing_changed(rt: HostRuntime) {
    assert!(rt; first_checked(rt.alloc(), 1) == Some(Checked::Agrees));
}

#[test]
fn differs_at_the_place_of_the_key(rt: HostRuntime) {
    assert!(rt; first_checked(rt.alloc(), 5) == Some(Checked::Differs(1)));
}

#[test]
fn needs_the_first_item_again(rt: HostRuntime) {
    assert!(rt; second_checked(rt.alloc(), 5) == Some(Checked::Needs(0)));
}

fn output_len(outcome: &Outcome) -> usize {
    match outcome {
        Outcome::Done { content: _, output } => output.len(),
        Outcome::Fault(_) => 0,
    }
}

fn first_copy(alloc: Global) -> Result<Entry<SampleItems>, Memory> {
    let entry = first_entry(alloc)?;
    entry.copy(alloc)
}

// Of a copy the part, how many keys it read, and how long its output is.
fn copied(alloc: Global) -> Option<(u32, u64, usize)> {
    match first_copy(alloc) {
        Ok(copy) => Some((
            copy.name().part,
            copy.reads().len(),
            output_len(copy.outcome()),
        )),
        Err(_) => None,
    }
}

#[test]
fn copies_an_entry(rt: HostRuntime) {
    assert!(rt; copied(rt.alloc()) == Some((0, 2, 1)));
}
