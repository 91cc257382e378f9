// A site whose items stand in a row, and what renders them.
ghost use Rattle.std.specs.Prelude.{◌≡◌, ◌<◌, IfOk, IfSome, IsTrue, length, slice_get};
ghost use Rattle.site_base.specs.View.{plain};
ghost use Rattle.read_record.specs.Queries.{View, Trace, Gave, Known, run, ran};
ghost use Rattle.read_record.specs.Records.{agreement_of};
ghost use Rattle.read_record.specs.Outcomes.{met_of};
ghost use Rattle.read_record.specs.Forms.{is_words};
ghost use Rattle.read_record.specs.Answers.{IsReply, Renders};
ghost use Rattle.round_core.specs.Samples.{page_of, variable_page};
ghost use Rattle.round_tests.specs.Rows.{needed_by, open_need, value_at, reply_of, row_item, AreNumbered};

use read_record::{
    Agreement, Answer, Finished, ItemMeaning, Key, Look, Outcome, Rendered, Renderer, Tally, World,
};
use site_base::{
    FaultKind, ItemName, Memory, SharedBytes, SiteFault, SitePath, Text, Value, copy, is_true,
    same_code, value_text,
};
use std::alloc::Global;

/// Which item each item needs.
#[derive(Clone, Copy)]
pub(crate) enum Needs {
    Nothing,
    /// The one before it.
    Before,
    /// The first one.
    First,
}

/// A site whose items stand in a row. Each shows the value, once the item that it needs is done. One item has no value, and so a fault.
#[derive(Drop)]
pub(crate) struct Row {
    names: Vec<ItemName>,
    needs: Needs,
    lacking: u32,
    value: Value,
    ghost numbered: { AreNumbered names.items },
    ghost small: { length names.items < 4294967296 },
    ghost words: { IsTrue (is_words (plain value)) },
}

impl World for Row {
    ghost use Rattle.site_base.specs.View.{plain};
    ghost use Rattle.round_tests.specs.Rows.{row_sight, row-lawful, row-formed, numbered-differ};

    ghost names = { λ w. w.names.items };

    ghost fixed = { λ w. 0 };

    ghost sight = { λ w. row_sight w.needs w.lacking (plain w.value) };

    ghost names_differ = { λ w. numbered-differ w.names.items w.numbered };

    ghost lawful = { λ w. row-lawful w.needs w.lacking (plain w.value) };

    ghost formed = { λ w. row-formed w.needs w.lacking (plain w.value) w.words };

    fn items(&self) -> u32 {
        self.names.len() as u32
    }

    fn name(&self, item: u32) -> &ItemName {
        &self.names[item as usize]
    }

    fn fixed_bytes(&self) -> u64 {
        0
    }

    fn look<F: Finished>(&self, alloc: Global, reader: u32, key: &Key, outs: &F) -> Answer {
        match key {
            Key::Content(_) => self.look_value(alloc, reader, outs),
            Key::Moment => Answer::Seen(Value::Int(0)),
            _ => Answer::Seen(Value::Nil),
        }
    }

    fn shared_code<F: Finished>(
        &self,
        _alloc: Global,
        _reader: u32,
        _key: &Key,
        _outs: &F,
    ) -> Result<Option<SharedBytes>, Memory> {
        Ok(None)
    }

    fn agrees<F: Finished>(&self, reader: u32, key: &Key, outs: &F, seen: &[u8]) -> Agreement {
        match key {
            Key::Content(_) => self.value_agrees(reader, outs, seen),
            Key::Moment => same(&Value::Int(0), seen),
            _ => same(&Value::Nil, seen),
        }
    }
}

impl Row {
    /// So many items.
    pub(crate) fn new(
        alloc: Global,
        items: u32,
        needs: Needs,
        lacking: u32,
        value: &str,
    ) -> Result<Row, Memory> {
        let names = numbered(alloc, items)?;
        let value = Value::Text(Text::copy(alloc, value)?);
        Ok(Row {
            names,
            needs,
            lacking,
            value,
        })
    }

    fn look_value<F: Finished>(&self, alloc: Global, reader: u32, outs: &F) -> Answer
        ensures { IsReply (reply_of (needed_by self.now.needs reader) (value_at self.now.lacking (plain self.now.value) reader) (F.outcomes outs.now)) result }
    {
        match waits(self.needs, reader, outs) {
            Some(item) => Answer::Needs(item),
            None if reader == self.lacking => Answer::Seen(Value::Nil),
            None => seen(alloc, &self.value),
        }
    }

    fn value_agrees<F: Finished>(&self, reader: u32, outs: &F, bytes: &[u8]) -> Agreement
        ensures { result ≡ agreement_of (reply_of (needed_by self.now.needs reader) (value_at self.now.lacking (plain self.now.value) reader) (F.outcomes outs.now)) bytes.now }
    {
        match waits(self.needs, reader, outs) {
            Some(item) => Agreement::Needs(item),
            None if reader == self.lacking => same(&Value::Nil, bytes),
            None => same(&self.value, bytes),
        }
    }
}

// The item that has to be done before this one, where it is not done.
fn waits<F: Finished>(needs: Needs, reader: u32, outs: &F) -> Option<u32>
    ensures { result ≡ open_need (needed_by needs reader) (F.outcomes outs.now) }
{
    let item = needed(needs, reader)?;
    match outs.done(item) {
        Some(
            Outcome::Done {
                content: _,
                output: _,
            },
        ) => None,
        Some(Outcome::Fault(_)) => Some(item),
        None => Some(item),
    }
}

fn needed(needs: Needs, reader: u32) -> Option<u32>
    ensures { result ≡ needed_by needs reader }
{
    match needs {
        Needs::Nothing => None,
        Needs::Before => reader.checked_sub(1),
        Needs::First if reader > 0 => Some(0),
        Needs::First => None,
    }
}

fn seen(alloc: Global, value: &Value) -> Answer
    ensures { IsReply (Known (plain value.now)) result }
{
    match copy(alloc, value) {
        Ok(value) => Answer::Seen(value),
        Err(_) => Answer::Memory,
    }
}

fn same(value: &Value, seen: &[u8]) -> Agreement
    ensures { result ≡ agreement_of (Known (plain value.now)) seen.now }
{
    if same_code(value, seen) {
        Agreement::Same
    } else {
        Agreement::Other
    }
}

// So many names, each with its place as its part.
fn numbered(alloc: Global, items: u32) -> Result<Vec<ItemName>, Memory>
    ensures numbered { IfOk result (λ names. AreNumbered names.items) }
    ensures small { IfOk result (λ names. length names.items < 4294967296) }
{
    let Ok(path) = SitePath::read(alloc, "a.html") else {
        return Err(Memory);
    };
    let mut names = Vec::with_capacity(alloc, items as usize)?;
    for part in 0..items {
        let path = path.copy(alloc)?;
        names.push(ItemName { path, part })?;
    }
    Ok(names)
}

pub(crate) struct RowItems;

impl ItemMeaning for RowItems {
    ghost use Rattle.round_tests.specs.Rows.{row_item};

    ghost item = { row_item };
}

pub(crate) struct RowRenderer;

impl Renderer for RowRenderer {
    type Meaning = RowItems;

    fn render<L: Look>(
        &self,
        alloc: Global,
        name: &ItemName,
        look: &mut L,
        tally: &mut Tally,
    ) -> Rendered {
        match render_item(alloc, name, look) {
            Rendered::Out(outcome) => match tally.add(alloc, name) {
                Ok(()) => Rendered::Out(outcome),
                Err(_) => Rendered::Memory,
            },
            Rendered::Needs(item) => Rendered::Needs(item),
            Rendered::Memory => Rendered::Memory,
        }
    }
}

fn render_item<L: Look>(alloc: Global, name: &ItemName, look: &mut L) -> Rendered
    ensures same { L.view look.new ≡ L.view look.old }
    ensures outcome { Renders (run (L.view look.old) (L.trace look.old) (row_item name.now)) result (L.trace look.new) }
{
    let key = match own_key(alloc, name) {
        Ok(key) => key,
        Err(_) => return Rendered::Memory,
    };
    match look.look(alloc, &key) {
        Answer::Seen(value) => match variable_page(alloc, name, &value) {
            Ok(outcome) => Rendered::Out(outcome),
            Err(_) => Rendered::Memory,
        },
        Answer::Needs(item) => Rendered::Needs(item),
        Answer::Memory => Rendered::Memory,
    }
}

fn variable_page(alloc: Global, name: &ItemName, variable: &Value) -> Result<Outcome, Memory>
    ensures { IfOk result (λ outcome. (view : View) (trace : Trace) → run view trace (variable_page name.now (plain variable.now)) ≡ ran (met_of outcome) trace) }
{
    if is_true(variable) {
        page_of(alloc, variable)
    } else {
        Ok(Outcome::Fault(SiteFault {
            path: name.path.copy(alloc)?,
            line: 1,
            kind: FaultKind::Undefined,
        }))
    }
}

fn own_key(alloc: Global, name: &ItemName) -> Result<Key, Memory>
    ensures { IfOk result (λ key. key ≡ Key.Content name.now) }
{
    Ok(Key::Content(name.copy(alloc)?))
}

fn page_of(alloc: Global, value: &Value) -> Result<Outcome, Memory>
    ensures { IfOk result (λ outcome. met_of outcome ≡ Gave (page_of (plain value.now))) }
{
    Ok(Outcome::Done {
        content: value_text(alloc, value)?,
        output: value_text(alloc, value)?,
    })
}
