// Sequences and mappings.
ghost use Rattle.std.specs.Prelude.{◌≡◌, ◌<◌, ◌≤◌, ◌^◌, ◌∷◌, length, drop, false};
ghost use Rattle.front_yaml.specs.Bytes.{starts};
ghost use Rattle.front_yaml.specs.TextLines.{indent, inside};
ghost use Rattle.front_yaml.specs.LineRuns.{is_item};
ghost use Rattle.front_yaml.specs.Given.{Gives, ReadsLines, GivesPair};
ghost use Rattle.front_yaml.specs.Blocks.{block, below, below_first, entry_value, at_indent, item_value, item_at, pair_at, sequence, all_entries, entry, mapping_pairs};

use crate::faults::YamlError;
use crate::growth::put;
use crate::keys::{starts_block, value_place};
use crate::line_faults::{indent_fault, none_left};
use crate::line_keys::{line_key, no_key_fault};
use crate::line_leaves::{leaf_lines, scalar_lines};
use crate::line_runs::{before_item, before_pair, belonging, first_lines, idle_lines, lines_after};
use crate::scans::{dash_len, is_dash, is_empty, starts, tail, white_len};
use crate::text_lines::TextLine;
use site_base::{Hash, List, Text, Value, YamlKind};
use std::alloc::Global;

// The value of lines whose first carries something; the other lines have the indent `floor` at least, if they carry
// anything.
#[cycle(block)]
fn block<'l, 'a>(
    alloc: Global,
    depth: u32,
    floor: usize,
    head: &'l TextLine<'a>,
    body: &'l [TextLine<'a>],
) -> Result<Value, YamlError>
    ensures { Gives result (block depth floor (head.now ∷ body.now)) }
{
    let text = head.inside();
    if !starts_block(text) {
        return leaf_lines(alloc, depth, floor, head, text, body);
    }
    if depth == 0 {
        return Err(YamlError::at(head.number(), YamlKind::Depth));
    }
    if is_dash(text) {
        match sequence(alloc, depth - 1, head, body) {
            Ok(items) => Ok(Value::List(items)),
            Err(error) => Err(error),
        }
    } else {
        match mapping(alloc, depth - 1, head, body) {
            Ok(pairs) => Ok(Value::Hash(pairs)),
            Err(error) => Err(error),
        }
    }
}

// The items of lines of which the first is one.
#[cycle(block)]
fn sequence<'l, 'a>(
    alloc: Global,
    depth: u32,
    head: &'l TextLine<'a>,
    body: &'l [TextLine<'a>],
) -> Result<List, YamlError>
    ensures { ReadsLines result (sequence depth (block depth) (indent head.now) (all_entries (is_item (indent head.now)) head.now body.now)) }
{
    let indent = head.indent();
    let mut items = List::new(alloc);
    let mut first = head;
    let mut rest = body;
    loop {
        let more = before_item(indent, rest);
        let value = match item(alloc, depth, indent, first, first_lines(rest, more)) {
            Ok(value) => value,
            Err(error) => return Err(error),
        };
        items.push(value)?;
        if more >= rest.len() {
            return Ok(items);
        }
        first = &rest[more];
        rest = lines_after(rest, more + 1);
    }
}

// The pairs of lines of which the first has a key.
#[cycle(block)]
fn mapping<'l, 'a>(
    alloc: Global,
    depth: u32,
    head: &'l TextLine<'a>,
    body: &'l [TextLine<'a>],
) -> Result<Hash, YamlError>
    ensures { ReadsLines result (mapping_pairs depth (block depth) (indent head.now) head.now body.now) }
{
    let indent = head.indent();
    let mut pairs = Hash::new(alloc);
    let mut first = head;
    let mut rest = body;
    loop {
        let more = before_pair(indent, rest);
        let (name, value) = match pair(alloc, depth, indent, first, first_lines(rest, more)) {
            Ok(pair) => pair,
            Err(error) => return Err(error),
        };
        put(&mut pairs, name, value)?;
        if more >= rest.len() {
            return Ok(pairs);
        }
        first = &rest[more];
        rest = lines_after(rest, more + 1);
    }
}

// The value of an item: of its first line, at the indent of the sequence, and the lines up to the next item.
#[cycle(block)]
fn item<'l, 'a>(
    alloc: Global,
    depth: u32,
    indent: usize,
    head: &'l TextLine<'a>,
    more: &'l [TextLine<'a>],
) -> Result<Value, YamlError>
    requires { indent < 2 ^ 63 }
    ensures { Gives result (at_indent indent head.now (item_value depth (block depth) indent (entry head.now more.now))) }
{
    if let Some(fault) = indent_fault(indent, head) {
        return Err(YamlError::Fault(fault));
    }
    let text = head.inside();
    if !is_dash(text) {
        return Err(YamlError::at(head.number(), YamlKind::Outside));
    }
    let place = dash_len(text);
    item_at(alloc, depth, indent, head, place, more)
}

// The same, where the value starts some bytes behind the `-`'s column.
#[cycle(block)]
fn item_at<'l, 'a>(
    alloc: Global,
    depth: u32,
    indent: usize,
    head: &'l TextLine<'a>,
    place: usize,
    more: &'l [TextLine<'a>],
) -> Result<Value, YamlError>
    requires small { indent < 2 ^ 63 }
    requires within { place ≤ length (inside head.now) }
    requires no_space { starts 32 (drop place (inside head.now)) ≡ false }
    ensures { Gives result (item_at depth (block depth) indent head.now place more.now) }
{
    let text = tail(head.inside(), place);
    if starts_block(text) {
        let inner = head.from_place(place);
        block(alloc, depth, indent + 1, &inner, &*more)
    } else {
        entry_value(alloc, depth, indent + 1, head, text, more)
    }
}

// A key with its value: of their first line, at the indent of the mapping, and the lines up to the next key.
#[cycle(block)]
fn pair<'l, 'a>(
    alloc: Global,
    depth: u32,
    indent: usize,
    head: &'l TextLine<'a>,
    more: &'l [TextLine<'a>],
) -> Result<(Text, Value), YamlError>
    requires { indent < 2 ^ 63 }
    ensures { GivesPair result (at_indent indent head.now (pair_at depth (block depth) indent (entry head.now more.now))) }
{
    if let Some(fault) = indent_fault(indent, head) {
        return Err(YamlError::Fault(fault));
    }
    match line_key(alloc, head) {
        Ok(Some((name, len))) => {
            let text = tail(head.inside(), value_place(head.inside(), len));
            match entry_value(alloc, depth, indent + 1, head, text, more) {
                Ok(value) => Ok((name, value)),
                Err(error) => Err(error),
            }
        }
        Ok(None) => match no_key_fault(alloc, indent + 1, head, more) {
            Ok(fault) => Err(YamlError::Fault(fault)),
            Err(_) => Err(YamlError::Memory),
        },
        Err(error) => Err(error),
    }
}

// The value that starts with a text at the end of a line, or stands below it.
#[cycle(block)]
fn entry_value<'l, 'a>(
    alloc: Global,
    depth: u32,
    floor: usize,
    line: &'l TextLine<'a>,
    text: &'l [u8],
    body: &'l [TextLine<'a>],
) -> Result<Value, YamlError>
    ensures { Gives result (entry_value depth (block depth) floor line.now text.now body.now) }
{
    if is_empty(text) || starts(text, b'#') {
        below(alloc, depth, floor, body)
    } else if starts(text, b'|') || starts(text, b'>') {
        scalar_lines(alloc, floor, line, text, body)
    } else {
        leaf_lines(alloc, depth, floor, line, text, body)
    }
}

/// The value of the lines below an entry, or of a whole text; the lines have this indent at least.
#[cycle(block)]
pub(crate) fn below<'l, 'a>(
    alloc: Global,
    depth: u32,
    floor: usize,
    body: &'l [TextLine<'a>],
) -> Result<Value, YamlError>
    ensures { Gives result (below (block depth) floor body.now) }
{
    let idle = idle_lines(body);
    if idle == body.len() {
        return Ok(Value::Nil);
    }
    below_first(alloc, depth, floor, &body[idle], &body[idle + 1..])
}

// The value of lines below an entry, of which the first carries something.
#[cycle(block)]
fn below_first<'l, 'a>(
    alloc: Global,
    depth: u32,
    floor: usize,
    first: &'l TextLine<'a>,
    rest: &'l [TextLine<'a>],
) -> Result<Value, YamlError>
    ensures { Gives result (below_first (block depth) floor first.now rest.now) }
{
    if first.has_tab() {
        return Err(YamlError::at(first.number(), YamlKind::Tab));
    }
    if floor <= first.indent() {
        let more = belonging(floor, rest);
        match block(alloc, depth, floor, first, first_lines(rest, more)) {
            Ok(value) => none_left(floor, lines_after(rest, more), value),
            Err(error) => Err(error),
        }
    } else {
        block(alloc, depth, first.indent(), first, rest)
    }
}
