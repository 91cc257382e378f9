// What filters look up that choose among items or sort them, over a look that answers from a table; tests/liquid has the rows of other values.
ghost use Rattle.site_base.specs.Plain.{text};
ghost use Rattle.read_record.specs.Answers.{IsReply};
ghost use Rattle.read_record.specs.Queries.{Known};
ghost use Rattle.liquid_filters.specs.Samples.{item_reply, item_view};

use crate::filters::fault_text;
use filter_base::Filtered;
use liquid_filters::filter;
use read_record::{Answer, Key, Look};
use site_base::{ItemName, List, Memory, SitePath, Text, Value, same_code};
use std::alloc::Global;
use std::test::Fail;

/// It answers for four items, the parts of one path, and keeps what it was asked: the part for a variable, `c` and `o`
/// for a content and an output.
#[derive(Drop)]
struct Items {
    asked: String,
}

impl Look for Items {
    ghost use Rattle.std.specs.Prelude.{None};
    ghost use Rattle.liquid_filters.specs.Samples.{item_view, item-formed};

    ghost view = { λ _. item_view };

    ghost trace = { λ _. None };

    ghost formed = { λ _. item-formed };

    fn look(&mut self, alloc: Global, key: &Key) -> Answer {
        match self.asked.push(letter(key)) {
            Ok(()) => answer(alloc, key),
            Err(_) => Answer::Memory,
        }
    }
}

fn letter(key: &Key) -> char {
    match key {
        Key::Var(name, _) => char::from(b'0' + (name.part % 10) as u8),
        Key::Content(_) => 'c',
        Key::Output(_) => 'o',
        _ => '?',
    }
}

fn answer(alloc: Global, key: &Key) -> Answer
    ensures { IsReply (item_view key.now) result }
{
    match key {
        Key::Var(name, _) => variable(alloc, name.part),
        Key::Content(_) => word(alloc, "c"),
        Key::Output(_) => word(alloc, "o"),
        Key::Moment => Answer::Seen(Value::Int(0)),
        _ => Answer::Seen(Value::Nil),
    }
}

fn variable(alloc: Global, part: u32) -> Answer
    ensures { IsReply (item_reply part) result }
{
    if part == 0 {
        word(alloc, "b")
    } else if part == 1 {
        word(alloc, "a")
    } else if part == 2 {
        Answer::Seen(Value::Nil)
    } else {
        Answer::Needs(7)
    }
}

fn word(alloc: Global, letters: &str) -> Answer
    ensures { IsReply (Known (text letters.now)) result }
{
    match Text::copy(alloc, letters) {
        Ok(text) => Answer::Seen(Value::Text(text)),
        Err(_) => Answer::Memory,
    }
}

/// A value without parts.
#[derive(Clone, Copy)]
enum One {
    Nil,
    Text(&'static str),
    Item(u32),
}

/// An input, as rows have it.
#[derive(Clone, Copy)]
enum Given {
    One(One),
    List(&'static [One]),
}

fn value_of(alloc: Global, given: &One) -> Result<Value, Memory> {
    match given {
        One::Nil => Ok(Value::Nil),
        One::Text(text) => Ok(Value::Text(Text::copy(alloc, text)?)),
        One::Item(part) => item_of(alloc, *part),
    }
}

fn item_of(alloc: Global, part: u32) -> Result<Value, Memory> {
    match SitePath::read(alloc, "a") {
        Ok(path) => Ok(Value::Item(ItemName { path, part })),
        Err(_) => Err(Memory),
    }
}

fn list_of(alloc: Global, given: &[One]) -> Result<List, Memory> {
    let mut list = List::new(alloc);
    for value in given {
        list.push(value_of(alloc, value)?)?;
    }
    Ok(list)
}

fn input_of(alloc: Global, given: &Given) -> Result<Value, Memory> {
    match given {
        Given::One(given) => value_of(alloc, given),
        Given::List(given) => Ok(Value::List(list_of(alloc, given)?)),
    }
}

// Name, input, arguments, what it gives, what it asks.
type Row = (
    &'static str,
    Given,
    &'static [One],
    &'static str,
    &'static str,
);

fn gives(alloc: Global, row: &Row) -> Result<bool, Memory> {
    let input = input_of(alloc, &row.1)?;
    let args = list_of(alloc, row.2)?;
    let mut look = Items {
        asked: String::new(alloc),
    };
    let made = is_made(alloc, row.0, &input, args.as_slice(), &mut look, row.3)?;
    Ok(made && look.asked.as_str() == row.4)
}

fn is_made(
    alloc: Global,
    name: &str,
    input: &Value,
    args: &[Value],
    look: &mut Items,
    wanted: &str,
) -> Result<bool, Memory> {
    match filter(alloc, name, input, args, look) {
        Filtered::Value(value) => Ok(same_code(&value, wanted.as_bytes())),
        Filtered::Fault(kind) => Ok(fault_text(kind) == wanted),
        Filtered::Unknown => Ok(false),
        Filtered::Needs(item) => Ok(item == 7 && wanted == "needs"),
        Filtered::Memory => Err(Memory),
    }
}

const ITEMS: &[One] = &[One::Item(0), One::Item(1), One::Item(2), One::Item(0)];

const KEY: One = One::Text("k");

const K: &[One] = &[KEY];

const CHOICES: &[Row] = &[
    (
        "compact",
        Given::List(ITEMS),
        K,
        "l3:ps1:a0;ps1:a1;ps1:a0;",
        "0120",
    ),
    ("compact", Given::One(One::Item(3)), K, "needs", "3"),
    (
        "uniq",
        Given::List(ITEMS),
        &[],
        "l3:ps1:a0;ps1:a1;ps1:a2;",
        "",
    ),
    (
        "uniq",
        Given::List(ITEMS),
        &[One::Text("content")],
        "l1:ps1:a0;",
        "cccc",
    ),
    (
        "map",
        Given::List(ITEMS),
        &[One::Text("v")],
        "l4:s1:bs1:ans1:b",
        "0120",
    ),
    (
        "map",
        Given::List(ITEMS),
        &[One::Text("output")],
        "l4:s1:os1:os1:os1:o",
        "oooo",
    ),
    (
        "map",
        Given::List(&[One::Item(1), One::Item(3), One::Item(0)]),
        K,
        "needs",
        "13",
    ),
    ("map", Given::One(One::Item(1)), K, "l1:s1:a", "1"),
    ("map", Given::List(ITEMS), &[], "F14", ""),
    ("map", Given::List(ITEMS), &[One::Nil, One::Nil], "F14", ""),
];

#[test]
fn chooses(rt: HostRuntime) -> Result<(), Fail> {
    for row in CHOICES {
        assert!(rt; gives(rt.alloc(), row) == Ok(true));
    }
    Ok(())
}

const WHERES: &[Row] = &[
    (
        "where",
        Given::List(ITEMS),
        &[KEY, One::Text("b")],
        "l2:ps1:a0;ps1:a0;",
        "0120",
    ),
    (
        "where",
        Given::List(ITEMS),
        &[KEY, One::Nil],
        "l1:ps1:a2;",
        "0120",
    ),
    (
        "where",
        Given::List(&[One::Item(3)]),
        &[KEY, One::Nil],
        "needs",
        "3",
    ),
    (
        "where",
        Given::One(One::Item(1)),
        &[KEY, One::Text("a")],
        "l1:ps1:a1;",
        "1",
    ),
];

#[test]
fn keeps_what_is_wanted(rt: HostRuntime) -> Result<(), Fail> {
    for row in WHERES {
        assert!(rt; gives(rt.alloc(), row) == Ok(true));
    }
    Ok(())
}

const SORTS: &[Row] = &[
    (
        "sort",
        Given::List(ITEMS),
        &[KEY],
        "l4:ps1:a2;ps1:a1;ps1:a0;ps1:a0;",
        "0120",
    ),
    (
        "sort",
        Given::List(ITEMS),
        &[KEY, One::Text("last")],
        "l4:ps1:a1;ps1:a0;ps1:a0;ps1:a2;",
        "0120",
    ),
    (
        "sort",
        Given::List(&[One::Item(2), One::Item(1)]),
        &[One::Text("content")],
        "l2:ps1:a2;ps1:a1;",
        "cc",
    ),
    (
        "sort",
        Given::List(&[One::Item(3), One::Item(1)]),
        K,
        "needs",
        "3",
    ),
    (
        "sort_natural",
        Given::List(ITEMS),
        K,
        "l4:ps1:a2;ps1:a1;ps1:a0;ps1:a0;",
        "0120",
    ),
    (
        "sort_natural",
        Given::List(&[One::Item(3)]),
        K,
        "needs",
        "3",
    ),
];

#[test]
fn sorts(rt: HostRuntime) -> Result<(), Fail> {
    for row in SORTS {
        assert!(rt; gives(rt.alloc(), row) == Ok(true));
    }
    Ok(())
}
