// What filters of Jekyll look up, and what they give, as texts of codes of values; tests/liquid has the rows of what they give.
ghost use Rattle.site_base.specs.Plain.{text as plain_text};
ghost use Rattle.read_record.specs.Queries.{Known};
ghost use Rattle.read_record.specs.Answers.{IsReply};
ghost use Rattle.jekyll_filters.specs.Samples.{site_value, site_view};

use filter_base::Filtered;
use jekyll_filters::jekyll_filter;
use markdown_grammar::{Convert, HtmlError};
use read_record::{Answer, Key, Look};
use site_base::{FaultKind, Hash, ItemName, List, Memory, SitePath, Text, Value, same_code};
use std::alloc::{AllocError, Global};
use std::test::Fail;

// A small site, which notes what is looked up.
#[derive(Drop)]
struct Site {
    asked: String,
}

impl Look for Site {
    ghost use Rattle.std.specs.Prelude.{None};
    ghost use Rattle.jekyll_filters.specs.Samples.{site_view, site-formed};

    ghost view = { λ _. site_view };

    ghost trace = { λ _. None };

    ghost formed = { λ _. site-formed };

    fn look(&mut self, alloc: Global, key: &Key) -> Answer {
        match note(&mut self.asked, key) {
            Ok(()) => answer(alloc, key),
            Err(_) => Answer::Memory,
        }
    }
}

fn answer(alloc: Global, key: &Key) -> Answer
    ensures { IsReply (site_view key.now) result }
{
    match key {
        Key::SiteVar(name) => site_value(alloc, name.as_str()),
        Key::Var(item, _) => text_answer(alloc, item.path.text()),
        Key::Moment => Answer::Seen(Value::Int(86_400)),
        _ => Answer::Seen(Value::Nil),
    }
}

fn note(asked: &mut String, key: &Key) -> Result<(), AllocError> {
    match key {
        Key::SiteVar(name) => asked.push_str(name.as_str())?,
        Key::Var(item, name) => {
            asked.push_str(item.path.text())?;
            asked.push('.')?;
            asked.push_str(name.as_str())?;
        }
        Key::Moment => asked.push_str("moment")?,
        _ => asked.push_str("another key")?,
    }
    asked.push(' ')
}

fn site_value(alloc: Global, name: &str) -> Answer
    ensures { IsReply (Known (site_value name.now)) result }
{
    if name == "baseurl" {
        text_answer(alloc, "/blog/")
    } else if name == "url" {
        text_answer(alloc, "http://a.b")
    } else if name == "timezone" {
        text_answer(alloc, "+02:00")
    } else {
        Answer::Seen(Value::Nil)
    }
}

fn text_answer(alloc: Global, text: &str) -> Answer
    ensures { IsReply (Known (plain_text text.now)) result }
{
    match Text::copy(alloc, text) {
        Ok(text) => Answer::Seen(Value::Text(text)),
        Err(_) => Answer::Memory,
    }
}

// It is short of memory, whatever it is given.
struct Short;

impl Convert for Short {
    fn html(&self, _alloc: Global, _text: &str, _most: u64) -> Result<Text, HtmlError> {
        Err(HtmlError::Memory)
    }
}

// A value, as rows have it.
#[derive(Clone, Copy)]
enum Given {
    Absent,
    Nil,
    Int(i64),
    Text(&'static str),
    Range(i64, i64),
    // An item of the site, by its path.
    Item(&'static str),
    // A list of a number, nil and a text.
    Mixed,
    // A hash of `b`, a list of an item with the path `q` and a flag, and `a`, an item with the path `p`.
    Pairs,
    // A list of the items with the paths `p`, `q` and `p`.
    Posts,
    // As arguments: two of them.
    Two,
}

fn item(alloc: Global, path: &str) -> Result<ItemName, Memory> {
    match SitePath::read(alloc, path) {
        Ok(path) => Ok(ItemName { path, part: 0 }),
        Err(_) => Err(Memory),
    }
}

fn mixed(alloc: Global) -> Result<List, Memory> {
    let mut list = List::new(alloc);
    list.push(Value::Int(1))?;
    list.push(Value::Nil)?;
    list.push(Value::Text(Text::copy(alloc, "é")?))?;
    Ok(list)
}

fn posts(alloc: Global) -> Result<List, Memory> {
    let mut list = List::new(alloc);
    list.push(Value::Item(item(alloc, "p")?))?;
    list.push(Value::Item(item(alloc, "q")?))?;
    list.push(Value::Item(item(alloc, "p")?))?;
    Ok(list)
}

fn pairs(alloc: Global) -> Result<Hash, Memory> {
    let mut hash = Hash::new(alloc);
    let mut list = List::new(alloc);
    list.push(Value::Item(item(alloc, "q")?))?;
    list.push(Value::Bool(false))?;
    hash.set(Text::copy(alloc, "b")?, Value::List(list))?;
    hash.set(Text::copy(alloc, "a")?, Value::Item(item(alloc, "p")?))?;
    Ok(hash)
}

fn value(alloc: Global, given: &Given) -> Result<Value, Memory> {
    match given {
        Given::Absent => Ok(Value::Nil),
        Given::Nil => Ok(Value::Nil),
        Given::Int(number) => Ok(Value::Int(*number)),
        Given::Text(text) => Ok(Value::Text(Text::copy(alloc, text)?)),
        Given::Range(first, last) => Ok(Value::Range(*first, *last)),
        Given::Item(path) => Ok(Value::Item(item(alloc, path)?)),
        Given::Mixed => Ok(Value::List(mixed(alloc)?)),
        Given::Pairs => Ok(Value::Hash(pairs(alloc)?)),
        Given::Posts => Ok(Value::List(posts(alloc)?)),
        Given::Two => Ok(Value::Nil),
    }
}

fn arguments(alloc: Global, given: &Given) -> Result<Vec<Value>, Memory> {
    let mut args = Vec::new(alloc);
    match given {
        Given::Absent => {}
        Given::Two => {
            args.push(Value::Int(1))?;
            args.push(Value::Int(2))?;
        }
        _ => args.push(value(alloc, given)?)?,
    }
    Ok(args)
}

fn is_answer(answer: &Filtered, wanted: &str) -> bool {
    match answer {
        Filtered::Value(value) => same_code(value, wanted.as_bytes()),
        Filtered::Fault(FaultKind::FilterArgument) => wanted == "F14",
        Filtered::Fault(_) => wanted == "another fault",
        Filtered::Needs(_) => false,
        Filtered::Unknown => wanted == "unknown",
        Filtered::Memory => wanted == "memory",
    }
}

// A filter's name, its input and its argument, the code of what it gives, or its fault, and what is looked up, in this order.
type Row = (&'static str, Given, Given, &'static str, &'static str);

fn gives(alloc: Global, row: &Row) -> Result<bool, Memory> {
    let input = value(alloc, &row.1)?;
    let args = arguments(alloc, &row.2)?;
    let mut site = Site {
        asked: String::new(alloc),
    };
    let answer = jekyll_filter(alloc, row.0, &input, args.as_slice(), &mut site, &Short);
    Ok(is_answer(&answer, row.3) && site.asked.as_str() == row.4)
}

const OTHERS: &[Row] = &[
    ("slugify", Given::Text("A b!"), Given::Absent, "s3:a-b", ""),
    ("pop", Given::Range(1, 3), Given::Absent, "l2:i1;i2;", ""),
    ("push", Given::Mixed, Given::Two, "F14", ""),
    ("upcase", Given::Text("a"), Given::Absent, "unknown", ""),
];

#[test]
fn filters_that_look_nothing_up(rt: HostRuntime) -> Result<(), Fail> {
    for row in OTHERS {
        assert!(rt; gives(rt.alloc(), row) == Ok(true));
    }
    Ok(())
}

const LOOKED_UP: &[Row] = &[
    (
        "relative_url",
        Given::Text("a/b"),
        Given::Absent,
        "s9:/blog/a/b",
        "baseurl ",
    ),
    (
        "relative_url",
        Given::Text("/a"),
        Given::Absent,
        "s7:/blog/a",
        "baseurl ",
    ),
    (
        "relative_url",
        Given::Nil,
        Given::Absent,
        "s5:/blog",
        "baseurl ",
    ),
    (
        "relative_url",
        Given::Text("a+b.c-1:x"),
        Given::Absent,
        "s9:a+b.c-1:x",
        "",
    ),
    (
        "relative_url",
        Given::Text("1:x"),
        Given::Absent,
        "s9:/blog/1:x",
        "baseurl ",
    ),
    ("relative_url", Given::Text("a"), Given::Nil, "F14", ""),
    (
        "absolute_url",
        Given::Text("a"),
        Given::Absent,
        "s17:http://a.b/blog/a",
        "url baseurl ",
    ),
    (
        "absolute_url",
        Given::Text("mailto:a"),
        Given::Absent,
        "s8:mailto:a",
        "",
    ),
    (
        "date_to_string",
        Given::Text("2020-01-02"),
        Given::Absent,
        "s11:02 Jan 2020",
        "timezone ",
    ),
    (
        "date_to_long_string",
        Given::Text("2020-01-02 23:30:00 +0000"),
        Given::Absent,
        "s15:03 January 2020",
        "timezone ",
    ),
    (
        "date_to_xmlschema",
        Given::Int(0),
        Given::Absent,
        "s25:1970-01-01T02:00:00+02:00",
        "timezone ",
    ),
    (
        "date_to_rfc822",
        Given::Text("now"),
        Given::Absent,
        "s31:Fri, 02 Jan 1970 02:00:00 +0200",
        "moment timezone ",
    ),
    (
        "date_to_string",
        Given::Text("x"),
        Given::Absent,
        "s1:x",
        "timezone ",
    ),
    ("date_to_string", Given::Nil, Given::Absent, "n", ""),
    (
        "date_to_string",
        Given::Int(1),
        Given::Text("ordinal"),
        "F14",
        "",
    ),
];

#[test]
fn filters_that_look_things_up(rt: HostRuntime) -> Result<(), Fail> {
    for row in LOOKED_UP {
        assert!(rt; gives(rt.alloc(), row) == Ok(true));
    }
    Ok(())
}

const GROUPS: &[Row] = &[
    (
        "group_by",
        Given::Posts,
        Given::Text("k"),
        "l2:h3:s4:names1:ps5:itemsl2:ps1:p0;ps1:p0;s4:sizei2;h3:s4:names1:qs5:itemsl1:ps1:q0;s4:sizei1;",
        "p.k q.k p.k ",
    ),
    ("group_by", Given::Posts, Given::Absent, "F14", ""),
];

#[test]
fn groups(rt: HostRuntime) -> Result<(), Fail> {
    for row in GROUPS {
        assert!(rt; gives(rt.alloc(), row) == Ok(true));
    }
    Ok(())
}

const JSON: &[Row] = &[
    (
        "jsonify",
        Given::Pairs,
        Given::Absent,
        "s25:{\"a\":\"p\",\"b\":[\"q\",false]}",
        "q.url p.url ",
    ),
    (
        "jsonify",
        Given::Item("p"),
        Given::Absent,
        "s3:\"p\"",
        "p.url ",
    ),
    ("jsonify", Given::Item("p"), Given::Nil, "F14", ""),
    ("markdownify", Given::Text("a"), Given::Absent, "memory", ""),
];

#[test]
fn json_and_html(rt: HostRuntime) -> Result<(), Fail> {
    for row in JSON {
        assert!(rt; gives(rt.alloc(), row) == Ok(true));
    }
    Ok(())
}
