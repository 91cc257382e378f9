// What operands stand for, as codes of values.
ghost use Rattle.std.specs.Prelude.{◌≡◌};
ghost use Rattle.site_base.specs.Plain.{text};
ghost use Rattle.read_record.specs.Answers.{IsReply};
ghost use Rattle.read_record.specs.Queries.{Known};

use liquid_expr::read_expr;
use liquid_values::{
    Bound, Excerpts, ForLoop, Found, Locals, Mode, Place, Stop, operand, own_excerpt,
};
use read_record::{Answer, Key, Look};
use site_base::{FaultKind, Hash, ItemName, List, Memory, SitePath, Text, Value, same_code};
use std::alloc::Global;
use std::test::Fail;

/// Each variable has its name as its value.
#[derive(Drop)]
struct Echo;

fn answer(alloc: Global, words: &str) -> Answer
    ensures { IsReply (Known (text words.now)) result }
{
    match Text::copy(alloc, words) {
        Ok(words) => Answer::Seen(Value::Text(words)),
        Err(_) => Answer::Memory,
    }
}

impl Look for Echo {
    ghost use Rattle.std.specs.Prelude.{None};
    ghost use Rattle.liquid_values.specs.Samples.{echo, echo-formed};

    ghost view = { λ _. echo };

    ghost trace = { λ _. None };

    ghost formed = { λ _. echo-formed };

    fn look(&mut self, alloc: Global, key: &Key) -> Answer {
        match key {
            Key::Source(_) => answer(alloc, "source"),
            Key::Content(_) => answer(alloc, "content"),
            Key::Output(_) => answer(alloc, "output"),
            Key::Var(_, name) => answer(alloc, name.as_str()),
            Key::SiteVar(name) => answer(alloc, name.as_str()),
            Key::Moment => Answer::Seen(Value::Int(0)),
            _ => Answer::Seen(Value::Nil),
        }
    }
}

/// No excerpt is made.
#[derive(Drop)]
struct Own;

impl Excerpts for Own {
    ghost use Rattle.liquid_values.specs.Samples.{own};

    ghost excerpts = { own };

    fn excerpt<'a, L: Look>(
        &mut self,
        alloc: Global,
        _place: &Place<'a>,
        item: &ItemName,
        look: &mut L,
    ) -> Result<Found<'a>, Stop> {
        own_excerpt(alloc, item, look)
    }
}

// `x` is a list of two, `h` a hash.
fn assigned(alloc: Global) -> Result<Hash, Memory> {
    let mut list = List::new(alloc);
    list.push(Value::Int(7))?;
    list.push(Value::Text(Text::copy(alloc, "é")?))?;
    let mut inner = Hash::new(alloc);
    inner.set(Text::copy(alloc, "size")?, Value::Int(9))?;
    let mut hash = Hash::new(alloc);
    hash.set(Text::copy(alloc, "x")?, Value::List(list))?;
    hash.set(Text::copy(alloc, "h")?, Value::Hash(inner))?;
    Ok(hash)
}

fn fault_text(kind: FaultKind) -> &'static str {
    match kind {
        FaultKind::Overflow => "F16",
        FaultKind::Fraction => "F17",
        _ => "another fault",
    }
}

fn page(alloc: Global) -> Result<ItemName, Memory> {
    match SitePath::read(alloc, "p.html") {
        Ok(path) => Ok(ItemName { path, part: 0 }),
        Err(_) => Err(Memory),
    }
}

// Whether an operand has a value of this code, or this fault.
fn has(alloc: Global, mode: &Mode, row: &(&str, &str)) -> Result<bool, Memory> {
    let page = page(alloc)?;
    let assigned = assigned(alloc)?;
    let outer = ForLoop {
        len: 2,
        passed: 1,
        parent: None,
    };
    let turn = ForLoop {
        len: 3,
        passed: 0,
        parent: Some(&outer),
    };
    let locals = Locals::Local {
        name: "forloop",
        bound: Bound::ForLoop(&turn),
        outer: &Locals::Nothing,
    };
    let place = Place {
        file: &page.path,
        line: 4,
        page: &page,
        mode,
        locals: &locals,
        around: Some(&turn),
        looping: true,
        quiet: false,
        tested: true,
        levels: 100,
    };
    let expr = match read_expr(alloc, row.0) {
        Ok(expr) => expr,
        Err(_) => return Ok(false),
    };
    match operand(alloc, &mut Own, &place, &assigned, &expr.operand, &mut Echo) {
        Ok(value) => Ok(same_code(&value, row.1.as_bytes())),
        Err(Stop::Fault(fault)) => Ok(fault_text(fault.kind) == row.1 && fault.line == 4),
        Err(Stop::Needs(_)) => Ok(false),
        Err(Stop::Memory) => Err(Memory),
    }
}

const OPERANDS: &[(&str, &str)] = &[
    ("\"a\"", "s1:a"),
    ("1.50", "s4:1.50"),
    ("nil", "n"),
    ("blank", "n"),
    ("(1..\"3\")", "r1;3;"),
    ("(1..nope)", "r1;0;"),
    ("(1..\"1.5\")", "F17"),
    ("(\"9223372036854775808\"..1)", "F16"),
    ("nope", "n"),
    ("nope.a.b", "n"),
    ("x[0]", "i7;"),
    ("x[-1]", "s2:é"),
    ("x[-3]", "n"),
    ("x[2]", "n"),
    ("x.size", "i2;"),
    ("x.first", "i7;"),
    ("x[\"last\"]", "s2:é"),
    ("x.last.size", "i1;"),
    ("x[x.first]", "n"),
    ("h.size", "i9;"),
    ("h[0]", "n"),
    ("h.first", "n"),
    ("forloop.index", "i1;"),
    ("forloop.rindex0", "i2;"),
    ("forloop.parentloop.index", "i2;"),
    ("forloop.parentloop.last", "t"),
    ("forloop[\"size\"]", "i8;"),
    ("jekyll.version", "s1:4"),
];

const NAMES: &[(&str, &str)] = &[
    ("page", "ps6:p.html0;"),
    ("page.title", "s5:title"),
    ("page[page.title]", "s5:title"),
    ("page.content", "s7:content"),
    ("page.output", "s6:output"),
    ("page.excerpt", "s7:excerpt"),
    ("site", "n"),
    ("site.title", "s5:title"),
    ("site[\"title\"]", "s5:title"),
    ("site[0]", "n"),
    ("site.data", "n"),
    ("site.time", "s25:1970-01-01 00:00:00 +0000"),
    ("site.related_posts", "n"),
    ("content", "n"),
    ("paginator", "n"),
];

#[test]
fn operands_have_values(rt: HostRuntime) -> Result<(), Fail> {
    for row in OPERANDS {
        assert!(rt; has(rt.alloc(), &Mode::Body, row) == Ok(true));
    }
    Ok(())
}

#[test]
fn names_stand_for_what_is_looked_up(rt: HostRuntime) -> Result<(), Fail> {
    for row in NAMES {
        assert!(rt; has(rt.alloc(), &Mode::Body, row) == Ok(true));
    }
    Ok(())
}

const IN_AN_EXCERPT: &[(&str, &str)] = &[
    ("page.content", "s6:source"),
    ("page.output", "n"),
    ("page.title", "s5:title"),
];

#[test]
fn an_excerpt_sees_sources(rt: HostRuntime) -> Result<(), Fail> {
    for row in IN_AN_EXCERPT {
        assert!(rt; has(rt.alloc(), &Mode::Excerpt, row) == Ok(true));
    }
    Ok(())
}
