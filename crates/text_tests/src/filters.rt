// The values of filters that `jsonify` does not tell apart, and a fault; tests/liquid has the rows.
use filter_base::Filtered;
use liquid_filters::filter;
use read_record::{Answer, Key, Look};
use site_base::{FaultKind, Memory, Text, Value, same_code};
use std::alloc::Global;
use std::test::Fail;

// It finds nothing.
#[derive(Drop)]
struct Blank;

impl Look for Blank {
    ghost use Rattle.std.specs.Prelude.{None};
    ghost use Rattle.liquid_filters.specs.Samples.{blank_view, blank-formed};

    ghost view = { λ _. blank_view };

    ghost trace = { λ _. None };

    ghost formed = { λ _. blank-formed };

    fn look(&mut self, _alloc: Global, key: &Key) -> Answer {
        match key {
            Key::Moment => Answer::Seen(Value::Int(0)),
            _ => Answer::Seen(Value::Nil),
        }
    }
}

pub(crate) fn fault_text(kind: FaultKind) -> &'static str {
    match kind {
        FaultKind::FilterArgument => "F14",
        FaultKind::RangeTooLong => "F19",
        _ => "another fault",
    }
}

// Whether a filter without arguments gives a value of this code, or the fault.
fn gives(alloc: Global, name: &str, input: &Value, want: &str) -> bool {
    match filter(alloc, name, input, &[], &mut Blank) {
        Filtered::Value(value) => same_code(&value, want.as_bytes()),
        Filtered::Fault(kind) => fault_text(kind) == want,
        Filtered::Unknown => want == "unknown",
        Filtered::Needs(_) => false,
        Filtered::Memory => false,
    }
}

#[test]
fn gives_values(rt: HostRuntime) -> Result<(), Fail> {
    let alloc = rt.alloc();
    assert!(rt; gives(alloc, "abs", &Value::Int(-5), "i5;"));
    assert!(rt; gives(alloc, "reverse", &Value::Range(-1, 1), "l3:i1;i0;i-1;"));
    let spaced = Value::Text(Text::copy(alloc, " a ")?);
    assert!(rt; gives(alloc, "strip", &spaced, "s1:a"));
    assert!(rt; gives(alloc, "size", &Value::Range(0, 1_000_000), "F19"));
    assert!(rt; gives(alloc, "nope", &Value::Int(1), "unknown"));
    Ok(())
}

// Whether the filter of dates gives a value of this code for a pattern.
fn dates(alloc: Global, input: &Value, want: &str) -> Result<bool, Memory> {
    let mut args = Vec::new(alloc);
    args.push(Value::Text(Text::copy(alloc, "%Y")?))?;
    match filter(alloc, "date", input, args.as_slice(), &mut Blank) {
        Filtered::Value(value) => Ok(same_code(&value, want.as_bytes())),
        _ => Ok(false),
    }
}

#[test]
fn what_is_no_date_stays(rt: HostRuntime) {
    assert!(rt; dates(rt.alloc(), &Value::Range(1, 2), "r1;2;") == Ok(true));
    assert!(rt; dates(rt.alloc(), &Value::Nil, "n") == Ok(true));
}
