// Faults that a site has only where it wants them.
ghost use Rattle.std.specs.Prelude.{◌≡◌};
ghost use Rattle.std.specs.Option.{option_map};
ghost use Rattle.site_base.specs.View.{plain};
ghost use Rattle.read_record.specs.Queries.{run};
ghost use Rattle.read_record.specs.Answers.{Finds};
ghost use Rattle.liquid_values.specs.Answers.{in_found, in_plain, FoundAt};
ghost use Rattle.liquid_values.specs.Names as names;
ghost use Rattle.liquid_values.specs.Standing.{place_of};
ghost use Rattle.liquid_values.specs.StrictOptions.{allowed, asked, defined, fault_of, name_of, present, sets, undefined, unknown_filter, unless_strict};

use crate::found::Found;
use crate::place::Place;
use crate::site_members::site_variable;
use crate::stop::Stop;
use read_record::{Key, Look, ask};
use site_base::{FaultKind, Value, copy};
use std::alloc::Global;

/// An option of a site by which it has more faults.
#[derive(Clone, Copy)]
pub(crate) enum StrictOption {
    /// What is undefined is a fault.
    Variables,
    /// A filter whose name no filter has is a fault.
    Filters,
}

impl StrictOption {
    fn name(self) -> &'static str
        ensures { result.now ≡ name_of self }
    {
        match self {
            StrictOption::Variables => "strict_variables",
            StrictOption::Filters => "strict_filters",
        }
    }

    fn fault(self) -> FaultKind
        ensures { result ≡ fault_of self }
    {
        match self {
            StrictOption::Variables => FaultKind::Undefined,
            StrictOption::Filters => FaultKind::UnknownFilter,
        }
    }

    // Whether the settings have it.
    fn is_set(self, settings: &Value) -> bool
        ensures { result ≡ sets self (plain settings.now) }
    {
        match settings {
            Value::Hash(hash) => matches!(hash.get(self.name()), Some(Value::Bool(true))),
            _ => false,
        }
    }
}

// A value, or the fault of the tag where these settings, the site's `liquid`, have the option.
fn allowed<'a>(
    alloc: Global,
    place: &Place<'a>,
    option: StrictOption,
    value: Value,
    settings: &Value,
) -> Result<Value, Stop>
    ensures { FoundAt (place_of place.now) (allowed option (plain value) (plain settings.now)) (in_plain result) }
{
    if option.is_set(settings) {
        Err(place.fault(alloc, option.fault()))
    } else {
        Ok(value)
    }
}

// The same, by the settings that are looked up.
fn unless_strict<'a, L: Look>(
    alloc: Global,
    place: &Place<'a>,
    option: StrictOption,
    value: Value,
    look: &mut L,
) -> Result<Value, Stop>
    ensures same { L.view look.new ≡ L.view look.old }
    ensures gives { Finds (run (L.view look.old) (L.trace look.old) (unless_strict (place_of place.now) option (plain value))) (in_plain result) (L.trace look.new) }
{
    let settings = site_variable(alloc, "liquid", look)?;
    allowed(alloc, place, option, value, &settings)
}

// What is undefined: nil, or a fault where it is tested and the site wants that.
fn undefined<'a, L: Look>(alloc: Global, place: &Place<'a>, look: &mut L) -> Result<Value, Stop>
    ensures same { L.view look.new ≡ L.view look.old }
    ensures gives { Finds (run (L.view look.old) (L.trace look.old) (undefined (place_of place.now))) (in_plain result) (L.trace look.new) }
{
    if place.tested {
        unless_strict(alloc, place, StrictOption::Variables, Value::Nil, look)
    } else {
        Ok(Value::Nil)
    }
}

fn defined<'a, L: Look>(
    alloc: Global,
    place: &Place<'a>,
    value: Option<Value>,
    look: &mut L,
) -> Result<Value, Stop>
    ensures same { L.view look.new ≡ L.view look.old }
    ensures gives { Finds (run (L.view look.old) (L.trace look.old) (defined (place_of place.now) (option_map plain value))) (in_plain result) (L.trace look.new) }
{
    match value {
        Some(value) => Ok(value),
        None => undefined(alloc, place, look),
    }
}

// What is nil is not there.
fn present(value: Value) -> Option<Value>
    ensures { option_map plain result ≡ present (plain value) }
{
    match value {
        Value::Nil => None,
        value => Some(value),
    }
}

/// The value of a key, which is undefined where it is nil.
#[tactic(auto, using(read_record::proofs::CallLaws::binds))]
pub(crate) fn asked<'a, L: Look>(
    alloc: Global,
    place: &Place<'a>,
    key: &Key,
    look: &mut L,
) -> Result<Value, Stop>
    ensures same { L.view look.new ≡ L.view look.old }
    ensures gives { Finds (run (L.view look.old) (L.trace look.old) (asked (place_of place.now) key.now)) (in_plain result) (L.trace look.new) }
{
    let value = ask(alloc, key, look)?;
    defined(alloc, place, present(value), look)
}

/// What the value of a key stands for.
#[tactic(auto, using(read_record::proofs::CallLaws::binds))]
pub(crate) fn looked_up<'a, L: Look>(
    alloc: Global,
    place: &Place<'a>,
    key: &Key,
    look: &mut L,
) -> Result<Found<'a>, Stop>
    ensures same { L.view look.new ≡ L.view look.old }
    ensures gives { Finds (run (L.view look.old) (L.trace look.old) (names.looked_up (place_of place.now) key.now)) (in_found result) (L.trace look.new) }
{
    Ok(Found::Value(asked(alloc, place, key, look)?))
}

/// What a name or a member stands for that needs no look-up, where it is there; else it is undefined.
#[tactic(auto, using(read_record::proofs::CallLaws::binds))]
pub(crate) fn reached<'a, L: Look>(
    alloc: Global,
    place: &Place<'a>,
    value: Option<Value>,
    look: &mut L,
) -> Result<Found<'a>, Stop>
    ensures same { L.view look.new ≡ L.view look.old }
    ensures gives { Finds (run (L.view look.old) (L.trace look.old) (names.reached (place_of place.now) (option_map plain value))) (in_found result) (L.trace look.new) }
{
    Ok(Found::Value(defined(alloc, place, value, look)?))
}

/// What stands behind a filter whose name no filter has: its input.
///
/// Its fault is UnknownFilter, with the file and the line of the tag, where the site's `liquid` sets `strict_filters`. It stops, too,
/// where an item has to be done first, and where memory is wanting.
pub fn unknown_filter<'a, L: Look>(
    alloc: Global,
    place: &Place<'a>,
    input: &Value,
    look: &mut L,
) -> Result<Value, Stop>
    ensures same { L.view look.new ≡ L.view look.old }
    ensures gives { Finds (run (L.view look.old) (L.trace look.old) (unknown_filter (place_of place.now) (plain input.now))) (in_plain result) (L.trace look.new) }
{
    let value = copy(alloc, input)?;
    unless_strict(alloc, place, StrictOption::Filters, value, look)
}
