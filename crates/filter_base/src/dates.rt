// Dates by a pattern.
ghost use Rattle.std.specs.Prelude.{◌≡◌, IfSome, map};
ghost use Rattle.site_base.specs.View.{plain};
ghost use Rattle.site_dates.specs.Moment.{IsMoment};
ghost use Rattle.site_dates.specs.Offset.{IsOffset};
ghost use Rattle.filter_base.specs.Answers.{Makes, Gives};
ghost use Rattle.filter_base.specs.Dates.{is_now, offset_in, moment_of_digits, moment_of_text, moment_of, formatted, written, zoned, built, dated_value, dated, date};

use crate::arguments::one;
use crate::numerals::{is_digits, text_number};
use crate::site_variables::site_variable;
use crate::stop::Stop;
use read_record::{Key, Look, ask};
use site_base::{FaultKind, Value, copy, value_text};
use site_dates::{FormatError, format_moment, if_moment, read_moment, read_offset};
use std::alloc::Global;

/// The filter `date`.
pub fn date<L: Look>(
    alloc: Global,
    input: &Value,
    args: &[Value],
    look: &mut L,
) -> Result<Value, Stop>
    ensures same { L.view look.new ≡ L.view look.old }
    ensures gives { Gives (L.view look.old) (L.trace look.old) (date (plain input.now) (map plain args.now)) result (L.trace look.new) }
{
    let pattern = value_text(alloc, one(args)?)?;
    dated(alloc, pattern.as_str(), input, look)
}

/// The moment that a text or a number names, by a pattern, in the site's offset. Any other input is left as it is, and so is all
/// where the pattern is empty. DateFormat comes exactly where there is a moment and the pattern holds a directive that is none.
pub fn dated<L: Look>(
    alloc: Global,
    pattern: &str,
    input: &Value,
    look: &mut L,
) -> Result<Value, Stop>
    ensures same { L.view look.new ≡ L.view look.old }
    ensures gives { Gives (L.view look.old) (L.trace look.old) (dated pattern.now (plain input.now)) result (L.trace look.new) }
{
    if pattern.is_empty() {
        Ok(copy(alloc, input)?)
    } else {
        dated_value(alloc, pattern, input, look)
    }
}

fn dated_value<L: Look>(
    alloc: Global,
    pattern: &str,
    input: &Value,
    look: &mut L,
) -> Result<Value, Stop>
    ensures same { L.view look.new ≡ L.view look.old }
    ensures gives { Gives (L.view look.old) (L.trace look.old) (dated_value pattern.now (plain input.now)) result (L.trace look.new) }
{
    match input {
        Value::Int(_) => zoned(alloc, pattern, input, input, look),
        Value::Text(text) => {
            if is_now(text.as_str()) {
                built(alloc, pattern, input, look)
            } else {
                zoned(alloc, pattern, input, input, look)
            }
        }
        _ => Ok(copy(alloc, input)?),
    }
}

// The moment of the build.
fn built<L: Look>(alloc: Global, pattern: &str, input: &Value, look: &mut L) -> Result<Value, Stop>
    ensures same { L.view look.new ≡ L.view look.old }
    ensures gives { Gives (L.view look.old) (L.trace look.old) (built pattern.now (plain input.now)) result (L.trace look.new) }
{
    let moment = ask(alloc, &Key::Moment, look)?;
    zoned(alloc, pattern, input, &moment, look)
}

// The moment that a value names, in the site's offset.
fn zoned<L: Look>(
    alloc: Global,
    pattern: &str,
    input: &Value,
    named: &Value,
    look: &mut L,
) -> Result<Value, Stop>
    ensures same { L.view look.new ≡ L.view look.old }
    ensures gives { Gives (L.view look.old) (L.trace look.old) (zoned pattern.now (plain input.now) (plain named.now)) result (L.trace look.new) }
{
    let zone = site_variable(alloc, "timezone", look)?;
    let offset = offset_in(&zone);
    written(alloc, pattern, offset, input, moment_of(offset, named))
}

fn is_now(text: &str) -> bool
    ensures { result ≡ is_now text.now }
{
    text == "now" || text == "today"
}

// The offset that a value names, else that of UTC.
#[tactic(auto, unfolding(crate::specs::Dates::offset_in))]
fn offset_in(zone: &Value) -> i32
    ensures is { result ≡ offset_in (plain zone.now) }
    ensures range { IsOffset result }
{
    match zone {
        Value::Text(text) => match read_offset(text.as_str()) {
            Some(offset) => offset,
            None => 0,
        },
        _ => 0,
    }
}

// The moment that a value names, where clocks show the offset.
#[tactic(auto, unfolding(crate::specs::Dates::moment_of))]
fn moment_of(offset: i32, value: &Value) -> Option<i64>
    requires { IsOffset offset }
    ensures is { result ≡ moment_of offset (plain value.now) }
    ensures range { IfSome result IsMoment }
{
    match value {
        Value::Int(seconds) => if_moment(*seconds),
        Value::Text(text) => moment_of_text(offset, text.as_str()),
        _ => None,
    }
}

#[tactic(auto, unfolding(crate::specs::Dates::moment_of_text))]
fn moment_of_text(offset: i32, text: &str) -> Option<i64>
    requires { IsOffset offset }
    ensures is { result ≡ moment_of_text offset text.now }
    ensures range { IfSome result IsMoment }
{
    if is_digits(text.as_bytes()) {
        moment_of_digits(text)
    } else {
        read_moment(text, offset)
    }
}

fn moment_of_digits(text: &str) -> Option<i64>
    ensures is { result ≡ moment_of_digits text.now }
    ensures range { IfSome result IsMoment }
{
    match text_number(text) {
        Ok(seconds) => if_moment(seconds),
        Err(_) => None,
    }
}

// A moment by the pattern; where there is none, the input.
fn written(
    alloc: Global,
    pattern: &str,
    offset: i32,
    input: &Value,
    moment: Option<i64>,
) -> Result<Value, Stop>
    requires offset { IsOffset offset }
    requires moment { IfSome moment IsMoment }
    ensures { Makes (written pattern.now offset (plain input.now) moment) result }
{
    match moment {
        Some(moment) => formatted(alloc, pattern, offset, moment),
        None => Ok(copy(alloc, input)?),
    }
}

#[tactic(auto, unfolding(crate::specs::Dates::formatted))]
fn formatted(alloc: Global, pattern: &str, offset: i32, moment: i64) -> Result<Value, Stop>
    requires offset { IsOffset offset }
    requires moment { IsMoment moment }
    ensures { Makes (formatted pattern.now offset moment) result }
{
    match format_moment(alloc, moment, offset, pattern) {
        Ok(text) => Ok(Value::Text(text)),
        Err(FormatError::BadFormat) => Err(Stop::Fault(FaultKind::DateFormat)),
        Err(FormatError::Memory) => Err(Stop::Memory),
    }
}
