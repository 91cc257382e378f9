// Texts of dates.
ghost use Rattle.std.specs.Prelude.{◌≡◌, ◌≤◌, ◌<◌, ◌+◌, length, IfSome};
ghost use Rattle.jiff_core.specs.Calendar.{IsEpochDay};
ghost use Rattle.site_dates.specs.Offset.{IsOffset};
ghost use Rattle.site_dates.specs.Moment.{IsMoment, time_of_day, with_seconds, written_clock, written_zone, moment_at, if_moment, moment_of, read_moment};

use crate::day::written_number;
use crate::offset::{clock_time, offset_of};
use crate::shape::{begins, two_digits_at};
use site_base::LAST_MOMENT;

/// The first moment that has a date in the years 1 to 9999 at every offset, in seconds from 1970 in UTC.
pub const FIRST_MOMENT: i64 = -62_135_510_400;

/// The time of day that a text begins with.
#[derive(Clone, Copy)]
pub(crate) struct Clock {
    /// Seconds from midnight.
    pub seconds: u32,
    /// How many bytes write it.
    pub len: usize,
}

/// Reads the text of a date, in seconds from 1970 in UTC: `YYYY-MM-DD`, then optionally a space or `T` and `HH:MM` or
/// `HH:MM:SS`, then optionally an offset, behind at most one space. Without one, the given offset holds.
///
/// `None` comes exactly where a text has no such reading or its moment lies outside the limits.
pub fn read_moment(text: &str, offset: i32) -> Option<i64>
    requires { IsOffset offset }
    ensures is { result ≡ read_moment text.now offset }
    ensures range { IfSome result IsMoment }
{
    let text = text.as_bytes();
    match written_number(text) {
        Some(day) => moment_of(day, offset, &text[10..]),
        None => None,
    }
}

// The moment of a day at the time and the offset that a text writes.
fn moment_of(day: i32, given: i32, text: &[u8]) -> Option<i64>
    requires day { IsEpochDay day }
    requires given { IsOffset given }
    ensures is { result ≡ moment_of day given (written_clock text.now) text.now }
    ensures range { IfSome result IsMoment }
{
    let clock = written_clock(text);
    match written_zone(given, &text[clock.len..]) {
        Some(offset) => if_moment(moment_at(day, clock.seconds, offset)),
        None => None,
    }
}

fn written_clock(text: &[u8]) -> Clock
    ensures is { result ≡ written_clock text.now }
    ensures within { result.len ≤ length text.now }
    ensures range { result.seconds < 86_400 }
{
    match time_of_day(text) {
        Some(time) => with_seconds(time, &text[6..]),
        None => Clock { seconds: 0, len: 0 },
    }
}

fn time_of_day(text: &[u8]) -> Option<u32>
    ensures is { result ≡ time_of_day text.now }
    ensures long { IfSome result (λ _. 6 ≤ length text.now) }
    ensures range { IfSome result (λ time. time ≤ 86_340) }
{
    if begins(b" 00:00", text) || begins(b"T00:00", text) {
        clock_time(two_digits_at(text, 1), two_digits_at(text, 4))
    } else {
        None
    }
}

// The time with the seconds that the text behind it adds.
fn with_seconds(time: u32, text: &[u8]) -> Clock
    requires { time ≤ 86_340 }
    ensures is { result ≡ with_seconds time text.now }
    ensures within { result.len ≤ 6 + length text.now }
    ensures range { result.seconds < 86_400 }
{
    if begins(b":00", text) && two_digits_at(text, 1) < 60 {
        Clock {
            seconds: time + two_digits_at(text, 1),
            len: 9,
        }
    } else {
        Clock {
            seconds: time,
            len: 6,
        }
    }
}

fn written_zone(given: i32, text: &[u8]) -> Option<i32>
    requires { IsOffset given }
    ensures is { result ≡ written_zone given text.now }
    ensures range { IfSome result IsOffset }
{
    match text {
        [] => Some(given),
        [b' ', rest @ ..] => offset_of(rest),
        _ => offset_of(text),
    }
}

fn moment_at(day: i32, second: u32, offset: i32) -> i64
    requires day { IsEpochDay day }
    requires second { second < 86_400 }
    requires offset { IsOffset offset }
    ensures { result ≡ moment_at day second offset }
{
    i64::from(day) * 86_400 + i64::from(second) - i64::from(offset)
}

/// A number of seconds from 1970 in UTC, where it is within the limits of a moment.
pub fn if_moment(moment: i64) -> Option<i64>
    ensures is { result ≡ if_moment moment }
    ensures range { IfSome result IsMoment }
{
    if (FIRST_MOMENT..=LAST_MOMENT).contains(&moment) {
        Some(moment)
    } else {
        None
    }
}
