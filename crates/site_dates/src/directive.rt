// The directives of a pattern.
ghost use Rattle.std.specs.Prelude.{◌≡◌, ◌<◌, ◌++◌, OnOk, IsSome, IfSome};
ghost use Rattle.std.specs.String.{string_bytes};
ghost use Rattle.std.specs.Fmt.{signed_decimal};
ghost use Rattle.site_dates.specs.Format.{IsCut, full_date, full_time, half_text, sign, offset_text, directive_text, letter_directive, bare_directive, colon_directive, directive_at, sized};

use crate::digits::{
    push_bare_digits, push_four_digits, push_spaced_digits, push_three_digits, push_two_digits,
};
use crate::local::LocalTime;
use crate::names::{month_name, weekday_name};
use std::alloc::AllocError;
use std::fmt::Write;

/// What a pattern asks for behind a `%`.
#[derive(Clone, Copy)]
pub(crate) enum Directive {
    Year,
    ShortYear,
    Month,
    BareMonth,
    Day,
    BareDay,
    SpacedDay,
    Hour,
    BareHour,
    HalfHour,
    BareHalfHour,
    Minute,
    Second,
    Half,
    MonthName,
    ShortMonthName,
    WeekdayName,
    ShortWeekdayName,
    DayOfYear,
    Offset,
    ColonOffset,
    Moment,
    FullDate,
    FullTime,
}

/// A directive that stands at the front of a text.
#[derive(Clone, Copy)]
pub(crate) struct Found {
    pub directive: Directive,
    /// How many bytes write it.
    pub len: usize,
}

/// The directive at the front of what stands behind a `%`.
pub(crate) fn directive_at(part: &[u8]) -> Option<Found>
    ensures is { result ≡ directive_at part.now }
    ensures cut { IfSome result (λ found. IsCut part.now found.len) }
{
    match part {
        [b'-', letter, ..] => sized(bare_directive(*letter), 2),
        [b':', letter, ..] => sized(colon_directive(*letter), 2),
        [] => None,
        [letter, ..] => sized(letter_directive(*letter), 1),
    }
}

fn sized(directive: Option<Directive>, len: usize) -> Option<Found>
    ensures { result ≡ sized len directive }
{
    directive.map(|directive| Found { directive, len })
}

fn letter_directive(letter: u8) -> Option<Directive>
    ensures is { result ≡ letter_directive letter }
    ensures ascii { IsSome result → letter < 128 }
{
    match letter {
        b'Y' => Some(Directive::Year),
        b'y' => Some(Directive::ShortYear),
        b'm' => Some(Directive::Month),
        b'd' => Some(Directive::Day),
        b'e' => Some(Directive::SpacedDay),
        b'H' => Some(Directive::Hour),
        b'I' => Some(Directive::HalfHour),
        b'M' => Some(Directive::Minute),
        b'S' => Some(Directive::Second),
        b'p' => Some(Directive::Half),
        b'B' => Some(Directive::MonthName),
        b'b' => Some(Directive::ShortMonthName),
        b'A' => Some(Directive::WeekdayName),
        b'a' => Some(Directive::ShortWeekdayName),
        b'j' => Some(Directive::DayOfYear),
        b'z' => Some(Directive::Offset),
        b's' => Some(Directive::Moment),
        b'F' => Some(Directive::FullDate),
        b'T' => Some(Directive::FullTime),
        _ => None,
    }
}

// Behind `%-`.
fn bare_directive(letter: u8) -> Option<Directive>
    ensures is { result ≡ bare_directive letter }
    ensures ascii { IsSome result → letter < 128 }
{
    match letter {
        b'm' => Some(Directive::BareMonth),
        b'd' => Some(Directive::BareDay),
        b'H' => Some(Directive::BareHour),
        b'I' => Some(Directive::BareHalfHour),
        _ => None,
    }
}

// Behind `%:`.
fn colon_directive(letter: u8) -> Option<Directive>
    ensures is { result ≡ colon_directive letter }
    ensures ascii { IsSome result → letter < 128 }
{
    match letter {
        b'z' => Some(Directive::ColonOffset),
        _ => None,
    }
}

impl Directive {
    /// Adds what stands for the directive at this time.
    pub(crate) fn push(self, text: &mut String, time: &LocalTime) -> Result<(), AllocError>
        ensures { OnOk result (string_bytes text.new ≡ string_bytes text.old ++ directive_text self time.now) }
    {
        match self {
            Directive::Year => push_four_digits(text, time.year()),
            Directive::ShortYear => push_two_digits(text, time.year()),
            Directive::Month => push_two_digits(text, time.month()),
            Directive::BareMonth => push_bare_digits(text, time.month()),
            Directive::Day => push_two_digits(text, time.day()),
            Directive::BareDay => push_bare_digits(text, time.day()),
            Directive::SpacedDay => push_spaced_digits(text, time.day()),
            Directive::Hour => push_two_digits(text, time.hour()),
            Directive::BareHour => push_bare_digits(text, time.hour()),
            Directive::HalfHour => push_two_digits(text, time.half_hour()),
            Directive::BareHalfHour => push_bare_digits(text, time.half_hour()),
            Directive::Minute => push_two_digits(text, time.minute()),
            Directive::Second => push_two_digits(text, time.second()),
            Directive::Half => text.push_str(half_text(time.hour())),
            Directive::MonthName => text.push_str(month_name(time.month()).full),
            Directive::ShortMonthName => text.push_str(month_name(time.month()).short),
            Directive::WeekdayName => text.push_str(weekday_name(time.weekday()).full),
            Directive::ShortWeekdayName => text.push_str(weekday_name(time.weekday()).short),
            Directive::DayOfYear => push_three_digits(text, time.year_day()),
            Directive::Offset => push_offset(text, "", time.offset()),
            Directive::ColonOffset => push_offset(text, ":", time.offset()),
            Directive::Moment => push_seconds(text, time.moment()),
            Directive::FullDate => push_date(text, time),
            Directive::FullTime => push_time(text, time),
        }
    }
}

fn half_text(hour: u32) -> &'static str
    ensures { result.now ≡ half_text hour }
{
    if hour < 12 { "AM" } else { "PM" }
}

fn sign(offset: i32) -> &'static str
    ensures { result.now ≡ sign offset }
{
    if offset < 0 { "-" } else { "+" }
}

fn push_offset(text: &mut String, between: &str, offset: i32) -> Result<(), AllocError>
    ensures { OnOk result (string_bytes text.new ≡ string_bytes text.old ++ offset_text between.now offset) }
{
    let distance = offset.unsigned_abs();
    text.push_str(sign(offset))?;
    push_two_digits(text, distance / 3600)?;
    text.push_str(between)?;
    push_two_digits(text, distance / 60 % 60)
}

fn push_seconds(text: &mut String, moment: i64) -> Result<(), AllocError>
    ensures { OnOk result (string_bytes text.new ≡ string_bytes text.old ++ signed_decimal moment) }
{
    write!(text, "{moment}")
}

fn push_date(text: &mut String, time: &LocalTime) -> Result<(), AllocError>
    ensures { OnOk result (string_bytes text.new ≡ string_bytes text.old ++ full_date time.now.date) }
{
    push_four_digits(text, time.year())?;
    text.push('-')?;
    push_two_digits(text, time.month())?;
    text.push('-')?;
    push_two_digits(text, time.day())
}

fn push_time(text: &mut String, time: &LocalTime) -> Result<(), AllocError>
    ensures { OnOk result (string_bytes text.new ≡ string_bytes text.old ++ full_time time.now) }
{
    push_two_digits(text, time.hour())?;
    text.push(':')?;
    push_two_digits(text, time.minute())?;
    text.push(':')?;
    push_two_digits(text, time.second())
}
