// The English names of months and days of the week.
ghost use Rattle.std.specs.Prelude.{◌≡◌, take};
ghost use Rattle.std.specs.Int.{IsInRange};
ghost use Rattle.jiff_core.specs.Weekday.{monday_zero};
ghost use Rattle.site_dates.specs.Format.{month_name, weekday_name};

use jiff_core::civil::Weekday;

/// A name, and its short form.
#[derive(Clone, Copy)]
pub(crate) struct Name {
    pub full: &'static str,
    pub short: &'static str,
}

impl Name {
    fn of(full: &'static str, short: &'static str) -> Name
        ensures full { result.full.now ≡ full.now }
        ensures short { result.short.now ≡ short.now }
    {
        Name { full, short }
    }
}

pub(crate) fn month_name(month: u32) -> Name
    requires { IsInRange 1 12 month }
    ensures full { result.full.now ≡ month_name month }
    ensures short { result.short.now ≡ take 3 (month_name month) }
{
    match month {
        1 => Name::of("January", "Jan"),
        2 => Name::of("February", "Feb"),
        3 => Name::of("March", "Mar"),
        4 => Name::of("April", "Apr"),
        5 => Name::of("May", "May"),
        6 => Name::of("June", "Jun"),
        7 => Name::of("July", "Jul"),
        8 => Name::of("August", "Aug"),
        9 => Name::of("September", "Sep"),
        10 => Name::of("October", "Oct"),
        11 => Name::of("November", "Nov"),
        _ => Name::of("December", "Dec"),
    }
}

pub(crate) fn weekday_name(day: Weekday) -> Name
    ensures full { result.full.now ≡ weekday_name (monday_zero day) }
    ensures short { result.short.now ≡ take 3 (weekday_name (monday_zero day)) }
{
    match day {
        Weekday::Monday => Name::of("Monday", "Mon"),
        Weekday::Tuesday => Name::of("Tuesday", "Tue"),
        Weekday::Wednesday => Name::of("Wednesday", "Wed"),
        Weekday::Thursday => Name::of("Thursday", "Thu"),
        Weekday::Friday => Name::of("Friday", "Fri"),
        Weekday::Saturday => Name::of("Saturday", "Sat"),
        Weekday::Sunday => Name::of("Sunday", "Sun"),
    }
}
