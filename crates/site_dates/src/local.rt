// What calendars and clocks show.
ghost use Rattle.std.specs.Prelude.{◌≡◌, ◌<◌, ◌+ℤ◌, ◌*ℤ◌, pos, unsigned_abs};
ghost use Rattle.std.specs.Int.{IsInRange};
ghost use Rattle.jiff_core.specs.DateTime.{civil_nanos};
ghost use Rattle.jiff_core.specs.Weekday.{monday_zero};
ghost use Rattle.site_dates.specs.Moment.{IsMoment};
ghost use Rattle.site_dates.specs.Offset.{IsOffset};

use jiff_core::civil::{DateTime, Weekday};
use std::marker::Model;

/// A moment, and what calendars and clocks at an offset show then.
#[derive(Drop)]
pub(crate) struct LocalTime {
    /// Seconds from 1970 in UTC.
    moment: i64,
    /// Seconds from UTC.
    offset: i32,
    clock: DateTime,
}

impl Model for LocalTime {
    ghost use Rattle.site_dates.specs.Shown.{Shown, shown_by};

    ghost Value = { Shown };

    ghost view = { λ t. shown_by t.moment t.offset t.clock };
}

impl LocalTime {
    ghost use Rattle.site_dates.specs.Shown.{local_time, half_hour, weekday, year_day};

    pub(crate) fn at(moment: i64, offset: i32) -> LocalTime
        requires moment { IsMoment moment }
        requires offset { IsOffset offset }
        ensures { result ≡ local_time moment offset }
    {
        LocalTime {
            moment,
            offset,
            clock: clock_at(moment, offset),
        }
    }

    pub(crate) fn moment(&self) -> i64
        ensures { result ≡ self.now.moment }
    {
        self.moment
    }

    pub(crate) fn offset(&self) -> i32
        ensures { result ≡ self.now.offset }
    {
        self.offset
    }

    pub(crate) fn year(&self) -> u32
        ensures { result ≡ unsigned_abs self.now.date.year }
    {
        u32::from(self.clock.date.year.unsigned_abs())
    }

    pub(crate) fn month(&self) -> u32
        ensures is { result ≡ self.now.date.month }
        ensures range { IsInRange 1 12 result }
    {
        u32::from(self.clock.date.month)
    }

    pub(crate) fn day(&self) -> u32
        ensures { result ≡ self.now.date.day }
    {
        u32::from(self.clock.date.day)
    }

    /// The day's place in its year, from 1.
    pub(crate) fn year_day(&self) -> u32
        ensures { result ≡ year_day self.now }
    {
        u32::from(self.clock.date.day_of_year())
    }

    pub(crate) fn weekday(&self) -> Weekday
        ensures { monday_zero result ≡ weekday self.now }
    {
        self.clock.date.weekday()
    }

    pub(crate) fn hour(&self) -> u32
        ensures is { result ≡ self.now.hour }
        ensures range { result < 24 }
    {
        u32::from(self.clock.time.hour)
    }

    /// The hour on a clock of twelve hours.
    pub(crate) fn half_hour(&self) -> u32
        ensures { result ≡ half_hour self.now }
    {
        (self.hour() + 11) % 12 + 1
    }

    pub(crate) fn minute(&self) -> u32
        ensures { result ≡ self.now.minute }
    {
        u32::from(self.clock.time.minute)
    }

    pub(crate) fn second(&self) -> u32
        ensures { result ≡ self.now.second }
    {
        u32::from(self.clock.time.second)
    }
}

// The date and the time of day that are shown.
fn clock_at(moment: i64, offset: i32) -> DateTime
    requires moment { IsMoment moment }
    requires offset { IsOffset offset }
    ensures { civil_nanos result ≡ (moment +ℤ offset) *ℤ pos 1_000_000_000 }
{
    let shown = i128::from(moment) + i128::from(offset);
    DateTime::from_nanosecond_in_range(shown * 1_000_000_000)
}
