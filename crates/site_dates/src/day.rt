// Days that texts write.
ghost use Rattle.std.specs.Prelude.{◌≡◌, ◌≤◌, length, pos, IfSome};
ghost use Rattle.jiff_core.specs.Calendar.{IsEpochDay};
ghost use Rattle.site_dates.specs.Days.{ymd, if_day};
ghost use Rattle.site_dates.specs.Moment.{written_number};

use crate::shape::{begins, two_digits_at};
use jiff_core::civil::Date;

/// The number of the day that the front of a text writes as `YYYY-MM-DD`, from 0 for 1 January 1970.
pub(crate) fn written_number(text: &[u8]) -> Option<i32>
    ensures is { result ≡ written_number text.now }
    ensures range { IfSome result IsEpochDay }
    ensures long { IfSome result (λ _. 10 ≤ length text.now) }
{
    if !begins(b"0000-00-00", text) {
        return None;
    }
    let year = 100 * two_digits_at(text, 0) + two_digits_at(text, 2);
    if_day(year, two_digits_at(text, 5), two_digits_at(text, 8))
}

// The number of a day that the calendar has.
fn if_day(year: u32, month: u32, day: u32) -> Option<i32>
    ensures is { result ≡ if_day (ymd (pos year) month day) }
    ensures range { IfSome result IsEpochDay }
{
    if year > 9999 || month > 12 || day > 31 {
        return None;
    }
    match Date::new(year as i16, month as i8, day as i8) {
        Ok(date) => Some(date.to_unix_epoch_day()),
        Err(_) => None,
    }
}
