// Offsets from UTC.
ghost use Rattle.std.specs.Prelude.{◌≡◌, ◌≤◌, ◌%◌, IfSome};
ghost use Rattle.site_dates.specs.Offset.{IsOffset, clock_time, distance, is_utc, signed_distance, read_offset};

use crate::shape::{has_shape, two_digits_at};

/// Reads an offset from UTC: `UTC`, `Etc/UTC`, `Z`, `+HH:MM`, `-HH:MM`, `+HHMM` or `-HHMM`, in seconds.
///
/// `None` comes exactly where a text is none of these.
pub fn read_offset(text: &str) -> Option<i32>
    ensures is { result ≡ read_offset text.now }
    ensures range { IfSome result IsOffset }
{
    offset_of(text.as_bytes())
}

pub(crate) fn offset_of(text: &[u8]) -> Option<i32>
    ensures is { result ≡ read_offset text.now }
    ensures range { IfSome result IsOffset }
{
    if is_utc(text) {
        Some(0)
    } else {
        signed_distance(text)
    }
}

fn is_utc(text: &[u8]) -> bool
    ensures { result ≡ is_utc text.now }
{
    text == b"UTC".as_slice() || text == b"Etc/UTC".as_slice() || text == b"Z".as_slice()
}

fn signed_distance(text: &[u8]) -> Option<i32>
    ensures is { result ≡ signed_distance text.now }
    ensures range { IfSome result IsOffset }
{
    match text {
        [b'+', rest @ ..] => match distance(rest) {
            Some(seconds) => Some(seconds as i32),
            None => None,
        },
        [b'-', rest @ ..] => match distance(rest) {
            Some(seconds) => Some(-(seconds as i32)),
            None => None,
        },
        _ => None,
    }
}

fn distance(text: &[u8]) -> Option<u32>
    ensures is { result ≡ distance text.now }
    ensures range { IfSome result (λ n. (n ≤ 86_340) × (n % 60 ≡ 0)) }
{
    if has_shape(b"00:00", text) {
        clock_time(two_digits_at(text, 0), two_digits_at(text, 3))
    } else if has_shape(b"0000", text) {
        clock_time(two_digits_at(text, 0), two_digits_at(text, 2))
    } else {
        None
    }
}

/// The seconds of hours and minutes, where a clock shows them.
pub(crate) fn clock_time(hour: u32, minute: u32) -> Option<u32>
    ensures is { result ≡ clock_time hour minute }
    ensures range { IfSome result (λ n. (n ≤ 86_340) × (n % 60 ≡ 0)) }
{
    if hour < 24 && minute < 60 {
        Some(3600 * hour + 60 * minute)
    } else {
        None
    }
}
