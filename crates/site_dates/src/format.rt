// Moments as text.
ghost use Rattle.std.specs.Prelude.{◌≡◌, ◌∷◌, List, ℕ, MatchResult, Some, None, false};
ghost use Rattle.std.specs.List.{slice_split};
ghost use Rattle.std.specs.String.{string_bytes};
ghost use Rattle.site_dates.specs.Moment.{IsMoment};
ghost use Rattle.site_dates.specs.Offset.{IsOffset};
ghost use Rattle.site_dates.specs.Format.{IsRefusal, is_percent, both, part_text, parts_text, pattern_text, format_moment};

use crate::directive::directive_at;
use crate::local::LocalTime;
use site_base::{Memory, Text};
use std::alloc::{AllocError, Global};

/// Why a moment was not written.
#[derive(Clone, Copy, Debug, PartialEq, Eq)]
pub enum FormatError {
    /// A directive of the pattern is not known.
    BadFormat,
    Memory,
}

impl From<AllocError> for FormatError {
    ghost use Rattle.std.specs.Prelude.{◌≡◌};
    ghost use Rattle.site_dates.specs.declared.format.FormatError.TheVariants as format_error;

    ghost from_gives = { λ _ error. error ≡ format_error.Memory };

    fn from(_: AllocError) -> FormatError {
        FormatError::Memory
    }
}

impl From<Memory> for FormatError {
    ghost use Rattle.std.specs.Prelude.{◌≡◌};
    ghost use Rattle.site_dates.specs.declared.format.FormatError.TheVariants as format_error;

    ghost from_gives = { λ _ error. error ≡ format_error.Memory };

    fn from(_: Memory) -> FormatError {
        FormatError::Memory
    }
}

/// Writes a moment, as calendars and clocks at the offset show it, by a pattern with the directives
/// `%Y %y %m %-m %d %-d %e %H %-H %I %-I %M %S %p %B %b %A %a %j %z %:z %s %F %T %%`.
///
/// `BadFormat` comes exactly where the pattern holds a `%` that begins none of them.
pub fn format_moment(
    alloc: Global,
    seconds: i64,
    offset: i32,
    pattern: &str,
) -> Result<Text, FormatError>
    requires seconds { IsMoment seconds }
    requires offset { IsOffset offset }
    ensures { MatchResult result
        (λ text. format_moment seconds offset pattern.now ≡ Some text)
        (IsRefusal (format_moment seconds offset pattern.now)) }
{
    let mut text = String::new(alloc);
    push_pattern(&mut text, pattern, &LocalTime::at(seconds, offset))?;
    Ok(Text::from_string(text)?)
}

fn push_pattern(text: &mut String, pattern: &str, time: &LocalTime) -> Result<(), FormatError>
    ensures { MatchResult result
        (λ _. both (Some (string_bytes text.old)) (pattern_text time.now (slice_split is_percent pattern.now)) ≡ Some (string_bytes text.new))
        (IsRefusal (pattern_text time.now (slice_split is_percent pattern.now))) }
{
    match pattern.split_once('%') {
        None => Ok(text.push_str(pattern)?),
        Some((start, rest)) => {
            text.push_str(start)?;
            push_parts(text, rest, time)
        }
    }
}

// Adds what the parts of a pattern behind its first `%` make.
fn push_parts(text: &mut String, rest: &str, time: &LocalTime) -> Result<(), FormatError>
    ensures { MatchResult result
        (λ _. both (Some (string_bytes text.old)) (parts_text time.now false (slice_split is_percent rest.now)) ≡ Some (string_bytes text.new))
        (IsRefusal (parts_text time.now false (slice_split is_percent rest.now))) }
{
    let mut escaped = false;
    for part in rest.split('%') {
        match push_part(text, escaped, part, time) {
            Ok(now) => escaped = now,
            Err(error) => return Err(error),
        }
    }
    if escaped {
        Err(FormatError::BadFormat)
    } else {
        Ok(())
    }
}

// Adds what a part makes, and says whether it is the first `%` of two.
fn push_part(
    text: &mut String,
    escaped: bool,
    part: &str,
    time: &LocalTime,
) -> Result<bool, FormatError>
    ensures step { (parts : List (List ℕ)) → MatchResult result
        (λ now. both (Some (string_bytes text.old)) (parts_text time.now escaped (part.now ∷ parts))
        ≡ both (Some (string_bytes text.new)) (parts_text time.now now parts))
        (IsRefusal (parts_text time.now escaped (part.now ∷ parts))) }
{
    if escaped {
        text.push('%')?;
        text.push_str(part)?;
        return Ok(false);
    }
    if part.is_empty() {
        return Ok(true);
    }
    match push_directive(text, part, time) {
        Ok(()) => Ok(false),
        Err(error) => Err(error),
    }
}

fn push_directive(text: &mut String, part: &str, time: &LocalTime) -> Result<(), FormatError>
    ensures { MatchResult result
        (λ _. both (Some (string_bytes text.old)) (part_text time.now part.now) ≡ Some (string_bytes text.new))
        (IsRefusal (part_text time.now part.now)) }
{
    match directive_at(part.as_bytes()) {
        Some(found) => {
            found.directive.push(text, time)?;
            text.push_str(&part[found.len..])?;
            Ok(())
        }
        None => Err(FormatError::BadFormat),
    }
}
