// What carries nothing between the parts of a value.
ghost use Rattle.std.specs.Prelude.{◌≡◌, ◌≤◌, ◌+◌, length, drop, false, IfOk};
ghost use Rattle.front_yaml.specs.Reading.{further};
ghost use Rattle.front_yaml.specs.Gaps.{is_idle_byte, in_comment, gap_len, skip};
ghost use Rattle.front_yaml.specs.Given.{ReadsAt, FaultFits};

use crate::faults::{PlaceError, PlaceFault};
use crate::folding::first_tab;
use crate::scans::{front, is_gap, tail};
use site_base::YamlKind;

fn is_idle_byte(gap: bool, comment: bool, c: u8) -> bool
    ensures { result ≡ is_idle_byte gap comment c }
{
    comment || is_gap(c) || gap && c == b'#'
}

fn in_comment(comment: bool, c: u8) -> bool
    ensures { result ≡ in_comment comment c }
{
    if comment { c != b'\n' } else { c == b'#' }
}

fn gap_len(gap: bool, text: &[u8]) -> usize
    ensures value { result ≡ gap_len gap false text.now }
    ensures within { result ≤ length text.now }
{
    let mut gap = gap;
    let mut comment = false;
    let mut n = 0;
    while n < text.len() && is_idle_byte(gap, comment, text[n]) {
        comment = in_comment(comment, text[n]);
        gap = true;
        n += 1;
    }
    n
}

/// How many bytes at the front carry nothing; `gap` where white space stands before them.
pub(crate) fn skip(gap: bool, text: &[u8]) -> Result<usize, PlaceError>
    ensures value { ReadsAt result (skip gap text.now) }
    ensures within { IfOk result (λ n. n ≤ length text.now) }
    ensures place { FaultFits (length text.now) result }
{
    let len = gap_len(gap, text);
    match first_tab(front(text, len)) {
        Some(place) => Err(PlaceError::Fault(PlaceFault {
            place,
            kind: YamlKind::Tab,
        })),
        None => Ok(len),
    }
}

/// How many bytes carry nothing behind some bytes of a text.
pub(crate) fn skip_from(text: &[u8], at: usize) -> Result<usize, PlaceError>
    requires { at ≤ length text.now }
    ensures value { ReadsAt result (further at (skip false (drop at text.now))) }
    ensures within { IfOk result (λ n. at + n ≤ length text.now) }
    ensures place { FaultFits (length text.now) result }
{
    match skip(false, tail(text, at)) {
        Ok(len) => Ok(len),
        Err(PlaceError::Fault(fault)) => Err(fault.further(at)),
        Err(PlaceError::Memory) => Err(PlaceError::Memory),
    }
}
