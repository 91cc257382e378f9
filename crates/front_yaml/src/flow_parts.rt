// What stands between the separators of flow lists and hashes.
ghost use Rattle.std.specs.Prelude.{◌≡◌, ◌≤◌, length, drop};
ghost use Rattle.front_yaml.specs.Reading.{further};
ghost use Rattle.front_yaml.specs.Flow.{separator};
ghost use Rattle.front_yaml.specs.Given.{ReadsAt, SeparatorFits};

use crate::faults::PlaceError;
use crate::gaps::skip_from;
use crate::scans::{starts, tail};
use site_base::YamlKind;

/// What stands in a list or hash up to the next separator, with the bytes before that.
#[derive(Drop)]
pub(crate) enum Part<T> {
    /// Nothing, and then the end.
    Shut(usize),
    /// An entry before the end.
    Last(T, usize),
    /// An entry before a comma.
    More(T, usize),
}

/// The separator behind some bytes, or the closing bracket: whether it closes, and the bytes before it.
pub(crate) fn separator_from(close: u8, text: &[u8], at: usize) -> Result<(bool, usize), PlaceError>
    requires { at ≤ length text.now }
    ensures value { ReadsAt result (further at (separator close (drop at text.now))) }
    ensures within { SeparatorFits at (length text.now) result }
{
    let gap = match skip_from(text, at) {
        Ok(gap) => gap,
        Err(error) => return Err(error),
    };
    let rest = tail(text, at + gap);
    if starts(rest, close) {
        Ok((true, gap))
    } else if starts(rest, b',') {
        Ok((false, gap))
    } else {
        Err(PlaceError::at(at + gap, YamlKind::Flow))
    }
}
