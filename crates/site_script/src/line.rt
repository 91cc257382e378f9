// What a line of a script says.
ghost use Rattle.std.specs.Prelude.{◌≡◌};
ghost use Rattle.site_script.specs.Line.{script_number};

use site_base::{FileBytes, SitePath};

/// Why a line is bad, in the order tested.
#[derive(Clone, Copy, Debug, PartialEq, Eq)]
pub enum ScriptKind {
    LongLine,
    NotText,
    Unknown,
    Path,
    Length,
    Cut,
    Limit,
    Clash,
    Seconds,
}

impl ScriptKind {
    /// The number that replies print: the kind's place, from 1 for `LongLine`.
    pub fn number(self) -> u8
        ensures { result ≡ script_number self }
    {
        match self {
            ScriptKind::LongLine => 1,
            ScriptKind::NotText => 2,
            ScriptKind::Unknown => 3,
            ScriptKind::Path => 4,
            ScriptKind::Length => 5,
            ScriptKind::Cut => 6,
            ScriptKind::Limit => 7,
            ScriptKind::Clash => 8,
            ScriptKind::Seconds => 9,
        }
    }
}

/// A line of a script, the end of the input, or why none could be read.
#[derive(Drop)]
pub enum Line {
    Scan,
    Put(SitePath, FileBytes),
    Delete(SitePath),
    /// The moment, in seconds from 1970 in UTC.
    Time(i64),
    Build,
    /// Look for broken links.
    Links,
    End,
    /// The input is at its end, or an earlier line ended the script.
    Eof,
    /// The line of this number is bad.
    Bad(u64, ScriptKind),
    /// The input failed.
    Failed,
    Memory,
}
