// Where an evaluation stands.
ghost use Rattle.std.specs.Prelude.{◌≡◌};
ghost use Rattle.liquid_values.specs.Answers.{IsFault, FoundAt, AnsweredAt, IsKnown};
ghost use Rattle.liquid_values.specs.Places.{at_line, fault_at, silenced, untested};
ghost use Rattle.liquid_values.specs.Standing.{place_of};

use crate::Mode;
use crate::locals::{ForLoop, Locals};
use crate::stop::Stop;
use filter_base::Filtered;
use site_base::{FaultKind, ItemName, Memory, SiteFault, SitePath, Value};
use std::alloc::Global;

/// Where a tag stands, and what is around it.
#[derive(Clone, Copy)]
pub struct Place<'a> {
    /// The file that holds the tag, and the tag's line.
    pub file: &'a SitePath,
    pub line: u64,
    pub page: &'a ItemName,
    pub mode: &'a Mode,
    /// The variables of the loops and includes around.
    pub locals: &'a Locals<'a>,
    /// The innermost `for` around.
    pub around: Option<&'a ForLoop<'a>>,
    pub looping: bool,
    /// Text stands in a block that writes nothing.
    pub quiet: bool,
    /// What is undefined is a fault where the site wants that.
    pub tested: bool,
    /// How many blocks, includes and excerpts may be entered yet.
    pub levels: u32,
}

impl<'a> Place<'a> {
    /// The same place, in another line.
    pub fn at_line(&self, line: u64) -> Place<'a>
        ensures at { place_of result ≡ at_line line (place_of self.now) }
        ensures levels { result.levels ≡ self.now.levels }
    {
        Place { line, ..*self }
    }

    /// The same place, in a block that writes nothing, or in one that does.
    pub fn silenced(&self, quiet: bool) -> Place<'a>
        ensures at { place_of result ≡ silenced quiet (place_of self.now) }
        ensures levels { result.levels ≡ self.now.levels }
    {
        Place { quiet, ..*self }
    }

    /// The same place, at which what is undefined is nil, whatever the site wants.
    pub fn untested(&self) -> Place<'a>
        ensures at { place_of result ≡ untested (place_of self.now) }
        ensures levels { result.levels ≡ self.now.levels }
    {
        Place {
            tested: false,
            ..*self
        }
    }

    /// The same place, from which so many blocks, includes and excerpts may be entered yet.
    pub fn at_levels(&self, levels: u32) -> Place<'a>
        ensures at { place_of result ≡ place_of self.now }
        ensures levels { result.levels ≡ levels }
    {
        Place { levels, ..*self }
    }

    /// The fault of the tag.
    pub fn fault(&self, alloc: Global, kind: FaultKind) -> Stop
        ensures { IsFault (fault_at (place_of self.now) kind) result }
    {
        match self.file.copy(alloc) {
            Ok(path) => Stop::Fault(SiteFault {
                path,
                line: self.line,
                kind,
            }),
            Err(Memory) => Stop::Memory,
        }
    }

    /// A value, or the fault of the tag.
    pub fn found<T: Drop>(&self, alloc: Global, answer: Result<T, FaultKind>) -> Result<T, Stop>
        ensures { FoundAt (place_of self.now) answer result }
    {
        match answer {
            Ok(value) => Ok(value),
            Err(kind) => Err(self.fault(alloc, kind)),
        }
    }

    /// What a filter answered, or the fault of the tag.
    pub fn answered(&self, alloc: Global, answer: Filtered) -> Result<Value, Stop>
        requires { IsKnown answer }
        ensures { AnsweredAt (place_of self.now) answer result }
    {
        match answer {
            Filtered::Value(value) => Ok(value),
            Filtered::Fault(kind) => Err(self.fault(alloc, kind)),
            Filtered::Needs(item) => Err(Stop::Needs(item)),
            Filtered::Unknown => Err(Stop::Memory),
            Filtered::Memory => Err(Stop::Memory),
        }
    }
}
