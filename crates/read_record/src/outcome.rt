// How the rendering of an item ends, and whether what was seen is still there.
ghost use Rattle.std.specs.Prelude.{◌≡◌, IfOk};

use site_base::{Memory, SiteFault, Text};
use std::alloc::Global;

/// How the rendering of an item ends.
#[derive(Drop)]
pub enum Outcome {
    Done {
        /// The item's own text, before any layout.
        content: Text,
        /// The text that is written.
        output: Text,
    },
    /// The item's first fault.
    Fault(SiteFault),
}

impl Outcome {
    /// An equal outcome. Of texts that can be shared it is a further holder.
    pub fn copy(&self, alloc: Global) -> Result<Outcome, Memory>
        ensures { IfOk result (λ outcome. outcome ≡ self.now) }
    {
        match self {
            Outcome::Done { content, output } => Ok(Outcome::Done {
                content: content.share(alloc)?,
                output: output.share(alloc)?,
            }),
            Outcome::Fault(fault) => Ok(Outcome::Fault(copy_fault(alloc, fault)?)),
        }
    }
}

fn copy_fault(alloc: Global, fault: &SiteFault) -> Result<SiteFault, Memory>
    ensures { IfOk result (λ copy. copy ≡ fault.now) }
{
    Ok(SiteFault {
        path: fault.path.copy(alloc)?,
        line: fault.line,
        kind: fault.kind,
    })
}

/// Whether a look-up still gives what was seen.
#[derive(Clone, Copy, Debug, PartialEq, Eq)]
pub enum Agreement {
    Same,
    Other,
    /// This item has to be done first.
    Needs(u32),
}

/// Whether all look-ups of a record still give what was seen, up to the first that does not.
#[derive(Clone, Copy, Debug, PartialEq, Eq)]
pub enum Checked {
    Agrees,
    /// The key at this place gives another value.
    Differs(u64),
    /// This item has to be done first.
    Needs(u32),
}
