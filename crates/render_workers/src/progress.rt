// What the items so far came to.
ghost use Rattle.std.specs.Prelude.{◌≡◌, ◌+◌, ◌≤◌, [], length};
ghost use Rattle.render_workers.specs.Folds.{tree_sum, tree_too_long};
ghost use Rattle.render_workers.specs.Turns.{IsAdded, IsAddedRendered, IsFault};

use crate::{Outcomes, Round, RoundError, Why, Whys};
use read_record::{Finished, Outcome};
use site_base::{FaultKind, ItemName, Sequence, SiteFault};
use std::alloc::Global;

/// The most bytes of a tree.
const MOST_TREE_BYTES: u64 = 1_073_741_824;

/// The outcomes of the items so far, which of them were rendered anew, and how many bytes the tree has with them.
#[derive(Drop)]
pub(crate) struct Progress {
    pub(crate) outs: Outcomes,
    pub(crate) why: Whys,
    pub(crate) bytes: u64,
}

impl Finished for Progress {
    ghost use Rattle.std.specs.Prelude.{slice_get};

    ghost outcomes = { λ progress. slice_get progress.outs };

    fn done(&self, item: u32) -> Option<&Outcome> {
        self.outs.as_slice().get(item as usize)
    }
}

impl Progress {
    /// No item yet, beside so many bytes of other files; it takes no memory.
    pub(crate) fn new(alloc: Global, bytes: u64) -> Progress
        ensures outs { result.outs ≡ [] }
        ensures why { result.why ≡ [] }
        ensures bytes { result.bytes ≡ bytes }
    {
        Progress {
            outs: Sequence::new(alloc),
            why: Sequence::new(alloc),
            bytes,
        }
    }

    #[tactic(auto, using(crate::proofs::TryLaws::joins))]
    /// Adds what the next item came to. The error is its fault, or that the tree is too long with it, or want of memory.
    pub(crate) fn add(
        &mut self,
        alloc: Global,
        name: &ItemName,
        outcome: Outcome,
    ) -> Result<(), RoundError>
        ensures { IsAdded name.now outcome result self.old self.new }
    {
        match outcome {
            Outcome::Done { content, output } => {
                let Some(bytes) = with_page(self.bytes, content.len(), output.len()) else {
                    return Err(too_long(alloc, name));
                };
                self.outs.push(Outcome::Done { content, output })?;
                self.bytes = bytes;
                Ok(())
            }
            Outcome::Fault(fault) => Err(RoundError::Fault(fault)),
        }
    }

    /// Adds what the next item came to, which was rendered for this reason, with the errors of `add`.
    pub(crate) fn add_rendered(
        &mut self,
        alloc: Global,
        name: &ItemName,
        outcome: Outcome,
        why: Why,
    ) -> Result<(), RoundError>
        ensures { IsAddedRendered name.now outcome why result self.old self.new }
    {
        match self.add(alloc, name, outcome) {
            Ok(()) => {}
            Err(error) => return Err(error),
        }
        self.why.push(why)?;
        Ok(())
    }
}

/// The round once all items are done, which are so many.
pub(crate) fn round_of(progress: Progress, items: u32) -> Round
    requires { length progress.why ≤ items }
    ensures outs { result.outs ≡ progress.outs }
    ensures why { result.why ≡ progress.why }
    ensures reused { result.reused + length progress.why ≡ items }
{
    let Progress {
        outs,
        why,
        bytes: _,
    } = progress;
    let reused = items - why.len() as u32;
    Round { outs, reused, why }
}

/// The bytes with those of a page, unless no tree may have so many.
fn with_page(bytes: u64, content: usize, output: usize) -> Option<u64>
    ensures { result ≡ tree_sum (bytes + (content + output)) }
{
    let sum = bytes
        .checked_add(content as u64)?
        .checked_add(output as u64)?;
    if sum <= MOST_TREE_BYTES {
        Some(sum)
    } else {
        None
    }
}

/// That the tree is too long with this item, or want of memory.
fn too_long(alloc: Global, name: &ItemName) -> RoundError
    ensures { IsFault (tree_too_long name.now) result }
{
    match name.path.copy(alloc) {
        Ok(path) => RoundError::Fault(SiteFault {
            path,
            line: 0,
            kind: FaultKind::TreeTooLong,
        }),
        Err(_) => RoundError::Memory,
    }
}
