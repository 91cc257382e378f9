// A site that answers look-ups.
ghost use Rattle.std.specs.Prelude.{◌≡◌, ℕ, ◌<◌, List, Option, MatchOption, IfOk, IfSome, Some, None, length, slice_get};
ghost use Rattle.site_base.specs.declared.item_name.ItemName.{ItemName};
ghost use Rattle.read_record.specs.declared.outcome.Outcome.{Outcome};
ghost use Rattle.read_record.specs.Forms.{IsFormed};
ghost use Rattle.read_record.specs.Worlds.{Sight, Lawful};
ghost use Rattle.read_record.specs.Records.{agreement_of};
ghost use Rattle.read_record.specs.Answers.{IsCodeOf, IsReply};

use crate::{Agreement, Answer, Key, Outcome};
use site_base::{ItemName, Memory, SharedBytes};
use std::alloc::Global;

/// The outcomes that are known.
pub trait Finished {
    ghost outcomes: { Self → ℕ → Option Outcome };

    fn done(&self, item: u32) -> Option<&Outcome>
        ensures { MatchOption result (outcomes self.now item ≡ None) (λ o. outcomes self.now item ≡ Some o.now) };
}

/// A site with its items in render order. What it answers hangs on the reader, and on the outcomes that are known.
pub trait World {
    // The names of the items, in render order.
    ghost names: { Self → List ItemName };

    // The bytes of all that is copied.
    ghost fixed: { Self → ℕ };

    ghost sight: { Self → Sight };

    /// How many items there are.
    fn items(&self) -> u32
        ensures { result ≡ length (names self.now) };

    fn name(&self, item: u32) -> &ItemName
        requires { item < length (names self.now) }
        ensures { slice_get (names self.now) item ≡ Some result.now };

    /// How many bytes the files have that are copied.
    fn fixed_bytes(&self) -> u64
        ensures { result ≡ fixed self.now };

    fn look<F: Finished>(&self, alloc: Global, reader: u32, key: &Key, outs: &F) -> Answer
        requires { reader < length (names self.now) }
        ensures { IsReply (sight self.now reader (F.outcomes outs.now) key.now) result };

    /// The code of what a look-up gives, where the world keeps it for all who ask: a record then holds a share of it, and
    /// nobody makes it again.
    fn shared_code<F: Finished>(
        &self,
        alloc: Global,
        reader: u32,
        key: &Key,
        outs: &F,
    ) -> Result<Option<SharedBytes>, Memory>
        requires { reader < length (names self.now) }
        ensures { IfOk result (λ kept. IfSome kept (λ bytes. IsCodeOf (sight self.now reader (F.outcomes outs.now) key.now) bytes)) };

    /// Whether a look-up gives the value whose code was seen; it takes no memory.
    fn agrees<F: Finished>(&self, reader: u32, key: &Key, outs: &F, seen: &[u8]) -> Agreement
        requires { reader < length (names self.now) }
        ensures { result ≡ agreement_of (sight self.now reader (F.outcomes outs.now) key.now) seen.now };

    // No two items have one name.
    ghost names_differ: { (w : Self) (i j : ℕ) → i < length (names w) → slice_get (names w) i ≡ slice_get (names w) j → i ≡ j };

    ghost lawful: { (w : Self) → Lawful (sight w) };

    // What a key gives has the key's form.
    ghost formed: { (w : Self) (reader : ℕ) (known : ℕ → Option Outcome) → IsFormed (sight w reader known) };
}
