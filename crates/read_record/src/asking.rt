// One look-up, as a step of a call that makes several.
ghost use Rattle.std.specs.Prelude.{◌≡◌};
ghost use Rattle.read_record.specs.Queries.{Ask, Give, run};
ghost use Rattle.read_record.specs.Answers.{Finds, in_plain};

use crate::{Answer, Key, Look, Stop};
use site_base::Value;
use std::alloc::Global;

/// The value of a key; it stops where an item has to be done first, and where memory is wanting.
pub fn ask<L: Look, F>(alloc: Global, key: &Key, look: &mut L) -> Result<Value, Stop<F>>
    ensures same { L.view look.new ≡ L.view look.old }
    ensures gives { Finds (run (L.view look.old) (L.trace look.old) (Ask key.now Give)) (in_plain result) (L.trace look.new) }
{
    match look.look(alloc, key) {
        Answer::Seen(value) => Ok(value),
        Answer::Needs(item) => Err(Stop::Needs(item)),
        Answer::Memory => Err(Stop::Memory),
    }
}
