// What makes excerpts.
ghost use Rattle.std.specs.Prelude.{◌≡◌, ℕ, codes};
ghost use Rattle.read_record.specs.declared.key.Key.TheVariants.{Var};
ghost use Rattle.read_record.specs.Queries.{Ask, run};
ghost use Rattle.read_record.specs.Answers.{Finds};
ghost use Rattle.liquid_values.specs.Answers.{in_found};
ghost use Rattle.liquid_values.specs.Names.{Excerpting, given};
ghost use Rattle.liquid_values.specs.Standing.{place_of};

use crate::found::Found;
use crate::place::Place;
use crate::stop::Stop;
use read_record::{Key, Look, ask};
use site_base::{ItemName, Text};
use std::alloc::Global;

/// What makes the member `excerpt` of an item.
pub trait Excerpts {
    // An excerpt, where so many levels may be entered yet.
    ghost excerpts: { ℕ → Excerpting };

    fn excerpt<'a, L: Look>(
        &mut self,
        alloc: Global,
        place: &Place<'a>,
        item: &ItemName,
        look: &mut L,
    ) -> Result<Found<'a>, Stop>
        ensures same { L.view look.new ≡ L.view look.old }
        ensures gives { Finds (run (L.view look.old) (L.trace look.old) (excerpts place.now.levels (place_of place.now) item.now)) (in_found result) (L.trace look.new) };
}

/// The item's own excerpt, which is nil where it has none.
pub fn own_excerpt<'a, L: Look>(
    alloc: Global,
    item: &ItemName,
    look: &mut L,
) -> Result<Found<'a>, Stop>
    ensures same { L.view look.new ≡ L.view look.old }
    ensures gives { Finds (run (L.view look.old) (L.trace look.old) (Ask (Var item.now (codes "excerpt")) given)) (in_found result) (L.trace look.new) }
{
    let key = Key::Var(item.copy(alloc)?, Text::copy(alloc, "excerpt")?);
    Ok(Found::Value(ask(alloc, &key, look)?))
}
