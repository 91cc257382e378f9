// What names and members stand for.
ghost use Rattle.std.specs.Prelude.{◌≡◌, IfOk};
ghost use Rattle.read_record.specs.Answers.{Finds};
ghost use Rattle.read_record.specs.Queries.{run};
ghost use Rattle.liquid_values.specs.Names.{settled, value};
ghost use Rattle.liquid_values.specs.Answers.{found_of, in_plain};
ghost use Rattle.liquid_values.specs.Standing.{bound_value, place_of};

use crate::locals::{Bound, ForLoop, RowLoop};
use crate::loop_values::{for_loop_value, row_loop_value};
use crate::place::Place;
use crate::stop::Stop;
use crate::strict_options::asked;
use read_record::{Key, Look};
use site_base::{List, Memory, Value, copy};
use std::alloc::Global;

/// What a name or a member stands for. `forloop` is made a value only where it is used as one.
#[derive(Drop)]
pub enum Found<'a> {
    Value(Value),
    /// `site`, which has members alone.
    Site,
    /// What the data of the site has under these keys. It is looked up only where no further key follows.
    Data(List),
    ForLoop(&'a ForLoop<'a>),
    RowLoop(&'a RowLoop),
}

impl<'a> Found<'a> {
    /// What a variable of a loop or an include stands for.
    pub(crate) fn of_bound(alloc: Global, bound: Bound<'a>) -> Result<Found<'a>, Memory>
        ensures { IfOk result (λ found. found_of found ≡ value (bound_value bound.entry)) }
    {
        match bound {
            Bound::Value(value) => Ok(Found::Value(copy(alloc, value)?)),
            Bound::ForLoop(turn) => Ok(Found::ForLoop(turn)),
            Bound::RowLoop(turn) => Ok(Found::RowLoop(turn)),
        }
    }

    /// The value; `site` alone is nil. Data is looked up, and is undefined where it is nil.
    ///
    /// Its fault is Undefined, with the file and the line of the tag, where data is undefined at a place that is tested and the site's
    /// `liquid` sets `strict_variables`. It stops, too, where an item has to be done first, and where memory is wanting.
    pub fn into_value<L: Look>(
        self,
        alloc: Global,
        place: &Place<'a>,
        look: &mut L,
    ) -> Result<Value, Stop>
        ensures same { L.view look.new ≡ L.view look.old }
        ensures gives { Finds (run (L.view look.old) (L.trace look.old) (settled (place_of place.now) (found_of self.entry))) (in_plain result) (L.trace look.new) }
    {
        match self {
            Found::Value(value) => Ok(value),
            Found::Site => Ok(Value::Nil),
            Found::Data(keys) => asked(alloc, place, &Key::Data(keys), look),
            Found::ForLoop(turn) => Ok(for_loop_value(alloc, turn)?),
            Found::RowLoop(turn) => Ok(row_loop_value(alloc, turn)?),
        }
    }
}
