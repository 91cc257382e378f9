// Filters, by their names.
ghost use Rattle.std.specs.Prelude.{◌≡◌, map};
ghost use Rattle.site_base.specs.View.{plain};
ghost use Rattle.read_record.specs.Queries.{run};
ghost use Rattle.read_record.specs.Answers.{Finds};
ghost use Rattle.filter_base.specs.Answers.{limited};
ghost use Rattle.liquid_filters.specs.Table as liquid;
ghost use Rattle.liquid_values.specs.Answers.{in_plain};
ghost use Rattle.liquid_values.specs.Places.{placed};
ghost use Rattle.liquid_values.specs.Standing.{place_of};

use crate::place::Place;
use crate::stop::Stop;
use read_record::Look;
use site_base::Value;
use std::alloc::Global;

/// What a filter of Liquid makes of a value.
#[tactic(auto, using(crate::proofs::FilterLaws::answered_runs))]
pub fn apply_liquid<'a, L: Look>(
    alloc: Global,
    place: &Place<'a>,
    filter: liquid_filters::FilterName,
    input: &Value,
    args: &[Value],
    look: &mut L,
) -> Result<Value, Stop>
    ensures same { L.view look.new ≡ L.view look.old }
    ensures gives { Finds (run (L.view look.old) (L.trace look.old) (placed (place_of place.now) (limited (liquid.meaning_of filter (plain input.now) (map plain args.now))))) (in_plain result) (L.trace look.new) }
{
    let answer = filter.apply(alloc, input, args, look);
    place.answered(alloc, answer)
}
