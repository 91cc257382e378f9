// What becomes of texts that were kept apart.
ghost use Rattle.std.specs.Prelude.{◌≡◌};
ghost use Rattle.liquid_values.specs.Standing.{place_of};
ghost use Rattle.liquid_eval.specs.Answers.{Uses};
ghost use Rattle.liquid_eval.specs.Reached.{reached};
ghost use Rattle.liquid_eval.specs.Works.{used};

use crate::signal::Signal;
use crate::work::Use;
use filter_base::Writer;
use liquid_tags::{State, highlighted};
use liquid_values::{Place, Stop};
use site_base::{Text, Value};
use std::alloc::Global;
use std::mem;

/// Makes use of the text that was written apart, and goes on with the text before it.
pub(crate) fn use_text<'a, 'n>(
    alloc: Global,
    place: &Place<'a>,
    usage: Use<'n>,
    before: Writer,
    signal: Signal,
    state: &mut State,
) -> Result<Signal, Stop>
    ensures { Uses (used (place_of place.now) usage.entry before (reached state.old signal)) result state.new }
{
    let apart = mem::replace(&mut state.out, before);
    match usage {
        Use::Variable(name) => state.assign(alloc, name, Value::Text(apart.finish()?))?,
        Use::Code(language) => {
            let code = apart.finish()?;
            let text = highlighted(alloc, language.as_str(), code.as_str())?;
            state.write(alloc, place, text.as_str())?;
        }
    }
    Ok(signal)
}
