// What stands around the cells of a table.
ghost use Rattle.std.specs.Prelude.{◌≡◌, ◌+◌, ◌==◌};
ghost use Rattle.liquid_values.specs.Answers.{Settles};
ghost use Rattle.liquid_values.specs.LoopValues.{column_of, row_of};
ghost use Rattle.liquid_values.specs.Standing.{place_of};
ghost use Rattle.liquid_tags.specs.States.{written};
ghost use Rattle.liquid_eval.specs.TableRows.{cell_start, cell_end, closing, next_row};

use crate::signal::Signal;
use liquid_tags::State;
use liquid_values::{Place, Stop, column_of, ends_row, row_of};
use std::alloc::Global;

/// Starts the cell of an element. OutputTooLong comes as from `State::write`.
pub(crate) fn start_cell<'a>(
    alloc: Global,
    place: &Place<'a>,
    columns: u64,
    passed: u64,
    state: &mut State,
) -> Result<(), Stop>
    ensures { Settles (written (place_of place.now) (cell_start (column_of columns passed + 1)) state.old) result state.new }
{
    let column = u128::from(column_of(columns, passed)) + 1;
    let text = format!(in alloc; "<td class=\"col{column}\">")?;
    state.write(alloc, place, text.as_str())
}

/// Ends the cell of an element, and starts the next row where this one is full and more elements follow. The same fault.
pub(crate) fn end_cell<'a>(
    alloc: Global,
    place: &Place<'a>,
    len: u64,
    columns: u64,
    passed: u64,
    signal: Signal,
    state: &mut State,
) -> Result<(), Stop>
    ensures { Settles (written (place_of place.now) (closing len columns passed signal) state.old) result state.new }
{
    match signal {
        Signal::Next => close_cell(alloc, place, len, columns, passed, state),
        Signal::Break => state.write(alloc, place, "</td>"),
        Signal::Continue => close_cell(alloc, place, len, columns, passed, state),
    }
}

fn close_cell<'a>(
    alloc: Global,
    place: &Place<'a>,
    len: u64,
    columns: u64,
    passed: u64,
    state: &mut State,
) -> Result<(), Stop>
    ensures { Settles (written (place_of place.now) (cell_end len columns passed) state.old) result state.new }
{
    if ends_row(columns, passed) && !is_last(len, passed) {
        return next_row(alloc, place, columns, passed, state);
    }
    state.write(alloc, place, "</td>")
}

fn is_last(len: u64, passed: u64) -> bool
    ensures { result ≡ (passed + 1 == len) }
{
    u128::from(passed) + 1 == u128::from(len)
}

// Ends a row, and starts the next.
fn next_row<'a>(
    alloc: Global,
    place: &Place<'a>,
    columns: u64,
    passed: u64,
    state: &mut State,
) -> Result<(), Stop>
    ensures { Settles (written (place_of place.now) (next_row (row_of columns passed + 2)) state.old) result state.new }
{
    let row = u128::from(row_of(columns, passed)) + 2;
    let text = format!(in alloc; "</td></tr>\n<tr class=\"row{row}\">")?;
    state.write(alloc, place, text.as_str())
}
