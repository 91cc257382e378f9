// The nodes of a template one after another, and what they enter.
#![tactic(auto, using(crate::proofs::ReachLaws::reaches))]

ghost use Rattle.std.specs.Prelude.{◌≡◌, ◌<◌, false, length, IfSome};
ghost use Rattle.site_base.specs.View.{plain};
ghost use Rattle.read_record.specs.Queries.{run};
ghost use Rattle.liquid_values.specs.Answers.{Advances};
ghost use Rattle.liquid_values.specs.Places.{silenced};
ghost use Rattle.liquid_values.specs.LoopValues.{for_loop};
ghost use Rattle.liquid_values.specs.Standing.{around_value, loop_value, place_of};
ghost use Rattle.liquid_tags.specs.Blanks.{is_silent};
ghost use Rattle.liquid_tags.specs.Answers.{included_of};
ghost use Rattle.liquid_eval.specs.Answers.{Reaches};
ghost use Rattle.liquid_tags.specs.Nodes.{first_tree, node_count, or_done};
ghost use Rattle.liquid_eval.specs.Firsts.{first_node, behind};
ghost use Rattle.liquid_eval.specs.Includes.{entered, included_place, outward};
ghost use Rattle.liquid_eval.specs.Nodes as definitions;
ghost use Rattle.liquid_eval.specs.Nodes.{leaf_node, block_node, entering};
ghost use Rattle.liquid_eval.specs.TableRows.{cell_place};
ghost use Rattle.liquid_eval.specs.Works as works;
ghost use Rattle.liquid_eval.specs.Works.{turn_of, cell_of, filled};

use crate::cells::{end_cell, start_cell};
use crate::signal::Signal;
use crate::starting::{start_block, start_leaf};
use crate::texts_apart::use_text;
use crate::work::{Apart, Cells, Turns, Work};
use liquid_grammar::{Block, Leaf};
use liquid_tags::{First, Included, Nodes, State, Tools, is_silent};
use liquid_values::{Bound, Excerpts, ForLoop, Locals, Place, RowLoop, Stop};
use markdown_grammar::Convert;
use read_record::Look;
use site_base::{FaultKind, Value};
use std::alloc::Global;

/// Evaluates nodes one after another, until a loop ends or goes on in them.
#[cycle(eval)]
pub(crate) fn run_nodes<'a, 'c, 'n, X: Excerpts, C: Convert, L: Look>(
    alloc: Global,
    tools: &mut Tools<'c, X, C>,
    place: &Place<'a>,
    nodes: &Nodes<'n>,
    state: &mut State,
    look: &mut L,
) -> Result<Signal, Stop>
    ensures same { L.view look.new ≡ L.view look.old }
    ensures gives { Reaches (run (L.view look.old) (L.trace look.old) (definitions.nodes (X.excerpts place.now.levels) (entering X.excerpts place.now.levels) (place_of place.now) nodes.now state.old)) result state.new (L.trace look.new) }
{
    let mut rest = nodes.again();
    loop {
        let first = rest.first();
        match run_first(alloc, tools, place, &first, state, look)? {
            Signal::Next => (),
            Signal::Break => return Ok(Signal::Break),
            Signal::Continue => return Ok(Signal::Continue),
        }
        match behind(first) {
            Some(nodes) => rest = nodes,
            None => return Ok(Signal::Next),
        }
    }
}

// The nodes behind the first, where there is a first.
fn behind<'n>(first: First<'n>) -> Option<Nodes<'n>>
    ensures nodes { or_done result ≡ behind (first_tree first.entry) }
    ensures fewer { IfSome result (λ nodes. node_count nodes < node_count (first_tree first.entry)) }
{
    match first {
        First::Leaf(_, _, nodes) => Some(nodes),
        First::Block(_, _, _, nodes) => Some(nodes),
        First::Part(_, _, _, nodes) => Some(nodes),
        First::Nothing => None,
    }
}

// Evaluates the first of some nodes.
#[cycle(eval)]
fn run_first<'a, 'c, 'n, X: Excerpts, C: Convert, L: Look>(
    alloc: Global,
    tools: &mut Tools<'c, X, C>,
    place: &Place<'a>,
    first: &First<'n>,
    state: &mut State,
    look: &mut L,
) -> Result<Signal, Stop>
    ensures same { L.view look.new ≡ L.view look.old }
    ensures gives { Reaches (run (L.view look.old) (L.trace look.old) (first_node (X.excerpts place.now.levels) (entering X.excerpts place.now.levels) (place_of place.now) (first_tree first.now) state.old)) result state.new (L.trace look.new) }
{
    match first {
        First::Leaf(line, leaf, _) => {
            run_leaf(alloc, tools, &place.at_line(*line), leaf, state, look)
        }
        First::Block(line, block, parts, _) => {
            run_block(
                alloc,
                tools,
                &place.at_line(*line),
                block,
                parts,
                state,
                look,
            )
        }
        First::Part(_, _, _, _) => Ok(Signal::Next),
        First::Nothing => Ok(Signal::Next),
    }
}

#[cycle(eval)]
fn run_leaf<'a, 'c, X: Excerpts, C: Convert, L: Look>(
    alloc: Global,
    tools: &mut Tools<'c, X, C>,
    place: &Place<'a>,
    leaf: &Leaf,
    state: &mut State,
    look: &mut L,
) -> Result<Signal, Stop>
    ensures same { L.view look.new ≡ L.view look.old }
    ensures gives { Reaches (run (L.view look.old) (L.trace look.old) (leaf_node (X.excerpts place.now.levels) (entering X.excerpts place.now.levels) (place_of place.now) leaf.now state.old)) result state.new (L.trace look.new) }
{
    let work = start_leaf(alloc, tools, place, leaf, state, look)?;
    run_work(alloc, tools, place, work, state, look)
}

#[cycle(eval)]
fn run_block<'a, 'c, 'n, X: Excerpts, C: Convert, L: Look>(
    alloc: Global,
    tools: &mut Tools<'c, X, C>,
    place: &Place<'a>,
    block: &'n Block,
    parts: &Nodes<'n>,
    state: &mut State,
    look: &mut L,
) -> Result<Signal, Stop>
    ensures same { L.view look.new ≡ L.view look.old }
    ensures gives { Reaches (run (L.view look.old) (L.trace look.old) (block_node (X.excerpts place.now.levels) (entering X.excerpts place.now.levels) (silenced (is_silent block.now parts.now) (place_of place.now)) block.now parts.now state.old)) result state.new (L.trace look.new) }
{
    let place = place.silenced(is_silent(block, parts));
    let work = start_block(alloc, tools, &place, block, parts, state, look)?;
    run_work(alloc, tools, &place, work, state, look)
}

// Does what is left of a tag.
#[cycle(eval)]
fn run_work<'a, 'c, 'n, X: Excerpts, C: Convert, L: Look>(
    alloc: Global,
    tools: &mut Tools<'c, X, C>,
    place: &Place<'a>,
    work: Work<'n>,
    state: &mut State,
    look: &mut L,
) -> Result<Signal, Stop>
    ensures same { L.view look.new ≡ L.view look.old }
    ensures gives { Reaches (run (L.view look.old) (L.trace look.old) (works.work (entering X.excerpts place.now.levels) (place_of place.now) work.entry state.old)) result state.new (L.trace look.new) }
{
    match work {
        Work::Ended(signal) => Ok(signal),
        Work::Inside(nodes) => enter(alloc, tools, place, place, &nodes, state, look),
        Work::Turns(turns) => {
            run_turns(alloc, tools, place, &turns, state, look)?;
            Ok(Signal::Next)
        }
        Work::Cells(cells) => run_table(alloc, tools, place, &cells, state, look),
        Work::Apart(apart) => run_apart(alloc, tools, place, apart, state, look),
        Work::Included(included) => run_included(alloc, tools, place, &included, state, look),
    }
}

// Enters nodes from the tag at the first place, unless they would stand too deep.
#[cycle(eval)]
pub(crate) fn enter<'a, 'c, 'n, X: Excerpts, C: Convert, L: Look>(
    alloc: Global,
    tools: &mut Tools<'c, X, C>,
    tag: &Place<'a>,
    place: &Place<'a>,
    nodes: &Nodes<'n>,
    state: &mut State,
    look: &mut L,
) -> Result<Signal, Stop>
    ensures same { L.view look.new ≡ L.view look.old }
    ensures gives { Reaches (run (L.view look.old) (L.trace look.old) (entering X.excerpts place.now.levels (place_of tag.now) (place_of place.now) nodes.now state.old)) result state.new (L.trace look.new) }
{
    if place.levels == 0 {
        return Err(tag.fault(alloc, FaultKind::Nesting));
    }
    let inner = place.at_levels(place.levels - 1);
    run_nodes(alloc, tools, &inner, nodes, state, look)
}

// Takes a turn for each element, until the loop ends in one.
#[cycle(eval)]
fn run_turns<'a, 'c, 'n, X: Excerpts, C: Convert, L: Look>(
    alloc: Global,
    tools: &mut Tools<'c, X, C>,
    place: &Place<'a>,
    turns: &Turns<'n>,
    state: &mut State,
    look: &mut L,
) -> Result<(), Stop>
    ensures same { L.view look.new ≡ L.view look.old }
    ensures gives { Advances (run (L.view look.old) (L.trace look.old) (works.turns (entering X.excerpts place.now.levels) (place_of place.now) turns.now state.old)) result state.new (L.trace look.new) }
{
    for passed in 0..turns.elements.len() {
        let value = turns.elements.at(alloc, passed)?;
        match run_turn(alloc, tools, place, turns, passed, &value, state, look)? {
            Signal::Next => (),
            Signal::Break => return Ok(()),
            Signal::Continue => (),
        }
    }
    Ok(())
}

// The turn of an element.
#[cycle(eval)]
fn run_turn<'a, 'c, 'n, X: Excerpts, C: Convert, L: Look>(
    alloc: Global,
    tools: &mut Tools<'c, X, C>,
    place: &Place<'a>,
    turns: &Turns<'n>,
    passed: u64,
    value: &Value,
    state: &mut State,
    look: &mut L,
) -> Result<Signal, Stop>
    ensures same { L.view look.new ≡ L.view look.old }
    ensures gives { Reaches (run (L.view look.old) (L.trace look.old) (turn_of (entering X.excerpts place.now.levels) (place_of place.now) turns.now passed (plain value.now) state.old)) result state.new (L.trace look.new) }
{
    let turn = turn_at(turns.elements.len(), passed, place.around);
    let outer = Locals::Local {
        name: "forloop",
        bound: Bound::ForLoop(&turn),
        outer: &*place.locals,
    };
    let locals = Locals::Local {
        name: turns.name.as_str(),
        bound: Bound::Value(&*value),
        outer: &outer,
    };
    let inside = Place {
        locals: &locals,
        around: Some(&turn),
        looping: true,
        ..*place
    };
    enter(alloc, tools, &*place, &inside, &turns.body, state, look)
}

// Where a loop inside of another stands.
fn turn_at<'a>(len: u64, passed: u64, parent: Option<&'a ForLoop<'a>>) -> ForLoop<'a>
    ensures { loop_value result ≡ for_loop len passed (around_value parent.entry) }
{
    ForLoop {
        len,
        passed,
        parent,
    }
}

// Opens the first row of a table, fills all, and closes the last.
#[cycle(eval)]
fn run_table<'a, 'c, 'n, X: Excerpts, C: Convert, L: Look>(
    alloc: Global,
    tools: &mut Tools<'c, X, C>,
    place: &Place<'a>,
    cells: &Cells<'n>,
    state: &mut State,
    look: &mut L,
) -> Result<Signal, Stop>
    ensures same { L.view look.new ≡ L.view look.old }
    ensures gives { Reaches (run (L.view look.old) (L.trace look.old) (works.table (entering X.excerpts place.now.levels) (place_of place.now) cells.now state.old)) result state.new (L.trace look.new) }
{
    state.write(alloc, place, "<tr class=\"row1\">\n")?;
    run_cells(alloc, tools, place, cells, state, look)?;
    state.write(alloc, place, "</tr>\n")?;
    Ok(Signal::Next)
}

// Fills a cell for each element, until the loop ends in one.
#[cycle(eval)]
fn run_cells<'a, 'c, 'n, X: Excerpts, C: Convert, L: Look>(
    alloc: Global,
    tools: &mut Tools<'c, X, C>,
    place: &Place<'a>,
    cells: &Cells<'n>,
    state: &mut State,
    look: &mut L,
) -> Result<(), Stop>
    ensures same { L.view look.new ≡ L.view look.old }
    ensures gives { Advances (run (L.view look.old) (L.trace look.old) (filled (entering X.excerpts place.now.levels) (place_of place.now) cells.now state.old)) result state.new (L.trace look.new) }
{
    for passed in 0..cells.grid.elements.len() {
        let value = cells.grid.elements.at(alloc, passed)?;
        match run_cell(alloc, tools, place, cells, passed, &value, state, look)? {
            Signal::Next => (),
            Signal::Break => return Ok(()),
            Signal::Continue => (),
        }
    }
    Ok(())
}

// The cell of an element.
#[cycle(eval)]
fn run_cell<'a, 'c, 'n, X: Excerpts, C: Convert, L: Look>(
    alloc: Global,
    tools: &mut Tools<'c, X, C>,
    place: &Place<'a>,
    cells: &Cells<'n>,
    passed: u64,
    value: &Value,
    state: &mut State,
    look: &mut L,
) -> Result<Signal, Stop>
    ensures same { L.view look.new ≡ L.view look.old }
    ensures gives { Reaches (run (L.view look.old) (L.trace look.old) (cell_of (entering X.excerpts place.now.levels) (place_of place.now) cells.now passed (plain value.now) state.old)) result state.new (L.trace look.new) }
{
    let (len, columns) = (cells.grid.elements.len(), cells.grid.columns);
    start_cell(alloc, place, columns, passed, state)?;
    let signal = enter_cell(alloc, tools, place, cells, passed, value, state, look)?;
    end_cell(alloc, place, len, columns, passed, signal, state)?;
    Ok(signal)
}

#[cycle(eval)]
fn enter_cell<'a, 'c, 'n, X: Excerpts, C: Convert, L: Look>(
    alloc: Global,
    tools: &mut Tools<'c, X, C>,
    place: &Place<'a>,
    cells: &Cells<'n>,
    passed: u64,
    value: &Value,
    state: &mut State,
    look: &mut L,
) -> Result<Signal, Stop>
    ensures same { L.view look.new ≡ L.view look.old }
    ensures gives { Reaches (run (L.view look.old) (L.trace look.old) (entering X.excerpts place.now.levels (place_of place.now) (cell_place (place_of place.now) cells.now.name.now (length cells.now.grid.elements) cells.now.grid.columns passed (plain value.now)) cells.now.body state.old)) result state.new (L.trace look.new) }
{
    let row = RowLoop {
        len: cells.grid.elements.len(),
        columns: cells.grid.columns,
        passed,
    };
    let outer = Locals::Local {
        name: "tablerowloop",
        bound: Bound::RowLoop(&row),
        outer: &*place.locals,
    };
    let locals = Locals::Local {
        name: cells.name.as_str(),
        bound: Bound::Value(&*value),
        outer: &outer,
    };
    let inside = Place {
        locals: &locals,
        looping: true,
        ..*place
    };
    enter(alloc, tools, &*place, &inside, &cells.body, state, look)
}

// Evaluates nodes whose text is kept apart.
#[cycle(eval)]
fn run_apart<'a, 'c, 'n, X: Excerpts, C: Convert, L: Look>(
    alloc: Global,
    tools: &mut Tools<'c, X, C>,
    place: &Place<'a>,
    apart: Apart<'n>,
    state: &mut State,
    look: &mut L,
) -> Result<Signal, Stop>
    ensures same { L.view look.new ≡ L.view look.old }
    ensures gives { Reaches (run (L.view look.old) (L.trace look.old) (works.apart (entering X.excerpts place.now.levels) (place_of place.now) apart.entry state.old)) result state.new (L.trace look.new) }
{
    let loud = place.silenced(false);
    let signal = enter(alloc, tools, &*place, &loud, &apart.body, state, look)?;
    use_text(alloc, place, apart.usage, apart.before, signal, state)
}

// Evaluates the text of an include.
#[cycle(eval)]
fn run_included<'a, 'c, X: Excerpts, C: Convert, L: Look>(
    alloc: Global,
    tools: &mut Tools<'c, X, C>,
    place: &Place<'a>,
    included: &Included,
    state: &mut State,
    look: &mut L,
) -> Result<Signal, Stop>
    ensures same { L.view look.new ≡ L.view look.old }
    ensures gives { Reaches (run (L.view look.old) (L.trace look.old) (entered (entering X.excerpts place.now.levels) (place_of place.now) state.old (included_of included.now))) result state.new (L.trace look.new) }
{
    let signal = enter_included(alloc, tools, place, included, state, look)?;
    Ok(outward(place, signal))
}

#[cycle(eval)]
fn enter_included<'a, 'c, X: Excerpts, C: Convert, L: Look>(
    alloc: Global,
    tools: &mut Tools<'c, X, C>,
    place: &Place<'a>,
    included: &Included,
    state: &mut State,
    look: &mut L,
) -> Result<Signal, Stop>
    ensures same { L.view look.new ≡ L.view look.old }
    ensures gives { Reaches (run (L.view look.old) (L.trace look.old) (entering X.excerpts place.now.levels (place_of place.now) (included_place (place_of place.now) (included_of included.now)) included.now.template state.old)) result state.new (L.trace look.new) }
{
    let nodes = Nodes::of_shared(&included.template);
    match &included.given {
        Some(given) => {
            let locals = Locals::Local {
                name: "include",
                bound: Bound::Value(&*given),
                outer: &*place.locals,
            };
            let inside = Place {
                file: &included.file,
                line: 0,
                locals: &locals,
                ..*place
            };
            enter(alloc, tools, &*place, &inside, &nodes, state, look)
        }
        None => {
            let inside = Place {
                file: &included.file,
                line: 0,
                ..*place
            };
            enter(alloc, tools, &*place, &inside, &nodes, state, look)
        }
    }
}

// Outside of loops, `break` and `continue` end the text of an include alone.
fn outward<'a>(place: &Place<'a>, signal: Signal) -> Signal
    ensures { result ≡ outward (place_of place.now) signal }
{
    if place.looping { signal } else { Signal::Next }
}
