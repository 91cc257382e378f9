// How a tag begins: all that it does before nodes are entered.
ghost use Rattle.std.specs.Prelude.{◌≡◌, []};
ghost use Rattle.read_record.specs.Queries.{run};
ghost use Rattle.liquid_values.specs.Places.{at_start};
ghost use Rattle.liquid_values.specs.Standing.{locals_of, manner_of, place_of};
ghost use Rattle.liquid_tags.specs.States.{with_out};
ghost use Rattle.liquid_eval.specs.Answers.{Leads};
ghost use Rattle.liquid_eval.specs.Loops.{for_block};
ghost use Rattle.liquid_eval.specs.Nodes.{leaf_node, branch_node, block_node, entering};
ghost use Rattle.liquid_eval.specs.TableRows.{table_block};
ghost use Rattle.liquid_eval.specs.Works.{inside, kept_apart, over, rows, work};

use crate::signal::Signal;
use crate::work::{Apart, Cells, Turns, Use, Work};
use filter_base::Writer;
use liquid_grammar::{Block, Leaf, Loop};
use liquid_tags::{
    Elements, Grid, Nodes, State, Tools, assign, branch, cycle, decrement, include,
    include_relative, increment, link, loop_elements, output, post_url, table,
};
use liquid_values::{Excerpts, Locals, Mode, Place, Stop};
use markdown_grammar::Convert;
use read_record::Look;
use site_base::{ItemName, SitePath, Text};
use std::alloc::Global;
use std::mem;

/// The front of a whole text, which sees no variable of a loop or an include. All in it is tested, also where an excerpt is entered
/// from a place that is not.
pub(crate) fn whole_place<'a>(
    file: &'a SitePath,
    page: &'a ItemName,
    mode: &'a Mode,
    locals: &'a Locals<'a>,
    levels: u32,
) -> Place<'a>
    requires { locals_of locals.now ≡ [] }
    ensures at { place_of result ≡ at_start file.now page.now (manner_of mode.now) }
    ensures levels { result.levels ≡ levels }
{
    Place {
        file,
        line: 0,
        page,
        mode,
        locals,
        around: None,
        looping: false,
        quiet: false,
        tested: true,
        levels,
    }
}

/// Evaluates a leaf, but for the text of an include.
#[tactic(auto, using(crate::proofs::WorkLaws::leads))]
pub(crate) fn start_leaf<'a, 'c, 'n, X: Excerpts, C: Convert, L: Look>(
    alloc: Global,
    tools: &mut Tools<'c, X, C>,
    place: &Place<'a>,
    leaf: &Leaf,
    state: &mut State,
    look: &mut L,
) -> Result<Work<'n>, Stop>
    ensures same { L.view look.new ≡ L.view look.old }
    ensures gives { Leads (λ w. work (entering X.excerpts place.now.levels) (place_of place.now) w state.new) (L.view look.old) (run (L.view look.old) (L.trace look.old) (leaf_node (X.excerpts place.now.levels) (entering X.excerpts place.now.levels) (place_of place.now) leaf.now state.old)) result (L.trace look.new) }
{
    match leaf {
        Leaf::Text(text) => {
            state.write_piece(alloc, place, text.as_str())?;
            Ok(Work::Ended(Signal::Next))
        }
        Leaf::Output(expr) => {
            output(alloc, tools, place, expr.get(), state, look)?;
            Ok(Work::Ended(Signal::Next))
        }
        Leaf::Assign(tag) => {
            assign(alloc, tools, place, tag.get(), state, look)?;
            Ok(Work::Ended(Signal::Next))
        }
        Leaf::Cycle(text, tag) => {
            let (text, tag) = (text.get(), tag.get());
            cycle(alloc, &mut tools.excerpts, place, text, tag, state, look)?;
            Ok(Work::Ended(Signal::Next))
        }
        Leaf::Increment(name) => {
            increment(alloc, place, name, state)?;
            Ok(Work::Ended(Signal::Next))
        }
        Leaf::Decrement(name) => {
            decrement(alloc, place, name, state)?;
            Ok(Work::Ended(Signal::Next))
        }
        Leaf::Break => Ok(Work::Ended(Signal::Break)),
        Leaf::Continue => Ok(Work::Ended(Signal::Continue)),
        Leaf::Include(tag) => {
            let found = include(alloc, tools, place, &state.assigned, tag.get(), look)?;
            Ok(Work::Included(found))
        }
        Leaf::IncludeRelative(tag) => {
            let found = include_relative(alloc, tools, place, &state.assigned, tag.get(), look)?;
            Ok(Work::Included(found))
        }
        Leaf::Link(parts) => {
            link(alloc, tools, place, parts.as_slice(), state, look)?;
            Ok(Work::Ended(Signal::Next))
        }
        Leaf::PostUrl(parts) => {
            post_url(alloc, tools, place, parts.as_slice(), state, look)?;
            Ok(Work::Ended(Signal::Next))
        }
    }
}

/// Evaluates what comes before the nodes of a block.
#[tactic(auto, using(crate::proofs::WorkLaws::leads))]
pub(crate) fn start_block<'a, 'c, 'n, X: Excerpts, C: Convert, L: Look>(
    alloc: Global,
    tools: &mut Tools<'c, X, C>,
    place: &Place<'a>,
    block: &'n Block,
    parts: &Nodes<'n>,
    state: &mut State,
    look: &mut L,
) -> Result<Work<'n>, Stop>
    ensures same { L.view look.new ≡ L.view look.old }
    ensures gives { Leads (λ w. work (entering X.excerpts place.now.levels) (place_of place.now) w state.new) (L.view look.old) (run (L.view look.old) (L.trace look.old) (block_node (X.excerpts place.now.levels) (entering X.excerpts place.now.levels) (place_of place.now) block.now parts.now state.old)) result (L.trace look.new) }
{
    match block {
        Block::If => start_branch(alloc, tools, place, block, parts, state, look),
        Block::Unless => start_branch(alloc, tools, place, block, parts, state, look),
        Block::Case(_) => start_branch(alloc, tools, place, block, parts, state, look),
        Block::For(tag) => start_for(alloc, tools, place, tag.get(), parts, state, look),
        Block::TableRow(tag) => start_table(alloc, tools, place, tag.get(), parts, state, look),
        Block::Capture(name) => Ok(start_apart(alloc, Use::Variable(name), parts, state)),
        Block::Highlight(language) => Ok(start_apart(alloc, Use::Code(language), parts, state)),
    }
}

// The part that `if`, `unless` or `case` takes.
#[tactic(auto, using(crate::proofs::WorkLaws::leads))]
fn start_branch<'a, 'c, 'n, X: Excerpts, C: Convert, L: Look>(
    alloc: Global,
    tools: &mut Tools<'c, X, C>,
    place: &Place<'a>,
    block: &Block,
    parts: &Nodes<'n>,
    state: &mut State,
    look: &mut L,
) -> Result<Work<'n>, Stop>
    ensures same { L.view look.new ≡ L.view look.old }
    ensures gives { Leads (λ w. work (entering X.excerpts place.now.levels) (place_of place.now) w state.new) (L.view look.old) (run (L.view look.old) (L.trace look.old) (branch_node (X.excerpts place.now.levels) (entering X.excerpts place.now.levels) (place_of place.now) block.now parts.now state.old)) result (L.trace look.new) }
{
    let taken = branch(alloc, tools, place, &state.assigned, block, parts, look)?;
    Ok(inside(taken))
}

// The nodes of a part; there are none where there is no such part.
fn inside<'n>(part: Option<Nodes<'n>>) -> Work<'n>
    ensures { result ≡ inside part.entry }
{
    match part {
        Some(nodes) => Work::Inside(nodes),
        None => Work::Ended(Signal::Next),
    }
}

// The elements of a `for`, or its part without an element.
#[tactic(auto, using(crate::proofs::WorkLaws::leads))]
fn start_for<'a, 'c, 'n, X: Excerpts, C: Convert, L: Look>(
    alloc: Global,
    tools: &mut Tools<'c, X, C>,
    place: &Place<'a>,
    tag: &'n Loop,
    parts: &Nodes<'n>,
    state: &mut State,
    look: &mut L,
) -> Result<Work<'n>, Stop>
    ensures same { L.view look.new ≡ L.view look.old }
    ensures gives { Leads (λ w. work (entering X.excerpts place.now.levels) (place_of place.now) w state.new) (L.view look.old) (run (L.view look.old) (L.trace look.old) (for_block (entering X.excerpts place.now.levels) (X.excerpts place.now.levels) (place_of place.now) tag.now parts.now state.old)) result (L.trace look.new) }
{
    let elements = loop_elements(alloc, tools, place, &state.assigned, tag, look)?;
    Ok(over(&tag.name, parts, elements))
}

fn over<'n>(name: &'n Text, parts: &Nodes<'n>, elements: Elements) -> Work<'n>
    ensures { result ≡ over name.entry parts.now elements }
{
    if elements.is_empty() {
        inside(parts.otherwise())
    } else {
        Work::Turns(Turns {
            name,
            body: parts.body(),
            elements,
        })
    }
}

// What a `tablerow` goes over.
#[tactic(auto, using(crate::proofs::WorkLaws::leads))]
fn start_table<'a, 'c, 'n, X: Excerpts, C: Convert, L: Look>(
    alloc: Global,
    tools: &mut Tools<'c, X, C>,
    place: &Place<'a>,
    tag: &'n Loop,
    parts: &Nodes<'n>,
    state: &mut State,
    look: &mut L,
) -> Result<Work<'n>, Stop>
    ensures same { L.view look.new ≡ L.view look.old }
    ensures gives { Leads (λ w. work (entering X.excerpts place.now.levels) (place_of place.now) w state.new) (L.view look.old) (run (L.view look.old) (L.trace look.old) (table_block (entering X.excerpts place.now.levels) (X.excerpts place.now.levels) (place_of place.now) tag.now parts.now state.old)) result (L.trace look.new) }
{
    let grid = table(alloc, tools, place, &state.assigned, tag, look)?;
    Ok(rows(&tag.name, parts, grid))
}

// Nil makes no table.
fn rows<'n>(name: &'n Text, parts: &Nodes<'n>, grid: Option<Grid>) -> Work<'n>
    ensures { result ≡ rows name.entry parts.now grid }
{
    match grid {
        Some(grid) => Work::Cells(Cells {
            name,
            body: parts.body(),
            grid,
        }),
        None => Work::Ended(Signal::Next),
    }
}

// From here on the text is kept apart.
fn start_apart<'n>(alloc: Global, usage: Use<'n>, parts: &Nodes<'n>, state: &mut State) -> Work<'n>
    ensures work { result ≡ kept_apart usage.entry parts.now state.old.out }
    ensures left { state.new ≡ with_out [] state.old }
{
    let before = mem::replace(&mut state.out, Writer::new(alloc));
    Work::Apart(Apart {
        body: parts.body(),
        before,
        usage,
    })
}
