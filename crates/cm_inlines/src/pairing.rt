// Runs of marks, paired where they stand.
ghost use Rattle.std.specs.Prelude.{◌≡◌, ◌+◌, ◌<◌, IfOk, OnOk, Some, length, slice_get, slice_set, ℕ};
ghost use Rattle.cm_inlines.specs.Machine as machine;
ghost use Rattle.cm_inlines.specs.Pairing.{PairsAll, PairsOnce, PairsRun, PairsWith, Starts, closer_of, leftover_of};

use crate::changes::{Change, change_each, put};
use crate::node::{Node, Run};
use crate::openers::{Opener, Openers};
use crate::runs::{run_at, shorter, strength};
use site_base::Memory;
use std::alloc::Global;

/// Pairs the runs of marks at these places, which are all the runs from a place on: each that may close, one after another,
/// with the nearest before it that fits. Answers the places of those that are left.
pub(crate) fn pair_runs<'a>(
    alloc: Global,
    nodes: &mut Vec<Node<'a>>,
    places: &[usize],
) -> Result<Vec<usize>, Memory>
    ensures { IfOk result (λ left. (start : ℕ) → Starts start nodes.old.items places.now → PairsAll start nodes.old.items nodes.new.items left.items) }
{
    let mut openers = Openers::new(alloc);
    for place in places {
        pair_run(nodes, &mut openers, *place)?;
    }
    Ok(openers.places)
}

// A run closes as often as there is an opener for it, and may then open.
fn pair_run<'a>(
    nodes: &mut Vec<Node<'a>>,
    openers: &mut Openers,
    first: usize,
) -> Result<(), Memory>
    ensures { OnOk result (PairsRun first openers.old openers.new nodes.old.items nodes.new.items) }
{
    let mut place = first;
    while place < nodes.len() {
        match pair_once(nodes, openers, place) {
            Leftover::Unpaired => return openers.push(place),
            Leftover::Shorter => place += 1,
            Leftover::UsedUp => return Ok(()),
        }
    }
    Ok(())
}

/// What becomes of a closer.
#[derive(Clone, Copy)]
enum Leftover {
    /// There is no opener for it.
    Unpaired,
    /// It has marks left, at the place behind.
    Shorter,
    UsedUp,
}

fn pair_once<'a>(nodes: &mut Vec<Node<'a>>, openers: &mut Openers, place: usize) -> Leftover
    ensures value { PairsOnce place result openers.old openers.new nodes.old.items nodes.new.items }
    ensures len { length nodes.new.items ≡ length nodes.old.items }
{
    match closer_at(nodes, place) {
        Some(closer) => pair_closer(nodes, openers, place, closer),
        None => Leftover::Unpaired,
    }
}

fn closer_at(nodes: &[Node], place: usize) -> Option<Run>
    ensures { result ≡ closer_of (machine.run_at (slice_get nodes.now place)) }
{
    match run_at(nodes, place) {
        Some(run) => { if run.closes { Some(run) } else { None } }
        None => None,
    }
}

fn pair_closer<'a>(
    nodes: &mut Vec<Node<'a>>,
    openers: &mut Openers,
    place: usize,
    closer: Run,
) -> Leftover
    requires { Some closer ≡ closer_of (machine.run_at (slice_get nodes.old.items place)) }
    ensures value { PairsOnce place result openers.old openers.new nodes.old.items nodes.new.items }
    ensures len { length nodes.new.items ≡ length nodes.old.items }
{
    match openers.find(nodes, closer) {
        Some(opener) => pair_with(nodes, openers, opener, place, closer),
        None => {
            openers.miss(closer, place);
            Leftover::Unpaired
        }
    }
}

// What stands between an opener and its closer opens nothing any more.
fn pair_with<'a>(
    nodes: &mut Vec<Node<'a>>,
    openers: &mut Openers,
    opener: Opener,
    place: usize,
    closer: Run,
) -> Leftover
    requires { opener.index < length openers.old.places.items }
    ensures { PairsWith opener place closer result openers.old openers.new nodes.old.items nodes.new.items }
{
    let taken = strength(opener.run.len, closer.len);
    change_each(nodes, &openers.places[opener.index + 1..], Change::Freeze);
    close_nodes(nodes, place, closer, taken);
    open_nodes(nodes, opener.place, opener.run, taken);
    openers.cut(opener, taken);
    left_over(closer, taken)
}

fn left_over(closer: Run, taken: usize) -> Leftover
    ensures { result ≡ leftover_of closer taken }
{
    if taken < closer.len {
        Leftover::Shorter
    } else {
        Leftover::UsedUp
    }
}

fn close_nodes<'a>(nodes: &mut Vec<Node<'a>>, place: usize, closer: Run, taken: usize)
    ensures value { nodes.new.items ≡ machine.close_nodes place closer taken nodes.old.items }
{
    put(nodes, place, close_node(taken));
    if taken < closer.len {
        put_behind(nodes, place, 1, shorter(closer, taken));
    }
}

fn open_nodes<'a>(nodes: &mut Vec<Node<'a>>, place: usize, opener: Run, taken: usize)
    ensures value { nodes.new.items ≡ machine.open_nodes place opener taken nodes.old.items }
{
    if taken < opener.len {
        put(nodes, place, shorter(opener, taken));
        put_behind(nodes, place, opener.len - taken, open_node(taken));
    } else {
        put(nodes, place, open_node(taken));
    }
}

fn open_node<'a>(taken: usize) -> Node<'a>
    ensures { result ≡ machine.open_node taken }
{
    if taken == 2 {
        Node::OpenStrong
    } else {
        Node::OpenEmphasis
    }
}

fn close_node<'a>(taken: usize) -> Node<'a>
    ensures { result ≡ machine.close_node taken }
{
    if taken == 2 {
        Node::CloseStrong
    } else {
        Node::CloseEmphasis
    }
}

// Puts a node so far behind a place, if there is a place.
fn put_behind<'a>(nodes: &mut Vec<Node<'a>>, place: usize, far: usize, node: Node<'a>)
    ensures value { nodes.new.items ≡ slice_set nodes.old.items (place + far) node.entry }
{
    if place < nodes.len() && far < nodes.len() - place {
        put(nodes, place + far, node);
    }
}
