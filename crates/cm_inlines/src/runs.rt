// Runs of marks among the nodes.
ghost use Rattle.std.specs.Prelude.{◌≡◌, ◌≤◌, Some, slice_get};
ghost use Rattle.markdown_grammar.specs.Emphasis as emphasis;
ghost use Rattle.cm_inlines.specs.Machine as machine;
ghost use Rattle.cm_spans.specs.Pieces.{mark_byte};

use crate::node::{Node, Run};

/// The run at a place.
pub(crate) fn run_at(nodes: &[Node], place: usize) -> Option<Run>
    ensures { result ≡ machine.run_at (slice_get nodes.now place) }
{
    if place < nodes.len() {
        run_of(&nodes[place])
    } else {
        None
    }
}

fn run_of(node: &Node) -> Option<Run>
    ensures { result ≡ machine.run_at (Some node.now) }
{
    match node {
        Node::Run(run) => Some(*run),
        _ => None,
    }
}

/// Whether a run opens for a closer.
pub(crate) fn opens_for(closer: Run, run: Run) -> bool
    ensures { result ≡ machine.opens_for (mark_byte closer.mark) closer.first closer.opens run }
{
    run.opens
        && run.mark == closer.mark
        && (!(run.closes || closer.opens) || lengths_fit(run.first, closer.first))
}

// Rules 9 and 10 of the standard.
fn lengths_fit(one: usize, other: usize) -> bool
    ensures { result ≡ emphasis.lengths_fit one other }
{
    (one % 3 + other % 3) % 3 != 0 || (one % 3 == 0 && other % 3 == 0)
}

/// Two marks where both runs have two.
pub(crate) fn strength(opener: usize, closer: usize) -> usize
    ensures { result ≡ emphasis.strength opener closer }
{
    if 1 < opener && 1 < closer { 2 } else { 1 }
}

/// A run without so many of its marks.
pub(crate) fn shorter<'a>(run: Run, taken: usize) -> Node<'a>
    requires { taken ≤ run.len }
    ensures { result ≡ machine.shorter run taken }
{
    Node::Run(Run {
        mark: run.mark,
        len: run.len - taken,
        first: run.first,
        opens: run.opens,
        closes: run.closes,
    })
}
