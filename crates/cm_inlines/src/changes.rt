// Nodes that change where they stand.
ghost use Rattle.std.specs.Prelude.{◌≡◌, ◌+◌, slice_set, unwrap_or};
ghost use Rattle.cm_inlines.specs.Machine.{change_between, changed};
ghost use Rattle.cm_inlines.specs.Places.{change_each};

use crate::node::{Node, Opening};

/// How a node changes.
#[derive(Clone, Copy)]
pub(crate) enum Change {
    /// Marks and brackets become text.
    Freeze,
    /// The brackets of links begin nothing any more.
    Calm,
}

/// Changes the nodes at these places.
pub(crate) fn change_each<'a>(nodes: &mut Vec<Node<'a>>, places: &[usize], how: Change)
    ensures { nodes.new.items ≡ change_each how places.now nodes.old.items }
{
    for place in places {
        change_at(nodes, *place, how);
    }
}

fn change_at<'a>(nodes: &mut Vec<Node<'a>>, place: usize, how: Change)
    ensures { nodes.new.items ≡ change_between how place (place + 1) nodes.old.items }
{
    if place < nodes.len() {
        match change_of(&nodes[place], how) {
            Some(node) => put(nodes, place, node),
            None => (),
        }
    }
}

// What a node becomes, or nothing where it stays as it is.
fn change_of<'a>(node: &Node<'a>, how: Change) -> Option<Node<'a>>
    ensures { unwrap_or result node.now ≡ changed how node.now }
{
    match (how, node) {
        (Change::Freeze, Node::Run(run)) => Some(Node::Marks(run.mark, run.len)),
        (Change::Freeze, Node::Opening(opening)) => Some(Node::Bracket(opening.is_image)),
        (Change::Calm, Node::Opening(opening)) => Some(Node::Opening(Opening {
            is_image: opening.is_image,
            is_active: opening.is_active && opening.is_image,
            behind: opening.behind,
        })),
        _ => None,
    }
}

/// Puts a node at a place, if there is one.
pub(crate) fn put<'a>(nodes: &mut Vec<Node<'a>>, place: usize, node: Node<'a>)
    ensures { nodes.new.items ≡ slice_set nodes.old.items place node.entry }
{
    if place < nodes.len() {
        nodes[place] = node;
    }
}
