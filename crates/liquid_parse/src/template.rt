// Templates, and walking over their nodes.
ghost use Rattle.std.specs.Prelude.{◌≡◌, [], ◌+◌, ◌∷◌, length, IfSome, IfNone};
ghost use Rattle.liquid_parse.specs.Flat.{IsFlat, tree_of, with_node, len_of, flat};
ghost use Rattle.liquid_parse.specs.Walk.{IsFirst};

use crate::node::Node;
use std::marker::Model;

/// A template. Clauses see its tree; what it holds are the tree's nodes, one after another.
#[derive(Drop)]
pub struct Template {
    nodes: Vec<Node>,
}

impl Model for Template {
    ghost use Rattle.liquid_grammar.specs.Trees.{Tree};
    ghost use Rattle.liquid_parse.specs.contracts.node.Node.{the_row};
    ghost use Rattle.liquid_parse.specs.TreeCode.{tree_code};
    ghost use Rattle.liquid_parse.specs.Flat.{tree_of, IsFlat};

    ghost Value = { Tree };

    ghost coded = { tree_code the_row.coded };

    ghost view = { λ t. tree_of t.nodes.items };

    ghost invariant = { λ t. IsFlat t.nodes.items };
}

impl Template {
    pub(crate) fn from_nodes(nodes: Vec<Node>) -> Template
        requires { IsFlat nodes.items }
        ensures { result ≡ tree_of nodes.items }
    {
        Template { nodes }
    }

    /// The nodes of the template, one after another.
    pub fn nodes(&self) -> &[Node]
        ensures nodes { result.now ≡ flat self.now }
        ensures flat { IsFlat result.now }
    {
        self.nodes.as_slice()
    }
}

/// The first node of a list, what is in it, and what follows it.
#[derive(Clone, Copy)]
pub struct First<'a> {
    pub node: &'a Node,
    pub inside: &'a [Node],
    pub rest: &'a [Node],
}

fn len_of(node: &Node) -> usize
    ensures { result ≡ len_of node.now }
{
    match node {
        Node::Leaf(_, _) => 0,
        Node::Block(_, _, len) => *len,
        Node::Part(_, _, len) => *len,
    }
}

/// Takes apart a list of nodes that is laid out as a tree: its first node, what is in that one, and what follows it, both of
/// which are laid out as trees too. It takes no memory and does not search.
pub fn first_of<'a>(nodes: &'a [Node]) -> Option<First<'a>>
    requires { IsFlat nodes.now }
    ensures some { IfSome result (λ first. IsFirst nodes.now first.node.now first.inside.now first.rest.now) }
    ensures none { IfNone result (nodes.now ≡ []) }
{
    match nodes {
        [] => None,
        [node, behind @ ..] => {
            let (inside, rest) = behind.split_at(len_of(node));
            Some(First { node, inside, rest })
        }
    }
}
