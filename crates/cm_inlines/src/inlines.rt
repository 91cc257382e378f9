// Inlines.
ghost use Rattle.std.specs.Prelude.{◌≡◌};
ghost use Rattle.cm_inlines.specs.Nodes.{IsLaidOut, tokens_in};
ghost use Rattle.cm_inlines.specs.Tokens.{tokens, tree_of};

use crate::node::Node;
use std::marker::Model;

/// The inlines of a text. Clauses see them as their tree; what they hold are nodes, one after another,
/// where what opens and what closes stands for itself.
#[derive(Drop)]
pub struct Inlines<'a> {
    nodes: Vec<Node<'a>>,
}

impl<'a> Model for Inlines<'a> {
    ghost use Rattle.markdown_grammar.specs.Inlines as grammar;
    ghost use Rattle.cm_inlines.specs.TokenCode.{inlines_code};
    ghost use Rattle.cm_inlines.specs.Nodes.{IsLaidOut, tokens_in};
    ghost use Rattle.cm_inlines.specs.Tokens.{tree_of};

    ghost Value = { grammar.Inlines };

    ghost coded = { inlines_code };

    ghost view = { λ a. tree_of (tokens_in a.nodes.items) };

    ghost invariant = { λ a. IsLaidOut a.nodes.items };
}

impl<'a> Inlines<'a> {
    pub(crate) fn from_nodes(nodes: Vec<Node<'a>>) -> Inlines<'a>
        requires { IsLaidOut nodes.items }
        ensures { result ≡ tree_of (tokens_in nodes.entry.items) }
    {
        Inlines { nodes }
    }

    /// The nodes, one after another.
    pub fn nodes(&self) -> &[Node<'a>]
        ensures { tokens_in result.now ≡ tokens self.now }
    {
        self.nodes.as_slice()
    }
}
