// Nodes of a template, by their tree.
ghost use Rattle.std.specs.Prelude.{◌≡◌};
ghost use Rattle.liquid_grammar.specs.Trees.{done};
ghost use Rattle.liquid_tags.specs.Nodes.{first_tree, is_done, entered, parts_from, part_tree, is_body, is_otherwise, body_of, else_of, branches_of};

use liquid_grammar::{Block, Leaf, Part};
use liquid_parse::{Node, SharedTemplate, Template, first_of};
use std::marker::Model;

/// Nodes one after another, which clauses see as their tree.
#[derive(Drop)]
pub struct Nodes<'n> {
    nodes: &'n [Node],
}

impl<'n> Model for Nodes<'n> {
    ghost use Rattle.liquid_grammar.specs.Trees.{Tree};
    ghost use Rattle.liquid_parse.specs.contracts.node.Node.{the_row};
    ghost use Rattle.liquid_parse.specs.TreeCode.{tree_code};
    ghost use Rattle.liquid_parse.specs.Flat.{IsFlat, tree_of};

    ghost Value = { Tree };

    ghost coded = { tree_code the_row.coded };

    ghost view = { λ n. tree_of n.nodes.now };

    ghost invariant = { λ n. IsFlat n.nodes.now };
}

/// The first of some nodes, with what is in it, and what follows it.
#[derive(Drop)]
pub enum First<'n> {
    Leaf(u64, &'n Leaf, Nodes<'n>),
    /// With its parts.
    Block(u64, &'n Block, Nodes<'n>, Nodes<'n>),
    /// With its body.
    Part(u64, &'n Part, Nodes<'n>, Nodes<'n>),
    Nothing,
}

/// The first part of some nodes, with its own nodes, and what follows it.
#[derive(Drop)]
pub(crate) struct FirstPart<'n> {
    pub line: u64,
    pub part: &'n Part,
    pub body: Nodes<'n>,
    pub behind: Nodes<'n>,
}

impl<'n> Nodes<'n> {
    /// The nodes of a whole template.
    pub fn of(template: &'n Template) -> Nodes<'n>
        ensures { result ≡ template.now }
    {
        Nodes {
            nodes: template.nodes(),
        }
    }

    /// The nodes of a whole template that has several holders.
    pub fn of_shared(template: &'n SharedTemplate) -> Nodes<'n>
        ensures { result ≡ template.now }
    {
        Nodes {
            nodes: template.nodes(),
        }
    }

    // No nodes.
    #[tactic(auto, using(crate::proofs::NodeLaws::none_at_all))]
    fn nothing() -> Nodes<'n>
        ensures { result ≡ done }
    {
        Nodes { nodes: &[] }
    }

    /// The same nodes.
    pub fn again(&self) -> Nodes<'n>
        ensures { result ≡ self.now }
    {
        Nodes { nodes: self.nodes }
    }

    /// The first of the nodes. It takes no memory and does not search.
    pub fn first(&self) -> First<'n>
        ensures { self.now ≡ first_tree result }
    {
        match first_of(self.nodes) {
            None => First::Nothing,
            Some(first) => {
                let inside = Nodes {
                    nodes: first.inside,
                };
                let rest = Nodes { nodes: first.rest };
                match first.node {
                    Node::Leaf(line, leaf) => First::Leaf(*line, leaf, rest),
                    Node::Block(line, block, _) => First::Block(*line, block, inside, rest),
                    Node::Part(line, part, _) => First::Part(*line, part, inside, rest),
                }
            }
        }
    }

    /// Whether there are none.
    pub(crate) fn is_empty(&self) -> bool
        ensures { result ≡ is_done self.now }
    {
        match self.first() {
            First::Nothing => true,
            First::Leaf(_, _, _) => false,
            First::Block(_, _, _, _) => false,
            First::Part(_, _, _, _) => false,
        }
    }

    /// The nodes in the first node, and then those behind it.
    pub(crate) fn entered(&self) -> Nodes<'n>
        ensures { result ≡ entered self.now }
    {
        match self.nodes {
            [] => self.again(),
            [_, behind @ ..] => Nodes { nodes: behind },
        }
    }

    /// The first part, with its nodes and what follows it. What stands before it is passed over.
    pub(crate) fn first_part(&self) -> Option<FirstPart<'n>>
        ensures { part_tree result ≡ parts_from self.now }
    {
        let mut rest = self.again();
        loop {
            match rest.first() {
                First::Part(line, part, body, behind) => {
                    return Some(FirstPart {
                        line,
                        part,
                        body,
                        behind,
                    });
                }
                First::Leaf(_, _, behind) => rest = behind,
                First::Block(_, _, _, behind) => rest = behind,
                First::Nothing => return None,
            }
        }
    }

    /// Of a block's parts, the nodes of the part with which the block begins.
    #[tactic(auto, using(crate::proofs::NodeLaws::taking))]
    pub fn body(&self) -> Nodes<'n>
        ensures { result ≡ body_of self.now }
    {
        let mut rest = self.again();
        while let Some(first) = rest.first_part() {
            if is_body(first.part) {
                return first.body;
            }
            rest = first.behind;
        }
        Nodes::nothing()
    }

    /// Of a loop's parts, the nodes of the part without an element, where there is one.
    #[tactic(auto, using(crate::proofs::NodeLaws::taking))]
    pub fn otherwise(&self) -> Option<Nodes<'n>>
        ensures { result ≡ else_of self.now }
    {
        let mut rest = self.again();
        while let Some(first) = rest.first_part() {
            if is_otherwise(first.part) {
                return Some(first.body);
            }
            rest = first.behind;
        }
        None
    }

    /// Of the parts of a `case`, its branches: all but what stands before them.
    pub(crate) fn branches(&self) -> Nodes<'n>
        ensures { result ≡ branches_of self.now }
    {
        match self.first() {
            First::Part(_, part, _, behind) => { if is_body(part) { behind } else { self.again() } }
            First::Leaf(_, _, _) => self.again(),
            First::Block(_, _, _, _) => self.again(),
            First::Nothing => self.again(),
        }
    }
}

fn is_body(part: &Part) -> bool
    ensures { result ≡ is_body part.now }
{
    match part {
        Part::Body => true,
        Part::Test(_) | Part::When(_) | Part::Otherwise => false,
    }
}

fn is_otherwise(part: &Part) -> bool
    ensures { result ≡ is_otherwise part.now }
{
    match part {
        Part::Otherwise => true,
        Part::Body | Part::Test(_) | Part::When(_) => false,
    }
}
