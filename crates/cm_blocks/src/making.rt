// Nodes from tokens, the last token first.
ghost use Rattle.std.specs.Prelude.{◌≡◌, ◌++◌, IfOk, OnOk, option_to_list};
ghost use Rattle.cm_blocks.specs.declared.kinds.Token.TheVariants as token;
ghost use Rattle.cm_blocks.specs.Making as spec;
ghost use Rattle.cm_blocks.specs.MadeViews.{made, went_inside};

use crate::kinds::{Leaf, Token};
use crate::leaf_nodes::{leaf_node, reads_blank};
use crate::level::{Level, behind_container, goes_with};
use crate::node::Node;
use cm_containers::Container;
use site_base::Memory;
use std::alloc::Global;

/// The nodes so far, the last first; what is known of the blocks that follow in the containers that are
/// open at their ends, the outermost first; and in the innermost.
#[derive(Drop)]
pub(crate) struct Making {
    pub nodes: Vec<Node>,
    pub outer: Vec<Level>,
    pub level: Level,
}

impl Making {
    pub fn new(alloc: Global) -> Making
        ensures { made result ≡ spec.made_start }
    {
        Making {
            nodes: Vec::new(alloc),
            outer: Vec::new(alloc),
            level: Level::new(0),
        }
    }

    /// Takes one token more in front.
    pub fn take(&mut self, alloc: Global, token: Token) -> Result<(), Memory>
        ensures { OnOk result (made self.new ≡ spec.token_made token (made self.old)) }
    {
        match token {
            Token::Blank => {
                self.level = self.level.behind_blank();
                Ok(())
            }
            Token::Holds(leaf) => self.put_leaf(alloc, leaf),
            Token::Closes(held) => {
                if goes_with(held, self.level) {
                    self.go_inside(self.level)
                } else {
                    push_list(&mut self.nodes, self.level)?;
                    self.go_inside(self.level.without_list())
                }
            }
            Token::Opens(held) => self.go_out(held),
        }
    }

    fn put_leaf(&mut self, alloc: Global, leaf: Leaf) -> Result<(), Memory>
        ensures { OnOk result (made self.new ≡ spec.token_made (token.Holds leaf) (made self.old)) }
    {
        let is_blank = reads_blank(&leaf);
        push_list(&mut self.nodes, self.level)?;
        push_found(&mut self.nodes, leaf_node(alloc, leaf)?)?;
        self.level = self.level.behind_leaf(is_blank);
        Ok(())
    }

    // Into a container at its end.
    fn go_inside(&mut self, rest: Level) -> Result<(), Memory>
        ensures { OnOk result (made self.new ≡ went_inside rest (made self.old)) }
    {
        self.outer.push(rest)?;
        self.level = Level::new(self.nodes.len());
        Ok(())
    }

    // Out of a container at its start.
    fn go_out(&mut self, held: Container) -> Result<(), Memory>
        ensures { OnOk result (made self.new ≡ spec.box_made held (made self.old) (made self.old).outer) }
    {
        match self.outer.pop() {
            Some(rest) => {
                push_list(&mut self.nodes, self.level)?;
                let len = self.nodes.len().saturating_sub(self.level.start);
                push_found(&mut self.nodes, Some(node_of(held, len)))?;
                self.level = behind_container(held, self.level, rest);
                Ok(())
            }
            None => Ok(()),
        }
    }

    /// All nodes, in order.
    pub fn finish(self) -> Result<Vec<Node>, Memory>
        ensures { IfOk result (λ nodes. nodes.items ≡ spec.made_nodes (made self)) }
    {
        let Making {
            mut nodes,
            level,
            ..
        } = self;
        push_list(&mut nodes, level)?;
        nodes.reverse();
        Ok(nodes)
    }
}

// The list that comes next, where one does.
fn push_list(nodes: &mut Vec<Node>, level: Level) -> Result<(), Memory>
    ensures { OnOk result (nodes.new.items ≡ spec.listed level nodes.old.items) }
{
    match level.next {
        Some(mark) => {
            let len = nodes.len().saturating_sub(level.list_start);
            nodes.push(Node::List {
                mark,
                number: level.number,
                is_loose: level.is_loose,
                len,
            })?;
            Ok(())
        }
        None => Ok(()),
    }
}

fn push_found(nodes: &mut Vec<Node>, found: Option<Node>) -> Result<(), Memory>
    ensures { OnOk result (nodes.new.items ≡ nodes.old.items ++ option_to_list found) }
{
    match found {
        Some(node) => {
            nodes.push(node)?;
            Ok(())
        }
        None => Ok(()),
    }
}

fn node_of(held: Container, len: usize) -> Node
    ensures { result ≡ spec.container_node held len }
{
    match held {
        Container::Quote => Node::Quote { len },
        Container::Item { .. } => Node::Item { len },
    }
}

/// The nodes of tokens, in order.
pub(crate) fn nodes_of(alloc: Global, tokens: Vec<Token>) -> Result<Vec<Node>, Memory>
    ensures { IfOk result (λ nodes. nodes.items ≡ spec.made_nodes (spec.all_made tokens.items spec.made_start)) }
{
    let mut tokens = tokens;
    let mut making = Making::new(alloc);
    while let Some(token) = tokens.pop() {
        making.take(alloc, token)?;
    }
    making.finish()
}
