// The nodes of a template while they are made.
ghost use Rattle.std.specs.Prelude.{◌≡◌, ◌-◌, length, OnOk, OnErr, Err};
ghost use Rattle.liquid_grammar.specs.declared.item.Verbatim.TheVariants as verbatim;
ghost use Rattle.liquid_grammar.specs.Trees.{name_of, is_last, has_part, may_follow, same_block, move};
ghost use Rattle.liquid_parse.specs.Machine.{flat_of, top, below, with_len, set_len, close_at, open_line, opened, turn, end, step, Steps};

use crate::error::ParseError;
use crate::node::Node;
use liquid_grammar::{Block, BlockName, Item, Move, Part, Verbatim};
use site_base::FaultKind;
use std::alloc::Global;

/// A block that is open.
#[derive(Clone, Copy, Debug, PartialEq, Eq)]
pub(crate) struct Open {
    pub line: u64,
    /// Where the block's node stands.
    pub node: usize,
    /// Where the node of its last part stands.
    pub part: usize,
    pub name: BlockName,
    /// Whether no part may follow.
    pub is_last: bool,
}

/// The nodes so far, the blocks that are open, the innermost last, and whether pieces are those of a raw text or a comment.
#[derive(Drop)]
pub(crate) struct Building {
    pub nodes: Vec<Node>,
    pub stack: Vec<Open>,
    pub verbatim: Verbatim,
}

fn name_of(block: &Block) -> BlockName
    ensures { result ≡ name_of block.now }
{
    match block {
        Block::If => BlockName::If,
        Block::Unless => BlockName::Unless,
        Block::Case(_) => BlockName::Case,
        Block::For(_) => BlockName::For,
        Block::TableRow(_) => BlockName::TableRow,
        Block::Capture(_) => BlockName::Capture,
        Block::Highlight(_) => BlockName::Highlight,
    }
}

fn is_last(part: &Part) -> bool
    ensures { result ≡ is_last part.now }
{
    matches!(part, Part::Otherwise)
}

fn has_part(name: BlockName, part: &Part) -> bool
    ensures { result ≡ has_part name part.now }
{
    match (name, part) {
        (BlockName::If | BlockName::Unless, Part::Test(_) | Part::Otherwise) => true,
        (BlockName::Case, Part::When(_) | Part::Otherwise) => true,
        (BlockName::For, Part::Otherwise) => true,
        _ => false,
    }
}

fn may_follow(name: BlockName, is_last: bool, part: &Part) -> bool
    ensures { result ≡ may_follow name is_last part.now }
{
    if is_last { false } else { has_part(name, part) }
}

fn same_block(one: BlockName, other: BlockName) -> bool
    ensures { result ≡ same_block one other }
{
    match (one, other) {
        (BlockName::If, BlockName::If) => true,
        (BlockName::Unless, BlockName::Unless) => true,
        (BlockName::Case, BlockName::Case) => true,
        (BlockName::For, BlockName::For) => true,
        (BlockName::TableRow, BlockName::TableRow) => true,
        (BlockName::Capture, BlockName::Capture) => true,
        (BlockName::Highlight, BlockName::Highlight) => true,
        _ => false,
    }
}

/// What an item does that stands in this line.
pub(crate) fn move_of(verbatim: Verbatim, line: u64, item: Item) -> Move
    ensures { result ≡ move verbatim line item }
{
    match verbatim {
        Verbatim::Not => plain_move(line, item),
        Verbatim::Raw(_) => match item {
            Item::Nothing => Move::Passes(verbatim),
            Item::Leaf(leaf) => Move::Adds(leaf),
            Item::Ends(BlockName::Raw) => Move::Passes(Verbatim::Not),
            _ => Move::Fails(FaultKind::LiquidSyntax),
        },
        Verbatim::Comment(_) => match item {
            Item::Nothing => Move::Passes(verbatim),
            Item::Ends(BlockName::Comment) => Move::Passes(Verbatim::Not),
            _ => Move::Fails(FaultKind::LiquidSyntax),
        },
    }
}

// What an item does outside of raw texts and comments.
fn plain_move(line: u64, item: Item) -> Move
    ensures { result ≡ move verbatim.Not line item }
{
    match item {
        Item::Nothing => Move::Passes(Verbatim::Not),
        Item::Leaf(leaf) => Move::Adds(leaf),
        Item::Opens(block, part) => Move::Opens(block, part),
        Item::Turns(part) => Move::Turns(part),
        Item::Ends(BlockName::Raw | BlockName::Comment) => Move::Fails(FaultKind::LiquidSyntax),
        Item::Ends(name) => Move::Ends(name),
        Item::Raw => Move::Passes(Verbatim::Raw(line)),
        Item::Comment => Move::Passes(Verbatim::Comment(line)),
    }
}

impl Node {
    fn set_len(&mut self, new_len: usize)
        ensures { self.new ≡ with_len new_len self.old }
    {
        match self {
            Node::Leaf(_, _) => {}
            Node::Block(_, _, len) => *len = new_len,
            Node::Part(_, _, len) => *len = new_len,
        }
    }
}

fn set_len(nodes: &mut Vec<Node>, place: usize, len: usize)
    ensures { nodes.new.items ≡ set_len len place nodes.old.items }
{
    if place < nodes.len() {
        nodes[place].set_len(len);
    }
}

// A node has all of the nodes behind it.
fn close_at(nodes: &mut Vec<Node>, place: usize)
    ensures { nodes.new.items ≡ close_at place nodes.old.items }
{
    let len = nodes.len().saturating_sub(place).saturating_sub(1);
    set_len(nodes, place, len);
}

// Takes the innermost open block.
fn pop_open(stack: &mut Vec<Open>) -> Option<Open>
    ensures top { result ≡ top stack.old.items }
    ensures below { stack.new.items ≡ below stack.old.items }
{
    stack.pop()
}

/// The line of the innermost open block, raw text or comment.
pub(crate) fn open_line(stack: &mut Vec<Open>, verbatim: Verbatim) -> Option<u64>
    ensures { result ≡ open_line verbatim (top stack.old.items) }
{
    match verbatim {
        Verbatim::Raw(line) | Verbatim::Comment(line) => Some(line),
        Verbatim::Not => match pop_open(stack) {
            Some(open) => Some(open.line),
            None => None,
        },
    }
}

fn refused(line: u64) -> Result<(), ParseError>
    ensures { result ≡ Err (ParseError.Fault line FaultKind.LiquidSyntax) }
{
    Err(ParseError::Fault(line, FaultKind::LiquidSyntax))
}

impl Building {
    fn begin(&mut self, line: u64, block: Block, part: Part) -> Result<(), ParseError>
        ensures { Steps result (flat_of self.new) (Ok (opened line block part (flat_of self.old))) }
    {
        let node = self.nodes.len();
        let name = name_of(&block);
        let is_last = is_last(&part);
        self.nodes.push(Node::Block(line, block, 0))?;
        self.nodes.push(Node::Part(line, part, 0))?;
        self.stack.push(Open {
            line,
            node,
            part: node + 1,
            name,
            is_last,
        })?;
        Ok(())
    }

    fn turn(&mut self, line: u64, part: Part) -> Result<(), ParseError>
        ensures { Steps result (flat_of self.new) (turn line part (flat_of self.old) (top (flat_of self.old).stack)) }
    {
        let open = match pop_open(&mut self.stack) {
            Some(open) => open,
            None => return refused(line),
        };
        if !may_follow(open.name, open.is_last, &part) {
            return refused(line);
        }
        let place = self.nodes.len();
        let is_last = is_last(&part);
        close_at(&mut self.nodes, open.part);
        self.nodes.push(Node::Part(line, part, 0))?;
        self.stack.push(Open {
            line: open.line,
            node: open.node,
            part: place,
            name: open.name,
            is_last,
        })?;
        Ok(())
    }

    fn end(&mut self, line: u64, name: BlockName) -> Result<(), ParseError>
        ensures { Steps result (flat_of self.new) (end line name (flat_of self.old) (top (flat_of self.old).stack)) }
    {
        let open = match pop_open(&mut self.stack) {
            Some(open) => open,
            None => return refused(line),
        };
        if !same_block(open.name, name) {
            return refused(line);
        }
        close_at(&mut self.nodes, open.part);
        close_at(&mut self.nodes, open.node);
        Ok(())
    }

    /// Does what a piece in this line does.
    pub(crate) fn step(&mut self, line: u64, next: Move) -> Result<(), ParseError>
        ensures { Steps result (flat_of self.new) (step line next (flat_of self.old)) }
    {
        match next {
            Move::Passes(verbatim) => {
                self.verbatim = verbatim;
                Ok(())
            }
            Move::Adds(leaf) => {
                self.nodes.push(Node::Leaf(line, leaf))?;
                Ok(())
            }
            Move::Opens(block, part) => self.begin(line, block, part),
            Move::Turns(part) => self.turn(line, part),
            Move::Ends(name) => self.end(line, name),
            Move::Fails(kind) => Err(ParseError::Fault(line, kind)),
        }
    }
}
