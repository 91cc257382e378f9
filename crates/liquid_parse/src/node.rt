// The nodes of a template, one after another.
use liquid_grammar::{Block, Leaf, Part};

/// A node with the line of its tag. A block has the number of the nodes that its parts are, which follow it, and a part that of
/// its nodes.
#[derive(Drop)]
pub enum Node {
    Leaf(u64, Leaf),
    Block(u64, Block, usize),
    Part(u64, Part, usize),
}

const _: () = prove!(size_of::<Node>() == 48);
