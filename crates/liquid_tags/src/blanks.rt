// Blocks that write nothing.
ghost use Rattle.std.specs.Prelude.{◌≡◌, ◌<◌, false, IfSome};
ghost use Rattle.std.specs.List.{list_all};
ghost use Rattle.filter_base.specs.White.{is_white};
ghost use Rattle.liquid_tags.specs.Blanks as blanks;
ghost use Rattle.liquid_tags.specs.Blanks.{counts_of, is_blank_leaf, writes_nothing, left_write_nothing};
ghost use Rattle.liquid_tags.specs.Nodes.{node_count, is_done};

use crate::nodes::{First, Nodes};
use filter_base::is_white;
use liquid_grammar::{Block, Leaf};

/// By what a block counts as one that writes nothing.
#[derive(Clone, Copy)]
pub(crate) enum Counts {
    /// By what its parts write.
    ByParts,
    /// By what its parts write, but for what stands before the first `when`.
    ByBranches,
    /// It writes nothing whatever it holds.
    Always,
    /// It writes something whatever it holds.
    Never,
}

/// Whether a block writes nothing: its parts hold white space, `assign`, `capture` and such blocks alone. Each node is looked at once at
/// most, and none behind the first that writes.
#[tactic(auto, using(crate::proofs::BlankLaws::branches_write))]
pub fn is_silent<'n>(block: &Block, parts: &Nodes<'n>) -> bool
    ensures { result ≡ blanks.is_silent block.now parts.now }
{
    match counts_of(block) {
        Counts::ByParts => write_nothing(parts),
        Counts::ByBranches => write_nothing(&parts.branches()),
        Counts::Always => true,
        Counts::Never => false,
    }
}

fn counts_of(block: &Block) -> Counts
    ensures { result ≡ counts_of block.now }
{
    match block {
        Block::If => Counts::ByParts,
        Block::Unless => Counts::ByParts,
        Block::Case(_) => Counts::ByBranches,
        Block::For(_) => Counts::ByParts,
        Block::TableRow(_) => Counts::Never,
        Block::Capture(_) => Counts::Always,
        Block::Highlight(_) => Counts::Never,
    }
}

// Whether nodes write nothing but white space. What is in a node is looked at before what follows it, without a call of its own, since
// blocks may stand in one another deeper than the stack allows.
fn write_nothing<'n>(nodes: &Nodes<'n>) -> bool
    ensures { result ≡ writes_nothing nodes.now }
{
    let mut rest = nodes.again();
    while !rest.is_empty() {
        match left_behind_first(&rest) {
            Some(left) => rest = left,
            None => return false,
        }
    }
    true
}

// Of nodes, those that are left to look at behind the first and in it, or nothing where that one writes.
#[tactic(auto, using(crate::proofs::BlankLaws::looked_at))]
fn left_behind_first<'n>(nodes: &Nodes<'n>) -> Option<Nodes<'n>>
    ensures same { left_write_nothing result ≡ writes_nothing nodes.now }
    ensures fewer { IfSome result (λ left. is_done nodes.now ≡ false → node_count left < node_count nodes.now) }
{
    match nodes.first() {
        First::Leaf(_, leaf, behind) => {
            if is_blank_leaf(leaf) {
                Some(behind)
            } else {
                None
            }
        }
        First::Block(_, block, parts, behind) => match counts_of(block) {
            Counts::ByParts => Some(nodes.entered()),
            Counts::ByBranches => {
                if parts.is_empty() {
                    Some(behind)
                } else {
                    Some(nodes.entered().branches())
                }
            }
            Counts::Always => Some(behind),
            Counts::Never => None,
        },
        First::Part(_, _, _, _) => Some(nodes.entered()),
        First::Nothing => Some(nodes.again()),
    }
}

fn is_blank_leaf(leaf: &Leaf) -> bool
    ensures { result ≡ is_blank_leaf leaf.now }
{
    match leaf {
        Leaf::Text(text) => is_white_space(text.as_bytes()),
        Leaf::Assign(_) => true,
        _ => false,
    }
}

/// Whether a text is white space.
pub(crate) fn is_white_space(text: &[u8]) -> bool
    ensures { result ≡ list_all is_white text.now }
{
    text.iter().all(|byte| is_white(*byte))
}
