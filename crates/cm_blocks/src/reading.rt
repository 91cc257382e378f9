// The blocks of a text.
ghost use Rattle.std.specs.Prelude.{◌≡◌, IfOk};
ghost use Rattle.markdown_grammar.specs.Blocks.{blocks_of};
ghost use Rattle.cm_blocks.specs.Reads.{IsRead};

use crate::leaf_nodes::links_of;
use crate::making::nodes_of;
use crate::node::Blocks;
use crate::open_walk::block_tokens;
use site_base::Memory;
use std::alloc::Global;

/// The blocks of a Markdown text in a flat list, and all link reference definitions in it, in order; or
/// `Memory` where memory is wanting. CommonMark 0.31.2, sections 3 to 5.
pub fn read_blocks(alloc: Global, text: &str) -> Result<Blocks, Memory>
    ensures { IfOk result (IsRead (blocks_of text.now)) }
{
    let tokens = block_tokens(alloc, text)?;
    let links = links_of(alloc, &tokens)?;
    let nodes = nodes_of(alloc, tokens)?;
    Ok(Blocks { nodes, links })
}
