//! The blocks of a Markdown text: containers and leaves, found in one walk over its lines.
#![tactic(auto)]

mod html_ends;
mod kinds;
mod laws;
mod leaf_lines;
mod leaf_more;
mod leaf_nodes;
mod level;
mod lines;
mod making;
mod node;
mod open_walk;
mod opening;
mod reaching;
mod reading;
mod walk;

pub use kinds::{Leaf, Token};
pub use laws::documents_have_the_html_of_their_blocks;
pub use leaf_lines::LeafLines;
pub use node::{Blocks, Node};
pub use open_walk::block_tokens;
pub use reading::read_blocks;
