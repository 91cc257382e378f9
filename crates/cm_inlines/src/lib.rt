//! The inlines of a text of Markdown: code spans, links, emphasis and what stands between them.
#![tactic(auto)]

mod changes;
mod delimiters;
mod inlines;
mod node;
mod openers;
mod pairing;
mod reading;
mod runs;
mod targets;

pub use inlines::Inlines;
pub use node::{Node, Opening, Run, Target};
pub use reading::read_inlines;
