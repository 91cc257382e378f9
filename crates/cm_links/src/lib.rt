//! The parts of which Markdown's links are made: labels, character references, destinations, titles
//! and link reference definitions, each read from the front of a text.
#![tactic(auto)]

mod definitions;
mod destinations;
mod gaps;
mod label;
mod link_table;
mod names;
mod parts;
mod references;
mod resolving;
mod titles;

pub use definitions::{LinkDef, definition};
pub use destinations::destination;
pub use gaps::white_gap;
pub use label::{fold_label, is_label, link_label};
pub use link_table::Links;
pub use parts::LinkPart;
pub use references::{CharRef, reference};
pub use resolving::resolved;
pub use titles::link_title;
