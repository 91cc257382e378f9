//! Templates: what each piece of a text says, and the tree that the pieces make.
#![tactic(auto)]

mod building;
mod error;
mod item;
mod node;
mod parsing;
mod tags;
mod template;
mod templates;

pub use error::ParseError;
pub use node::Node;
pub use parsing::parse;
pub use template::{First, Template, first_of};
pub use templates::{SharedTemplate, Templates};
