//! The tags of templates that enter no block: outputs, variables, names of files, links, which part of a block is taken, what a loop
//! goes over, which text an include has. The definitions stand in `specs/`, a file for each family.
#![tactic(auto)]

mod blanks;
mod branches;
mod conditions;
mod elements;
mod expressions;
mod file_names;
mod fronts;
mod highlights;
mod includes;
mod links;
mod nodes;
mod state;
mod tables;
mod tools;
mod variables;

pub use blanks::is_silent;
pub use branches::branch;
pub use conditions::{condition, is_nil};
pub use elements::{Elements, loop_elements};
pub use expressions::expression;
pub use file_names::name_text;
pub use fronts::before;
pub use highlights::highlighted;
pub use includes::{Included, include, include_relative};
pub use links::{link, post_url};
pub use nodes::{First, Nodes};
pub use state::State;
pub use tables::{Grid, table};
pub use tools::Tools;
pub use variables::{assign, cycle, decrement, increment, output};
