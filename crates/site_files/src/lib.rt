//! What each file of a site is, as far as its path and its name tell.
#![tactic(auto)]

mod choosing;
mod names;
mod place;
mod post_name;

pub use choosing::{covers, is_brought_in, is_hidden, is_taken_out, without_slash};
pub use names::{extension, file_name, folder, stem};
pub use place::Place;
pub use post_name::{DatedName, dated_name, is_post_name};
