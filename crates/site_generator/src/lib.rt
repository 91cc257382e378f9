//! The made-up site for measuring: a layout, a page that names the posts, and as many posts as are wanted.
#![tactic(auto)]

mod edit;
mod post;
mod site;

pub use edit::{edited_path, edited_post};
pub use site::make_site;
