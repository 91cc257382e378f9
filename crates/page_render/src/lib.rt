//! What is made of an item of a site: its text evaluated, converted where it is Markdown, and put into its layouts.
#![tactic(auto)]

mod around;
mod crossing;
mod item;
mod layout;
mod layouts;
mod renderer;
mod templates_pool;

pub use renderer::{PageMeaning, PageRenderer};
