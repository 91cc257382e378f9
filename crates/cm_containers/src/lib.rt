//! Which open containers of Markdown a line goes on with: block quotes and list items.
#![tactic(auto)]

mod kinds;
mod matching;
mod open_containers;
mod spots;

pub use kinds::{Container, Matched};
pub use matching::{Entered, match_line};
pub use open_containers::OpenContainers;
pub use spots::{Spot, behind, behind_white, shift};
