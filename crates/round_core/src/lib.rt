//! The steps of a round, in which several workers claim the items of a site, keep or render them, and take what
//! others made: which steps are allowed, what they leave, and what one worker knows.
#![tactic(auto)]

mod crossing;
mod event;
mod hand;
mod known;
mod made;
mod outs;
mod running;
mod state;
mod stepping;

pub use event::Event;
pub use hand::Hand;
pub use known::Known;
pub use made::Made;
pub use running::{CoreError, run};
pub use state::Core;
