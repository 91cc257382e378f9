//! Rounds over the items of a site: what is kept of an item and still agrees stays, and all else is rendered anew.
#![tactic(auto)]

mod anew;
mod answers;
mod cells;
mod collecting;
mod learning;
mod part;
mod placing;
mod plain_look;
mod progress;
mod serial;
mod settling;
mod spreading;
mod worker;
mod workers;

pub use anew::render_all;
pub use answers::{Outcomes, Round, RoundError, Why, Whys};
pub use serial::regenerate_serial;
pub use workers::regenerate;
