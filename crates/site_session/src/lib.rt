//! A session over a site: edits of the files that are held, and builds that make the output equal to what they stand for.
#![tactic(auto)]

mod base;
mod build;
mod key_text;
mod links;
mod output;
mod reading;
mod reply;
mod rest;
mod rounds;
mod session;
mod tree;

pub use build::{Rebuilt, Report};
pub use links::LinkReport;
pub use output::{Output, Written};
pub use render_workers::{Why, Whys};
pub use reply::Reply;
pub use rounds::Crew;
pub use session::Session;
