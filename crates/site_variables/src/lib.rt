//! The variables of a site, as templates ask for them by `site.NAME`.
#![tactic(auto)]

mod basis;
mod by_place;
mod choice;
mod hashes;
mod labels;
mod lists;
mod own;
mod settings;
mod variables;

pub use basis::Basis;
pub use variables::site_variables;
