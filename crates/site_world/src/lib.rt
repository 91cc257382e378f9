//! What a site answers to those who render its items.
#![tactic(auto)]

mod coded;
mod copied;
mod crossing;
mod found;
mod item_places;
mod kept_variables;
mod looking;
mod members;
mod named;
mod posts;
mod shelf;
mod shelves;
mod site_world;
mod text_code;
mod world;

pub use kept_variables::KeptVariables;
pub use site_world::SiteWorld;
