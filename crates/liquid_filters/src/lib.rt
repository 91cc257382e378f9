//! The filters of Liquid: each is found by its name, takes an input and arguments, and gives a value.
#![tactic(auto)]

mod filter_name;
mod filtering;
mod numbers;

pub use filter_name::FilterName;
pub use filtering::filter;
pub use numbers::NumberFilter;
