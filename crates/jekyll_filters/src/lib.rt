//! The filters that Jekyll adds to those of Liquid: each is found by its name, takes an input and arguments, and gives a value.
#![tactic(auto)]

mod addresses;
mod changes;
mod dates;
mod filter_name;
mod filtering;
mod groups;
mod json_texts;
mod lists;
mod markdown;
mod words;

pub use addresses::AddressFilter;
pub use changes::TextChange;
pub use dates::DateFilter;
pub use filter_name::FilterName;
pub use filtering::jekyll_filter;
pub use lists::ListFilter;
