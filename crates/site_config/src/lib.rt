//! The configuration of a site: a key's form, its default, and the first key whose value has another form.
#![tactic(auto)]

mod collection;
mod collections;
mod config;
mod config_error;
mod form;
mod forms;
mod names;
mod parts;
mod reading;
mod scope;
mod scopes;
mod settings;
mod sorting;
mod table;
mod texts;
mod value_error;
mod values;

pub use collection::Collection;
pub use config::Config;
pub use config_error::ConfigError;
pub use scope::Scope;
pub use sorting::Sorting;
pub use texts::read_config;
pub use value_error::ValueError;
pub use values::config_of;
