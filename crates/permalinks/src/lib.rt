//! Permalinks: the URLs of items, the paths of their outputs, slugs, and what stands in front of a path in an address.
#![tactic(auto)]

mod address;
mod output;
mod parts;
mod placeholder;
mod slug;
mod template;
mod values;

pub use address::{front, push_path};
pub use output::dest;
pub use parts::UrlParts;
pub use placeholder::Placeholder;
pub use slug::slugify;
pub use template::{UrlError, url, url_by};
pub use values::Values;
