//! What the files of a site are, one by one: items with their variables and addresses, layouts, includes, and files that
//! are copied.
#![tactic(auto)]

mod addresses;
mod cuts;
mod dates;
mod defaults;
mod extensions;
mod file_content;
mod folders;
mod front_parser;
mod include_file;
mod item;
mod item_error;
mod kept_file;
mod kind;
mod labels;
mod layout_file;
mod lookup;
mod matter;
mod names;
mod placed_variables;
mod placeholders;
mod static_file;
mod templates;
mod timeless;
mod titles;

pub use cuts::cut_at;
pub use defaults::{by_strength, variables};
pub use extensions::output_ext;
pub use file_content::FileContent;
pub use folders::{behind, below_folder, without_extension};
pub use front_parser::{FrontParser, PlainParser};
pub use include_file::IncludeFile;
pub use item::{Item, Rules};
pub use item_error::{ItemError, LineFault};
pub use kept_file::KeptFile;
pub use kind::Kind;
pub use layout_file::LayoutFile;
pub use lookup::variable;
pub use matter::Matter;
pub use placed_variables::{set_address, set_page};
pub use static_file::StaticFile;
pub use timeless::Timeless;
pub use titles::title;
