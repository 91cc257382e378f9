//! A site as data: its files read to a configuration, items in their order, layouts, includes, data, and files that are
//! copied.
#![tactic(auto)]

mod archiving;
mod configuration;
mod copies;
mod data;
mod file_rules;
mod first_places;
mod generating;
mod includes;
mod index_page;
mod items;
mod kept_files;
mod kept_item;
mod kept_reader;
mod layouts;
mod making;
mod mapping;
mod name;
mod neighbours;
mod outputs;
mod paginating;
mod paginator;
mod paging;
mod placed_file;
mod placing;
mod rank;
mod reading;
mod renewal;
mod site;
mod site_error;
mod site_file;
mod site_item;
mod sort_key;
mod sorter;
mod texts;
mod told;
mod values;
mod winner;
mod winning;

pub use kept_reader::KeptReader;
pub use reading::read_site;
pub use site::{Includes, Layouts, Site, SiteItems, Statics};
pub use site_error::SiteError;
pub use site_item::SiteItem;
pub use site_items::{FrontParser, PlainParser};
pub use winner::Winner;
pub use winning::winners;
