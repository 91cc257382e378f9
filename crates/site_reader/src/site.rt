// A site as data.
use crate::site_item::SiteItem;
use site_base::{Sequence, Value};
use site_config::Config;
use site_items::{IncludeFile, LayoutFile, StaticFile};

/// The items of a site, in the order in which they are rendered.
pub type SiteItems = Sequence<SiteItem>;

/// The layouts of a site, by name.
pub type Layouts = Sequence<LayoutFile>;

/// The includes of a site, by name.
pub type Includes = Sequence<IncludeFile>;

/// The files that are copied, by path.
pub type Statics = Sequence<StaticFile>;

/// A site as data: what its files make.
#[derive(Drop)]
pub struct Site {
    pub config: Config,
    pub items: SiteItems,
    pub layouts: Layouts,
    pub includes: Includes,
    /// A hash of the values of data files, under their folders and names.
    pub data_tree: Value,
    pub statics: Statics,
    /// The present moment, in seconds from the beginning of 1970.
    pub moment: i64,
}
