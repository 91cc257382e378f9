// Items of a site.
use site_base::{ItemName, SitePath, Text, Value};

/// An item of the site: a post or another document, or a page.
#[derive(Drop)]
pub struct SiteItem {
    pub name: ItemName,
    /// The place of its group, from 0: the collections in the order of the configuration, posts first, then the pages, then the
    /// pages that pagination generates.
    pub group: u64,
    pub body: Text,
    /// Its variables, by name.
    pub vars: Value,
    pub url: Text,
    /// The path of its output, where it has one.
    pub dest: Option<SitePath>,
    /// What its template knows of its page of a pagination: a hash, and nil where it is no such page.
    pub paginator: Value,
}
