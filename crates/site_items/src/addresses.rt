// Where items stand.
ghost use Rattle.std.specs.Prelude.{◌≡◌, IfSome, MatchResult};
ghost use Rattle.permalinks.specs.Url.{url_by};
ghost use Rattle.site_base.specs.Plain.{key_list};
ghost use Rattle.site_dates.specs.Moment.{IsMoment};
ghost use Rattle.site_dates.specs.Offset.{IsOffset};
ghost use Rattle.site_items.specs.Addresses.{dest_ext, dest_of, found_url, is_folder};
ghost use Rattle.site_items.specs.Outcomes.{IsFault};
ghost use Rattle.site_items.specs.Seeking.{placeholders};

use crate::item_error::{ItemError, config_fault};
use crate::kind::Kind;
use crate::placeholders::Named;
use permalinks::{UrlError, dest, url_by};
use site_base::{Hash, SitePath, Text};
use site_config::Config;
use std::alloc::Global;

/// An item whose address is sought.
#[derive(Clone, Copy)]
pub(crate) struct Sought<'a> {
    pub config: &'a Config,
    pub kind: Kind,
    pub path: &'a SitePath,
    /// The extension of its output.
    pub ext: &'a str,
    pub moment: Option<i64>,
}

/// The URL that a template makes of an item with this slug and these categories.
///
/// `Config` comes exactly where a placeholder of the template has no value.
pub(crate) fn url_of(
    alloc: Global,
    template: &str,
    item: &Sought,
    slug: &Text,
    categories: &Hash,
) -> Result<Text, ItemError>
    requires offset { IsOffset item.now.config.now.timezone }
    requires moment { IfSome item.now.moment IsMoment }
    ensures { let found = found_url (url_by template.now (placeholders item.now slug.now (key_list categories.now))) in
        MatchResult result (λ text. found ≡ Ok text) (IsFault found) }
{
    let values = Named {
        item,
        slug,
        categories,
    };
    match url_by(alloc, template, &values) {
        Ok(url) => Ok(url),
        Err(UrlError::Memory) => Err(ItemError::Memory),
        Err(UrlError::Placeholder | UrlError::BadPath) => Err(config_fault()),
    }
}

/// The path of an item's output, where it has one: that of its URL, which is HTML where the URL of a document is a
/// folder's.
///
/// `Config` comes exactly where the item has an output, and its path would be no path of a site.
pub(crate) fn dest_of(
    alloc: Global,
    config: &Config,
    kind: Kind,
    url: &str,
    ext: &str,
) -> Result<Option<SitePath>, ItemError>
    ensures { MatchResult result
        (λ path. dest_of config.now kind url.now ext.now ≡ Ok path)
        (IsFault (dest_of config.now kind url.now ext.now)) }
{
    if !kind.has_output(config) {
        return Ok(None);
    }
    match dest(alloc, url, dest_ext(kind, url, ext)) {
        Ok(path) => Ok(Some(path)),
        Err(UrlError::Memory) => Err(ItemError::Memory),
        Err(_) => Err(config_fault()),
    }
}

fn dest_ext<'a>(kind: Kind, url: &str, ext: &'a str) -> &'a str
    ensures { result.now ≡ dest_ext kind url.now ext.entry.now }
{
    if is_folder(kind, url) { ".html" } else { ext }
}

// Whether the URL of a document is a folder's.
fn is_folder(kind: Kind, url: &str) -> bool
    ensures { result ≡ is_folder kind url.now }
{
    if kind.is_page() {
        return false;
    }
    url.ends_with("/")
}
