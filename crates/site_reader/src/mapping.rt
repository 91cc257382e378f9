// The sitemap among the items of a site.
ghost use Rattle.std.specs.Prelude.{◌≡◌, ◌++◌, [], IfOk, OnOk, codes, filter_map, nat_eq};
ghost use Rattle.std.specs.List.{cons_option, ends_with, slice_get};
ghost use Rattle.site_base.specs.Places.{PathsRise};
ghost use Rattle.site_base.specs.View.{plain};
ghost use Rattle.site_config.specs.Forms.{given, setting};
ghost use Rattle.feed_pages.specs.Sitemap.{PagesRise};
ghost use Rattle.site_reader.specs.Generating.{copy_url, if_mapped, is_false, item_url, listed, map_page_at, mapped, mapped_url, sitemap_page, sitemap_pages, winner_url};

use crate::generating::xml_page;
use crate::making::with_made;
use crate::site::SiteItems;
use crate::site_item::SiteItem;
use crate::winner::Winner;
use crate::winning::winners;
use feed_pages::{MapPage, MapPages, sitemap_body};
use permalinks::front;
use site_base::{Memory, Sequence, SitePath, Text, Value};
use site_config::Config;
use site_items::{StaticFile, variable};
use std::alloc::Global;

/// The items with a sitemap of them, where the configuration asks for it.
pub(crate) fn mapped(
    alloc: Global,
    config: &Config,
    copies: &[StaticFile],
    items: SiteItems,
) -> Result<SiteItems, Memory>
    ensures { IfOk result (λ made. made ≡ mapped config.now copies.now items) }
{
    let pages = sitemap_pages(alloc, config, copies, items.as_slice())?;
    with_made(alloc, config, items, pages)
}

fn sitemap_pages(
    alloc: Global,
    config: &Config,
    copies: &[StaticFile],
    items: &[SiteItem],
) -> Result<Vec<SiteItem>, Memory>
    ensures { IfOk result (λ pages. pages.items ≡ sitemap_pages config.now copies.now items.now) }
{
    let mut pages = Vec::new(alloc);
    if config.make_sitemap {
        let listed = listed(alloc, config, items, copies)?;
        pages.push(sitemap_page(alloc, config, &listed)?)?;
    }
    Ok(pages)
}

fn sitemap_page(alloc: Global, config: &Config, pages: &MapPages) -> Result<SiteItem, Memory>
    requires { PagesRise pages.now }
    ensures { IfOk result (λ page. page ≡ sitemap_page config.now pages.now) }
{
    let base = front(config.url.share(alloc)?, config.baseurl.as_str())?;
    let body = sitemap_body(alloc, base.as_str(), pages)?;
    xml_page(alloc, config, "sitemap.xml", body.into_shared()?)
}

// The pages that the sitemap lists.
fn listed(
    alloc: Global,
    config: &Config,
    items: &[SiteItem],
    copies: &[StaticFile],
) -> Result<MapPages, Memory>
    ensures listed { IfOk result (λ pages. pages ≡ listed config.now items.now copies.now) }
    ensures rise { IfOk result PagesRise }
{
    let won = winners(alloc, config, items, copies)?;
    listed_of(alloc, items, copies, won.as_slice())
}

// Those of the winners. Their paths rise as the winners' paths do.
fn listed_of(
    alloc: Global,
    items: &[SiteItem],
    copies: &[StaticFile],
    won: &[(SitePath, Winner)],
) -> Result<MapPages, Memory>
    requires rise { PathsRise won.now }
    ensures listed { IfOk result (λ pages. pages ≡ filter_map (if_mapped items.now copies.now) won.now) }
    ensures rise { IfOk result PagesRise }
{
    let mut pages = Vec::new(alloc);
    for entry in won {
        push_mapped(alloc, items, copies, entry, &mut pages)?;
    }
    Ok(Sequence::from_vec(pages))
}

fn push_mapped(
    alloc: Global,
    items: &[SiteItem],
    copies: &[StaticFile],
    entry: &(SitePath, Winner),
    pages: &mut Vec<MapPage>,
) -> Result<(), Memory>
    ensures { OnOk result (pages.new.items ≡ pages.old.items ++ cons_option (if_mapped items.now copies.now entry.now) []) }
{
    match if_mapped(alloc, items, copies, entry)? {
        Some(page) => Ok(pages.push(page)?),
        None => Ok(()),
    }
}

// The page of a path, where that ends with `.html`.
fn if_mapped(
    alloc: Global,
    items: &[SiteItem],
    copies: &[StaticFile],
    entry: &(SitePath, Winner),
) -> Result<Option<MapPage>, Memory>
    ensures { IfOk result (λ page. page ≡ if_mapped items.now copies.now entry.now) }
{
    let (path, winner) = entry;
    if is_html(path.as_bytes()) {
        let url = winner_url(alloc, items, copies, *winner)?;
        return Ok(map_page_at(path.copy(alloc)?, url));
    }
    Ok(None)
}

fn is_html(path: &[u8]) -> bool
    ensures { result ≡ ends_with nat_eq path.now (codes ".html") }
{
    path.ends_with(b".html".as_slice())
}

fn map_page_at(path: SitePath, url: Option<Text>) -> Option<MapPage>
    ensures { result ≡ map_page_at path url }
{
    match url {
        Some(url) => Some(MapPage { dest: path, url }),
        None => None,
    }
}

// The URL of the output that wins, which it shares, where that is listed.
fn winner_url(
    alloc: Global,
    items: &[SiteItem],
    copies: &[StaticFile],
    winner: Winner,
) -> Result<Option<Text>, Memory>
    ensures { IfOk result (λ url. url ≡ winner_url items.now copies.now winner) }
{
    match winner {
        Winner::Page(place) => item_url(alloc, items, place),
        Winner::Document(place) => item_url(alloc, items, place),
        Winner::Copy(place) => copy_url(alloc, copies, place),
    }
}

fn item_url(alloc: Global, items: &[SiteItem], place: u64) -> Result<Option<Text>, Memory>
    ensures { IfOk result (λ url. url ≡ item_url (slice_get items.now place)) }
{
    match items.get(place as usize) {
        Some(item) => mapped_url(alloc, item),
        None => Ok(None),
    }
}

fn copy_url(alloc: Global, copies: &[StaticFile], place: u64) -> Result<Option<Text>, Memory>
    ensures { IfOk result (λ url. url ≡ copy_url (slice_get copies.now place)) }
{
    match copies.get(place as usize) {
        Some(copy) => Ok(Some(copy.url.share(alloc)?)),
        None => Ok(None),
    }
}

// The URL of an item, unless its variable `sitemap` is false.
fn mapped_url(alloc: Global, item: &SiteItem) -> Result<Option<Text>, Memory>
    ensures { IfOk result (λ url. url ≡ mapped_url item.now) }
{
    if is_unlisted(&item.vars) {
        return Ok(None);
    }
    Ok(Some(item.url.share(alloc)?))
}

fn is_unlisted(vars: &Value) -> bool
    ensures { result ≡ is_false (setting (codes "sitemap") (plain vars.now)) }
{
    match vars {
        Value::Hash(vars) => is_false(variable(vars, "sitemap")),
        _ => false,
    }
}

fn is_false(value: Option<&Value>) -> bool
    ensures { result ≡ is_false (given value.entry) }
{
    match value {
        Some(Value::Bool(is_set)) => !*is_set,
        _ => false,
    }
}
