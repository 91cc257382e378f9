// The pages that are made besides, among the items of a site: its archives, its feed, and its sitemap.
ghost use Rattle.std.specs.Prelude.{◌≡◌, ◌++◌, ◌∷◌, IfOk, MatchResult, Ok, OnOk};
ghost use Rattle.site_base.specs.Plain.{no_pairs};
ghost use Rattle.site_items.specs.Items.{page_variables, placed};
ghost use Rattle.site_reader.specs.Found.{IsFirst};
ghost use Rattle.site_reader.specs.Generating.{feed_page, feed_pages, generated, marks_xml, with_archives_and_feed, xml_page};
ghost use Rattle.site_reader.specs.Making.{with_made};

use crate::archiving::archive_pages;
use crate::configuration::config_path;
use crate::making::{generated_group, with_made};
use crate::mapping::mapped;
use crate::site::SiteItems;
use crate::site_error::{SiteError, fault_at};
use crate::site_item::SiteItem;
use feed_pages::feed_body;
use site_base::{FaultKind, Hash, ItemName, Memory, SitePath, Text, Value};
use site_config::Config;
use site_items::{StaticFile, set_page};
use site_text::is_listed;
use std::alloc::Global;

/// The items with all pages that are made besides: archives and the feed, and after these the sitemap, which lists them
/// too.
///
/// `Fault` comes exactly where a page of XML is asked for that would be converted as Markdown, else where the archives
/// have theirs: `Config`, at the configuration.
pub(crate) fn generated(
    alloc: Global,
    config: &Config,
    copies: &[StaticFile],
    items: SiteItems,
) -> Result<SiteItems, SiteError>
    ensures { let found = generated config.now copies.now items in
        MatchResult result (λ made. found ≡ Ok made) (IsFirst found) }
{
    if marks_xml(config) {
        return Err(fault_at(alloc, &config_path(alloc)?, 0, FaultKind::Config));
    }
    match with_archives_and_feed(alloc, config, items) {
        Ok(made) => Ok(mapped(alloc, config, copies, made)?),
        Err(error) => Err(error),
    }
}

// Whether a page of XML is asked for, but would be converted as Markdown.
fn marks_xml(config: &Config) -> bool
    ensures { result ≡ marks_xml config.now }
{
    (config.make_feed || config.make_sitemap)
        && is_listed(config.markdown_ext.as_bytes(), ".xml".as_bytes())
}

fn with_archives_and_feed(
    alloc: Global,
    config: &Config,
    items: SiteItems,
) -> Result<SiteItems, SiteError>
    ensures { let found = with_archives_and_feed config.now items in
        MatchResult result (λ made. found ≡ Ok made) (IsFirst found) }
{
    match archive_pages(alloc, config, items.as_slice()) {
        Ok(pages) => Ok(with_feed(alloc, config, items, pages)?),
        Err(error) => Err(error),
    }
}

// The items with these pages and the feed.
fn with_feed(
    alloc: Global,
    config: &Config,
    items: SiteItems,
    pages: Vec<SiteItem>,
) -> Result<SiteItems, Memory>
    ensures { IfOk result (λ made. made ≡ with_made config.now items (pages.items ++ feed_pages config.now)) }
{
    let mut pages = pages;
    push_feed(alloc, config, &mut pages)?;
    with_made(alloc, config, items, pages)
}

fn push_feed(alloc: Global, config: &Config, pages: &mut Vec<SiteItem>) -> Result<(), Memory>
    ensures { OnOk result (pages.new.items ≡ pages.old.items ++ feed_pages config.now) }
{
    if config.make_feed {
        pages.push(feed_page(alloc, config)?)?;
    }
    Ok(())
}

fn feed_page(alloc: Global, config: &Config) -> Result<SiteItem, Memory>
    ensures { IfOk result (λ page. page ≡ feed_page config.now) }
{
    let body = Text::copy(alloc, feed_body())?.into_shared()?;
    xml_page(alloc, config, "feed.xml", body)
}

/// A page of XML at the root, which says nothing of itself but where it is.
pub(crate) fn xml_page(
    alloc: Global,
    config: &Config,
    path: &str,
    body: Text,
) -> Result<SiteItem, Memory>
    ensures { IfOk result (λ page. page ≡ xml_page config.now path.now body) }
{
    let path = path_of(alloc, path)?;
    let url = root_url(alloc, path.text())?;
    let vars = xml_variables(alloc, &path, &url)?;
    Ok(SiteItem {
        dest: Some(path.copy(alloc)?),
        name: ItemName { path, part: 1 },
        group: generated_group(config),
        body,
        vars: Value::Hash(vars),
        url,
        paginator: Value::Nil,
    })
}

// Of a text that is a path; of any other it could not be told from want of memory.
fn path_of(alloc: Global, text: &str) -> Result<SitePath, Memory>
    ensures { IfOk result (λ path. path ≡ text.now) }
{
    match SitePath::read(alloc, text) {
        Ok(path) => Ok(path),
        Err(_) => Err(Memory),
    }
}

fn root_url(alloc: Global, path: &str) -> Result<Text, Memory>
    ensures { IfOk result (λ url. url ≡ 47 ∷ path.now) }
{
    let mut url = Text::copy(alloc, "/")?;
    url.push_str(path)?;
    url.into_shared()
}

fn xml_variables(alloc: Global, path: &SitePath, url: &Text) -> Result<Hash, Memory>
    ensures { IfOk result (λ vars. vars ≡ page_variables path.now url.now (placed path.now url.now no_pairs)) }
{
    let mut vars = Hash::new(alloc);
    set_page(alloc, &mut vars, path, url)?;
    vars.into_shared()
}
