// The items of a site with the pages of its pagination.
ghost use Rattle.std.specs.Prelude.{◌≡◌, ◌-◌, ◌<◌, ◌≤◌, ◌^◌, IfOk, IfSome, MatchResult, Ok, Some, codes, drop, length, nat_eq, slice_get, take};
ghost use Rattle.std.specs.List.{ends_with};
ghost use Rattle.permalinks.specs.Dest.{dest};
ghost use Rattle.site_config.specs.Config.{count_of};
ghost use Rattle.site_config.specs.Forms.{given};
ghost use Rattle.site_items.specs.Addresses.{if_path};
ghost use Rattle.site_items.specs.Extensions.{html};
ghost use Rattle.site_reader.specs.Found.{IsFirst, in_file};
ghost use Rattle.site_reader.specs.Paginating.{HasSize, generated, page_at, page_url, paginated, spread, template_place, with_address, with_page, with_pages, with_place, with_template};
ghost use Rattle.site_reader.specs.Placing.{config_path};
ghost use Rattle.source_tree.specs.Limits.{most_files};

use crate::configuration::config_path;
use crate::index_page::{posts, template_place};
use crate::paginator::paginator;
use crate::paging::Paging;
use crate::site::SiteItems;
use crate::site_error::{SiteError, fault_at};
use crate::site_item::SiteItem;
use pagination::page_path;
use permalinks::{UrlError, dest};
use site_base::{FaultKind, ItemName, Memory, Sequence, SitePath, Text, Value, copy};
use site_config::Config;
use site_items::{set_address, variable};
use std::alloc::Global;

/// The items, and behind them the pages that pagination generates, where the configuration asks for them and there is a
/// page that is their template. The template has the paginator of the first page then.
///
/// `Fault` comes exactly where the URL of a page gives no path of an output: `Config`, at the configuration.
pub(crate) fn paginated(
    alloc: Global,
    config: &Config,
    items: SiteItems,
) -> Result<SiteItems, SiteError>
    requires size { HasSize config.now }
    requires few { length items ≤ most_files }
    ensures { let found = paginated config.now items in
        MatchResult result (λ made. found ≡ Ok made) (IsFirst found) }
{
    match per_page(variable(&config.all, "paginate")) {
        Some(per_page) => with_place(alloc, config, per_page, items),
        None => Ok(items),
    }
}

// How many posts a page holds, where the configuration's value says it.
fn per_page(value: Option<&Value>) -> Option<u64>
    ensures value { result ≡ count_of (given value.entry) }
    ensures range { IfSome result (λ n. (1 ≤ n) × (n < 2 ^ 63)) }
{
    match value {
        Some(Value::Int(number)) if *number >= 1 => Some(number.unsigned_abs()),
        _ => None,
    }
}

fn with_place(
    alloc: Global,
    config: &Config,
    per_page: u64,
    items: SiteItems,
) -> Result<SiteItems, SiteError>
    requires least { 1 ≤ per_page }
    requires most { per_page < 2 ^ 63 }
    requires few { length items ≤ most_files }
    ensures { let found = with_place config.now per_page items (template_place config.now items) in
        MatchResult result (λ made. found ≡ Ok made) (IsFirst found) }
{
    match template_place(alloc, config, items.as_slice())? {
        Some(place) => with_template(alloc, config, per_page, place, items),
        None => Ok(items),
    }
}

// The items, of which the one at this place is the template.
fn with_template(
    alloc: Global,
    config: &Config,
    per_page: u64,
    place: usize,
    items: SiteItems,
) -> Result<SiteItems, SiteError>
    requires least { 1 ≤ per_page }
    requires most { per_page < 2 ^ 63 }
    requires few { length items ≤ most_files }
    ensures { let found = with_template config.now per_page items place (slice_get items place) in
        MatchResult result (λ made. found ≡ Ok made) (IsFirst found) }
{
    let posts = posts(alloc, items.as_slice())?;
    let count = posts.len() as u32;
    if count == 0 {
        return Ok(items);
    }
    let paging = match items.as_slice().get(place) {
        Some(template) => Paging::of(alloc, config, per_page, template, count)?,
        None => return Ok(items),
    };
    spread(alloc, &paging, place, posts.as_slice(), items)
}

// The items with the posts spread over pages.
fn spread(
    alloc: Global,
    paging: &Paging,
    place: usize,
    posts: &[ItemName],
    items: SiteItems,
) -> Result<SiteItems, SiteError>
    requires size { paging.now.per_page < 2 ^ 63 }
    requires pages { 1 ≤ paging.now.total_pages }
    requires template { slice_get items place ≡ Some paging.now.template }
    ensures { let found = spread paging.now place posts.now items in
        MatchResult result (λ made. found ≡ Ok made) (IsFirst found) }
{
    let (own, rest) = cut(posts, paging.per_page);
    let first = Value::Hash(paginator(alloc, paging, 1, own)?);
    let mut items = items.into_vec();
    set_paginator(&mut items[place], first);
    push_pages(alloc, paging, rest, &mut items)?;
    Ok(Sequence::from_vec(items))
}

fn set_paginator(item: &mut SiteItem, paginator: Value)
    ensures { item.new ≡ record item.old { paginator = paginator } }
{
    item.paginator = paginator;
}

// The posts of a page, and those behind them.
fn cut(posts: &[ItemName], per_page: u64) -> (&[ItemName], &[ItemName])
    ensures own { result.0.now ≡ take per_page posts.now }
    ensures rest { result.1.now ≡ drop per_page posts.now }
{
    if per_page < posts.len() as u64 {
        posts.split_at(per_page as usize)
    } else {
        (posts, &[])
    }
}

// Adds the pages from the second on.
fn push_pages(
    alloc: Global,
    paging: &Paging,
    posts: &[ItemName],
    items: &mut Vec<SiteItem>,
) -> Result<(), SiteError>
    requires size { paging.now.per_page < 2 ^ 63 }
    requires pages { 1 ≤ paging.now.total_pages }
    ensures { let found = with_pages paging.now (paging.now.total_pages - 1) 2 posts.now items.old.items in
        MatchResult result (λ _. found ≡ Ok items.new.items) (IsFirst found) }
{
    let mut rest = posts;
    for number in 1..paging.total_pages {
        let (own, behind) = cut(rest, paging.per_page);
        push_page(alloc, paging, number + 1, own, items)?;
        rest = behind;
    }
    Ok(())
}

fn push_page(
    alloc: Global,
    paging: &Paging,
    number: u32,
    posts: &[ItemName],
    items: &mut Vec<SiteItem>,
) -> Result<(), SiteError>
    requires size { paging.now.per_page < 2 ^ 63 }
    requires number { 1 ≤ number }
    ensures { let found = with_page paging.now number posts.now items.old.items in
        MatchResult result (λ _. found ≡ Ok items.new.items) (IsFirst found) }
{
    let path = page_path(alloc, paging.pattern.as_str(), number)?;
    match page_at(alloc, paging, number, posts, page_url(path)?) {
        Ok(page) => Ok(items.push(page)?),
        Err(error) => Err(error),
    }
}

// A path with `/` at its end.
fn page_url(mut path: Text) -> Result<Text, Memory>
    ensures { IfOk result (λ url. url ≡ page_url path) }
{
    if has_end(path.as_bytes()) {
        return path.into_shared();
    }
    path.push_str("/")?;
    path.into_shared()
}

fn has_end(path: &[u8]) -> bool
    ensures { result ≡ ends_with nat_eq path.now (codes "/") }
{
    match path {
        [.., b'/'] => true,
        _ => false,
    }
}

// The page of this URL.
fn page_at(
    alloc: Global,
    paging: &Paging,
    number: u32,
    posts: &[ItemName],
    url: Text,
) -> Result<SiteItem, SiteError>
    requires size { paging.now.per_page < 2 ^ 63 }
    requires number { 1 ≤ number }
    ensures { let found = page_at paging.now number posts.now url in
        MatchResult result (λ made. found ≡ Ok made) (IsFirst found) }
{
    match output_path(alloc, url.as_str()) {
        Ok(path) => Ok(generated(alloc, paging, number, posts, url, path)?),
        Err(error) => Err(error),
    }
}

// The path of the output of a URL, which is HTML.
fn output_path(alloc: Global, url: &str) -> Result<SitePath, SiteError>
    ensures { let found = in_file config_path (if_path (dest url.now html)) in
        MatchResult result (λ path. found ≡ Ok (Some path)) (IsFirst found) }
{
    match dest(alloc, url, ".html") {
        Ok(path) => Ok(path),
        Err(UrlError::Memory) => Err(SiteError::Memory),
        Err(_) => Err(fault_at(alloc, &config_path(alloc)?, 0, FaultKind::Config)),
    }
}

// Variables with another address. Their values are shared.
fn with_address(alloc: Global, vars: &Value, url: &Text) -> Result<Value, Memory>
    ensures { IfOk result (λ made. made ≡ with_address url.now vars.now) }
{
    match vars {
        Value::Hash(vars) => {
            let mut own = vars.share(alloc)?;
            set_address(alloc, &mut own, url)?;
            Ok(Value::Hash(own))
        }
        other => copy(alloc, other),
    }
}

fn generated(
    alloc: Global,
    paging: &Paging,
    number: u32,
    posts: &[ItemName],
    url: Text,
    path: SitePath,
) -> Result<SiteItem, Memory>
    requires size { paging.now.per_page < 2 ^ 63 }
    requires number { 1 ≤ number }
    ensures { IfOk result (λ made. made ≡ generated paging.now number posts.now url (Some path)) }
{
    Ok(SiteItem {
        name: ItemName {
            path: paging.template.name.path.copy(alloc)?,
            part: number,
        },
        group: paging.group,
        body: paging.template.body.share(alloc)?,
        vars: with_address(alloc, &paging.template.vars, &url)?,
        url,
        dest: Some(path),
        paginator: Value::Hash(paginator(alloc, paging, number, posts)?),
    })
}
