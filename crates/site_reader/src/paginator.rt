// The paginator of a page: what its template knows of it.
ghost use Rattle.std.specs.Prelude.{◌≡◌, ◌<◌, ◌≤◌, ◌^◌, IfOk, OnOk};
ghost use Rattle.site_base.specs.Plain.{no_pairs, onto_pairs, pair};
ghost use Rattle.site_base.specs.View.{plain};
ghost use Rattle.site_reader.specs.Paginating.{about_page, link, names, number_of, page_before, page_behind, paginator, path_of};

use crate::paging::Paging;
use pagination::page_path;
use site_base::{Hash, ItemName, List, Memory, Text, Value};
use std::alloc::Global;

/// The paginator of a page, on which these posts stand.
pub(crate) fn paginator(
    alloc: Global,
    paging: &Paging,
    page: u32,
    posts: &[ItemName],
) -> Result<Hash, Memory>
    requires size { paging.now.per_page < 2 ^ 63 }
    requires page { 1 ≤ page }
    ensures { IfOk result (λ made. made ≡ paginator paging.now page posts.now) }
{
    let mut made = about_page(alloc, paging, page, posts)?;
    let before = page_before(page);
    let behind = page_behind(paging, page);
    add(alloc, &mut made, "previous_page", number_of(before))?;
    let path = path_of(alloc, paging, before)?;
    add(alloc, &mut made, "previous_page_path", path)?;
    add(alloc, &mut made, "next_page", number_of(behind))?;
    let path = path_of(alloc, paging, behind)?;
    add(alloc, &mut made, "next_page_path", path)?;
    Ok(made)
}

// What it says of the page itself.
fn about_page(alloc: Global, paging: &Paging, page: u32, posts: &[ItemName]) -> Result<Hash, Memory>
    requires size { paging.now.per_page < 2 ^ 63 }
    ensures { IfOk result (λ made. made ≡ about_page paging.now page posts.now) }
{
    let mut made = Hash::with_capacity(alloc, 9)?;
    add(alloc, &mut made, "page", Value::Int(i64::from(page)))?;
    add(
        alloc,
        &mut made,
        "per_page",
        Value::Int(paging.per_page as i64),
    )?;
    add(
        alloc,
        &mut made,
        "posts",
        Value::List(post_list(alloc, posts)?),
    )?;
    add(
        alloc,
        &mut made,
        "total_posts",
        Value::Int(i64::from(paging.total_posts)),
    )?;
    add(
        alloc,
        &mut made,
        "total_pages",
        Value::Int(i64::from(paging.total_pages)),
    )?;
    Ok(made)
}

// Adds a pair at the end.
fn add(alloc: Global, made: &mut Hash, key: &str, value: Value) -> Result<(), Memory>
    ensures { OnOk result (made.new ≡ onto_pairs made.old (pair key.now (plain value) no_pairs)) }
{
    made.push(Text::copy(alloc, key)?, value)
}

fn post_list(alloc: Global, posts: &[ItemName]) -> Result<List, Memory>
    ensures { IfOk result (λ made. made ≡ names posts.now) }
{
    let mut list = List::with_capacity(alloc, posts.len())?;
    for name in posts {
        list.push(Value::Item(name.copy(alloc)?))?;
    }
    Ok(list)
}

fn page_before(page: u32) -> Option<u32>
    ensures { result ≡ page_before page }
{
    if 1 < page { Some(page - 1) } else { None }
}

fn page_behind(paging: &Paging, page: u32) -> Option<u32>
    ensures { result ≡ page_behind paging.now page }
{
    if page < paging.total_pages {
        Some(page + 1)
    } else {
        None
    }
}

fn number_of(page: Option<u32>) -> Value
    ensures { plain result ≡ number_of page }
{
    match page {
        Some(page) => Value::Int(i64::from(page)),
        None => Value::Nil,
    }
}

fn path_of(alloc: Global, paging: &Paging, page: Option<u32>) -> Result<Value, Memory>
    ensures { IfOk result (λ made. plain made ≡ path_of paging.now page) }
{
    match page {
        Some(page) => Ok(Value::Text(link(alloc, paging, page)?)),
        None => Ok(Value::Nil),
    }
}

// What leads to a page: to the first its URL.
fn link(alloc: Global, paging: &Paging, page: u32) -> Result<Text, Memory>
    ensures { IfOk result (λ made. made ≡ link paging.now page) }
{
    if page == 1 {
        paging.template.url.share(alloc)
    } else {
        page_path(alloc, paging.pattern.as_str(), page)
    }
}
