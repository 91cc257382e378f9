// Posts by their names.
ghost use Rattle.std.specs.Prelude.{◌≡◌, ◌&&◌, ℕ, List, IfOk, OnOk, Some, length, nat_lt, if◌then◌else◌};
ghost use Rattle.std.specs.List.{join_with_byte};
ghost use Rattle.std.specs.Str.{bytes_eq};
ghost use Rattle.site_base.specs.Path.{segments};
ghost use Rattle.site_items.specs.Addresses.{behind_posts};
ghost use Rattle.site_world.specs.Named.{named};
ghost use Rattle.site_world.specs.Sights.{below_posts, is_post_named, lower, post_named};

use crate::named::Named;
use site_base::Memory;
use site_files::{file_name, stem};
use site_items::{cut_at, without_extension};
use site_reader::SiteItem;
use std::alloc::Global;

/// The posts by the names of their files and by their paths below `_posts`; of those with one name the one with the lowest path.
pub(crate) fn posts<'a>(alloc: Global, items: &'a [SiteItem]) -> Result<Named<'a, SiteItem>, Memory>
    ensures { IfOk result (λ made. (x : List ℕ) → named made x ≡ post_named x items.now) }
{
    let mut made = Named::with_room(alloc, items.len())?;
    for item in items {
        add_post(&mut made, item)?;
    }
    Ok(made)
}

fn add_post<'a>(made: &mut Named<'a, SiteItem>, item: &'a SiteItem) -> Result<(), Memory>
    ensures { OnOk result ((x : List ℕ) → named made.new x ≡ (if is_post_named x item.now then Some (lower (named made.old x) item.now) else named made.old x)) }
{
    if item.group != 0 {
        return Ok(());
    }
    let path = item.name.path.text();
    add_lower(made, stem(file_name(path)), item)?;
    add_below(made, below_posts(path), item)
}

// Of a draft nothing is below `_posts`.
fn add_below<'a>(
    made: &mut Named<'a, SiteItem>,
    name: &'a str,
    item: &'a SiteItem,
) -> Result<(), Memory>
    ensures { OnOk result ((x : List ℕ) → named made.new x
        ≡ (if bytes_eq name.now x && nat_lt 0 (length x) then Some (lower (named made.old x) item.now) else named made.old x)) }
{
    if name.is_empty() {
        Ok(())
    } else {
        add_lower(made, name, item)
    }
}

fn add_lower<'a>(
    made: &mut Named<'a, SiteItem>,
    name: &'a str,
    item: &'a SiteItem,
) -> Result<(), Memory>
    ensures { OnOk result ((x : List ℕ) → named made.new x
        ≡ (if bytes_eq name.now x then Some (lower (named made.old x) item.now) else named made.old x)) }
{
    match made.find(name) {
        Some(first) => put_lower(made, name, first, item),
        None => made.put(name, item),
    }
}

// Puts an item in place of the first of its name, where its path is lower.
fn put_lower<'a>(
    made: &mut Named<'a, SiteItem>,
    name: &'a str,
    first: &'a SiteItem,
    item: &'a SiteItem,
) -> Result<(), Memory>
    requires { named made.old name.now ≡ Some first.now }
    ensures { OnOk result ((x : List ℕ) → named made.new x
        ≡ (if bytes_eq name.now x then Some (lower (named made.old x) item.now) else named made.old x)) }
{
    if item.name.path.cmp(&first.name.path).is_lt() {
        made.put(name, item)
    } else {
        Ok(())
    }
}

// What of a path is behind the first folder `_posts`, without the extension; nothing where there is no such folder.
fn below_posts(path: &str) -> &str
    ensures { result.now ≡ below_posts path.now }
{
    without_extension(behind_posts(path))
}

fn behind_posts(path: &str) -> &str
    ensures { result.now ≡ join_with_byte 47 (behind_posts (segments path.now)) }
{
    let mut rest = path;
    while let Some((segment, behind)) = cut_at(rest, '/') {
        if segment == "_posts" {
            return behind;
        }
        rest = behind;
    }
    ""
}
