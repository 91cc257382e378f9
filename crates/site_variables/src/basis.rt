// What the variables of a site rest on.
ghost use Rattle.std.specs.Prelude.{◌≡◌, ◌↔◌, ℕ, IsTrue, IfOk, codes, map};
ghost use Rattle.site_base.specs.View.{plain, pairs_of};
ghost use Rattle.site_config.specs.Forms.{given, setting};
ghost use Rattle.site_variables.specs.Resting.{IsOn, copy_basis, item_facts, noted_facts};

use crate::choice::is_folder;
use site_base::{Hash, ItemName, Memory, Pair, Sequence, SitePath, Text, Value, copy, equals};
use site_items::StaticFile;
use site_reader::{Site, SiteItem};
use std::alloc::Global;

/// What the variables of a site rest on. Two sites with one basis have the same variables.
#[derive(Drop)]
pub struct Basis {
    // The whole mapping of the configuration.
    all: Hash,
    copies: Sequence<CopyBasis>,
    items: Sequence<ItemBasis>,
}

// What they rest on of a file that is copied.
#[derive(Drop)]
struct CopyBasis {
    path: SitePath,
    url: Text,
}

// What they rest on of an item.
#[derive(Drop)]
struct ItemBasis {
    name: ItemName,
    group: u64,
    // Whether its URL stands for a folder.
    is_folder: bool,
    categories: Value,
    tags: Value,
}

impl Basis {
    /// The basis of a site. The one error is want of memory.
    pub fn of(alloc: Global, site: &Site) -> Result<Basis, Memory>
        ensures { IfOk result (λ basis. IsOn basis site.now) }
    {
        Ok(Basis {
            all: site.config.all.share(alloc)?,
            copies: copies_of(alloc, site.statics.as_slice())?,
            items: items_of(alloc, site.items.as_slice())?,
        })
    }

    /// Whether it is the basis of a site.
    pub fn is_of(&self, site: &Site) -> bool
        ensures { IsTrue result ↔ IsOn self.now site.now }
    {
        are_same_pairs(self.all.as_slice(), site.config.all.as_slice())
            && are_copies(self.copies.as_slice(), site.statics.as_slice())
            && are_items(self.items.as_slice(), site.items.as_slice())
    }
}

fn copies_of(alloc: Global, files: &[StaticFile]) -> Result<Sequence<CopyBasis>, Memory>
    ensures { IfOk result (λ made. made ≡ map copy_basis files.now) }
{
    let mut made = Vec::with_capacity(alloc, files.len())?;
    for file in files {
        made.push(CopyBasis {
            path: file.path.copy(alloc)?,
            url: file.url.share(alloc)?,
        })?;
    }
    Ok(Sequence::from_vec(made))
}

fn items_of(alloc: Global, items: &[SiteItem]) -> Result<Sequence<ItemBasis>, Memory>
    ensures { IfOk result (λ made. map noted_facts made ≡ map item_facts items.now) }
{
    let mut made = Vec::with_capacity(alloc, items.len())?;
    for item in items {
        made.push(ItemBasis::of(alloc, item)?)?;
    }
    Ok(Sequence::from_vec(made))
}

impl CopyBasis {
    fn is_of(&self, file: &StaticFile) -> bool
        ensures { IsTrue result ↔ (self.now ≡ copy_basis file.now) }
    {
        self.path == file.path && self.url.as_str() == file.url.as_str()
    }
}

impl ItemBasis {
    fn of(alloc: Global, item: &SiteItem) -> Result<ItemBasis, Memory>
        ensures { IfOk result (λ made. noted_facts made ≡ item_facts item.now) }
    {
        Ok(ItemBasis {
            name: item.name.copy(alloc)?,
            group: item.group,
            is_folder: is_folder(item.url.as_str()),
            categories: copy_setting(alloc, "categories", &item.vars)?,
            tags: copy_setting(alloc, "tags", &item.vars)?,
        })
    }

    fn is_of(&self, item: &SiteItem) -> bool
        ensures { IsTrue result ↔ (noted_facts self.now ≡ item_facts item.now) }
    {
        if self.group != item.group {
            return false;
        }
        if self.name != item.name {
            return false;
        }
        if self.is_folder != is_folder(item.url.as_str()) {
            return false;
        }
        if !is_setting(&self.categories, "categories", &item.vars) {
            return false;
        }
        is_setting(&self.tags, "tags", &item.vars)
    }
}

fn copy_setting(alloc: Global, key: &str, vars: &Value) -> Result<Value, Memory>
    ensures { IfOk result (λ made. plain made ≡ setting key.now (plain vars.now)) }
{
    match vars {
        Value::Hash(vars) => copy_or_nil(alloc, vars.get(key)),
        _ => Ok(Value::Nil),
    }
}

fn is_setting(value: &Value, key: &str, vars: &Value) -> bool
    ensures { IsTrue result ↔ (plain value.now ≡ setting key.now (plain vars.now)) }
{
    match vars {
        Value::Hash(vars) => is_or_nil(value, vars.get(key)),
        _ => equals(value, &Value::Nil),
    }
}

fn copy_or_nil(alloc: Global, value: Option<&Value>) -> Result<Value, Memory>
    ensures { IfOk result (λ made. plain made ≡ given value.entry) }
{
    match value {
        Some(value) => copy(alloc, value),
        None => Ok(Value::Nil),
    }
}

fn is_or_nil(value: &Value, other: Option<&Value>) -> bool
    ensures { IsTrue result ↔ (plain value.now ≡ given other.entry) }
{
    match other {
        Some(other) => equals(value, other),
        None => equals(value, &Value::Nil),
    }
}

fn are_items(noted: &[ItemBasis], items: &[SiteItem]) -> bool
    ensures { IsTrue result ↔ (map noted_facts noted.now ≡ map item_facts items.now) }
{
    if noted.len() != items.len() {
        return false;
    }
    for (place, item) in items.iter().enumerate() {
        if !noted[place].is_of(item) {
            return false;
        }
    }
    true
}

fn are_copies(noted: &[CopyBasis], files: &[StaticFile]) -> bool
    ensures { IsTrue result ↔ (noted.now ≡ map copy_basis files.now) }
{
    if noted.len() != files.len() {
        return false;
    }
    for (place, file) in files.iter().enumerate() {
        if !noted[place].is_of(file) {
            return false;
        }
    }
    true
}

fn are_same_pairs(left: &[Pair], right: &[Pair]) -> bool
    ensures { IsTrue result ↔ (pairs_of left.now ≡ pairs_of right.now) }
{
    if left.len() != right.len() {
        return false;
    }
    for (place, pair) in left.iter().enumerate() {
        if !is_same_pair(pair, &right[place]) {
            return false;
        }
    }
    true
}

fn is_same_pair(left: &Pair, right: &Pair) -> bool
    ensures { IsTrue result ↔ ((left.now.key ≡ right.now.key) × (plain left.now.value ≡ plain right.now.value)) }
{
    left.key.as_str() == right.key.as_str() && equals(&left.value, &right.value)
}
