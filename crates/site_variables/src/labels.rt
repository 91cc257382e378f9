// The posts by their categories and tags.
ghost use Rattle.std.specs.Prelude.{◌≡◌, ◌∷◌, [], IfOk, OnOk, Some, fold};
ghost use Rattle.site_base.specs.Plain.{get, item, no_items, no_pairs, taken};
ghost use Rattle.site_base.specs.View.{plain, items_of, pairs_of};
ghost use Rattle.site_config.specs.Config.{texts_in, texts_or};
ghost use Rattle.site_config.specs.Forms.{given};
ghost use Rattle.site_items.specs.Defaults.{set_all};
ghost use Rattle.site_variables.specs.Gathering.{backwards, behind_others, newest_first, oldest_first, with_newer};
ghost use Rattle.site_variables.specs.Labels.{by_labels, labels, values_in};
ghost use Rattle.site_variables.specs.Lists.{named, posts};

use crate::choice::is_post;
use crate::lists::{backwards, named};
use site_base::{Hash, List, Memory, Pair, Text, Value};
use site_reader::SiteItem;
use std::alloc::Global;

/// The posts among items by the names that they have under a key, the newest first under each. The items stand in their order, in
/// which the oldest post is the first.
pub(crate) fn by_labels(alloc: Global, key: &str, items: &[SiteItem]) -> Result<Hash, Memory>
    ensures { IfOk result (λ made. made ≡ by_labels key.now (posts items.now)) }
{
    let groups = oldest_first(alloc, key, items)?;
    newest_first(alloc, groups.as_slice())
}

fn oldest_first(alloc: Global, key: &str, items: &[SiteItem]) -> Result<Hash, Memory>
    ensures { IfOk result (λ made. made ≡ oldest_first key.now (posts items.now)) }
{
    let mut groups = Hash::new(alloc);
    for item in items {
        add_item(alloc, &mut groups, key, item)?;
    }
    Ok(groups)
}

fn add_item(alloc: Global, groups: &mut Hash, key: &str, item: &SiteItem) -> Result<(), Memory>
    ensures { OnOk result (groups.new ≡ fold (with_newer key.now) groups.old (posts (item.now ∷ []))) }
{
    if is_post(item) {
        add_post(alloc, groups, key, item)?;
    }
    Ok(())
}

// Adds a post under each of its names.
fn add_post(alloc: Global, groups: &mut Hash, key: &str, post: &SiteItem) -> Result<(), Memory>
    ensures { OnOk result (groups.new ≡ with_newer key.now groups.old post.now) }
{
    for label in labels(post, key) {
        add_under(alloc, groups, label, post)?;
    }
    Ok(())
}

// The names of a post are the texts among these.
fn labels<'a>(post: &'a SiteItem, key: &str) -> &'a [Value]
    ensures { texts_in (items_of result.now) ≡ labels key.now post.entry.now }
{
    match &post.vars {
        Value::Hash(vars) => values_in(vars.get(key)),
        _ => &[],
    }
}

fn values_in(value: Option<&Value>) -> &[Value]
    ensures { texts_in (items_of result.now) ≡ texts_or [] (given value.entry) }
{
    match value {
        Some(Value::List(list)) => list.as_slice(),
        _ => &[],
    }
}

fn add_under(alloc: Global, groups: &mut Hash, label: &Value, post: &SiteItem) -> Result<(), Memory>
    ensures { OnOk result (groups.new ≡ fold (behind_others (named post.now)) groups.old (texts_in (item (plain label.now) no_items))) }
{
    match label {
        Value::Text(name) => add_behind(alloc, groups, name, post),
        _ => Ok(()),
    }
}

// Adds a post behind all others of a name.
#[tactic(auto, using(site_base::proofs::ValueLaws::set_taken))]
fn add_behind(alloc: Global, groups: &mut Hash, name: &Text, post: &SiteItem) -> Result<(), Memory>
    ensures { OnOk result (groups.new ≡ behind_others (named post.now) groups.old name.now) }
{
    let mut posts = take_posts(alloc, groups, name.as_str())?;
    posts.push(named(alloc, post)?)?;
    groups.set(name.share(alloc)?, Value::List(posts))
}

// The posts of a name, out of whose place they are taken.
fn take_posts(alloc: Global, groups: &mut Hash, name: &str) -> Result<List, Memory>
    ensures posts { IfOk result (λ posts. posts ≡ values_in (get name.now groups.old)) }
    ensures rest { OnOk result (groups.new ≡ taken name.now groups.old) }
{
    match groups.take(name)? {
        Some(Value::List(posts)) => Ok(posts),
        _ => Ok(List::new(alloc)),
    }
}

// Set one by one, so that a name is found at once among many.
fn newest_first(alloc: Global, groups: &[Pair]) -> Result<Hash, Memory>
    ensures { IfOk result (λ made. made ≡ set_all (newest_first (pairs_of groups.now)) no_pairs) }
{
    let mut made = Hash::new(alloc);
    for group in groups {
        let posts = turned_round(alloc, &group.value)?;
        made.set(group.key.share(alloc)?, Value::List(posts))?;
    }
    Ok(made)
}

fn turned_round(alloc: Global, posts: &Value) -> Result<List, Memory>
    ensures { IfOk result (λ made. made ≡ backwards (values_in (Some (plain posts.now)))) }
{
    match posts {
        Value::List(posts) => backwards(alloc, posts.as_slice()),
        _ => Ok(List::new(alloc)),
    }
}
