// The posts of a page, while they are gathered.
ghost use Rattle.std.specs.Prelude.{◌≡◌, IfOk, OnOk, Some};
ghost use Rattle.std.specs.BTreeMap.{insert_entry};
ghost use Rattle.site_base.specs.Places.{path_cmp};
ghost use Rattle.site_base.specs.Plain.{site_item};
ghost use Rattle.tag_archives.specs.Gathering.{group_at, joined, joined_at, no_group};

use crate::page::Page;
use site_base::{ItemName, List, Memory, SitePath, Text, Value};
use std::alloc::Global;
use std::collections::BTreeMap;

/// The posts of a page, the newest first.
#[derive(Drop)]
pub(crate) struct Group {
    pub(crate) title: Text,
    pub(crate) slug: Text,
    pub(crate) posts: List,
    /// How many posts there are from its oldest one to the newest of all.
    pub(crate) since: usize,
}

/// Adds a post, from which on there are so many, to the group of a page, and gives the group this name.
pub(crate) fn join(
    alloc: Global,
    groups: &mut BTreeMap<SitePath, Group>,
    page: Page,
    title: Text,
    post: &ItemName,
    since: usize,
) -> Result<(), Memory>
    ensures { OnOk result (groups.new.entries
        ≡ joined_at (Some page) title (site_item post.now.path post.now.part) since groups.old.entries) }
{
    let Page { slug, path } = page;
    let old = take(alloc, groups, &path)?;
    let made = old.joined(alloc, slug, title, post, since)?;
    put(groups, path, made)
}

// The group at a path, in whose place an empty one is left.
fn take(
    alloc: Global,
    groups: &mut BTreeMap<SitePath, Group>,
    path: &SitePath,
) -> Result<Group, Memory>
    ensures group { IfOk result (λ group. group ≡ group_at path.now groups.old.entries) }
    ensures rest { OnOk result (groups.new.entries ≡ insert_entry path_cmp groups.old.entries path.now no_group) }
{
    match groups.insert(path.copy(alloc)?, Group::new(alloc)) {
        Ok(Some(group)) => Ok(group),
        Ok(None) => Ok(Group::new(alloc)),
        Err(_) => Err(Memory),
    }
}

fn put(groups: &mut BTreeMap<SitePath, Group>, path: SitePath, group: Group) -> Result<(), Memory>
    ensures { OnOk result (groups.new.entries ≡ insert_entry path_cmp groups.old.entries path group) }
{
    match groups.insert(path, group) {
        Ok(_) => Ok(()),
        Err(_) => Err(Memory),
    }
}

impl Group {
    fn new(alloc: Global) -> Group
        ensures { result ≡ no_group }
    {
        Group {
            title: Text::new(alloc),
            slug: Text::new(alloc),
            posts: List::new(alloc),
            since: 0,
        }
    }

    // The group with a post, unless that was the last one.
    fn joined(
        self,
        alloc: Global,
        slug: Text,
        title: Text,
        post: &ItemName,
        since: usize,
    ) -> Result<Group, Memory>
        ensures { IfOk result (λ made. made ≡ joined slug title (site_item post.now.path post.now.part) since self) }
    {
        let Group {
            title: _,
            slug: _,
            mut posts,
            since: last,
        } = self;
        if last != since {
            posts.push(Value::Item(post.copy(alloc)?))?;
        }
        Ok(Group {
            title,
            slug,
            posts,
            since,
        })
    }
}
