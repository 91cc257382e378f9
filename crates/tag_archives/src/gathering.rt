// The archives of posts.
ghost use Rattle.std.specs.Prelude.{◌≡◌, ◌∷◌, false, IfOk, map, MatchResult, Ok, OnOk};
ghost use Rattle.site_base.specs.View.{plain};
ghost use Rattle.site_base.specs.Values.{value_text};
ghost use Rattle.permalinks.specs.Slug.{slug};
ghost use Rattle.tag_archives.specs.Archives.{archives, bounded, IsFault, is_long, post_item};
ghost use Rattle.tag_archives.specs.Listing.{AreArchives};
ghost use Rattle.tag_archives.specs.Gathering.{AreKnown, archive_at, groups_of, has_long, IsLongFault, with_name};

use crate::group::{Group, join};
use crate::name_key::NameKey;
use crate::page::{Page, page_of};
use crate::{Archive, ArchiveError, ArchiveList, ArchivePost, ArchivePosts, ArchiveWord};
use site_base::{Memory, Sequence, SitePath, Value, value_text};
use std::alloc::Global;
use std::collections::BTreeMap;

/// How many archives there may be.
const MOST_ARCHIVES: usize = 100_000;

/// The archives of posts, which stand oldest first: one for each slug that is not empty and that a name of some post has, in byte
/// order of their paths. Each lists the posts that have it, each once, the newest first.
///
/// `BadPath` comes exactly where the path of an archive would be too long, and else `TooMany` exactly where there are more than
/// 100,000.
pub fn archives(
    alloc: Global,
    posts: &ArchivePosts,
    word: ArchiveWord,
) -> Result<ArchiveList, ArchiveError>
    ensures made { let made = archives word posts.now in
        MatchResult result (λ list. made ≡ Ok list) (IsFault made) }
    ensures lists { IfOk result (AreArchives word posts.now) }
{
    match groups(alloc, posts.as_slice(), word) {
        Ok(groups) => within_bounds(alloc, groups),
        Err(error) => Err(error),
    }
}

fn within_bounds(
    alloc: Global,
    groups: BTreeMap<SitePath, Group>,
) -> Result<ArchiveList, ArchiveError>
    ensures { let made = bounded (map archive_at groups.entries) in
        MatchResult result (λ list. made ≡ Ok list) (IsFault made) }
{
    if groups.len() > MOST_ARCHIVES {
        return Err(ArchiveError::TooMany);
    }
    Ok(listed(alloc, groups)?)
}

fn listed(alloc: Global, groups: BTreeMap<SitePath, Group>) -> Result<ArchiveList, Memory>
    ensures { IfOk result (λ list. list ≡ map archive_at groups.entries) }
{
    let mut list = Vec::with_capacity(alloc, groups.len())?;
    for (path, group) in groups {
        list.push(archive(path, group))?;
    }
    Ok(Sequence::from_vec(list))
}

fn archive(path: SitePath, group: Group) -> Archive
    ensures { result ≡ archive_at (path, group) }
{
    Archive {
        title: group.title,
        slug: group.slug,
        path,
        posts: group.posts,
    }
}

// The groups of posts, which are added from the newest to the oldest.
fn groups(
    alloc: Global,
    posts: &[ArchivePost],
    word: ArchiveWord,
) -> Result<BTreeMap<SitePath, Group>, ArchiveError>
    ensures { MatchResult result
        (λ made. (has_long word posts.now ≡ false) × (made.entries ≡ groups_of word posts.now))
        (IsLongFault (has_long word posts.now)) }
{
    let mut known = BTreeMap::new(alloc);
    let mut groups = BTreeMap::new(alloc);
    for place in (0..posts.len()).rev() {
        let newer = &posts[place + 1..];
        match add_post(alloc, word, &mut known, &mut groups, &posts[place], newer) {
            Ok(()) => {}
            Err(error) => return Err(error),
        }
    }
    Ok(groups)
}

// Adds a post to the groups of the newer ones, by its terms from the last to the first.
fn add_post(
    alloc: Global,
    word: ArchiveWord,
    known: &mut BTreeMap<NameKey, Option<Page>>,
    groups: &mut BTreeMap<SitePath, Group>,
    post: &ArchivePost,
    newer: &[ArchivePost],
) -> Result<(), ArchiveError>
    requires known { AreKnown word known.old }
    requires groups { groups.old.entries ≡ groups_of word newer.now }
    requires short { has_long word newer.now ≡ false }
    ensures added { MatchResult result
        (λ _. (has_long word (post.now ∷ newer.now) ≡ false) × (groups.new.entries ≡ groups_of word (post.now ∷ newer.now)))
        (IsLongFault (has_long word (post.now ∷ newer.now))) }
    ensures known { OnOk result (AreKnown word known.new) }
{
    let terms = post.terms.as_slice();
    for place in (0..terms.len()).rev() {
        let since = newer.len() + 1;
        match add_term(alloc, word, known, groups, &terms[place], post, since) {
            Ok(()) => {}
            Err(error) => return Err(error),
        }
    }
    Ok(())
}

// Adds a post to the group of one of its terms.
fn add_term(
    alloc: Global,
    word: ArchiveWord,
    known: &mut BTreeMap<NameKey, Option<Page>>,
    groups: &mut BTreeMap<SitePath, Group>,
    term: &Value,
    post: &ArchivePost,
    since: usize,
) -> Result<(), ArchiveError>
    requires { AreKnown word known.old }
    ensures added { let name = value_text (plain term.now) in MatchResult result
        (λ _. (is_long word (slug name) ≡ false) × (groups.new.entries ≡ with_name word name (post_item post.now) since groups.old.entries))
        (IsLongFault (is_long word (slug name))) }
    ensures known { OnOk result (AreKnown word known.new) }
{
    let name = NameKey::of(value_text(alloc, term)?);
    match page_of(alloc, word, known, &name) {
        Ok(None) => Ok(()),
        Ok(Some(page)) => Ok(join(alloc, groups, page, name.into_text(), &post.name, since)?),
        Err(error) => Err(error),
    }
}
