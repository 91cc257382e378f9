// The pages that a table keeps, in byte order of their paths.
ghost use Rattle.std.specs.Prelude.{◌≡◌, ◌≤◌, ◌||◌, MatchResult, OnErr, OnOk, length, map};
ghost use Rattle.std.specs.FinMap.Entries.{put};
ghost use Rattle.std.specs.List.{filter};
ghost use Rattle.std.specs.Ordering.{is_gt};
ghost use Rattle.std.specs.Str.{bytes_eq};
ghost use Rattle.link_check.specs.Numbers.{is_left, unoffered};
ghost use Rattle.site_base.specs.Places.{IsAbsent, IsThere, PathsRise, count_below, path_cmp};

use site_base::{Memory, SharedBytes, SitePath};

/// A page that a table keeps.
#[derive(Drop)]
pub(crate) struct Page {
    pub(crate) bytes: SharedBytes,
    /// The numbers of its links' values, in the order of the links.
    pub(crate) links: Vec<u32>,
    /// Since the table was last begun.
    pub(crate) is_offered: bool,
}

/// Counts a page as offered if it has these bytes, and says whether it has.
pub(crate) fn offer_same(page: &mut Page, bytes: &[u8]) -> bool
    ensures told { result ≡ bytes_eq page.old.bytes bytes.now }
    ensures bytes { page.new.bytes ≡ page.old.bytes }
    ensures links { page.new.links ≡ page.old.links }
    ensures offered { page.new.is_offered ≡ (result || page.old.is_offered) }
{
    if page.bytes.as_slice() != bytes {
        return false;
    }
    page.is_offered = true;
    true
}

/// No page counts as offered.
pub(crate) fn unoffer(pages: &mut Vec<(SitePath, Page)>)
    ensures { pages.new.items ≡ map unoffered pages.old.items }
{
    for place in 0..pages.len() {
        pages[place].1.is_offered = false;
    }
}

/// Forgets the pages that were not offered.
pub(crate) fn keep_offered(pages: &mut Vec<(SitePath, Page)>)
    ensures { pages.new.items ≡ filter is_left pages.old.items }
{
    pages.retain(|entry| entry.1.is_offered);
}

/// Adds or replaces a page. After `Memory` the pages are as before.
pub(crate) fn put(
    pages: &mut Vec<(SitePath, Page)>,
    path: SitePath,
    page: Page,
) -> Result<(), Memory>
    requires { PathsRise pages.old.items }
    ensures ok { OnOk result (pages.new.items ≡ put path_cmp path page pages.old.items) }
    ensures err { OnErr result (pages.new.items ≡ pages.old.items) }
{
    match find(pages, &path) {
        Ok(place) => {
            pages[place] = (path, page);
            Ok(())
        }
        Err(place) => {
            pages.insert(place, (path, page))?;
            Ok(())
        }
    }
}

/// A path's place, or the place where it would stand.
pub(crate) fn find(pages: &[(SitePath, Page)], path: &SitePath) -> Result<usize, usize>
    requires { PathsRise pages.now }
    ensures { MatchResult result (IsThere path.now pages.now) (IsAbsent path.now pages.now) }
{
    let place = place_of(pages, path.as_bytes());
    if place < pages.len() && has_path(&pages[place], path) {
        Ok(place)
    } else {
        Err(place)
    }
}

fn has_path(entry: &(SitePath, Page), path: &SitePath) -> bool
    ensures { result ≡ bytes_eq entry.now.0 path.now }
{
    entry.0 == *path
}

// How many pages stand before a path.
fn place_of(pages: &[(SitePath, Page)], path: &[u8]) -> usize
    requires { PathsRise pages.now }
    ensures bound { result ≤ length pages.now }
    ensures is { result ≡ count_below path.now pages.now }
{
    pages.partition_point(|entry| is_above(path, &entry.0))
}

fn is_above(path: &[u8], other: &SitePath) -> bool
    ensures { result ≡ is_gt (path_cmp path.now other.now) }
{
    path.cmp(other.as_bytes()).is_gt()
}
