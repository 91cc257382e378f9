// What the pages of a pagination have in common.
ghost use Rattle.std.specs.Prelude.{◌≡◌, ◌≤◌, IfOk};
ghost use Rattle.pagination.specs.Pages.{page_count};
ghost use Rattle.site_reader.specs.Paginating.{paging_of};

use crate::rank::document_groups;
use crate::site_item::SiteItem;
use pagination::page_count;
use site_base::{Memory, Text, copy};
use site_config::Config;
use std::alloc::Global;

/// What the pages of a pagination have in common.
#[derive(Drop)]
pub(crate) struct Paging {
    /// The page of the site that is the first.
    pub(crate) template: SiteItem,
    /// The group of those that are generated.
    pub(crate) group: u64,
    /// The path of a page, with `:num` for its number.
    pub(crate) pattern: Text,
    pub(crate) per_page: u64,
    pub(crate) total_posts: u32,
    pub(crate) total_pages: u32,
}

impl Paging {
    /// The pages over which so many posts are spread. They share what the template has.
    pub(crate) fn of(
        alloc: Global,
        config: &Config,
        per_page: u64,
        template: &SiteItem,
        posts: u32,
    ) -> Result<Paging, Memory>
        requires posts { 1 ≤ posts }
        requires per_page { 1 ≤ per_page }
        ensures { IfOk result (λ made. made ≡ paging_of config.now per_page template.now posts) }
    {
        Ok(Paging {
            template: shared(alloc, template)?,
            group: document_groups(config) + 1,
            pattern: Text::copy(alloc, config.paginate_path.as_str())?,
            per_page,
            total_posts: posts,
            total_pages: pages_of(posts, per_page),
        })
    }
}

// An equal item, of which further holders take little more.
fn shared(alloc: Global, item: &SiteItem) -> Result<SiteItem, Memory>
    ensures { IfOk result (λ made. made ≡ item.now) }
{
    Ok(SiteItem {
        name: item.name.copy(alloc)?,
        group: item.group,
        body: item.body.share(alloc)?,
        vars: copy(alloc, &item.vars)?.into_shared()?,
        url: item.url.share(alloc)?,
        dest: match &item.dest {
            Some(path) => Some(path.copy(alloc)?),
            None => None,
        },
        paginator: copy(alloc, &item.paginator)?,
    })
}

// How many pages hold the posts, of which there are some.
fn pages_of(posts: u32, per_page: u64) -> u32
    requires posts { 1 ≤ posts }
    requires per_page { 1 ≤ per_page }
    ensures count { result ≡ page_count posts per_page }
    ensures few { result ≤ posts }
{
    if per_page < posts as u64 {
        page_count(posts, per_page as u32)
    } else {
        1
    }
}
