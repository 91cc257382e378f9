// A site whose posts are spread over pages: its items with their groups and the codes of their paginators, and what a generated page shares with its template.
ghost use Rattle.site_dates.specs.Moment.{IsMoment};

use site_base::{Settings, SitePath, same_code};
use site_reader::{Site, SiteError, SiteItem, read_site};
use source_tree::Held;
use std::alloc::Global;

// 2024-01-01T00:00:00Z
const NOW: i64 = 1_704_067_200;

fn held_of(alloc: Global, files: &[(&str, &str)]) -> Option<Held> {
    let mut held = Held::new(alloc);
    for (path, text) in files {
        let bytes = text.as_bytes().to_vec(alloc).ok()?;
        let path = SitePath::read(alloc, path).ok()?;
        held.put(path, bytes).ok()?;
    }
    Some(held)
}

fn now() -> i64
    ensures { IsMoment result }
{
    NOW
}

// The site of held files, of which nothing is promised here.
fn read(alloc: Global, held: &Held) -> Result<Site, SiteError> {
    let settings = Settings {
        drafts: false,
        future: false,
    };
    read_site(alloc, held, now(), &settings)
}

fn site_of(alloc: Global, files: &[(&str, &str)]) -> Option<Site> {
    let held = held_of(alloc, files)?;
    read(alloc, &held).ok()
}

// The path of an item and its part, its group, its URL, the path of its output, and the code of its paginator.
type ItemRow = (
    &'static str,
    u32,
    u64,
    &'static str,
    &'static str,
    &'static str,
);

fn builds(alloc: Global, files: &[(&str, &str)], want: &[ItemRow]) -> bool {
    match site_of(alloc, files) {
        Some(site) => are_items(site.items.as_slice(), want),
        None => false,
    }
}

fn are_items(items: &[SiteItem], want: &[ItemRow]) -> bool {
    for (place, row) in want.iter().enumerate() {
        if !is_item(items.get(place), row) {
            return false;
        }
    }
    items.len() == want.len()
}

fn is_item(item: Option<&SiteItem>, want: &ItemRow) -> bool {
    match item {
        Some(item) => is_named(item, want) && same_code(&item.paginator, want.5.as_bytes()),
        None => false,
    }
}

fn is_named(item: &SiteItem, want: &ItemRow) -> bool {
    item.name.path.text() == want.0
        && item.name.part == want.1
        && item.group == want.2
        && item.url.as_str() == want.3
        && dest_text(item) == want.4
}

fn dest_text(item: &SiteItem) -> &str {
    match &item.dest {
        Some(dest) => dest.text(),
        None => "",
    }
}

const BLOG: &[(&str, &str)] = &[
    (
        "_config.yml",
        "title: Notes\nurl: https://example.org\npaginate: 2\ndefaults:\n  - scope:\n      path: \"\"\n      type: posts\n    values:\n      layout: post\n",
    ),
    (
        "_layouts/default.html",
        "---\n---\n<title>{{ page.title | default: site.title }}</title>\n{{ content }}\n",
    ),
    (
        "_posts/2023-05-01-first-note.md",
        "---\ntags: [a, b]\n---\nHello *world*.\n\nMore.\n",
    ),
    (
        "_posts/2023-05-02-second.md",
        "---\ntitle: Two & more\n---\nSee [first]({% post_url 2023-05-01-first-note %}).\n",
    ),
    ("_posts/2023-05-03-third.md", "---\n---\nThird.\n"),
    (
        "index.html",
        "---\nlayout: default\n---\n{{ paginator.page }}\n",
    ),
    ("style.css", "b{}\n"),
];

const OF_BLOG: &[ItemRow] = &[
    (
        "_posts/2023-05-01-first-note.md",
        0,
        0,
        "/2023/05/01/first-note.html",
        "2023/05/01/first-note.html",
        "n",
    ),
    (
        "_posts/2023-05-02-second.md",
        0,
        0,
        "/2023/05/02/second.html",
        "2023/05/02/second.html",
        "n",
    ),
    (
        "_posts/2023-05-03-third.md",
        0,
        0,
        "/2023/05/03/third.html",
        "2023/05/03/third.html",
        "n",
    ),
    (
        "index.html",
        0,
        1,
        "/",
        "index.html",
        "h9:s4:pagei1;s8:per_pagei2;s5:postsl2:ps26:_posts/2023-05-03-third.md0;ps27:_posts/2023-05-02-second.md0;s11:total_postsi3;s11:total_pagesi2;s13:previous_pagens18:previous_page_pathns9:next_pagei2;s14:next_page_paths6:/page2",
    ),
    (
        "index.html",
        2,
        2,
        "/page2/",
        "page2/index.html",
        "h9:s4:pagei2;s8:per_pagei2;s5:postsl1:ps31:_posts/2023-05-01-first-note.md0;s11:total_postsi3;s11:total_pagesi2;s13:previous_pagei1;s18:previous_page_paths1:/s9:next_pagens14:next_page_pathn",
    ),
];

#[test]
fn a_blog_has_a_page_for_each_two_posts(rt: HostRuntime) {
    assert!(rt; builds(rt.alloc(), BLOG, OF_BLOG));
}

// The variables of the template, and those of the page that is generated: but for `url` and `dir` the same.
const OF_TEMPLATE: &str =
    "h7:s6:layouts7:defaults4:paths10:index.htmls13:relative_paths10:index.htmls3:urls1:/s3:exts5:.htmls4:names10:index.htmls3:dirs1:/";

const OF_PAGE: &str =
    "h7:s6:layouts7:defaults4:paths10:index.htmls13:relative_paths10:index.htmls3:urls7:/page2/s3:exts5:.htmls4:names10:index.htmls3:dirs7:/page2/";

fn has_address_of_its_own(alloc: Global) -> bool {
    match site_of(alloc, BLOG) {
        Some(site) => match site.items.as_slice() {
            [_, _, _, template, made] => has_own(template, OF_TEMPLATE) && has_own(made, OF_PAGE),
            _ => false,
        },
        None => false,
    }
}

fn has_own(item: &SiteItem, vars: &str) -> bool {
    same_code(&item.vars, vars.as_bytes()) && item.body.as_str() == "{{ paginator.page }}\n"
}

#[test]
fn a_page_that_is_generated_has_what_its_template_has_but_for_its_address(rt: HostRuntime) {
    assert!(rt; has_address_of_its_own(rt.alloc()));
}
