// Sites of a few files: their items with the group of each in the order of rendering, their layouts, includes and copied files, which no template shows.
ghost use Rattle.site_dates.specs.Moment.{IsMoment};

use site_base::{FaultKind, Hash, Settings, SiteFault, SitePath, YamlKind, same_code};
use site_reader::{Site, SiteError, SiteItem, read_site};
use site_variables::site_variables;
use source_tree::Held;
use std::alloc::Global;

// 2024-01-01T00:00:00Z
const NOW: i64 = 1_704_067_200;

const COLLECTION: (&str, &str) = (
    "_config.yml",
    "collections:\n  c:\n    output: true\n  hidden:\n",
);

fn held_of(alloc: Global, files: &[(&str, &str)]) -> Option<Held> {
    let mut held = Held::new(alloc);
    for (path, text) in files {
        let bytes = text.as_bytes().to_vec(alloc).ok()?;
        let path = SitePath::read(alloc, path).ok()?;
        held.put(path, bytes).ok()?;
    }
    Some(held)
}

fn now() -> i64
    ensures { IsMoment result }
{
    NOW
}

// The site of held files, of which nothing is promised here.
fn read(alloc: Global, held: &Held) -> Result<Site, SiteError> {
    let settings = Settings {
        drafts: false,
        future: false,
    };
    read_site(alloc, held, now(), &settings)
}

fn site_of(alloc: Global, files: &[(&str, &str)]) -> Option<Site> {
    let held = held_of(alloc, files)?;
    read(alloc, &held).ok()
}

// The path of an item, its URL, and the path of its output, or none.
type ItemRow = (&'static str, &'static str, &'static str);

fn are_items(items: &[SiteItem], want: &[ItemRow]) -> bool {
    for (place, row) in want.iter().enumerate() {
        if !is_item(items.get(place), row) {
            return false;
        }
    }
    items.len() == want.len()
}

fn is_item(item: Option<&SiteItem>, want: &ItemRow) -> bool {
    match item {
        Some(item) => {
            item.name.path.text() == want.0
                && item.url.as_str() == want.1
                && dest_text(item) == want.2
        }
        None => false,
    }
}

fn dest_text(item: &SiteItem) -> &str {
    match &item.dest {
        Some(dest) => dest.text(),
        None => "",
    }
}

const FILES: &[(&str, &str)] = &[
    COLLECTION,
    ("_c/1.md", "---\n---\n"),
    ("_c/2.md", "---\ndate: 2020-01-01\n---\n"),
    ("_c/3.md", "---\ndate: 2019-01-01\n---\n"),
    ("_c/x.png", "no front matter"),
    ("_hidden/n.md", "---\n---\n"),
    ("_posts/2020-01-01-b.md", "---\n---\n"),
    ("_posts/2020-01-01-a.md", "---\n---\n"),
    ("_posts/2020-01-03-c.md", "---\ndate: 2019-12-31\n---\n"),
    ("_posts/no-date.md", "---\n---\n"),
    ("_posts/2020-01-02-plain.md", "no front matter"),
    ("_posts/2024-01-02-later.md", "---\n---\n"),
    ("_drafts/d.md", "---\n---\n"),
    ("a/z.html", "---\n---\n"),
    ("b/a.html", "---\n---\n"),
    ("index.html", "---\n---\n"),
    ("style.css", "b{}"),
];

const ITEMS: &[ItemRow] = &[
    (
        "_posts/2020-01-03-c.md",
        "/2019/12/31/c.html",
        "2019/12/31/c.html",
    ),
    (
        "_posts/2020-01-01-a.md",
        "/2020/01/01/a.html",
        "2020/01/01/a.html",
    ),
    (
        "_posts/2020-01-01-b.md",
        "/2020/01/01/b.html",
        "2020/01/01/b.html",
    ),
    ("_c/3.md", "/c/3.html", "c/3.html"),
    ("_c/2.md", "/c/2.html", "c/2.html"),
    ("_c/1.md", "/c/1.html", "c/1.html"),
    ("_hidden/n.md", "/hidden/n.html", ""),
    ("b/a.html", "/b/a.html", "b/a.html"),
    ("index.html", "/", "index.html"),
    ("a/z.html", "/a/z.html", "a/z.html"),
];

// Three posts, three documents of a collection that has output and one of another, and three pages.
const GROUPS: &[u64] = &[0, 0, 0, 1, 1, 1, 2, 3, 3, 3];

fn have_groups(items: &[SiteItem]) -> bool {
    for (place, want) in GROUPS.iter().enumerate() {
        match items.get(place) {
            Some(item) if item.group == *want => {}
            _ => return false,
        }
    }
    items.len() == GROUPS.len()
}

#[test]
fn items_stand_in_the_order_of_rendering(rt: HostRuntime) {
    match site_of(rt.alloc(), FILES) {
        Some(site) => {
            let items = site.items.as_slice();
            assert!(rt; are_items(items, ITEMS) && have_groups(items));
        }
        None => assert!(rt; false, "no site"),
    }
}

fn fault_of(alloc: Global, files: &[(&str, &str)]) -> Option<SiteFault> {
    let held = held_of(alloc, files)?;
    match read(alloc, &held) {
        Err(SiteError::Fault(fault)) => Some(fault),
        _ => None,
    }
}

fn has_fault(
    alloc: Global,
    files: &[(&str, &str)],
    kind: FaultKind,
    line: u64,
    path: &str,
) -> bool {
    match fault_of(alloc, files) {
        Some(fault) => fault.path.text() == path && fault.line == line && fault.kind == kind,
        None => false,
    }
}

#[test]
fn a_site_has_a_first_fault(rt: HostRuntime) {
    let files = &[
        ("_data/z.json", "1"),
        ("_layouts/a.htm", "---\na: &x 1\n---\n"),
        ("a.html", "---\ndate: x\n---\n"),
    ];
    let kind = FaultKind::Yaml(YamlKind::Outside);
    assert!(rt; has_fault(rt.alloc(), files, kind, 2, "_layouts/a.htm"));
}

fn has_data(alloc: Global, files: &[(&str, &str)], want: &str) -> bool {
    match site_of(alloc, files) {
        Some(site) => same_code(&site.data_tree, want.as_bytes()),
        None => false,
    }
}

#[test]
fn data_files_stand_under_their_names(rt: HostRuntime) {
    let files = &[("_data/a.yml", "x: 1"), ("_data/a/y.json", "2")];
    assert!(rt; has_data(rt.alloc(), files, "h1:s1:ah2:s1:xi1;s1:yi2;"));
}

fn has_layout(site: &Site, place: usize, name: &str, path: &str, body: &str) -> bool {
    match site.layouts.as_slice().get(place) {
        Some(layout) => {
            layout.name.as_str() == name
                && layout.path.text() == path
                && layout.body.as_str() == body
        }
        None => false,
    }
}

const LAYOUTS: &[(&str, &str)] = &[
    ("_layouts/base.html", "B"),
    ("_layouts/base.txt", "T"),
    ("_layouts/post.html", "---\nlayout: base\n---\nP"),
];

#[test]
fn the_last_layout_of_a_name_counts(rt: HostRuntime) {
    match site_of(rt.alloc(), LAYOUTS) {
        Some(site) => {
            assert!(rt; site.layouts.len() == 2);
            assert!(rt; has_layout(&site, 0, "base", "_layouts/base.txt", "T"));
            assert!(rt; has_layout(&site, 1, "post", "_layouts/post.html", "P"));
        }
        None => assert!(rt; false, "no site"),
    }
}

fn has_include(site: &Site, place: usize, name: &str, body: &str) -> bool {
    match site.includes.as_slice().get(place) {
        Some(include) => include.name.as_str() == name && include.body.as_str() == body,
        None => false,
    }
}

const INCLUDES: &[(&str, &str)] = &[
    ("_includes/b/n.html", "N"),
    ("_includes/a.html", "A"),
    ("_includes/_x/a.html", "hidden"),
];

#[test]
fn includes_are_named_by_their_paths(rt: HostRuntime) {
    match site_of(rt.alloc(), INCLUDES) {
        Some(site) => {
            assert!(rt; site.includes.len() == 2);
            assert!(rt; has_include(&site, 0, "a.html", "A"));
            assert!(rt; has_include(&site, 1, "b/n.html", "N"));
        }
        None => assert!(rt; false, "no site"),
    }
}

fn is_copied(site: &Site, place: usize, path: &str) -> bool {
    match site.statics.as_slice().get(place) {
        Some(file) => file.path.text() == path,
        None => false,
    }
}

const COPIES: &[(&str, &str)] = &[
    ("logo.png", "x"),
    (".hidden", "x"),
    ("vendor/bundle/x", "x"),
    (".htaccess", "x"),
    ("a/b.css", "x"),
];

#[test]
fn files_without_front_matter_are_copied(rt: HostRuntime) {
    match site_of(rt.alloc(), COPIES) {
        Some(site) => {
            assert!(rt; site.statics.len() == 3);
            assert!(rt; is_copied(&site, 0, ".htaccess"));
            assert!(rt; is_copied(&site, 1, "a/b.css"));
            assert!(rt; is_copied(&site, 2, "logo.png"));
        }
        None => assert!(rt; false, "no site"),
    }
}

fn variables_of(alloc: Global, files: &[(&str, &str)]) -> Option<Hash> {
    let site = site_of(alloc, files)?;
    site_variables(alloc, &site).ok()
}

fn has_variable(variables: &Hash, name: &str, code: &str) -> bool {
    match variables.get(name) {
        Some(value) => same_code(value, code.as_bytes()),
        None => false,
    }
}

#[test]
fn a_site_has_variables(rt: HostRuntime) {
    match variables_of(rt.alloc(), FILES) {
        Some(variables) => {
            assert!(rt; has_variable(&variables, "timezone", "s3:UTC"));
            assert!(rt; has_variable(&variables, "hidden", "l1:ps12:_hidden/n.md0;"));
        }
        None => assert!(rt; false, "no variables"),
    }
}
