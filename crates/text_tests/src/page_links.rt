// The links of pages, where they lead, and the table of them; the rows of what they are stand beside their definitions.
ghost use Rattle.std.specs.Prelude.{nat_eq};
ghost use Rattle.std.specs.Cmp.Lexicographic.{pointwise};

use link_check::{LinkTable, LinkTarget, Paths, links, target};
use site_base::SitePath;
use std::alloc::Global;

fn has_links(alloc: Global, html: &str, count: u64) -> bool {
    match links(alloc, html.as_bytes()) {
        Ok(list) => list.len() == count,
        Err(_) => false,
    }
}

const COUNTS: &[(&str, u64)] = &[
    ("<a href=\"b.html#x\">b</a><img src=/c.png>", 2),
    ("<!-- <a href=x> --><a href=y", 0),
];

#[test]
fn counts(rt: HostRuntime) {
    for (html, count) in COUNTS {
        assert!(rt; has_links(rt.alloc(), html, *count));
    }
}

fn leads_to(alloc: Global, from: &SitePath, value: &str, path: &str) -> bool {
    match target(alloc, from, value, "/base") {
        Ok(LinkTarget::Path(file)) => file.text() == path,
        _ => false,
    }
}

fn leads_from(alloc: Global, from: &str, value: &str, path: &str) -> bool {
    match SitePath::read(alloc, from) {
        Ok(from) => leads_to(alloc, &from, value, path),
        Err(_) => false,
    }
}

const TARGETS: &[(&str, &str)] = &[
    ("../c%20d.html?e#f", "c d.html"),
    ("/base/x&amp;y/", "x&y/index.html"),
];

#[test]
fn targets(rt: HostRuntime) {
    for (value, path) in TARGETS {
        assert!(rt; leads_from(rt.alloc(), "a/b.html", value, path));
    }
}

// An output of one file.
#[derive(Drop)]
struct OneFile {
    path: SitePath,
}

impl Paths for OneFile {
    ghost paths = { λ files path. pointwise nat_eq path files.path };

    fn has(&self, path: &SitePath) -> bool {
        *path == self.path
    }
}

// A round in which one page is offered; whether it was kept anew.
fn offer_alone(alloc: Global, table: &mut LinkTable, path: &SitePath, html: &str) -> Option<bool> {
    table.begin();
    let is_new = table.offer(alloc, path, html.as_bytes()).ok()?;
    table.finish();
    Some(is_new)
}

fn has_broken(alloc: Global, table: &LinkTable, files: &OneFile, count: u64) -> bool {
    match table.broken(alloc, files, "") {
        Ok(list) => list.len() == count,
        Err(_) => false,
    }
}

const PAGE: &str = "<a href=b><a href=#c><a href=/b/a/long/way><a href=a.html>";

// The page is kept anew once, and two of its links are broken.
fn is_kept_once(alloc: Global, files: &OneFile) -> Option<bool> {
    let mut table = LinkTable::new(alloc);
    let first = offer_alone(alloc, &mut table, &files.path, PAGE)?;
    let again = offer_alone(alloc, &mut table, &files.path, PAGE)?;
    Some(first && !again && has_broken(alloc, &table, files, 2))
}

// A page that is offered no more has no broken links.
fn is_forgotten(alloc: Global, files: &OneFile) -> Option<bool> {
    let mut table = LinkTable::new(alloc);
    let _ = offer_alone(alloc, &mut table, &files.path, PAGE)?;
    table.begin();
    table.finish();
    Some(has_broken(alloc, &table, files, 0))
}

fn keeps_and_forgets(alloc: Global) -> Option<bool> {
    let files = OneFile {
        path: SitePath::read(alloc, "a.html").ok()?,
    };
    Some(is_kept_once(alloc, &files)? && is_forgotten(alloc, &files)?)
}

#[test]
fn tables(rt: HostRuntime) {
    assert!(rt; keeps_and_forgets(rt.alloc()) == Some(true));
}
