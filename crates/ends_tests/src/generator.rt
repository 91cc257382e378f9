// The site that is made up for measuring. The numbers in titles were computed by Python.
ghost use Rattle.std.specs.Prelude.{◌≤◌};

use site_base::SitePath;
use site_generator::{edited_path, edited_post, make_site};
use source_tree::Held;
use std::alloc::Global;

const LAYOUT: (&str, &str) = ("_layouts/base.html", "<b>{{ content }}</b>\n");

const PAGE: (&str, &str) = (
    "index.html",
    "---\n---\n{% for p in site.posts %}{{ p.title }} {% endfor %}\n",
);

const FIRST_POST: (&str, &str) = (
    "_posts/2020-01-01-p0.md",
    "---\nlayout: base\ntitle: T1\n---\n*n* {{ page.title }}\n",
);

const OF_THREE: &[(&str, &str)] = &[
    LAYOUT,
    PAGE,
    FIRST_POST,
    (
        "_posts/2020-01-01-p1.md",
        "---\nlayout: base\ntitle: T1103527590\n---\n*n* {{ page.title }}\n",
    ),
    (
        "_posts/2020-01-01-p2.md",
        "---\nlayout: base\ntitle: T377401575\n---\n*n* {{ page.title }}\n",
    ),
];

const OF_ONE: &[(&str, &str)] = &[LAYOUT, PAGE, FIRST_POST];

fn has(alloc: Global, held: &Held, path: &str, text: &str) -> bool {
    match SitePath::read(alloc, path) {
        Ok(path) => match held.get(&path) {
            Some(bytes) => bytes == text.as_bytes(),
            None => false,
        },
        Err(_) => false,
    }
}

fn has_all(alloc: Global, held: &Held, files: &[(&str, &str)]) -> bool {
    for (path, text) in files {
        if !has(alloc, held, path, text) {
            return false;
        }
    }
    true
}

fn makes(alloc: Global, number: u64, count: u32, files: &[(&str, &str)]) -> bool
    requires low { 1 ≤ count }
    requires high { count ≤ 1000 }
{
    match make_site(alloc, number, count) {
        Ok(held) => held.len() as usize == files.len() && has_all(alloc, &held, files),
        Err(_) => false,
    }
}

#[test]
fn makes_three_posts(rt: HostRuntime) {
    assert!(rt; makes(rt.alloc(), 1, 3, OF_THREE));
}

#[test]
fn makes_one_post(rt: HostRuntime) {
    assert!(rt; makes(rt.alloc(), 1, 1, OF_ONE));
}

// Whether the largest site has its files, and the last of them its title.
fn makes_the_largest(alloc: Global) -> bool {
    match make_site(alloc, u64::MAX, 1000) {
        Ok(held) => {
            held.len() == 1002
                && has(
                    alloc,
                    &held,
                    "_posts/2020-01-01-p999.md",
                    "---\nlayout: base\ntitle: T1901771414\n---\n*n* {{ page.title }}\n",
                )
        }
        Err(_) => false,
    }
}

#[test]
fn makes_the_largest_site(rt: HostRuntime) {
    assert!(rt; makes_the_largest(rt.alloc()));
}

fn edits(alloc: Global, number: u64, count: u32, path: &str) -> bool
    requires { 1 ≤ count }
{
    match edited_path(alloc, number, count) {
        Ok(edited) => edited.text() == path,
        Err(_) => false,
    }
}

#[test]
fn edits_the_post_that_the_number_names(rt: HostRuntime) {
    assert!(rt; edits(rt.alloc(), 7, 3, "_posts/2020-01-01-p1.md"));
    assert!(rt; edits(rt.alloc(), u64::MAX, 1000, "_posts/2020-01-01-p615.md"));
}

fn edits_to(alloc: Global, text: &str) -> bool {
    match edited_post(alloc) {
        Ok(bytes) => bytes.as_slice() == text.as_bytes(),
        Err(_) => false,
    }
}

#[test]
fn edits_the_title(rt: HostRuntime) {
    assert!(rt;
        edits_to(
            rt.alloc(),
            "---\nlayout: base\ntitle: U\n---\n*n* {{ page.title }}\n"
        )
    );
}
