use permalinks::{Placeholder, UrlError, UrlParts, dest, slugify, url};
use site_base::Text;

fn text(rt: &HostRuntime, text: &str) -> Option<Text> {
    Text::copy(rt.alloc(), text).ok()
}

// The post `_posts/2009-04-29-slap-chop.md`, without a category.
fn slap_chop(rt: &HostRuntime) -> UrlParts {
    UrlParts {
        year: text(rt, "2009"),
        month: text(rt, "04"),
        day: text(rt, "29"),
        i_month: text(rt, "4"),
        i_day: text(rt, "29"),
        short_year: text(rt, "09"),
        y_day: text(rt, "119"),
        hour: text(rt, "00"),
        minute: text(rt, "00"),
        second: text(rt, "00"),
        title: text(rt, "slap-chop"),
        slug: text(rt, "slap-chop"),
        categories: text(rt, ""),
        name: None,
        basename: None,
        path: None,
        collection: text(rt, "posts"),
        output_ext: text(rt, ".html"),
    }
}

// Whether a template makes this URL of the post.
fn makes(rt: &HostRuntime, post: &UrlParts, template: &str, want: &str) -> bool {
    match url(rt.alloc(), template, post) {
        Ok(made) => made.as_str() == want,
        Err(_) => false,
    }
}

const URLS: &[(&str, &str)] = &[
    (
        "/:categories/:year/:month/:day/:title:output_ext",
        "/2009/04/29/slap-chop.html",
    ),
    ("", "/"),
];

#[test]
fn makes_urls(rt: HostRuntime) {
    let post = slap_chop(&rt);
    for (template, want) in URLS {
        assert!(rt; makes(&rt, &post, template, want), "at {template}");
    }
}

fn is_refused(rt: &HostRuntime, post: &UrlParts, template: &str) -> bool {
    matches!(url(rt.alloc(), template, post), Err(UrlError::Placeholder))
}

const REFUSED: &[&str] = &["/:nope/", "/:basename"];

#[test]
fn refuses_placeholders(rt: HostRuntime) {
    let post = slap_chop(&rt);
    for template in REFUSED {
        assert!(rt; is_refused(&rt, &post, template), "at {template}");
    }
}

fn stands_at(rt: &HostRuntime, address: &str, output_ext: &str, want: &str) -> bool {
    match dest(rt.alloc(), address, output_ext) {
        Ok(path) => path.text() == want,
        Err(_) => false,
    }
}

const PATHS: &[(&str, &str, &str)] = &[("/a/", ".html", "a/index.html"), ("/robots", "", "robots")];

#[test]
fn finds_paths(rt: HostRuntime) {
    for (address, output_ext, want) in PATHS {
        assert!(rt; stands_at(&rt, address, output_ext, want), "at {address}");
    }
}

fn has_no_path(rt: &HostRuntime, address: &str) -> bool {
    matches!(dest(rt.alloc(), address, ""), Err(UrlError::BadPath))
}

// The first three are no URL that a template makes.
const PATHLESS: &[&str] = &["", "//a", "/a//b", "/../a"];

#[test]
fn refuses_paths(rt: HostRuntime) {
    for address in PATHLESS {
        assert!(rt; has_no_path(&rt, address), "at {address}");
    }
}

fn is_slug(rt: &HostRuntime, text: &str, want: &str) -> bool {
    match slugify(rt.alloc(), text) {
        Ok(made) => made.as_str() == want,
        Err(_) => false,
    }
}

const SLUGS: &[(&str, &str)] = &[("A b!", "a-b")];

#[test]
fn makes_slugs(rt: HostRuntime) {
    for (text, want) in SLUGS {
        assert!(rt; is_slug(&rt, text, want), "at {text}");
    }
}
