// Items, layouts, includes and copied files: each call once where it is done, with the codes of the values, which no template shows.
ghost use Rattle.site_dates.specs.Offset.{IsOffset};

use site_base::{FaultKind, Memory, SharedBytes, SitePath, YamlKind, same_code};
use site_config::{Config, read_config};
use site_items::{
    FileContent, IncludeFile, Item, ItemError, Kind, LayoutFile, Rules, StaticFile, by_strength,
    title, variable,
};
use std::alloc::Global;
use std::process::Abort;

// 2024-01-01T00:00:00Z
const NOW: i64 = 1_704_067_200;

fn shared(alloc: Global, file: &[u8]) -> Result<SharedBytes, Memory> {
    SharedBytes::from_vec(alloc, file.to_vec(alloc)?)
}

fn read(
    alloc: Global,
    config: &Config,
    kind: Kind,
    path: &str,
    file: &[u8],
) -> Result<Option<Item>, ItemError>
    requires { IsOffset config.now.timezone }
{
    let (Ok(path), Ok(file)) = (SitePath::read(alloc, path), shared(alloc, file)) else {
        return Err(ItemError::Memory);
    };
    let content = FileContent::of(&file);
    match by_strength(alloc, config.defaults.as_slice()) {
        Ok(scopes) => Item::read(
            alloc,
            &Rules {
                config,
                scopes: scopes.as_slice(),
                now: NOW,
                future: config.future,
            },
            kind,
            &path,
            &content,
        ),
        Err(error) => Err(ItemError::from(error)),
    }
}

// What a file is under a configuration; want of memory where that is none.
fn reading(
    alloc: Global,
    configuration: &str,
    kind: Kind,
    path: &str,
    file: &[u8],
) -> Result<Option<Item>, ItemError> {
    match read_config(alloc, Some(configuration)) {
        Ok(config) => read(alloc, &config, kind, path, file),
        Err(_) => Err(ItemError::Memory),
    }
}

fn dest_text(dest: &Option<SitePath>) -> &str {
    match dest {
        Some(dest) => dest.text(),
        None => "",
    }
}

fn is_at(item: &Item, url: &str, dest: &str) -> bool {
    item.url.as_str() == url && dest_text(&item.dest) == dest
}

fn has_address(
    alloc: Global,
    configuration: &str,
    kind: Kind,
    path: &str,
    file: &str,
    want: (&str, &str),
) -> bool {
    match reading(alloc, configuration, kind, path, file.as_bytes()) {
        Ok(Some(item)) => is_at(&item, want.0, want.1),
        _ => false,
    }
}

// A configuration, the kind of a file, its path and its text, and then its URL and the path of its output.
type AddressRow = (
    &'static str,
    Kind,
    &'static str,
    &'static str,
    (&'static str, &'static str),
);

fn check_addresses(rt: &impl Abort, alloc: Global, rows: &[AddressRow]) {
    for (configuration, kind, path, file, want) in rows {
        assert!(rt;
            has_address(alloc, configuration, *kind, path, file, *want),
            "at {path}"
        );
    }
}

const POST: &str = "cat/dog/_posts/2009-04-29-Slap-Chop.md";

const RECIPES: &str = "collections:\n  recipes:\n    output: true\n  notes:\n";

const ADDRESSES: &[AddressRow] = &[
    (
        "",
        Kind::Post,
        POST,
        "---\n---\n",
        (
            "/cat/dog/2009/04/29/Slap-Chop.html",
            "cat/dog/2009/04/29/Slap-Chop.html",
        ),
    ),
    (
        RECIPES,
        Kind::Document(2),
        "_notes/a.md",
        "---\n---\n",
        ("/notes/a.html", ""),
    ),
    (
        "",
        Kind::Page,
        "a/b/index.md",
        "---\n---\n",
        ("/a/b/", "a/b/index.html"),
    ),
];

#[test]
fn items_have_addresses(rt: HostRuntime) {
    check_addresses(&rt, rt.alloc(), ADDRESSES);
}

fn has_variable(item: &Item, name: &str, want: &str) -> bool {
    match variable(&item.vars, name) {
        Some(value) => same_code(value, want.as_bytes()),
        None => want == "absent",
    }
}

fn has_those(item: &Item, want: &[(&str, &str)]) -> bool {
    for (name, code) in want {
        if !has_variable(item, name, code) {
            return false;
        }
    }
    true
}

// Whether the variables have these codes.
fn has_variables(
    alloc: Global,
    configuration: &str,
    kind: Kind,
    path: &str,
    file: &str,
    want: &[(&str, &str)],
) -> bool {
    match reading(alloc, configuration, kind, path, file.as_bytes()) {
        Ok(Some(item)) => has_those(&item, want),
        _ => false,
    }
}

const OF_POST: &[(&str, &str)] = &[
    ("path", "s35:a/B/_posts/2023-05-02-second-2ND.md"),
    ("relative_path", "s35:a/B/_posts/2023-05-02-second-2ND.md"),
    ("url", "s35:/a/b/c/d/2023/05/02/second-2ND.html"),
    ("ext", "s3:.md"),
    ("collection", "s5:posts"),
    ("draft", "absent"),
    ("date", "s25:2023-05-02 00:00:00 +0200"),
    ("slug", "s10:second-2ND"),
    ("title", "s10:Second 2nd"),
    ("categories", "l4:s1:as1:Bs1:cs1:d"),
    ("tags", "l3:s5:x y zs1:1s1:x"),
    ("id", "s30:/a/b/c/d/2023/05/02/second-2ND"),
    ("name", "absent"),
    ("weight", "i7;"),
];

#[test]
fn posts_have_variables(rt: HostRuntime) {
    let path = "a/B/_posts/2023-05-02-second-2ND.md";
    let file =
        "---\ncategory: a\ncategories: c d  c\ntag: x y z\ntags: [1, x, ~, x]\nweight: 7\ntitle: ~\n---\nHi";
    assert!(rt;
        has_variables(
            rt.alloc(),
            "timezone: +02:00\n",
            Kind::Post,
            path,
            file,
            OF_POST
        )
    );
}

fn has_fault(alloc: Global, file: &[u8], line: u64, kind: FaultKind) -> bool {
    let path = "a/_posts/2020-01-01-x.md";
    match reading(alloc, "", Kind::Post, path, file) {
        Err(ItemError::Fault(fault)) => fault.line == line && fault.kind == kind,
        _ => false,
    }
}

const FAULTS: &[(&[u8], u64, FaultKind)] = &[
    (b"---\na: 1\n---\n\xff", 0, FaultKind::NotUtf8),
    (
        b"---\na: 1\n  b: 2\n---\n",
        3,
        FaultKind::Yaml(YamlKind::NoKey),
    ),
];

#[test]
fn files_have_faults(rt: HostRuntime) {
    for (file, line, kind) in FAULTS {
        assert!(rt; has_fault(rt.alloc(), file, *line, *kind));
    }
}

fn is_left_out(alloc: Global, file: &str) -> Option<bool> {
    match reading(alloc, "", Kind::Draft, "_drafts/d.md", file.as_bytes()) {
        Ok(item) => Some(item.is_none()),
        Err(_) => None,
    }
}

const LEFT_OUT: &[(&str, bool)] = &[
    ("---\n---\n", false),
    ("---\npublished: false\ndate: x\npermalink: 5\n---\n", true),
];

#[test]
fn documents_are_left_out(rt: HostRuntime) {
    for (file, want) in LEFT_OUT {
        assert!(rt; is_left_out(rt.alloc(), file) == Some(*want), "at {file}");
    }
}

fn has_title(alloc: Global, name: &str, want: &str) -> bool {
    match title(alloc, name) {
        Ok(made) => made.as_str() == want,
        Err(_) => false,
    }
}

const TITLES: &[(&str, &str)] = &[("first-note", "First Note"), ("", "")];

#[test]
fn names_make_titles(rt: HostRuntime) {
    for (name, want) in TITLES {
        assert!(rt; has_title(rt.alloc(), name, want), "at {name}");
    }
}

fn has_place(alloc: Global, kind: Kind, path: &str, url: &str, dest: &str) -> bool {
    let (Ok(config), Ok(path)) = (
        read_config(alloc, Some(RECIPES)),
        SitePath::read(alloc, path),
    ) else {
        return false;
    };
    match StaticFile::at(alloc, &config, kind, &path) {
        Ok(file) => file.url.as_str() == url && dest_text(&file.dest) == dest,
        Err(_) => false,
    }
}

const PLACES: &[(Kind, &str, &str, &str)] = &[
    (Kind::Page, "a/b.png", "/a/b.png", "a/b.png"),
    (Kind::Document(2), "_notes/b.png", "/notes/b.png", ""),
];

#[test]
fn other_files_have_places(rt: HostRuntime) {
    for (kind, path, url, dest) in PLACES {
        assert!(rt; has_place(rt.alloc(), *kind, path, url, dest), "at {path}");
    }
}

fn is_layout(alloc: Global, path: &str, file: &str, name: &str, body: &str) -> bool {
    let (Ok(path), Ok(file)) = (SitePath::read(alloc, path), shared(alloc, file.as_bytes())) else {
        return false;
    };
    let content = FileContent::of(&file);
    match LayoutFile::read(alloc, &path, &content) {
        Ok(layout) => layout.name.as_str() == name && layout.body.as_str() == body,
        Err(_) => false,
    }
}

const LAYOUTS: &[(&str, &str, &str, &str)] = &[(
    "_layouts/a/post.old.html",
    "---\nlayout: default\n---\n\n<h1>\n",
    "a/post.old",
    "<h1>\n",
)];

// Whether an include has this body, or none.
fn is_include(alloc: Global, file: &[u8], want: Option<&str>) -> bool {
    let Ok(file) = shared(alloc, file) else {
        return false;
    };
    match IncludeFile::read(alloc, "_includes/a/n.html", &file) {
        Ok(include) => {
            include.name.as_str() == "a/n.html" && Some(include.body.as_str()) == want
        }
        Err(_) => want.is_none(),
    }
}

const INCLUDES: &[(&[u8], Option<&str>)] = &[
    (b"---\n---\nx", Some("---\n---\nx")),
    (b"\xff", None),
];

#[test]
fn layouts_and_includes_have_names(rt: HostRuntime) {
    for (path, file, name, body) in LAYOUTS {
        assert!(rt; is_layout(rt.alloc(), path, file, name, body), "at {path}");
    }
    for (file, want) in INCLUDES {
        assert!(rt; is_include(rt.alloc(), file, *want));
    }
}
