// Names and places of files: each call once where it is done, with the number of a collection, which nothing shows.
ghost use Rattle.site_dates.specs.Offset.{IsOffset};

use site_config::{Config, read_config};
use site_files::{Place, dated_name, extension, file_name, folder, stem};

const CONFIGURATION: &str = "collections:
  recipes:
    output: true
  drafts: {}
include: [_pages, .well-known, vendor/bundle/keep]
exclude: [tmp/, README.md]
";

// A path, its folder, and its name in two parts.
const PATHS: &[(&str, &str, &str, &str)] = &[("a/b/c.tar.gz", "a/b", "c.tar", ".gz")];

fn has_parts(path: &str, parent: &str, front: &str, end: &str) -> bool {
    let name = file_name(path);
    folder(path) == parent && stem(name) == front && extension(name) == end
}

fn have_parts(rows: &[(&str, &str, &str, &str)]) -> bool {
    rows.iter().all(|(path, parent, front, end)| has_parts(path, parent, front, end))
}

#[test]
fn names_have_parts(rt: HostRuntime) {
    assert!(rt; have_parts(PATHS));
}

// A name, and the moment of its date.
const DATED: &[(&str, Option<i64>)] = &[
    ("2020-02-29-leap-day", Some(1_582_934_400)),
    ("2021-02-29-no-day", None),
];

fn is_dated(name: &str, offset: i32, moment: Option<i64>) -> bool
    requires { IsOffset offset }
{
    match dated_name(name, offset) {
        Some(dated) => Some(dated.moment) == moment,
        None => moment.is_none(),
    }
}

fn are_dated(rows: &[(&str, Option<i64>)]) -> bool {
    rows.iter().all(|(name, moment)| is_dated(name, 0, *moment))
}

#[test]
fn names_begin_with_dates(rt: HostRuntime) {
    assert!(rt; are_dated(DATED));
}

const PLACES: &[(&str, Place)] = &[
    ("_config.yml", Place::Configuration),
    ("_layouts/post.html", Place::Layout),
    ("_includes/a/b.html", Place::Include),
    ("_data/a.csv", Place::Data),
    ("_posts/2020-01-01-a.md", Place::Post),
    ("_recipes/a/b.md", Place::Collection(1)),
    ("tmp/a.md", Place::Nowhere),
    ("a/index.html", Place::Common),
];

const PLACES_WITH_DRAFTS: &[(&str, Place)] = &[("_drafts/a.md", Place::Draft)];

fn have_places(config: &Config, drafts: bool, rows: &[(&str, Place)]) -> bool
    requires { IsOffset config.now.timezone }
{
    for (path, place) in rows {
        if Place::of(config, drafts, path) != *place {
            return false;
        }
    }
    true
}

#[test]
fn files_have_places(rt: HostRuntime) {
    match read_config(rt.alloc(), Some(CONFIGURATION)) {
        Ok(config) => {
            assert!(rt; have_places(&config, false, PLACES));
            assert!(rt; have_places(&config, true, PLACES_WITH_DRAFTS));
        }
        Err(_) => assert!(rt; false, "no configuration"),
    }
}
