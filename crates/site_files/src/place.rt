// What a file is, as far as its path tells.
ghost use Rattle.std.specs.Prelude.{◌≡◌, ◌+◌, ◌==◌, count_by, drop, length, position, true};
ghost use Rattle.site_base.specs.Clash.{is_below};
ghost use Rattle.site_base.specs.Path.{segments};
ghost use Rattle.site_dates.specs.Offset.{IsOffset};
ghost use Rattle.site_files.specs.Choosing.{is_hidden};
ghost use Rattle.site_files.specs.Places.{common_place, has_hidden_segment, is_folder_of, lies_in, lies_in_posts, named_place, place_in, place_of, post_place};

use crate::choosing::{has_segment, is_below, is_brought_in, is_hidden, is_taken_out};
use crate::names::{file_name, folder};
use crate::post_name::is_post_name;
use site_config::{Collection, Config};

/// What a file of a site is, as far as its path tells. Whether a file has front matter then decides about the rest.
#[derive(Clone, Copy, Debug, PartialEq, Eq)]
pub enum Place {
    /// The configuration, `_config.yml`.
    Configuration,
    /// Below `_layouts`.
    Layout,
    /// Below `_includes`.
    Include,
    /// Below `_data`.
    Data,
    /// Below a folder `_posts`, with the name of a post: a post where it has front matter, and else nothing.
    Post,
    /// Below `_drafts`, where drafts are built: a post where it has front matter, and else nothing.
    Draft,
    /// Below the folder of the collection with this place in the configuration, from 0: a document where it has front
    /// matter, and else a file that is copied.
    Collection(u64),
    /// In sight: a page where it has front matter, and else a file that is copied.
    Common,
    /// Hidden, or left out.
    Nowhere,
}

impl Place {
    /// The place of a file, by the first rule that fits: the configuration itself; a path that `exclude` takes out and
    /// `include` does not bring in is nowhere; layouts, includes and data; posts; drafts, where they are built; the
    /// collections in their order; a path with a hidden segment is nowhere unless `include` brings it in; all others are in
    /// sight. It takes no memory.
    pub fn of(config: &Config, drafts: bool, path: &str) -> Place
        requires { IsOffset config.now.timezone }
        ensures { result ≡ place_of config.now drafts path.now }
    {
        let brought = is_brought_in(&config.include, path.as_bytes());
        if path == "_config.yml" {
            return Place::Configuration;
        }
        if !brought && is_taken_out(&config.exclude, path.as_bytes()) {
            return Place::Nowhere;
        }
        named_place(config, drafts, brought, path)
    }
}

// The place among the folders with a meaning of their own.
fn named_place(config: &Config, drafts: bool, brought: bool, path: &str) -> Place
    requires { IsOffset config.now.timezone }
    ensures { result ≡ named_place config.now drafts brought path.now }
{
    let bytes = path.as_bytes();
    if lies_in(b"_layouts", brought, bytes) {
        return Place::Layout;
    }
    if lies_in(b"_includes", brought, bytes) {
        return Place::Include;
    }
    if lies_in(b"_data", brought, bytes) {
        return Place::Data;
    }
    if lies_in_posts(brought, path) {
        return post_place(config.timezone, path);
    }
    if drafts && lies_in(b"_drafts", brought, bytes) {
        return Place::Draft;
    }
    collection_place(config, brought, bytes)
}

// Below this folder of the root, with no further hidden segment unless the path is brought in.
#[tactic(auto, unfolding(crate::specs::Places::lies_in))]
fn lies_in(root: &[u8], brought: bool, path: &[u8]) -> bool
    ensures { result ≡ lies_in root.now brought path.now }
{
    is_below(path, root) && (brought || !has_hidden_behind(root, path))
}

fn has_hidden_behind(root: &[u8], path: &[u8]) -> bool
    requires { is_below path.now root.now ≡ true }
    ensures { result ≡ has_hidden_segment (drop (length root.now + 1) path.now) }
{
    has_hidden_segment(&path[root.len() + 1..])
}

fn has_hidden_segment(path: &[u8]) -> bool
    ensures { result ≡ has_hidden_segment path.now }
{
    path.split(|byte| *byte == b'/').any(is_hidden)
}

// Below a folder `_posts`, with no other hidden segment unless the path is brought in.
#[tactic(auto, unfolding(crate::specs::Places::lies_in_posts))]
fn lies_in_posts(brought: bool, path: &str) -> bool
    ensures { result ≡ lies_in_posts brought path.now }
{
    has_segment(folder(path).as_bytes(), b"_posts") && (brought || has_one_hidden(path.as_bytes()))
}

fn has_one_hidden(path: &[u8]) -> bool
    ensures { result ≡ (count_by is_hidden (segments path.now) == 1) }
{
    path.split(|byte| *byte == b'/')
        .filter(|segment| is_hidden(segment))
        .count()
        == 1
}

#[tactic(auto, unfolding(crate::specs::Places::post_place))]
fn post_place(offset: i32, path: &str) -> Place
    requires { IsOffset offset }
    ensures { result ≡ post_place offset path.now }
{
    if is_post_name(file_name(path), offset) {
        Place::Post
    } else {
        Place::Nowhere
    }
}

// In the folder of a collection, or in none.
fn collection_place(config: &Config, brought: bool, path: &[u8]) -> Place
    ensures { result ≡ place_in (position (is_folder_of brought path.now) config.now.collections) (common_place brought path.now) }
{
    let found = config
        .collections
        .as_slice()
        .iter()
        .position(|collection| is_folder_of(brought, path, collection));
    match found {
        Some(number) => Place::Collection(number as u64),
        None => common_place(brought, path),
    }
}

// Below the folder whose name is `_` and the collection's.
#[tactic(auto, unfolding(crate::specs::Places::is_folder_of))]
fn is_folder_of(brought: bool, path: &[u8], collection: &Collection) -> bool
    ensures { result ≡ is_folder_of brought path.now collection.now }
{
    match path {
        [first, rest @ ..] => {
            *first == b'_' && lies_in(collection.name.as_str().as_bytes(), brought, rest)
        }
        [] => false,
    }
}

#[tactic(auto, unfolding(crate::specs::Places::common_place))]
fn common_place(brought: bool, path: &[u8]) -> Place
    ensures { result ≡ common_place brought path.now }
{
    if brought || !has_hidden_segment(path) {
        Place::Common
    } else {
        Place::Nowhere
    }
}
