// Which file is what.
ghost use Rattle.std.specs.Prelude.{◌≡◌, ◌<◌, IfOk, map, slice_index_or};
ghost use Rattle.std.specs.FinMap as finite;
ghost use Rattle.site_dates.specs.Offset.{IsOffset};
ghost use Rattle.site_items.specs.Defaults.{by_strength};
ghost use Rattle.site_reader.specs.Placements.{AreKnown, IsKnown};
ghost use Rattle.site_reader.specs.Placing.{kind_at, as_copy, as_item, builds_drafts, builds_future, copied_kind, has_matter, item_kind, placed, seen};
ghost use Rattle.source_tree.specs.Limits.{CanBeHeld};

use crate::placed_file::PlacedFile;
use front_yaml::Front;
use site_base::{Memory, Settings};
use site_config::Config;
use site_files::Place;
use site_items::{FileContent, Kind};
use source_tree::Held;
use std::alloc::Global;

/// The held files in the order of their paths, each with its place.
pub(crate) fn placed_files<'a>(
    alloc: Global,
    held: &'a Held,
    config: &Config,
    drafts: bool,
) -> Result<Vec<PlacedFile<'a>>, Memory>
    requires { IsOffset config.now.timezone }
    ensures files { IfOk result (λ files. map seen files.items ≡ map (placed config.now drafts) (finite.entries held.entry.now)) }
    ensures known { IfOk result (λ files. AreKnown config.now (by_strength config.now.defaults) files.items) }
    // What is held passes no limit.
    ensures within { CanBeHeld held.entry.now }
{
    let mut files = Vec::new(alloc);
    for number in 0..held.len() {
        files.push(placed_file(held, number, config, drafts))?;
    }
    Ok(files)
}

fn placed_file<'a>(held: &'a Held, number: u32, config: &Config, drafts: bool) -> PlacedFile<'a>
    requires offset { IsOffset config.now.timezone }
    requires number { number < finite.len held.now }
    ensures file { (seen result).1 ≡ slice_index_or (finite.entries held.entry.now) number (seen result).1 }
    ensures place { seen result ≡ placed config.now drafts (seen result).1 }
    ensures known { IsKnown config.now (by_strength config.now.defaults) result }
{
    let (path, bytes) = held.shared_at(number);
    let place = Place::of(config, drafts, path.text());
    PlacedFile {
        place,
        path,
        content: FileContent::of(bytes),
        kept: None,
    }
}

impl PlacedFile<'_> {
    /// The kind of item that the file is, if it is one.
    pub(crate) fn as_item(&self) -> Option<Kind>
        ensures { result ≡ as_item (seen self.now) }
    {
        kind_of(self.place, self.content.front())
    }

    /// The kind of the items beside which the file is copied, if it is.
    pub(crate) fn as_copy(&self) -> Option<Kind>
        ensures { result ≡ as_copy (seen self.now) }
    {
        if has_matter(self.content.front()) {
            None
        } else {
            copied_kind(self.place)
        }
    }
}

// Whether there is front matter, closed or not.
fn has_matter(front: Front) -> bool
    ensures { result ≡ has_matter front }
{
    match front {
        Front::Page { .. } | Front::Open => true,
        Front::Plain => false,
    }
}

/// The kind of item that a file is at a place, if it is one.
pub(crate) fn kind_of(place: Place, front: Front) -> Option<Kind>
    ensures { result ≡ kind_at place front }
{
    if has_matter(front) {
        item_kind(place)
    } else {
        None
    }
}

fn item_kind(place: Place) -> Option<Kind>
    ensures { result ≡ item_kind place }
{
    match place {
        Place::Post => Some(Kind::Post),
        Place::Draft => Some(Kind::Draft),
        Place::Collection(number) => Some(Kind::Document(number)),
        Place::Common => Some(Kind::Page),
        _ => None,
    }
}

fn copied_kind(place: Place) -> Option<Kind>
    ensures { result ≡ copied_kind place }
{
    match place {
        Place::Collection(number) => Some(Kind::Document(number)),
        Place::Common => Some(Kind::Page),
        _ => None,
    }
}

/// Whether drafts are built: where the settings or the configuration say so.
pub(crate) fn builds_drafts(config: &Config, settings: &Settings) -> bool
    ensures { result ≡ builds_drafts config.now settings.now }
{
    settings.drafts || config.show_drafts
}

/// Whether documents of a later moment are built.
pub(crate) fn builds_future(config: &Config, settings: &Settings) -> bool
    ensures { result ≡ builds_future config.now settings.now }
{
    settings.future || config.future
}
