// The items of a site.
ghost use Rattle.std.specs.Prelude.{◌≡◌, IfOk, MatchResult, Ok, OnOk, map};
ghost use Rattle.site_dates.specs.Moment.{IsMoment};
ghost use Rattle.site_dates.specs.Offset.{IsOffset};
ghost use Rattle.site_items.specs.Matter.{outcome_of};
ghost use Rattle.site_items.specs.Outcomes.{IsFault};
ghost use Rattle.site_items.specs.Seeking.{ruled_now};
ghost use Rattle.site_items.specs.Seeking as items;
ghost use Rattle.site_reader.specs.Found.{IsFirst};
ghost use Rattle.site_reader.specs.Placing.{seen};
ghost use Rattle.site_reader.specs.Ranks.{in_order, with_item};
ghost use Rattle.site_reader.specs.Sorters.{AreSorters};
ghost use Rattle.site_reader.specs.Ruled.{AreRuled, IsRuled, ruled_item, ruled_items, ruled_kind, ruled_ranks};

use crate::neighbours::site_items;
use crate::placed_file::PlacedFile;
use crate::rank::Rank;
use crate::site_error::{SiteError, error_at};
use crate::site_item::SiteItem;
use crate::sorter::{Sorter, sorters};
use site_base::{Memory, Sequence, SitePath};
use site_config::Config;
use site_items::{Item, ItemError, Kind, LineFault, Rules, Timeless};
use std::alloc::Global;
use std::collections::BTreeMap;

/// The items in the order in which they are rendered.
pub(crate) fn items(
    alloc: Global,
    rules: &Rules,
    files: &[PlacedFile],
) -> Result<Sequence<SiteItem>, SiteError>
    requires offset { IsOffset rules.now.config.now.timezone }
    requires known { AreRuled rules.now files.now }
    requires now { IsMoment rules.now.now }
    ensures { let found = ruled_items rules.entry.now (map seen files.entry.now) in
        MatchResult result (λ made. found ≡ Ok made) (IsFirst found) }
{
    match ranked_items(alloc, rules, files) {
        Ok(ranked) => Ok(site_items(alloc, rules.config, ranked)?),
        Err(error) => Err(error),
    }
}

// The items by their ranks. They are sorted once, when all are read: a map to which they are added in their order is half empty.
fn ranked_items(
    alloc: Global,
    rules: &Rules,
    files: &[PlacedFile],
) -> Result<BTreeMap<Rank, Item>, SiteError>
    requires offset { IsOffset rules.now.config.now.timezone }
    requires known { AreRuled rules.now files.now }
    requires now { IsMoment rules.now.now }
    ensures { let found = ruled_ranks rules.entry.now (map seen files.entry.now) in
        MatchResult result (λ made. found ≡ Ok made.entries) (IsFirst found) }
{
    match read_items(alloc, rules, files) {
        Ok(items) => Ok(sorted(alloc, items)?),
        Err(error) => Err(error),
    }
}

// The items in their order.
fn sorted(alloc: Global, items: Vec<(Rank, Item)>) -> Result<BTreeMap<Rank, Item>, Memory>
    ensures { IfOk result (λ made. made.entries ≡ in_order items.items) }
{
    Ok(items.into_iter().collect(alloc)?)
}

// The items in the order of their paths.
fn read_items(
    alloc: Global,
    rules: &Rules,
    files: &[PlacedFile],
) -> Result<Vec<(Rank, Item)>, SiteError>
    requires offset { IsOffset rules.now.config.now.timezone }
    requires known { AreRuled rules.now files.now }
    requires now { IsMoment rules.now.now }
    ensures { let found = ruled_ranks rules.entry.now (map seen files.entry.now) in
        MatchResult result (λ made. found ≡ Ok (in_order made.items)) (IsFirst found) }
{
    let sorters = sorters(alloc, rules.config)?;
    let mut items = Vec::with_capacity(alloc, files.len())?;
    for file in files {
        add_item(alloc, rules, &sorters, file, &mut items)?;
    }
    Ok(items)
}

fn add_item(
    alloc: Global,
    rules: &Rules,
    sorters: &[Sorter],
    file: &PlacedFile,
    items: &mut Vec<(Rank, Item)>,
) -> Result<(), SiteError>
    requires offset { IsOffset rules.now.config.now.timezone }
    requires known { IsRuled rules.now file.now }
    requires now { IsMoment rules.now.now }
    requires sorters { AreSorters rules.now.config.now sorters.now }
    ensures { let found = ruled_item rules.entry.now (seen file.entry.now) (in_order items.old.items) in
        MatchResult result (λ _. found ≡ Ok (in_order items.new.items)) (IsFirst found) }
{
    match file.as_item() {
        Some(kind) => add_kind(alloc, rules, sorters, kind, file, items),
        None => Ok(()),
    }
}

fn add_kind(
    alloc: Global,
    rules: &Rules,
    sorters: &[Sorter],
    kind: Kind,
    file: &PlacedFile,
    items: &mut Vec<(Rank, Item)>,
) -> Result<(), SiteError>
    requires offset { IsOffset rules.now.config.now.timezone }
    requires known { IsRuled rules.now file.now }
    requires now { IsMoment rules.now.now }
    requires sorters { AreSorters rules.now.config.now sorters.now }
    ensures { let found = ruled_kind rules.entry.now kind (seen file.entry.now).1 (in_order items.old.items) in
        MatchResult result (λ _. found ≡ Ok (in_order items.new.items)) (IsFirst found) }
{
    match read_item(alloc, rules, kind, file) {
        Ok(made) => Ok(put_item(alloc, rules.config, sorters, kind, file.path, made, items)?),
        Err(error) => Err(error_at(alloc, file.path, error)),
    }
}

// The item that a file is, which is made anew only where nothing is kept that tells it.
fn read_item(
    alloc: Global,
    rules: &Rules,
    kind: Kind,
    file: &PlacedFile,
) -> Result<Option<Item>, ItemError>
    requires offset { IsOffset rules.now.config.now.timezone }
    requires known { IsRuled rules.now file.now }
    requires now { IsMoment rules.now.now }
    ensures { let found = items.ruled_item rules.entry.now kind file.entry.now.path.now file.entry.now.content in
        MatchResult result (λ made. found ≡ Ok made) (IsFault found) }
{
    match file.known_as(kind) {
        Some(made) => item_at(alloc, rules, kind, file.path, made),
        None => Item::read(alloc, rules, kind, file.path, &file.content),
    }
}

// The item at the present moment, of what it is at every one.
fn item_at(
    alloc: Global,
    rules: &Rules,
    kind: Kind,
    path: &SitePath,
    made: &Result<Timeless, LineFault>,
) -> Result<Option<Item>, ItemError>
    requires offset { IsOffset rules.now.config.now.timezone }
    requires now { IsMoment rules.now.now }
    ensures { let found = ruled_now rules.entry.now kind path.now (outcome_of made.now) in
        MatchResult result (λ item. found ≡ Ok item) (IsFault found) }
{
    match made {
        Ok(made) => made.share(alloc)?.at(alloc, rules, kind, path),
        Err(fault) => Err(ItemError::Fault(*fault)),
    }
}

// Adds an item; one that is left out is none.
fn put_item(
    alloc: Global,
    config: &Config,
    sorters: &[Sorter],
    kind: Kind,
    path: &SitePath,
    made: Option<Item>,
    items: &mut Vec<(Rank, Item)>,
) -> Result<(), Memory>
    requires { AreSorters config.now sorters.now }
    ensures { OnOk result (in_order items.new.items ≡ with_item config.now kind path.now made (in_order items.old.items)) }
{
    match made {
        Some(item) => {
            let rank = Rank::of(alloc, config, sorters, kind, path, &item)?;
            Ok(items.push((rank, item))?)
        }
        None => Ok(()),
    }
}
