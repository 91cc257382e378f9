// The order in which items are rendered.
ghost use Rattle.std.specs.Prelude.{◌≡◌, ◌<◌, ◌^◌, IfOk, length};
ghost use Rattle.site_reader.specs.Ranks.{group_of, group_place, rank};
ghost use Rattle.site_reader.specs.Sorters.{AreSorters};

use crate::name::Name;
use crate::sort_key::SortKey;
use crate::sorter::{Sorter, sort_key};
use site_base::{Memory, SitePath};
use site_config::Config;
use site_files::file_name;
use site_items::{Item, Kind};
use std::alloc::Global;

/// Where an item stands in the order. What comes first decides.
#[derive(PartialEq, Eq, PartialOrd, Ord, Drop)]
pub(crate) struct Rank {
    /// The place of its collection; behind all of them, that of pages.
    pub(crate) group: u64,
    pub(crate) key: SortKey,
    pub(crate) place: GroupPlace,
    pub(crate) path: SitePath,
}

/// Where an item stands in its group among those of its key, before its path decides.
#[derive(PartialEq, Eq, PartialOrd, Ord, Drop)]
pub(crate) enum GroupPlace {
    /// A document, by the moment of its date.
    Dated(i64),
    /// A document without a date, behind the others.
    Undated,
    /// A page, by its file name.
    Page(Name),
}

impl Rank {
    /// The rank of an item of a kind at a path.
    pub(crate) fn of(
        alloc: Global,
        config: &Config,
        sorters: &[Sorter],
        kind: Kind,
        path: &SitePath,
        item: &Item,
    ) -> Result<Rank, Memory>
        requires { AreSorters config.now sorters.now }
        ensures { IfOk result (λ made. made ≡ rank config.now kind path.now item.now) }
    {
        Ok(Rank {
            group: group_of(config, kind),
            key: sort_key(alloc, config, sorters, kind, path.text(), &item.vars)?,
            place: GroupPlace::of(alloc, kind, path, item.moment)?,
            path: path.copy(alloc)?,
        })
    }
}

impl GroupPlace {
    fn of(
        alloc: Global,
        kind: Kind,
        path: &SitePath,
        moment: Option<i64>,
    ) -> Result<GroupPlace, Memory>
        ensures { IfOk result (λ made. made ≡ group_place kind path.now moment) }
    {
        match (kind, moment) {
            (Kind::Page, _) => Ok(GroupPlace::Page(Name::copy(alloc, file_name(path.text()))?)),
            (_, Some(moment)) => Ok(GroupPlace::Dated(moment)),
            (_, None) => Ok(GroupPlace::Undated),
        }
    }
}

/// How many groups of documents there are.
pub(crate) fn document_groups(config: &Config) -> u64
    ensures count { result ≡ length config.now.collections }
    ensures few { result < 2 ^ 63 }
{
    config.collections.as_slice().len() as u64
}

fn group_of(config: &Config, kind: Kind) -> u64
    ensures { result ≡ group_of config.now kind }
{
    match kind {
        Kind::Page => document_groups(config),
        Kind::Post | Kind::Draft => 0,
        Kind::Document(number) => number,
    }
}
