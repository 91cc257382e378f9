// The outputs that win the paths of a site.
ghost use Rattle.std.specs.Prelude.{◌≡◌, IfOk, OnOk};
ghost use Rattle.site_base.specs.Places.{PathsRise};
ghost use Rattle.site_reader.specs.Winners.{is_document, is_of, winner_of, winners, with_copies, with_item, with_items, with_winner};

use crate::site_item::SiteItem;
use crate::winner::{Kind, Winner};
use site_base::{Memory, SitePath};
use site_config::Config;
use site_items::StaticFile;
use std::alloc::Global;
use std::collections::BTreeMap;

/// Each path that some output has, in byte order, with the output that wins it: the last, in the order pages, copied files,
/// documents, and of one kind the later. The only error is that memory runs out.
pub fn winners(
    alloc: Global,
    config: &Config,
    items: &[SiteItem],
    copies: &[StaticFile],
) -> Result<Vec<(SitePath, Winner)>, Memory>
    ensures winners { IfOk result (λ won. won.items ≡ winners config.now items.now copies.now) }
    ensures rise { IfOk result (λ won. PathsRise won.items) }
{
    let mut won = BTreeMap::new(alloc);
    put_items(alloc, &mut won, Kind::Pages, config, items)?;
    put_copies(alloc, &mut won, copies)?;
    put_items(alloc, &mut won, Kind::Documents, config, items)?;
    listed(alloc, won)
}

fn put_items(
    alloc: Global,
    won: &mut BTreeMap<SitePath, Winner>,
    kind: Kind,
    config: &Config,
    items: &[SiteItem],
) -> Result<(), Memory>
    ensures { OnOk result (won.new.entries ≡ with_items kind config.now won.old.entries 0 items.now) }
{
    let mut place = 0;
    for item in items {
        put_item(alloc, won, kind, config, place, item)?;
        place += 1;
    }
    Ok(())
}

fn put_item(
    alloc: Global,
    won: &mut BTreeMap<SitePath, Winner>,
    kind: Kind,
    config: &Config,
    place: u64,
    item: &SiteItem,
) -> Result<(), Memory>
    ensures { OnOk result (won.new.entries ≡ with_item kind config.now won.old.entries place item.now) }
{
    if !kind.has(config, item) {
        return Ok(());
    }
    put(alloc, won, &item.dest, kind.winner(place))
}

fn put_copies(
    alloc: Global,
    won: &mut BTreeMap<SitePath, Winner>,
    copies: &[StaticFile],
) -> Result<(), Memory>
    ensures { OnOk result (won.new.entries ≡ with_copies won.old.entries 0 copies.now) }
{
    let mut place = 0;
    for copy in copies {
        put(alloc, won, &copy.dest, Winner::Copy(place))?;
        place += 1;
    }
    Ok(())
}

fn put(
    alloc: Global,
    won: &mut BTreeMap<SitePath, Winner>,
    dest: &Option<SitePath>,
    winner: Winner,
) -> Result<(), Memory>
    ensures { OnOk result (won.new.entries ≡ with_winner won.old.entries dest.now winner) }
{
    let Some(path) = dest else {
        return Ok(());
    };
    match won.insert(path.copy(alloc)?, winner) {
        Ok(_) => Ok(()),
        Err(_) => Err(Memory),
    }
}

// The entries of a map, whose paths rise.
fn listed(alloc: Global, won: BTreeMap<SitePath, Winner>) -> Result<Vec<(SitePath, Winner)>, Memory>
    ensures entries { IfOk result (λ entries. entries.items ≡ won.entries) }
    ensures rise { IfOk result (λ entries. PathsRise entries.items) }
{
    let mut entries = Vec::with_capacity(alloc, won.len())?;
    for entry in won {
        entries.push(entry)?;
    }
    Ok(entries)
}

impl Kind {
    fn has(self, config: &Config, item: &SiteItem) -> bool
        ensures { result ≡ is_of self config.now item.now }
    {
        match self {
            Kind::Pages => !is_document(config, item),
            Kind::Documents => is_document(config, item),
        }
    }

    fn winner(self, place: u64) -> Winner
        ensures { result ≡ winner_of self place }
    {
        match self {
            Kind::Pages => Winner::Page(place),
            Kind::Documents => Winner::Document(place),
        }
    }
}

fn is_document(config: &Config, item: &SiteItem) -> bool
    ensures { result ≡ is_document config.now item.now }
{
    item.group < config.collections.as_slice().len() as u64
}
