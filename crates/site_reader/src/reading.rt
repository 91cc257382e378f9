// The reading of a site.
ghost use Rattle.std.specs.Prelude.{◌≡◌, ◌+◌, ◌*◌, ◌≤◌, IfOk, MatchResult, Ok, length, map};
ghost use Rattle.std.specs.FinMap as finite;
ghost use Rattle.site_dates.specs.Moment.{IsMoment};
ghost use Rattle.site_dates.specs.Offset.{IsOffset};
ghost use Rattle.site_reader.specs.Archived.{IsArchived};
ghost use Rattle.site_reader.specs.Found.{IsFirst};
ghost use Rattle.site_reader.specs.Lawful.{IsLawful, most_made};
ghost use Rattle.site_reader.specs.Paginating.{HasSize};
ghost use Rattle.site_items.specs.Defaults.{by_strength};
ghost use Rattle.site_reader.specs.Placements.{AreKnown};
ghost use Rattle.site_reader.specs.Placing.{seen};
ghost use Rattle.site_reader.specs.Sites.{IsConfig, clash_free, config, items, items_by, placed_site, site, site_with};
ghost use Rattle.source_tree.specs.Limits.{CanBeHeld, most_files};

use crate::configuration::config;
use crate::copies::copies;
use crate::data::data_tree;
use crate::generating::generated;
use crate::includes::includes;
use crate::items::items;
use crate::layouts::layouts;
use crate::outputs::first_clash;
use crate::paginating::paginated;
use crate::placed_file::PlacedFile;
use crate::placing::{builds_drafts, builds_future, placed_files};
use crate::site::{Site, SiteItems};
use crate::site_error::SiteError;
use site_base::{FaultKind, Settings, SiteFault, Value};
use site_config::{Config, Scope};
use site_items::{Rules, by_strength};
use source_tree::Held;
use std::alloc::Global;

/// The site that the held files make at a moment, with its items in the order in which they are rendered.
///
/// `Fault` comes exactly where the files have a fault of reading, and names the first: of the configuration; then of data
/// files, of layouts, of includes and of items, each in the order of their paths; of pages that are generated; and at last
/// two outputs of which one would be a folder of the other (`PathClash`).
#[tactic(auto, unfolding(crate::specs::Sites::site))]
pub fn read_site(
    alloc: Global,
    held: &Held,
    moment: i64,
    settings: &Settings,
) -> Result<Site, SiteError>
    requires { IsMoment moment }
    ensures read { let found = site held.now moment settings.now in
        MatchResult result (λ made. found ≡ Ok made) (IsFirst found) }
    ensures lawful { IfOk result (IsLawful held.now) }
    // Each post stands in the archives of its tags and categories that are asked for, and nothing else does.
    ensures archived { IfOk result IsArchived }
    ensures few { IfOk result (λ made. length made.items ≤ 2 * most_files + most_made) }
    ensures moment { IfOk result (λ made. made.moment ≡ moment) }
{
    match config(alloc, held) {
        Ok(config) => site_with(alloc, held, moment, settings, config),
        Err(error) => Err(error),
    }
}

// The site under a configuration.
fn site_with(
    alloc: Global,
    held: &Held,
    moment: i64,
    settings: &Settings,
    config: Config,
) -> Result<Site, SiteError>
    requires offset { IsOffset config.timezone }
    requires size { HasSize config }
    requires is { IsConfig held.now config }
    requires moment { IsMoment moment }
    ensures read { let found = site_with held.now moment settings.now config in
        MatchResult result (λ made. found ≡ Ok made) (IsFirst found) }
    // What is held passes no limit.
    ensures within { CanBeHeld held.now }
    ensures moment { IfOk result (λ made. made.moment ≡ moment) }
{
    let drafts = builds_drafts(&config, settings);
    let files = placed_files(alloc, held, &config, drafts)?;
    let future = builds_future(&config, settings);
    placed_site(alloc, &files, moment, future, config)
}

/// The site of files in their places.
pub(crate) fn placed_site(
    alloc: Global,
    files: &[PlacedFile],
    now: i64,
    future: bool,
    config: Config,
) -> Result<Site, SiteError>
    requires offset { IsOffset config.timezone }
    requires size { HasSize config }
    requires moment { IsMoment now }
    requires few { length files.now ≤ most_files }
    requires known { AreKnown config (by_strength config.defaults) files.now }
    ensures read { let found = placed_site config now future (map seen files.entry.now) in
        MatchResult result (λ made. found ≡ Ok made) (IsFirst found) }
    ensures moment { IfOk result (λ made. made.moment ≡ now) }
{
    let tree = data_tree(alloc, files)?;
    let layouts = layouts(alloc, files)?;
    let includes = includes(alloc, files)?;
    let items = ruled_items(alloc, files, now, future, &config)?;
    let items = paginated(alloc, &config, items)?;
    let statics = copies(alloc, &config, files)?;
    let items = generated(alloc, &config, statics.as_slice(), items)?;
    clash_free(
        alloc,
        Site {
            config,
            items,
            layouts,
            includes,
            data_tree: Value::Hash(tree),
            statics,
            moment: now,
        },
    )
}

fn ruled_items(
    alloc: Global,
    files: &[PlacedFile],
    now: i64,
    future: bool,
    config: &Config,
) -> Result<SiteItems, SiteError>
    requires offset { IsOffset config.now.timezone }
    requires moment { IsMoment now }
    requires known { AreKnown config.now (by_strength config.now.defaults) files.now }
    ensures { let found = items config.now now future (map seen files.entry.now) in
        MatchResult result (λ made. found ≡ Ok made) (IsFirst found) }
{
    let scopes = by_strength(alloc, config.defaults.as_slice())?;
    match scoped_items(alloc, files, now, future, config, &scopes) {
        Ok(items) => Ok(items),
        Err(error) => Err(error),
    }
}

fn scoped_items(
    alloc: Global,
    files: &[PlacedFile],
    now: i64,
    future: bool,
    config: &Config,
    scopes: &[&Scope],
) -> Result<SiteItems, SiteError>
    requires offset { IsOffset config.now.timezone }
    requires moment { IsMoment now }
    requires known { AreKnown config.now (map (λ s. s.now) scopes.now) files.now }
    ensures { let found = items_by (map (λ s. s.now) scopes.entry.now) config.now now future (map seen files.entry.now) in
        MatchResult result (λ made. found ≡ Ok made) (IsFirst found) }
{
    let rules = Rules {
        config,
        scopes,
        now,
        future,
    };
    match items(alloc, &rules, files) {
        Ok(items) => Ok(items),
        Err(error) => Err(error),
    }
}

// A site of which no output is a folder of another.
fn clash_free(alloc: Global, site: Site) -> Result<Site, SiteError>
    ensures free { let found = clash_free site in
        MatchResult result (λ made. found ≡ Ok made) (IsFirst found) }
    ensures same { IfOk result (λ made. made ≡ site) }
{
    match first_clash(
        alloc,
        &site.config,
        site.items.as_slice(),
        site.statics.as_slice(),
    )? {
        None => Ok(site),
        Some(path) => Err(SiteError::Fault(SiteFault {
            path,
            line: 0,
            kind: FaultKind::PathClash,
        })),
    }
}
