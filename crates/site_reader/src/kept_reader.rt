// Reading that keeps what it found.
ghost use Rattle.std.specs.Prelude.{◌≡◌, ◌+◌, ◌*◌, ◌≤◌, IfOk, OnErr, MatchResult, Ok, length};
ghost use Rattle.std.specs.FinMap as finite;
ghost use Rattle.site_dates.specs.Moment.{IsMoment};
ghost use Rattle.site_dates.specs.Offset.{IsOffset};
ghost use Rattle.site_reader.specs.Configured.{config_in};
ghost use Rattle.site_reader.specs.Archived.{IsArchived};
ghost use Rattle.site_reader.specs.Found.{IsFirst};
ghost use Rattle.site_reader.specs.Kept.{parsed, parsed_under};
ghost use Rattle.site_reader.specs.Lawful.{IsLawful, most_made};
ghost use Rattle.site_reader.specs.Paginating.{HasSize};
ghost use Rattle.site_reader.specs.Placements.{AreUnder, IsSound, Tells, bytes_in};
ghost use Rattle.site_reader.specs.Placing.{builds_drafts};
ghost use Rattle.site_reader.specs.Sites.{IsConfig, site, site_with};
ghost use Rattle.source_tree.specs.Limits.{CanBeHeld, most_files};

use crate::configuration::{config, told_of};
use crate::file_rules::FileRules;
use crate::kept_files::KeptFiles;
use crate::placing::{builds_drafts, builds_future};
use crate::reading::placed_site;
use crate::renewal::{Renewed, renewed_files};
use crate::site::Site;
use crate::site_error::SiteError;
use crate::told::Told;
use site_base::{Memory, Settings};
use site_config::Config;
use site_items::{FrontParser, Rules, by_strength};
use source_tree::Held;
use std::alloc::Global;
use std::marker::Model;

/// A reader of sites that keeps the files which it read last, with what it found in their bytes. Where a file has the same
/// bytes the next time, its front matter is not read again.
#[derive(Drop)]
pub struct KeptReader {
    files: KeptFiles,
    read_anew: u32,
}

impl Model for KeptReader {
    ghost use Rattle.site_reader.specs.Kept.{Kept, kept_coded};
    ghost use Rattle.site_reader.specs.Placements.{IsSound, bytes_in};

    ghost Value = { Kept };

    ghost coded = { kept_coded };

    ghost view = { λ reader. record { kept = bytes_in reader.files.files; parsed = reader.read_anew } };

    ghost invariant = { λ reader. IsSound reader.files };
}

impl KeptReader {
    /// A reader that keeps nothing; it takes no memory.
    pub fn new(alloc: Global) -> KeptReader
        ensures { result ≡ record { kept = finite.empty; parsed = 0 } }
    {
        KeptReader {
            files: KeptFiles::new(alloc),
            read_anew: 0,
        }
    }

    /// How many layouts and items the last reading that answered a site had to read anew: those with front matter that is
    /// closed, whose bytes were other than those kept before it. It takes no memory.
    pub fn parsed(&self) -> u32
        ensures { result ≡ self.now.parsed }
    {
        self.read_anew
    }

    /// The site that the held files make at a moment, as `read_site` answers it. Front matter that is read anew is read by
    /// the parser.
    ///
    /// `Fault` comes exactly where `read_site` answers it. Whatever the answer is, each file is kept with what its own bytes
    /// make.
    #[tactic(auto, unfolding(crate::specs::Sites::site))]
    pub fn read<P: FrontParser>(
        &mut self,
        alloc: Global,
        held: &Held,
        moment: i64,
        settings: &Settings,
        parser: &mut P,
    ) -> Result<Site, SiteError>
        requires { IsMoment moment }
        ensures read { let found = site held.now moment settings.now in
            MatchResult result (λ made. found ≡ Ok made) (IsFirst found) }
        ensures lawful { IfOk result (IsLawful held.now) }
        ensures archived { IfOk result IsArchived }
        ensures few { IfOk result (λ made. length made.items ≤ 2 * most_files + most_made) }
        ensures moment { IfOk result (λ made. made.moment ≡ moment) }
        ensures kept { IfOk result (λ _. self.new.kept ≡ held.now) }
        ensures parsed { IfOk result (λ _. parsed settings.now self.old.kept held.now ≡ Ok self.new.parsed) }
        ensures err { OnErr result (self.new.parsed ≡ self.old.parsed) }
    {
        match config(alloc, held) {
            Ok(config) => self.read_under(alloc, held, moment, settings, config, parser),
            Err(error) => Err(error),
        }
    }

    // The site under a configuration.
    fn read_under<P: FrontParser>(
        &mut self,
        alloc: Global,
        held: &Held,
        moment: i64,
        settings: &Settings,
        config: Config,
        parser: &mut P,
    ) -> Result<Site, SiteError>
        requires offset { IsOffset config.timezone }
        requires size { HasSize config }
        requires is { IsConfig held.now config }
        requires moment { IsMoment moment }
        ensures read { let found = site_with held.now moment settings.now config in
            MatchResult result (λ made. found ≡ Ok made) (IsFirst found) }
        ensures within { IfOk result (λ _. CanBeHeld held.now) }
        ensures moment { IfOk result (λ made. made.moment ≡ moment) }
        ensures kept { IfOk result (λ _. self.new.kept ≡ held.now) }
        ensures parsed { IfOk result (λ _. parsed_under config (builds_drafts config settings.now) self.old.kept held.now ≡ self.new.parsed) }
        ensures err { OnErr result (self.new.parsed ≡ self.old.parsed) }
    {
        let told = told_of(alloc, held, &config, builds_drafts(&config, settings))?;
        let future = builds_future(&config, settings);
        let renewed = renewed_under(
            alloc,
            &self.files,
            held,
            &told,
            moment,
            future,
            &config,
            parser,
        )?;
        self.files = renewed.kept;
        match kept_site(alloc, &self.files, moment, settings, config) {
            Ok(site) => {
                self.read_anew = renewed.parsed;
                Ok(site)
            }
            Err(error) => Err(error),
        }
    }
}

// The held files as they are kept then, under a configuration.
fn renewed_under<P: FrontParser>(
    alloc: Global,
    old: &KeptFiles,
    held: &Held,
    told: &Told,
    now: i64,
    future: bool,
    config: &Config,
    parser: &mut P,
) -> Result<Renewed, Memory>
    requires offset { IsOffset config.now.timezone }
    requires told { Tells told.now config.now }
    requires sound { IsSound old.now }
    ensures files { IfOk result (λ made. bytes_in made.kept.files ≡ held.now) }
    ensures under { IfOk result (λ made. AreUnder told.entry.now made.kept) }
    ensures sound { IfOk result (λ made. IsSound made.kept) }
    ensures parsed { IfOk result (λ made. made.parsed ≡ parsed_under config.now told.entry.now.drafts (bytes_in old.now.files) held.now) }
    ensures within { IfOk result (λ _. CanBeHeld held.now) }
{
    let scopes = by_strength(alloc, config.defaults.as_slice())?;
    let rules = FileRules {
        rules: Rules {
            config,
            scopes: scopes.as_slice(),
            now,
            future,
        },
        told: *told,
    };
    renewed_files(alloc, old, held, &rules, parser)
}

// The site of files that are kept.
fn kept_site(
    alloc: Global,
    kept: &KeptFiles,
    moment: i64,
    settings: &Settings,
    config: Config,
) -> Result<Site, SiteError>
    requires offset { IsOffset config.timezone }
    requires size { HasSize config }
    requires told { config_in kept.now.told ≡ Ok config }
    requires drafts { kept.now.drafts ≡ builds_drafts config settings.now }
    requires sound { IsSound kept.now }
    requires moment { IsMoment moment }
    requires few { finite.len (bytes_in kept.now.files) ≤ most_files }
    ensures read { let found = site_with (bytes_in kept.now.files) moment settings.now config in
        MatchResult result (λ made. found ≡ Ok made) (IsFirst found) }
    ensures moment { IfOk result (λ made. made.moment ≡ moment) }
{
    let files = kept.placed(alloc)?;
    let future = builds_future(&config, settings);
    placed_site(alloc, &files, moment, future, config)
}
