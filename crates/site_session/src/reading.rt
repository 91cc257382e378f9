// How a session reads its site.
ghost use Rattle.std.specs.Prelude.{◌≡◌, ◌≤ℤ◌, ◌+◌, ◌*◌, ◌≤◌, IfOk, MatchResult, Ok, length, pos};
ghost use Rattle.site_dates.specs.Moment.{IsMoment};
ghost use Rattle.site_reader.specs.Found.{IsFirst};
ghost use Rattle.site_reader.specs.Lawful.{IsLawful, most_made};
ghost use Rattle.site_reader.specs.Sites as sites;
ghost use Rattle.source_tree.specs.Limits.{most_files};

use site_base::{Memory, Settings};
use site_reader::{KeptReader, PlainParser, Site, SiteError, read_site};
use site_world::{KeptVariables, SiteWorld};
use source_tree::Held;
use std::alloc::Global;

/// How a session reads the site that its files make. It changes no answer.
#[derive(Drop)]
pub(crate) enum Reading {
    /// The session builds once, so nothing is kept of what is read.
    Once,
    /// What was found in the bytes of a file is kept until they change, and the site's variables until they may be others.
    Keeping(KeptReader, KeptVariables),
}

impl Reading {
    /// The site that the held files make at a moment, as `read_site` answers it.
    pub(crate) fn site(
        &mut self,
        alloc: Global,
        held: &Held,
        moment: i64,
        settings: &Settings,
    ) -> Result<Site, SiteError>
        requires { IsMoment moment }
        ensures read { let found = sites.site held.now moment settings.now in
            MatchResult result (λ made. found ≡ Ok made) (IsFirst found) }
        ensures lawful { IfOk result (IsLawful held.now) }
        ensures few { IfOk result (λ made. length made.items ≤ 2 * most_files + most_made) }
        ensures moment { IfOk result (λ made. made.moment ≡ moment) }
    {
        match self {
            Reading::Once => read_site(alloc, held, moment, settings),
            Reading::Keeping(reader, _variables) => {
                let mut parser = PlainParser;
                reader.read(alloc, held, moment, settings, &mut parser)
            }
        }
    }

    /// The world of a site with the files that it was read from. The one error is want of memory.
    pub(crate) fn world<'a>(
        &mut self,
        alloc: Global,
        site: &'a Site,
        held: &'a Held,
    ) -> Result<SiteWorld<'a>, Memory>
        requires lawful { IsLawful held.now site.now }
        requires moment { pos 0 ≤ℤ site.now.moment }
        ensures site { IfOk result (λ world. world.site.now ≡ site.now) }
        ensures held { IfOk result (λ world. world.held.now ≡ held.now) }
    {
        match self {
            Reading::Once => SiteWorld::new(alloc, site, held),
            Reading::Keeping(_reader, variables) => SiteWorld::keeping(
                alloc, site, held, variables,
            ),
        }
    }
}
