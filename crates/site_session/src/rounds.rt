// How a build goes over the items of its site: one after another, or by many workers.
ghost use Rattle.std.specs.Prelude.{◌≡◌, ◌≤ℤ◌, ◌≤◌, pos};
ghost use Rattle.std.specs.FinMap.{empty};
ghost use Rattle.site_reader.specs.Lawful.{IsLawful};
ghost use Rattle.site_session.specs.Full.{given_of};
ghost use Rattle.site_session.specs.Rounds.{IsGone, IsGoneAnew, in_any_order, in_order};
ghost use Rattle.site_world.specs.Sights.{fixed_bytes};

use crate::reading::Reading;
use memo_table::Memo;
use page_render::PageMeaning;
use read_record::{Renderer, Tally};
use render_workers::{Round, RoundError, regenerate, regenerate_serial, render_all};
use site_reader::Site;
use site_world::SiteWorld;
use source_tree::Held;
use std::alloc::Global;
use std::sync::Wait;
use std::thread::Threads;

/// Who renders the items of a build: so many threads, by this renderer.
#[derive(Clone, Copy)]
pub struct Crew<'a, H, R> {
    /// What starts the threads, and waits for them.
    pub rt: &'a H,
    /// How many threads, 1 to 64.
    pub jobs: u32,
    /// What renders an item.
    pub renderer: &'a R,
}

/// Keeps or renders the items of a site one after another, and keeps what it rendered.
pub(crate) fn one_by_one<R: Renderer<Meaning = PageMeaning>>(
    alloc: Global,
    reading: &mut Reading,
    held: &Held,
    site: &Site,
    renderer: &R,
    memo: &mut Memo<PageMeaning>,
    tally: &mut Tally,
) -> Result<Round, RoundError>
    requires lawful { IsLawful held.now site.now }
    requires moment { pos 0 ≤ℤ site.now.moment }
    ensures { IsGone in_order (given_of held.now site.now memo.old) (fixed_bytes held.now site.now) result memo.new tally.old tally.new }
{
    let world = reading.world(alloc, site, held)?;
    regenerate_serial(alloc, renderer, &world, memo, tally)
}

/// The same by the threads of a crew, which render any item as soon as they come to it.
pub(crate) fn by_crew<H: Threads + Wait + Sync, R: Renderer<Meaning = PageMeaning> + Sync>(
    alloc: Global,
    reading: &mut Reading,
    held: &Held,
    site: &Site,
    crew: &Crew<'_, H, R>,
    memo: &mut Memo<PageMeaning>,
    tally: &mut Tally,
) -> Result<Round, RoundError>
    requires lawful { IsLawful held.now site.now }
    requires moment { pos 0 ≤ℤ site.now.moment }
    requires jobs { (1 ≤ crew.now.jobs) × (crew.now.jobs ≤ 64) }
    ensures { IsGone in_any_order (given_of held.now site.now memo.old) (fixed_bytes held.now site.now) result memo.new tally.old tally.new }
{
    let world = reading.world(alloc, site, held)?;
    regenerate(
        crew.rt,
        alloc,
        crew.renderer,
        &world,
        memo,
        crew.jobs,
        tally,
    )
}

/// Renders the items of a site one after another, and keeps nothing of them.
pub(crate) fn all_anew<R: Renderer<Meaning = PageMeaning>>(
    alloc: Global,
    held: &Held,
    site: &Site,
    renderer: &R,
    tally: &mut Tally,
) -> Result<Round, RoundError>
    requires lawful { IsLawful held.now site.now }
    requires moment { pos 0 ≤ℤ site.now.moment }
    ensures { IsGoneAnew (given_of held.now site.now empty) (fixed_bytes held.now site.now) result tally.old tally.new }
{
    let world = SiteWorld::new(alloc, site, held)?;
    render_all(alloc, renderer, &world, tally)
}
