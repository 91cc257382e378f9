// What the held files stand for.
ghost use Rattle.std.specs.Prelude.{◌≡◌, ◌≤ℤ◌, ◌≤◌, ◌+◌, ◌*◌, IfOk, Ok, length, pos, true};
ghost use Rattle.site_reader.specs.Lawful.{IsLawful, most_made};
ghost use Rattle.site_reader.specs.Sites as sites;
ghost use Rattle.site_script.specs.Line.{is_moment};
ghost use Rattle.site_session.specs.Full.{fault_of, full, whole, written_by};
ghost use Rattle.site_session.specs.Outputs.{Comes, IsOutput, IsOutputAnew, output_by};
ghost use Rattle.site_session.specs.Rounds.{in_any_order, in_order};
ghost use Rattle.site_world.specs.Sights.{item_names};
ghost use Rattle.source_tree.specs.Limits.{most_files};

use crate::base::base_of;
use crate::reading::Reading;
use crate::rounds::{Crew, all_anew, by_crew, one_by_one};
use crate::tree::tree_of;
use memo_table::Memo;
use out_tree::{KeepList, Tree};
use page_render::PageMeaning;
use read_record::{Renderer, Tally};
use render_workers::{Outcomes, Round, RoundError, Whys};
use site_base::{Memory, Settings, SiteFault, Text, TextList};
use site_reader::{Site, SiteError, read_site};
use source_tree::Held;
use std::alloc::Global;
use std::sync::Wait;
use std::thread::Threads;

/// What a site writes.
#[derive(Drop)]
pub struct Written {
    /// The files.
    pub tree: Tree,
    /// The paths that stay, though the site lacks them.
    pub keep: KeepList,
    /// What stands before each path in an address: empty, or with `/` in front and none at its end.
    pub base: Text,
}

/// What a build writes, and what it rendered for that.
#[derive(Drop)]
pub struct Output {
    pub written: Written,
    /// How many items were rendered.
    pub rendered: u32,
    /// How many items were kept from an earlier build.
    pub reused: u32,
    /// The items that were rendered, with the reasons.
    pub why: Whys,
}

/// What the held files stand for, or their first fault. Items are rendered, one after another, whose kept render no longer tells
/// what rendering anew would give; what is rendered is kept.
#[tactic(auto, using(crate::proofs::Full::unread_in_order))]
pub(crate) fn output_one_by_one<R: Renderer<Meaning = PageMeaning>>(
    alloc: Global,
    reading: &mut Reading,
    held: &Held,
    moment: i64,
    settings: &Settings,
    renderer: &R,
    memo: &mut Memo<PageMeaning>,
    tally: &mut Tally,
) -> Result<Output, SiteError>
    requires { is_moment moment ≡ true }
    ensures { IsOutput in_order held.now memo.old (sites.site held.now moment settings.now) result memo.new tally.old tally.new }
{
    match reading.site(alloc, held, moment, settings) {
        Ok(site) => site_one_by_one(alloc, reading, held, &site, renderer, memo, tally),
        Err(error) => Err(error),
    }
}

fn site_one_by_one<R: Renderer<Meaning = PageMeaning>>(
    alloc: Global,
    reading: &mut Reading,
    held: &Held,
    site: &Site,
    renderer: &R,
    memo: &mut Memo<PageMeaning>,
    tally: &mut Tally,
) -> Result<Output, SiteError>
    requires lawful { IsLawful held.now site.now }
    requires few { length site.now.items ≤ 2 * most_files + most_made }
    requires moment { pos 0 ≤ℤ site.now.moment }
    ensures { IsOutput in_order held.now memo.old (Ok site.now) result memo.new tally.old tally.new }
{
    let round = one_by_one(alloc, reading, held, site, renderer, memo, tally);
    output_of(alloc, held, site, round)
}

/// The same, rendered by the threads of a crew.
#[tactic(auto, using(crate::proofs::Full::unread_in_any_order))]
pub(crate) fn output_by_crew<H: Threads + Wait + Sync, R: Renderer<Meaning = PageMeaning> + Sync>(
    alloc: Global,
    reading: &mut Reading,
    held: &Held,
    moment: i64,
    settings: &Settings,
    crew: &Crew<'_, H, R>,
    memo: &mut Memo<PageMeaning>,
    tally: &mut Tally,
) -> Result<Output, SiteError>
    requires moment { is_moment moment ≡ true }
    requires jobs { (1 ≤ crew.now.jobs) × (crew.now.jobs ≤ 64) }
    ensures { IsOutput in_any_order held.now memo.old (sites.site held.now moment settings.now) result memo.new tally.old tally.new }
{
    match reading.site(alloc, held, moment, settings) {
        Ok(site) => site_by_crew(alloc, reading, held, &site, crew, memo, tally),
        Err(error) => Err(error),
    }
}

fn site_by_crew<H: Threads + Wait + Sync, R: Renderer<Meaning = PageMeaning> + Sync>(
    alloc: Global,
    reading: &mut Reading,
    held: &Held,
    site: &Site,
    crew: &Crew<'_, H, R>,
    memo: &mut Memo<PageMeaning>,
    tally: &mut Tally,
) -> Result<Output, SiteError>
    requires lawful { IsLawful held.now site.now }
    requires few { length site.now.items ≤ 2 * most_files + most_made }
    requires moment { pos 0 ≤ℤ site.now.moment }
    requires jobs { (1 ≤ crew.now.jobs) × (crew.now.jobs ≤ 64) }
    ensures { IsOutput in_any_order held.now memo.old (Ok site.now) result memo.new tally.old tally.new }
{
    let round = by_crew(alloc, reading, held, site, crew, memo, tally);
    output_of(alloc, held, site, round)
}

/// The same for a session that ends with this: the items are rendered anew, one after another, and nothing is kept of them.
pub(crate) fn output_anew<R: Renderer<Meaning = PageMeaning>>(
    alloc: Global,
    held: &Held,
    moment: i64,
    settings: &Settings,
    renderer: &R,
    tally: &mut Tally,
) -> Result<Output, SiteError>
    requires { is_moment moment ≡ true }
    ensures { IsOutputAnew held.now (sites.site held.now moment settings.now) result tally.old tally.new }
{
    match read_site(alloc, held, moment, settings) {
        Ok(site) => site_anew(alloc, held, &site, renderer, tally),
        Err(error) => Err(error),
    }
}

fn site_anew<R: Renderer<Meaning = PageMeaning>>(
    alloc: Global,
    held: &Held,
    site: &Site,
    renderer: &R,
    tally: &mut Tally,
) -> Result<Output, SiteError>
    requires lawful { IsLawful held.now site.now }
    requires few { length site.now.items ≤ 2 * most_files + most_made }
    requires moment { pos 0 ≤ℤ site.now.moment }
    ensures { IsOutputAnew held.now (Ok site.now) result tally.old tally.new }
{
    let round = all_anew(alloc, held, site, renderer, tally);
    output_of(alloc, held, site, round)
}

/// The first fault of what the held files stand for.
pub(crate) fn first_fault<R: Renderer<Meaning = PageMeaning>>(
    alloc: Global,
    held: &Held,
    moment: i64,
    settings: &Settings,
    renderer: &R,
) -> Result<Option<SiteFault>, Memory>
    requires { is_moment moment ≡ true }
    ensures { IfOk result (λ fault. fault ≡ fault_of (full held.now moment settings.now)) }
{
    match read_site(alloc, held, moment, settings) {
        Ok(site) => first_item_fault(alloc, held, &site, renderer),
        Err(SiteError::Fault(fault)) => Ok(Some(fault)),
        Err(SiteError::Memory) => Err(Memory),
    }
}

fn first_item_fault<R: Renderer<Meaning = PageMeaning>>(
    alloc: Global,
    held: &Held,
    site: &Site,
    renderer: &R,
) -> Result<Option<SiteFault>, Memory>
    requires lawful { IsLawful held.now site.now }
    requires moment { pos 0 ≤ℤ site.now.moment }
    ensures { IfOk result (λ fault. fault ≡ fault_of (whole held.now site.now)) }
{
    let mut tally = Tally::new(alloc);
    match all_anew(alloc, held, site, renderer, &mut tally) {
        Ok(_) => Ok(None),
        Err(RoundError::Fault(fault)) => Ok(Some(fault)),
        Err(RoundError::Memory) => Err(Memory),
    }
}

// What a round over the items of a site makes of a build.
fn output_of(
    alloc: Global,
    held: &Held,
    site: &Site,
    round: Result<Round, RoundError>,
) -> Result<Output, SiteError>
    requires counted { IfOk round (λ round. round.reused + length round.why ≡ length (item_names site.now)) }
    requires few { length site.now.items ≤ 2 * most_files + most_made }
    ensures { Comes held.now site.now round result }
{
    match round {
        Ok(round) => Ok(output_by(alloc, held, site, round)?),
        Err(RoundError::Fault(fault)) => Err(SiteError::Fault(fault)),
        Err(RoundError::Memory) => Err(SiteError::Memory),
    }
}

fn output_by(alloc: Global, held: &Held, site: &Site, round: Round) -> Result<Output, Memory>
    requires counted { round.reused + length round.why ≡ length (item_names site.now) }
    requires few { length site.now.items ≤ 2 * most_files + most_made }
    ensures { IfOk result (λ made. made ≡ output_by held.now site.now round) }
{
    let rendered = round.why.len() as u32;
    Ok(Output {
        written: written_by(alloc, held, site, &round.outs)?,
        rendered,
        reused: round.reused,
        why: round.why,
    })
}

fn written_by(alloc: Global, held: &Held, site: &Site, outs: &Outcomes) -> Result<Written, Memory>
    ensures { IfOk result (λ made. made ≡ written_by held.now (record { site = site.now; outs = outs.now })) }
{
    Ok(Written {
        tree: tree_of(alloc, held, site, outs.as_slice())?,
        keep: keep_list(alloc, &site.config.keep_files)?,
        base: base_of(alloc, site.config.baseurl.as_str())?,
    })
}

fn keep_list(alloc: Global, entries: &TextList) -> Result<KeepList, Memory>
    ensures { IfOk result (λ keep. keep ≡ entries.now) }
{
    let mut keep = KeepList::new(alloc);
    for entry in entries.as_slice() {
        keep.push(Text::copy(alloc, entry.as_str())?)?;
    }
    Ok(keep)
}
