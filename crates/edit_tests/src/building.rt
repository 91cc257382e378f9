// Builds of a session, and builds from nothing.
ghost use Rattle.std.specs.Prelude.{◌≡◌, ◌≤◌, true};
ghost use Rattle.site_script.specs.Line.{is_moment};

use out_tree::MemoryOut;
use page_render::PageRenderer;
use read_record::Tally;
use site_base::{Memory, Settings, SitePath};
use site_session::{Rebuilt, Session};
use source_tree::{Held, MemorySource, paths_stand_apart};
use std::alloc::Global;
use std::sync::Wait;
use std::thread::Threads;

pub(crate) const SETTINGS: Settings = Settings {
    drafts: false,
    future: false,
};

/// The next build of a session, by so many workers.
pub(crate) fn rebuild<H: Threads + Wait + Sync>(
    rt: &H,
    alloc: Global,
    session: &mut Session,
    jobs: u32,
    out: &mut MemoryOut,
    renderer: &PageRenderer,
    tally: &mut Tally,
) -> Result<Rebuilt, Memory>
    requires { (1 ≤ jobs) × (jobs ≤ 64) }
{
    session.rebuild(alloc, rt, jobs, out, renderer, tally)
}

/// What a build from nothing comes to.
#[derive(Drop)]
pub(crate) struct Fresh {
    pub(crate) ending: Rebuilt,
    pub(crate) out: MemoryOut,
}

/// A new session's build of these files, into an output without files, on one thread.
pub(crate) fn from_nothing(
    alloc: Global,
    source: &mut MemorySource,
    moment: i64,
    renderer: &PageRenderer,
) -> Option<Fresh>
    requires { is_moment moment ≡ true }
{
    let mut session = Session::open(alloc, SETTINGS, moment);
    if session.scan(alloc, source).is_err() {
        return None;
    }
    let mut out = output(alloc, Vec::new(alloc))?;
    let mut tally = Tally::new(alloc);
    match session.rebuild_serial(alloc, &mut out, renderer, &mut tally) {
        Ok(ending) => Some(Fresh { ending, out }),
        Err(_) => None,
    }
}

/// An output without files, which fails at these calls.
pub(crate) fn output(alloc: Global, fails: Vec<u64>) -> Option<MemoryOut> {
    let files = Vec::new(alloc);
    match paths_stand_apart(alloc, &files) {
        Ok(true) => Some(MemoryOut::new(alloc, files, fails)),
        _ => None,
    }
}

/// A source that has these files.
pub(crate) fn source_of(alloc: Global, held: &Held) -> Option<MemorySource> {
    let files = files_of(alloc, held)?;
    match paths_stand_apart(alloc, &files) {
        Ok(true) => Some(MemorySource::new(files, Vec::new(alloc))),
        _ => None,
    }
}

fn files_of(alloc: Global, held: &Held) -> Option<Vec<(SitePath, Vec<u8>)>> {
    let mut files = Vec::new(alloc);
    for place in 0..held.len() {
        let (path, bytes) = held.at(place);
        let path = path.copy(alloc).ok()?;
        files.push((path, bytes.to_vec(alloc).ok()?)).ok()?;
    }
    Some(files)
}
