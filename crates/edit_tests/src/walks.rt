// Builds after random edits.
ghost use Rattle.std.specs.Prelude.{◌≤◌};

use crate::building::{from_nothing, output, rebuild, source_of};
use crate::dice::Dice;
use crate::editing::{Edited, moment_of};
use crate::notes::Notes;
use crate::outputs::{Seen, is_right};
use crate::sites;
use out_tree::MemoryOut;
use page_render::PageRenderer;
use read_record::Tally;
use site_session::Rebuilt;
use source_tree::Held;
use std::alloc::Global;
use std::sync::Wait;
use std::thread::Threads;

// A site that is edited and built, again and again.
#[derive(Drop)]
struct Walk {
    edited: Edited,
    out: MemoryOut,
    /// The calls of the output that fail.
    fails: Vec<u64>,
    renderer: PageRenderer,
    notes: Notes,
    counts: Counts,
}

// How many builds ended in each way.
#[derive(Clone, Copy)]
struct Counts {
    built: u32,
    marked: u32,
    faulty: u32,
}

impl Counts {
    // Whether builds ended in each way.
    fn are_mixed(&self) -> bool {
        self.built > BUILDS / 4 && self.marked > BUILDS / 20
    }

    fn add(&mut self, ending: &Rebuilt) {
        match ending {
            Rebuilt::Built(_) => self.built = self.built.wrapping_add(1),
            Rebuilt::Fault(_) => self.faulty = self.faulty.wrapping_add(1),
            Rebuilt::Marked(_) | Rebuilt::Unlisted => self.marked = self.marked.wrapping_add(1),
        }
    }
}

impl Walk {
    fn new(alloc: Global, site: &'static str, seed: u64) -> Option<Walk> {
        let sound = source_of(alloc, &Held::new(alloc))?;
        let edited = Edited::new(alloc, site, seed, sound)?;
        let fails = failing_calls(alloc, seed)?;
        let out = output(alloc, fails.to_vec(alloc).ok()?)?;
        Some(Walk {
            edited,
            out,
            fails,
            renderer: PageRenderer::new(alloc),
            notes: Notes::new(alloc),
            counts: Counts {
                built: 0,
                marked: 0,
                faulty: 0,
            },
        })
    }

    // Builds and edits in turn, and answers how many builds came out right, up to the first that did not.
    fn go<H: Threads + Wait + Sync>(&mut self, rt: &H, alloc: Global, builds: u32) -> u32 {
        for build in 0..builds {
            if self.build(rt, alloc) != Some(true) || self.edited.edit(alloc).is_none() {
                return build;
            }
        }
        builds
    }

    fn build<H: Threads + Wait + Sync>(&mut self, rt: &H, alloc: Global) -> Option<bool> {
        let calls = self.out.calls();
        let jobs = jobs(&mut self.edited.dice);
        let mut tally = Tally::new(alloc);
        match rebuild(
            rt,
            alloc,
            &mut self.edited.session,
            jobs,
            &mut self.out,
            &self.renderer,
            &mut tally,
        ) {
            Ok(ending) => self.is_right(alloc, &ending, tally.rendered().len() as u64, calls),
            Err(_) => None,
        }
    }

    // Whether a build ended as it has to, which rendered so many items, and before which the output had been called so often.
    fn is_right(
        &mut self,
        alloc: Global,
        ending: &Rebuilt,
        rendered: u64,
        calls: u64,
    ) -> Option<bool> {
        self.counts.add(ending);
        let seen = self.seen(rendered, calls);
        let moment = moment_of(self.edited.month);
        let renderer = PageRenderer::new(alloc);
        let due = self.notes.due(alloc, &renderer, &self.edited.held, moment)?;
        let mut source = source_of(alloc, &self.edited.held)?;
        let mut fresh = from_nothing(alloc, &mut source, moment, &renderer)?;
        self.edited.has_fault = due.has_fault;
        if !due.has_fault {
            self.edited.sound = source;
        }
        Some(is_right(alloc, ending, &self.out, &mut fresh, due, seen))
    }

    fn seen(&self, rendered: u64, before: u64) -> Seen {
        let now = self.out.calls();
        let mut failed: u64 = 0;
        for call in &self.fails {
            if before < *call && *call <= now {
                failed = failed.wrapping_add(1);
            }
        }
        Seen {
            rendered,
            calls: now.wrapping_sub(before),
            failed,
        }
    }
}

fn jobs(dice: &mut Dice) -> u32
    ensures { (1 ≤ result) × (result ≤ 64) }
{
    match dice.below(4) {
        0 => 1,
        1 => 2,
        2 => 4,
        _ => 8,
    }
}

// One call in some ten; of an odd seed also the first one, which lists the files.
fn failing_calls(alloc: Global, seed: u64) -> Option<Vec<u64>> {
    let mut dice = Dice::new(seed);
    let mut calls = Vec::new(alloc);
    let mut call = seed % 2;
    for _failure in 0..2_000 {
        calls.push(call).ok()?;
        call = call.wrapping_add(1).wrapping_add(dice.below(20));
    }
    Some(calls)
}

const BUILDS: u32 = 2_000;

// How many builds of a site came out right; none where too few of them ended in each way that they may.
fn right_builds<H: Threads + Wait + Sync>(
    rt: &H,
    alloc: Global,
    site: &'static str,
    seed: u64,
) -> u32 {
    match Walk::new(alloc, site, seed) {
        Some(mut walk) => {
            let right = walk.go(rt, alloc, BUILDS);
            if walk.counts.are_mixed() { right } else { 0 }
        }
        None => 0,
    }
}

#[test]
fn neighbours(rt: HostRuntime) {
    assert_eq!(rt; right_builds(&rt, rt.alloc(), sites::NEIGHBOURS, 1), BUILDS);
}

#[test]
fn labels(rt: HostRuntime) {
    assert_eq!(rt; right_builds(&rt, rt.alloc(), sites::LABELS, 2), BUILDS);
}

#[test]
fn posts(rt: HostRuntime) {
    assert_eq!(rt; right_builds(&rt, rt.alloc(), sites::POSTS, 3), BUILDS);
}

#[test]
fn collections(rt: HostRuntime) {
    assert_eq!(rt;
        right_builds(&rt, rt.alloc(), sites::COLLECTIONS, 4),
        BUILDS
    );
}

#[test]
fn layouts(rt: HostRuntime) {
    assert_eq!(rt; right_builds(&rt, rt.alloc(), sites::LAYOUTS, 5), BUILDS);
}

#[test]
fn includes(rt: HostRuntime) {
    assert_eq!(rt; right_builds(&rt, rt.alloc(), sites::INCLUDES, 6), BUILDS);
}

#[test]
fn tables(rt: HostRuntime) {
    assert_eq!(rt; right_builds(&rt, rt.alloc(), sites::TABLES, 7), BUILDS);
}

#[test]
fn paginators(rt: HostRuntime) {
    assert_eq!(rt; right_builds(&rt, rt.alloc(), sites::PAGINATORS, 8), BUILDS);
}

#[test]
fn addresses(rt: HostRuntime) {
    assert_eq!(rt; right_builds(&rt, rt.alloc(), sites::ADDRESSES, 9), BUILDS);
}

#[test]
fn chains(rt: HostRuntime) {
    assert_eq!(rt; right_builds(&rt, rt.alloc(), sites::CHAINS, 10), BUILDS);
}
