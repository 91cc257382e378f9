// Whether a build ended as it has to.
use crate::building::Fresh;
use crate::notes::Due;
use out_tree::{MemoryOut, OutTree};
use site_base::{SiteFault, SitePath};
use site_session::{Rebuilt, Report};
use std::alloc::Global;

/// What was seen of a build: how many items it rendered, how often it called the output, and how many of these calls failed.
#[derive(Clone, Copy)]
pub(crate) struct Seen {
    pub(crate) rendered: u64,
    pub(crate) calls: u64,
    pub(crate) failed: u64,
}

/// Whether a build ended as one from nothing, rendered what was due, and left an output in which at most the paths are wrong that it
/// names.
pub(crate) fn is_right(
    alloc: Global,
    ending: &Rebuilt,
    out: &MemoryOut,
    fresh: &mut Fresh,
    due: Due,
    seen: Seen,
) -> bool {
    match (ending, &fresh.ending) {
        (Rebuilt::Built(report), Rebuilt::Built(_)) => {
            seen.failed == 0
                && is_counted(report, due, seen)
                && differ_at_most(alloc, out, &mut fresh.out, &[])
        }
        (Rebuilt::Marked(paths), Rebuilt::Built(_)) => {
            seen.rendered == due.rendered
                && is_failed(paths.len(), seen.failed)
                && differ_at_most(alloc, out, &mut fresh.out, paths.as_slice())
        }
        (Rebuilt::Unlisted, Rebuilt::Built(_)) => {
            seen.rendered == due.rendered && seen.calls == 1 && seen.failed == 1
        }
        (Rebuilt::Fault(one), Rebuilt::Fault(other)) => {
            seen.calls == 0 && is_begun(due, seen) && is_same(one, other)
        }
        _ => false,
    }
}

fn is_counted(report: &Report, due: Due, seen: Seen) -> bool {
    let rendered = u64::from(report.rendered);
    let reused = u64::from(report.reused);
    rendered == due.rendered
        && seen.rendered == due.rendered
        && reused == due.items.wrapping_sub(due.rendered)
}

// Up to the first fault all that was due is rendered; several workers may render items behind it too.
fn is_begun(due: Due, seen: Seen) -> bool {
    due.has_fault && due.rendered <= seen.rendered && seen.rendered <= due.items
}

// A path is marked for each call that fails, and for each write where something stands in the way that was to be removed.
fn is_failed(marked: u64, failed: u64) -> bool {
    0 < failed && failed <= marked
}

fn is_same(one: &SiteFault, other: &SiteFault) -> bool {
    one.kind == other.kind && one.line == other.line && one.path == other.path
}

// Whether two outputs have the same files, these paths aside.
fn differ_at_most(
    alloc: Global,
    out: &MemoryOut,
    fresh: &mut MemoryOut,
    marked: &[SitePath],
) -> bool {
    match fresh.list(alloc) {
        Ok(paths) => {
            are_right(out, fresh, paths.as_slice(), marked)
                && out.len() as u64
                    == there(out, paths.as_slice()).wrapping_add(left(out, fresh, marked))
        }
        Err(_) => false,
    }
}

// Whether each of these files is there, but for those that are marked.
fn are_right(out: &MemoryOut, fresh: &MemoryOut, paths: &[SitePath], marked: &[SitePath]) -> bool {
    for path in paths {
        if out.get(path) != fresh.get(path) && !marked.contains(path) {
            return false;
        }
    }
    true
}

// How many of the paths the output has.
fn there(out: &MemoryOut, paths: &[SitePath]) -> u64 {
    let mut count: u64 = 0;
    for path in paths {
        if out.get(path).is_some() {
            count = count.wrapping_add(1);
        }
    }
    count
}

// How many of the paths the output has, though they are to be removed.
fn left(out: &MemoryOut, fresh: &MemoryOut, marked: &[SitePath]) -> u64 {
    let mut count: u64 = 0;
    for path in marked {
        if out.get(path).is_some() && fresh.get(path).is_none() {
            count = count.wrapping_add(1);
        }
    }
    count
}
