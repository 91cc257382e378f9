use out_tree::{KeepList, MemoryOut, OutKeeper, OutTree, Tree};
use site_base::{ListError, SitePath, Text};
use std::alloc::Global;

type Files = &'static [(&'static str, &'static str)];

// A build onto an output that holds files, and what comes of it and of a second build of the same tree.
#[derive(Clone, Copy)]
struct Row {
    held: Files,
    tree: Files,
    keep: &'static [&'static str],
    // the calls that fail, where the list is the first call
    fail: &'static [u64],
    written: u64,
    removed: u64,
    failed: &'static [&'static str],
    left: Files,
    // what the second build writes and removes, and what is left then
    again: (u64, u64),
    left_then: Files,
}

const NOTHING: Row = Row {
    held: &[],
    tree: &[],
    keep: &[],
    fail: &[],
    written: 0,
    removed: 0,
    failed: &[],
    left: &[],
    again: (0, 0),
    left_then: &[],
};

static ROWS: [Row; 7] = [
    NOTHING,
    // What an entry keeps stays.
    Row {
        held: &[(".git/HEAD", "x"), (".gitignore", "y"), ("old.html", "z")],
        keep: &[".git", ".svn"],
        removed: 2,
        left: &[(".git/HEAD", "x")],
        left_then: &[(".git/HEAD", "x")],
        ..NOTHING
    },
    // One `/` at an entry's end says that it is a folder.
    Row {
        held: &[("uploads/a", "x"), ("uploads2", "y")],
        keep: &["uploads/"],
        removed: 1,
        left: &[("uploads/a", "x")],
        left_then: &[("uploads/a", "x")],
        ..NOTHING
    },
    // A file that stands in the way of another is removed before.
    Row {
        held: &[("a", "x")],
        tree: &[("a/index.html", "y")],
        written: 1,
        removed: 1,
        left: &[("a/index.html", "y")],
        left_then: &[("a/index.html", "y")],
        ..NOTHING
    },
    // A write that failed is the only one that is tried again.
    Row {
        held: &[("b", "x")],
        tree: &[("a", "1"), ("b", "2"), ("c", "3")],
        fail: &[3],
        written: 3,
        failed: &["b"],
        left: &[("a", "1"), ("b", "x"), ("c", "3")],
        again: (1, 0),
        left_then: &[("a", "1"), ("b", "2"), ("c", "3")],
        ..NOTHING
    },
    // A removal that failed is tried again.
    Row {
        held: &[("a", "x"), ("b", "y")],
        fail: &[2],
        removed: 2,
        failed: &["a"],
        left: &[("a", "x")],
        again: (0, 1),
        ..NOTHING
    },
    // Nothing of what is listed is known, so a file of the same bytes is written once.
    Row {
        held: &[("a", "x")],
        tree: &[("a", "x")],
        written: 1,
        left: &[("a", "x")],
        left_then: &[("a", "x")],
        ..NOTHING
    },
];

fn output(alloc: Global, held: Files, fail: &[u64]) -> Option<MemoryOut> {
    let count = held.len() as u64;
    let mut later = Vec::new(alloc);
    for call in fail {
        later.push(call.saturating_add(count)).ok()?;
    }
    let mut out = MemoryOut::new(alloc, Vec::new(alloc), later);
    for (path, text) in held {
        let path = SitePath::read(alloc, path).ok()?;
        out.write(&path, text.as_bytes()).ok()?;
    }
    Some(out)
}

fn tree_of(alloc: Global, files: Files) -> Option<Tree> {
    let mut tree = Tree::new(alloc);
    for (path, text) in files {
        let bytes = text.as_bytes().to_vec(alloc).ok()?;
        let path = SitePath::read(alloc, path).ok()?;
        tree.put(alloc, path, bytes).ok()?;
    }
    Some(tree)
}

fn keep_of(alloc: Global, entries: &[&str]) -> Option<KeepList> {
    let mut keep = KeepList::new(alloc);
    for entry in entries {
        keep.push(Text::copy(alloc, entry).ok()?).ok()?;
    }
    Some(keep)
}

fn has(alloc: Global, out: &MemoryOut, path: &str, text: &str) -> bool {
    match SitePath::read(alloc, path) {
        Ok(path) => out.get(&path) == Some(text.as_bytes()),
        Err(_) => false,
    }
}

// Whether the output has exactly these files.
fn has_exactly(alloc: Global, out: &MemoryOut, files: Files) -> bool {
    for (path, text) in files {
        if !has(alloc, out, path, text) {
            return false;
        }
    }
    out.len() == files.len()
}

fn are_named(paths: &[SitePath], names: &[&str]) -> bool {
    for (path, name) in paths.iter().zip(names) {
        if path.text() != *name {
            return false;
        }
    }
    paths.len() == names.len()
}

// The first build lists the output once, however often that is asked.
fn builds(
    alloc: Global,
    row: &Row,
    keeper: &mut OutKeeper,
    tree: &Tree,
    keep: &KeepList,
    out: &mut MemoryOut,
) -> bool {
    if keeper.has_listed() || keeper.list_once(alloc, out).is_err() || !keeper.has_listed() {
        return false;
    }
    let Ok(()) = keeper.list_once(alloc, out) else {
        return false;
    };
    match keeper.make_equal(alloc, tree, keep, out) {
        Ok(applied) => {
            applied.written == row.written
                && applied.removed == row.removed
                && are_named(applied.failed.as_slice(), row.failed)
        }
        Err(_) => false,
    }
}

// The second build tries what failed in the first, and no more.
fn builds_again(
    alloc: Global,
    row: &Row,
    keeper: &mut OutKeeper,
    tree: &Tree,
    keep: &KeepList,
    out: &mut MemoryOut,
) -> bool {
    if !keeper.has_listed() {
        return false;
    }
    let calls = out.calls();
    let Ok(plan) = keeper.plan(alloc, tree, keep) else {
        return false;
    };
    let (written, removed) = (plan.written(), plan.removed());
    if (written, removed) != row.again || plan.is_empty() != row.failed.is_empty() {
        return false;
    }
    let applied = keeper.apply(out, plan);
    applied.failed.as_slice().is_empty()
        && out.calls() == calls.saturating_add(written).saturating_add(removed)
}

fn comes_out(alloc: Global, row: &Row) -> bool {
    let Some(mut out) = output(alloc, row.held, row.fail) else {
        return false;
    };
    let (Some(tree), Some(keep)) = (tree_of(alloc, row.tree), keep_of(alloc, row.keep)) else {
        return false;
    };
    let mut keeper = OutKeeper::open();
    builds(alloc, row, &mut keeper, &tree, &keep, &mut out)
        && has_exactly(alloc, &out, row.left)
        && builds_again(alloc, row, &mut keeper, &tree, &keep, &mut out)
        && has_exactly(alloc, &out, row.left_then)
}

#[test]
fn makes_an_output_equal_to_a_tree(rt: HostRuntime) {
    for (number, row) in ROWS.iter().enumerate() {
        assert!(rt; comes_out(rt.alloc(), row), "row {number}");
    }
}

// Whether a list that fails leaves the keeper as it was, so that the next one lists again.
fn lists_again(alloc: Global, keeper: &mut OutKeeper, out: &mut MemoryOut) -> bool {
    keeper.list_once(alloc, out) == Err(ListError::Failed)
        && !keeper.has_listed()
        && keeper.list_once(alloc, out).is_ok()
        && out.short() == 0
}

fn planned_removals(alloc: Global, keeper: &OutKeeper) -> Option<u64> {
    if !keeper.has_listed() {
        return None;
    }
    let plan = keeper
        .plan(alloc, &Tree::new(alloc), &KeepList::new(alloc))
        .ok()?;
    Some(plan.removed())
}

#[test]
fn lists_again_after_a_failure(rt: HostRuntime) {
    let Some(mut out) = output(rt.alloc(), &[("a", "x")], &[1]) else {
        return assert!(rt; false, "no output");
    };
    let mut keeper = OutKeeper::open();
    assert!(rt; lists_again(rt.alloc(), &mut keeper, &mut out));
    assert!(rt; planned_removals(rt.alloc(), &keeper) == Some(1));
}
