// What is kept of small sites at several paths.
use crate::records::{First, SampleItems, entry_of, name_at, sample_at};
use memo_table::Memo;
use read_record::{Entry, Outcome};
use site_base::Memory;
use std::alloc::Global;

/// A render that is kept.
enum Keep {
    /// Of the first item of a site at this path, with this variable.
    First(&'static str, i64),
    /// Of the second item, behind the first.
    Second(&'static str),
}

/// Renders that are kept one after another, and what is left of them.
struct Row {
    keeps: &'static [Keep],
    /// The path of the site whose items stay. Without one, all do.
    stays: Option<&'static str>,
    /// A path, a part, and the output that is kept of this item; the empty text stands for no entry.
    outputs: &'static [(&'static str, u32, &'static str)],
}

fn first_entry(alloc: Global, path: &str, variable: i64) -> Result<Entry<SampleItems>, Memory> {
    let world = sample_at(alloc, path, variable)?;
    entry_of(alloc, &world, 0, &First(None))
}

fn first_done(alloc: Global, path: &str) -> Result<First, Memory> {
    let first = first_entry(alloc, path, 1)?;
    Ok(First(Some(first.outcome().copy(alloc)?)))
}

fn second_entry(alloc: Global, path: &str) -> Result<Entry<SampleItems>, Memory> {
    let outs = first_done(alloc, path)?;
    let world = sample_at(alloc, path, 1)?;
    entry_of(alloc, &world, 1, &outs)
}

fn entry(alloc: Global, keep: &Keep) -> Result<Entry<SampleItems>, Memory> {
    match keep {
        Keep::First(path, variable) => first_entry(alloc, path, *variable),
        Keep::Second(path) => second_entry(alloc, path),
    }
}

fn kept(alloc: Global, keeps: &[Keep]) -> Result<Memo<SampleItems>, Memory> {
    let mut memo = Memo::new(alloc);
    for keep in keeps {
        memo.merge(alloc, entry(alloc, keep)?)?;
    }
    Ok(memo)
}

fn forget(alloc: Global, memo: &mut Memo<SampleItems>, stays: &str) -> Result<(), Memory> {
    let world = sample_at(alloc, stays, 1)?;
    memo.forget_missing(&world);
    Ok(())
}

fn left(alloc: Global, row: &Row) -> Result<Memo<SampleItems>, Memory> {
    let mut memo = kept(alloc, row.keeps)?;
    if let Some(stays) = row.stays {
        forget(alloc, &mut memo, stays)?;
    }
    Ok(memo)
}

fn has(alloc: Global, memo: &Memo<SampleItems>, path: &str, part: u32, output: &str) -> bool {
    match name_at(alloc, path, part) {
        Ok(name) => match memo.entry(&name) {
            Some(entry) => is_output(entry.outcome(), output),
            None => output.is_empty(),
        },
        Err(_) => false,
    }
}

fn is_output(outcome: &Outcome, want: &str) -> bool {
    match outcome {
        Outcome::Done { content: _, output } => output.as_str() == want,
        Outcome::Fault(_) => false,
    }
}

fn has_all(alloc: Global, memo: &Memo<SampleItems>, outputs: &[(&str, u32, &str)]) -> bool {
    for (path, part, output) in outputs {
        if !has(alloc, memo, path, *part, output) {
            return false;
        }
    }
    true
}

fn comes_out(alloc: Global, row: &Row) -> bool {
    match left(alloc, row) {
        Ok(memo) => has_all(alloc, &memo, row.outputs),
        Err(_) => false,
    }
}

const NOTHING: Row = Row {
    keeps: &[],
    stays: None,
    outputs: &[("a.html", 0, ""), ("b.html", 0, ""), ("c.html", 0, "")],
};

#[test]
fn keeps_nothing_at_first(rt: HostRuntime) {
    assert!(rt; comes_out(rt.alloc(), &NOTHING));
}

const THREE_SITES: &[Keep] = &[
    Keep::First("a.html", 1),
    Keep::First("b.html", 3),
    Keep::First("c.html", 5),
];

const EACH: Row = Row {
    keeps: THREE_SITES,
    stays: None,
    outputs: &[("a.html", 0, "1"), ("b.html", 0, "3"), ("c.html", 0, "5")],
};

#[test]
fn keeps_an_entry_for_each_path(rt: HostRuntime) {
    assert!(rt; comes_out(rt.alloc(), &EACH));
}

const LATER: Row = Row {
    keeps: &[
        Keep::First("a.html", 1),
        Keep::First("b.html", 3),
        Keep::First("c.html", 5),
        Keep::First("b.html", 7),
    ],
    stays: None,
    outputs: &[("a.html", 0, "1"), ("b.html", 0, "7"), ("c.html", 0, "5")],
};

#[test]
fn keeps_the_later_entry_of_a_name(rt: HostRuntime) {
    assert!(rt; comes_out(rt.alloc(), &LATER));
}

const BOTH_PARTS: Row = Row {
    keeps: &[
        Keep::First("a.html", 1),
        Keep::First("b.html", 3),
        Keep::First("c.html", 5),
        Keep::Second("a.html"),
    ],
    stays: None,
    outputs: &[
        ("a.html", 1, "2"),
        ("a.html", 0, "1"),
        ("b.html", 0, "3"),
        ("c.html", 0, "5"),
    ],
};

#[test]
fn tells_the_parts_of_a_path_apart(rt: HostRuntime) {
    assert!(rt; comes_out(rt.alloc(), &BOTH_PARTS));
}

const LEFT: &[Row] = &[
    Row {
        keeps: THREE_SITES,
        stays: Some("a.html"),
        outputs: &[("a.html", 0, "1"), ("b.html", 0, ""), ("c.html", 0, "")],
    },
    Row {
        keeps: THREE_SITES,
        stays: Some("b.html"),
        outputs: &[("a.html", 0, ""), ("b.html", 0, "3"), ("c.html", 0, "")],
    },
    Row {
        keeps: THREE_SITES,
        stays: Some("c.html"),
        outputs: &[("a.html", 0, ""), ("b.html", 0, ""), ("c.html", 0, "5")],
    },
    Row {
        keeps: THREE_SITES,
        stays: Some("d.html"),
        outputs: &[("a.html", 0, ""), ("b.html", 0, ""), ("c.html", 0, "")],
    },
];

#[test]
fn forgets_what_a_site_lacks(rt: HostRuntime) {
    for row in LEFT {
        assert!(rt; comes_out(rt.alloc(), row));
    }
}

// Both items of a site, put in behind another and in turned order.
const TURNED: Row = Row {
    keeps: &[
        Keep::First("b.html", 3),
        Keep::Second("a.html"),
        Keep::First("a.html", 1),
    ],
    stays: Some("a.html"),
    outputs: &[
        ("a.html", 1, "2"),
        ("a.html", 0, "1"),
        ("b.html", 0, ""),
        ("c.html", 0, ""),
    ],
};

#[test]
fn keeps_all_items_of_a_site(rt: HostRuntime) {
    assert!(rt; comes_out(rt.alloc(), &TURNED));
}

/// How many ids the pool of codes holds once these were kept, and only the items of a site stay.
fn held(alloc: Global, keeps: &[Keep], stays: &str) -> Result<u128, Memory> {
    let mut memo = kept(alloc, keeps)?;
    forget(alloc, &mut memo, stays)?;
    Ok(memo.pool().codes().holds())
}

#[test]
fn what_is_forgotten_leaves_no_code(rt: HostRuntime) {
    assert!(rt; matches!(held(rt.alloc(), THREE_SITES, "d.html"), Ok(0)));
}

/// A memo to which so many entries of one item came.
fn kept_again(alloc: Global, times: u32) -> Result<Memo<SampleItems>, Memory> {
    let mut memo = Memo::new(alloc);
    for variable in 0..times {
        memo.merge(alloc, first_entry(alloc, "a.html", i64::from(variable))?)?;
    }
    Ok(memo)
}

/// How many keys the entry of the first item has read.
fn reads(alloc: Global, memo: &Memo<SampleItems>) -> Result<u64, Memory> {
    let name = name_at(alloc, "a.html", 0)?;
    match memo.entry(&name) {
        Some(entry) => Ok(entry.len()),
        None => Ok(0),
    }
}

/// Whether the pool holds one id for each read of the last of so many entries of one item.
fn holds_the_last(alloc: Global, times: u32) -> Result<bool, Memory> {
    let mut memo = kept_again(alloc, times)?;
    let reads = reads(alloc, &memo)?;
    Ok(reads > 0 && memo.pool().codes().holds() == u128::from(reads))
}

#[test]
fn the_pool_holds_the_reads_of_the_last_entry_alone(rt: HostRuntime) {
    assert!(rt; matches!(holds_the_last(rt.alloc(), 10_000), Ok(true)));
}
