// Rounds of many workers, which leave what rounds of one item after another leave.
use crate::row::{Needs, Row, RowItems, RowRenderer};
use memo_table::Memo;
use read_record::{Outcome, Tally};
use render_workers::{Round, RoundError, Whys, regenerate, regenerate_serial};
use site_base::{Memory, SiteFault};
use std::alloc::Global;
use std::sync::Wait;
use std::thread::Threads;

// What stays from round to round, on either side.
#[derive(Drop)]
struct Sides {
    one: Memo<RowItems>,
    many: Memo<RowItems>,
}

impl Sides {
    fn new(alloc: Global) -> Sides {
        Sides {
            one: Memo::new(alloc),
            many: Memo::new(alloc),
        }
    }

    // Whether both sides answer alike, and tally alike.
    fn agree<H: Threads + Wait + Sync>(
        &mut self,
        rt: &H,
        alloc: Global,
        jobs: u32,
        world: &Row,
    ) -> Result<bool, Memory> {
        if jobs < 1 || jobs > 64 {
            return Ok(false);
        }
        let mut told = Tally::new(alloc);
        let mut tallied = Tally::new(alloc);
        let one = regenerate_serial(alloc, &RowRenderer, world, &mut self.one, &mut told);
        let many = regenerate(
            rt,
            alloc,
            &RowRenderer,
            world,
            &mut self.many,
            jobs,
            &mut tallied,
        );
        let is_whole = one.is_ok();
        Ok(are_same(&one, &many) && are_told(alloc, &told, &tallied, is_whole)?)
    }
}

fn are_same(one: &Result<Round, RoundError>, many: &Result<Round, RoundError>) -> bool {
    match (one, many) {
        (Ok(one), Ok(many)) => are_same_rounds(one, many),
        (Err(RoundError::Fault(one)), Err(RoundError::Fault(many))) => are_same_faults(one, many),
        _ => false,
    }
}

fn are_same_faults(one: &SiteFault, many: &SiteFault) -> bool {
    one.kind == many.kind && one.line == many.line && one.path == many.path
}

fn are_same_rounds(one: &Round, many: &Round) -> bool {
    one.reused == many.reused
        && are_same_outputs(one.outs.as_slice(), many.outs.as_slice())
        && are_same_whys(&one.why, &many.why)
}

fn are_same_outputs(one: &[Outcome], many: &[Outcome]) -> bool {
    if one.len() != many.len() {
        return false;
    }
    for place in 0..one.len() {
        if output(&one[place]) != output(&many[place]) {
            return false;
        }
    }
    true
}

fn output(outcome: &Outcome) -> &[u8] {
    match outcome {
        Outcome::Done { content: _, output } => output.as_bytes(),
        Outcome::Fault(_) => b"",
    }
}

fn are_same_whys(one: &Whys, many: &Whys) -> bool {
    let one = one.as_slice();
    let many = many.as_slice();
    if one.len() != many.len() {
        return false;
    }
    for place in 0..one.len() {
        let is_same_name = one[place].name == many[place].name;
        let is_same_reason = one[place].key.is_some() == many[place].key.is_some();
        if !is_same_name || !is_same_reason {
            return false;
        }
    }
    true
}

// Whether the names that the one tally has are those that the other has, in any order. At a fault, names of later items may come
// besides, each once.
fn are_told(alloc: Global, told: &Tally, tallied: &Tally, is_whole: bool) -> Result<bool, Memory> {
    let told = parts(alloc, told)?;
    let tallied = parts(alloc, tallied)?;
    let has_more = tallied.len() > told.len();
    let begins = tallied.as_slice().starts_with(told.as_slice());
    Ok(begins && rises(tallied.as_slice()) && !(is_whole && has_more))
}

fn parts(alloc: Global, tally: &Tally) -> Result<Vec<u32>, Memory> {
    let mut parts = Vec::new(alloc);
    for name in tally.rendered() {
        parts.push(name.part)?;
    }
    parts.sort_unstable();
    Ok(parts)
}

fn rises(parts: &[u32]) -> bool {
    for place in 1..parts.len() {
        if parts[place - 1] >= parts[place] {
            return false;
        }
    }
    true
}

// No item lacks its value.
const NONE: u32 = u32::MAX;

// A round: how many items, what each needs, which one has no value, and the value of the others.
type Step = (u32, Needs, u32, &'static str);

// Whether both sides answer alike in each of these rounds, one after another.
fn agree_in<H: Threads + Wait + Sync>(
    rt: &H,
    alloc: Global,
    jobs: u32,
    steps: &[Step],
) -> Result<bool, Memory> {
    let mut sides = Sides::new(alloc);
    for &(items, needs, lacking, value) in steps {
        let world = Row::new(alloc, items, needs, lacking, value)?;
        if !sides.agree(rt, alloc, jobs, &world)? {
            return Ok(false);
        }
    }
    Ok(true)
}

fn agree<H: Threads + Wait + Sync>(rt: &H, alloc: Global, jobs: &[u32], steps: &[Step]) -> bool {
    for jobs in jobs {
        match agree_in(rt, alloc, *jobs, steps) {
            Ok(true) => {}
            _ => return false,
        }
    }
    true
}

const EACH: &[u32] = &[1, 2, 4, 8, 64];

const SMALL: &[Step] = &[
    (0, Needs::Nothing, NONE, "x"),
    (3, Needs::Nothing, NONE, "x"),
    (1, Needs::First, NONE, "x"),
    (5, Needs::Before, 0, "x"),
];

#[test]
fn few_items(rt: HostRuntime) {
    assert!(rt; agree(&rt, rt.alloc(), EACH, SMALL));
}

// What is kept agrees in the second round, and in the third nothing of it does. Then fewer items are left, and more come back.
const KEPT: &[Step] = &[
    (200, Needs::Before, NONE, "x"),
    (200, Needs::Before, NONE, "x"),
    (200, Needs::Before, NONE, "y"),
    (100, Needs::First, NONE, "y"),
    (200, Needs::First, NONE, "y"),
];

#[test]
fn what_is_kept(rt: HostRuntime) {
    assert!(rt; agree(&rt, rt.alloc(), EACH, KEPT));
}

const CHAIN: &[Step] = &[(2_000, Needs::Before, NONE, "x")];

#[test]
fn a_chain_of_items(rt: HostRuntime) {
    assert!(rt; agree(&rt, rt.alloc(), &[1, 2, 4, 8], CHAIN));
}

// A fault in the first item, in the middle and in the last one; what was kept below it agrees in the round behind.
const FAULTS: &[Step] = &[
    (500, Needs::Before, 0, "x"),
    (500, Needs::Nothing, 250, "x"),
    (500, Needs::Before, 499, "x"),
    (500, Needs::First, 250, "y"),
    (500, Needs::First, NONE, "y"),
];

#[test]
fn the_first_fault(rt: HostRuntime) {
    assert!(rt; agree(&rt, rt.alloc(), EACH, FAULTS));
}
