// Rounds of one item after another over small sites of three items.
use crate::rounds::{Site, ThreeItems, ThreeRenderer, Variable, three_of};
use memo_table::Memo;
use read_record::{Key, Outcome, Tally};
use render_workers::{Round, RoundError, Why, regenerate_serial};
use site_base::{FaultKind, ItemName, SiteFault};
use std::alloc::Global;

/// Why an item was rendered.
#[derive(Clone, Copy, PartialEq, Eq)]
enum Reason {
    New,
    Variable,
    Content,
    Other,
}

/// How a round ends.
#[derive(Clone, Copy)]
enum End {
    Done {
        outputs: &'static [&'static str],
        /// The parts that were rendered, each with its reason. The others of three were kept.
        why: &'static [(u32, Reason)],
    },
    /// A fault at `a.html`, by its line and its kind.
    Fault(u64, FaultKind),
}

/// A build of a site.
#[derive(Clone, Copy)]
struct Build {
    site: Site<'static>,
    end: End,
    /// The parts that were rendered so far, in this build and those before it.
    rendered: &'static [u32],
}

/// What stays from build to build.
#[derive(Drop)]
struct Builder {
    memo: Memo<ThreeItems>,
    tally: Tally,
}

impl Builder {
    fn new(alloc: Global) -> Builder {
        Builder {
            memo: Memo::new(alloc),
            tally: Tally::new(alloc),
        }
    }

    fn build(&mut self, alloc: Global, site: &Site<'_>) -> Result<Round, RoundError> {
        let world = three_of(alloc, site)?;
        regenerate_serial(
            alloc,
            &ThreeRenderer,
            &world,
            &mut self.memo,
            &mut self.tally,
        )
    }

    fn comes_out(&mut self, alloc: Global, build: &Build) -> bool {
        let ends = match self.build(alloc, &build.site) {
            Ok(round) => is_done(&round, &build.end),
            Err(error) => is_failed(&error, &build.end),
        };
        ends && are_parts(self.tally.rendered(), build.rendered)
    }
}

fn is_done(round: &Round, end: &End) -> bool {
    match end {
        End::Done { outputs, why } => shows(round, outputs) && tells(round, why),
        End::Fault(_, _) => false,
    }
}

fn is_failed(error: &RoundError, end: &End) -> bool {
    match error {
        RoundError::Fault(fault) => is_fault(fault, end),
        RoundError::Memory => false,
    }
}

fn is_fault(fault: &SiteFault, end: &End) -> bool {
    match end {
        End::Done { outputs: _, why: _ } => false,
        End::Fault(line, kind) => {
            fault.path.text() == "a.html" && fault.line == *line && fault.kind == *kind
        }
    }
}

fn are_parts(names: &[ItemName], parts: &[u32]) -> bool {
    if names.len() != parts.len() {
        return false;
    }
    for place in 0..names.len() {
        if names[place].part != parts[place] {
            return false;
        }
    }
    true
}

fn reason_of(why: &Why) -> Reason {
    match &why.key {
        None => Reason::New,
        Some(Key::Var(_, _)) => Reason::Variable,
        Some(Key::Content(_)) => Reason::Content,
        Some(_) => Reason::Other,
    }
}

// Whether these parts were rendered in a round for these reasons, and the others of three were kept.
fn tells(round: &Round, parts: &[(u32, Reason)]) -> bool {
    let whys = round.why.as_slice();
    if whys.len() != parts.len() || round.reused as usize + parts.len() != 3 {
        return false;
    }
    for place in 0..whys.len() {
        let (part, want) = parts[place];
        if whys[place].name.part != part || reason_of(&whys[place]) != want {
            return false;
        }
    }
    true
}

// Whether the items have these outputs.
fn shows(round: &Round, outputs: &[&str]) -> bool {
    let outs = round.outs.as_slice();
    if outs.len() != outputs.len() {
        return false;
    }
    for place in 0..outs.len() {
        if !is_output(&outs[place], outputs[place]) {
            return false;
        }
    }
    true
}

fn is_output(outcome: &Outcome, want: &str) -> bool {
    match outcome {
        Outcome::Done { content: _, output } => output.as_str() == want,
        Outcome::Fault(_) => false,
    }
}

// Whether builds one after another come out as they say.
fn come_out(alloc: Global, builds: &[Build]) -> bool {
    let mut builder = Builder::new(alloc);
    for build in builds {
        if !builder.comes_out(alloc, build) {
            return false;
        }
    }
    true
}

const SITE: Site<'static> = Site {
    path: "a.html",
    source: Some("*x*"),
    variable: Variable::Text("y"),
    copied: 0,
};

// A second item without its variable, which is a fault.
const FAULTY: Site<'static> = Site {
    variable: Variable::Nil,
    ..SITE
};

const ALL_NEW: &[(u32, Reason)] = &[(0, Reason::New), (1, Reason::New), (2, Reason::New)];

const OUTPUTS: &[&str] = &["*x*", "y", "y"];

const FIRST: Build = Build {
    site: SITE,
    end: End::Done {
        outputs: OUTPUTS,
        why: ALL_NEW,
    },
    rendered: &[0, 1, 2],
};

const ONCE: &[Build] = &[FIRST];

#[test]
fn renders_all_at_first(rt: HostRuntime) {
    assert!(rt; come_out(rt.alloc(), ONCE));
}

const AGAIN: &[Build] = &[
    FIRST,
    Build {
        site: SITE,
        end: End::Done {
            outputs: OUTPUTS,
            why: &[],
        },
        rendered: &[0, 1, 2],
    },
];

#[test]
fn renders_nothing_again(rt: HostRuntime) {
    assert!(rt; come_out(rt.alloc(), AGAIN));
}

const OTHER_SOURCE: &[Build] = &[
    FIRST,
    Build {
        site: Site {
            source: Some("*z*"),
            ..SITE
        },
        end: End::Done {
            outputs: &["*z*", "y", "y"],
            why: &[(0, Reason::Content)],
        },
        rendered: &[0, 1, 2, 0],
    },
];

const OTHER_VARIABLE: &[Build] = &[
    FIRST,
    Build {
        site: Site {
            variable: Variable::Text("z"),
            ..SITE
        },
        end: End::Done {
            outputs: &["*x*", "z", "z"],
            why: &[(1, Reason::Variable), (2, Reason::Content)],
        },
        rendered: &[0, 1, 2, 1, 2],
    },
];

// Another variable, of which the same is made.
const SAME_OUTPUT: &[Build] = &[
    Build {
        site: Site {
            variable: Variable::Text("1"),
            ..SITE
        },
        end: End::Done {
            outputs: &["*x*", "1", "1"],
            why: ALL_NEW,
        },
        rendered: &[0, 1, 2],
    },
    Build {
        site: Site {
            variable: Variable::One,
            ..SITE
        },
        end: End::Done {
            outputs: &["*x*", "1", "1"],
            why: &[(1, Reason::Variable)],
        },
        rendered: &[0, 1, 2, 1],
    },
];

#[test]
fn renders_what_read_a_change(rt: HostRuntime) {
    assert!(rt; come_out(rt.alloc(), OTHER_SOURCE));
    assert!(rt; come_out(rt.alloc(), OTHER_VARIABLE));
    assert!(rt; come_out(rt.alloc(), SAME_OUTPUT));
}

const FOUND_LATER: &[Build] = &[
    Build {
        site: Site {
            source: None,
            ..SITE
        },
        end: End::Done {
            outputs: &["", "y", "y"],
            why: ALL_NEW,
        },
        rendered: &[0, 1, 2],
    },
    Build {
        site: SITE,
        end: End::Done {
            outputs: OUTPUTS,
            why: &[(0, Reason::Content)],
        },
        rendered: &[0, 1, 2, 0],
    },
];

#[test]
fn renders_what_found_nothing_before(rt: HostRuntime) {
    assert!(rt; come_out(rt.alloc(), FOUND_LATER));
}

// What stands before a fault is kept.
const FAULT_AT_FIRST: &[Build] = &[
    Build {
        site: FAULTY,
        end: End::Fault(1, FaultKind::Undefined),
        rendered: &[0, 1],
    },
    Build {
        site: SITE,
        end: End::Done {
            outputs: OUTPUTS,
            why: &[(1, Reason::New), (2, Reason::New)],
        },
        rendered: &[0, 1, 1, 2],
    },
];

// What was kept before stays behind a fault.
const FAULT_BETWEEN: &[Build] = &[
    FIRST,
    Build {
        site: FAULTY,
        end: End::Fault(1, FaultKind::Undefined),
        rendered: &[0, 1, 2, 1],
    },
    Build {
        site: SITE,
        end: End::Done {
            outputs: OUTPUTS,
            why: &[],
        },
        rendered: &[0, 1, 2, 1],
    },
];

#[test]
fn keeps_others_at_a_fault(rt: HostRuntime) {
    assert!(rt; come_out(rt.alloc(), FAULT_AT_FIRST));
    assert!(rt; come_out(rt.alloc(), FAULT_BETWEEN));
}

// Of 1,073,741,824 bytes, the first item takes six and each other two.
const FULL: &[Build] = &[Build {
    site: Site {
        copied: 1_073_741_814,
        ..SITE
    },
    end: End::Done {
        outputs: OUTPUTS,
        why: ALL_NEW,
    },
    rendered: &[0, 1, 2],
}];

const OVERFULL: &[Build] = &[
    Build {
        site: Site {
            copied: 1_073_741_817,
            ..SITE
        },
        end: End::Fault(0, FaultKind::TreeTooLong),
        rendered: &[0, 1],
    },
    Build {
        site: SITE,
        end: End::Done {
            outputs: OUTPUTS,
            why: &[(1, Reason::New), (2, Reason::New)],
        },
        rendered: &[0, 1, 1, 2],
    },
];

#[test]
fn makes_no_tree_that_is_too_long(rt: HostRuntime) {
    assert!(rt; come_out(rt.alloc(), FULL));
    assert!(rt; come_out(rt.alloc(), OVERFULL));
}

const ELSEWHERE: &[Build] = &[
    FIRST,
    Build {
        site: Site {
            path: "b.html",
            source: None,
            ..SITE
        },
        end: End::Done {
            outputs: &["", "y", "y"],
            why: ALL_NEW,
        },
        rendered: &[0, 1, 2, 0, 1, 2],
    },
    Build {
        site: SITE,
        end: End::Done {
            outputs: OUTPUTS,
            why: ALL_NEW,
        },
        rendered: &[0, 1, 2, 0, 1, 2, 0, 1, 2],
    },
];

#[test]
fn forgets_names_that_are_gone(rt: HostRuntime) {
    assert!(rt; come_out(rt.alloc(), ELSEWHERE));
}
