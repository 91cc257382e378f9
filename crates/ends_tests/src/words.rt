// Command lines, each with what it orders. How many threads it orders, and the number of a site that is made up, no reply shows.
use site_base::{Settings, Words};
use site_words::{Options, Order, UsageKind, WordsError, read_words};
use std::alloc::Global;

const NO_SETTINGS: Settings = Settings {
    drafts: false,
    future: false,
};

const DRAFTS: Settings = Settings {
    drafts: true,
    future: false,
};

const FUTURE: Settings = Settings {
    drafts: false,
    future: true,
};

const BOTH: Settings = Settings {
    drafts: true,
    future: true,
};

// What a line orders whose words stand between single spaces.
fn order_of(alloc: Global, line: &str) -> Result<Order, WordsError> {
    let mut words = Words::new(alloc);
    for word in line.split(' ') {
        if words.push(alloc, word).is_err() {
            return Err(WordsError::Memory);
        }
    }
    read_words(alloc, &words)
}

fn options(jobs: u32, settings: Settings, why: bool) -> Options {
    Options {
        jobs,
        settings,
        why,
    }
}

// How many of the lines order something else than this.
fn other_orders(alloc: Global, lines: &[&str], order: Order) -> u32 {
    let mut others: u32 = 0;
    for line in lines.iter() {
        if order_of(alloc, line) != Ok(order) {
            others = others.saturating_add(1);
        }
    }
    others
}

#[test]
fn builds_and_sessions(rt: HostRuntime) {
    let alloc = rt.alloc();
    let plain = Order::Build(options(1, NO_SETTINGS, false));
    assert!(rt;
        other_orders(
            alloc,
            &[
                "build",
                "build --jobs 1",
                "build --jobs=1",
                "build --jobs=+1",
                "build --jobs 0001"
            ],
            plain
        ) == 0
    );
    let seven = Order::Session(options(7, DRAFTS, false));
    assert!(rt;
        other_orders(
            alloc,
            &[
                "session --jobs 7 --drafts",
                "session --drafts --jobs=7",
                "session --drafts --jobs +07"
            ],
            seven
        ) == 0
    );
    let all = Order::Build(options(64, BOTH, true));
    assert!(rt;
        other_orders(
            alloc,
            &[
                "build --jobs 64 --drafts --future --why",
                "build --why --future --drafts --jobs=64",
                "build --future --jobs 64 --why --drafts"
            ],
            all
        ) == 0
    );
    assert!(rt;
        other_orders(
            alloc,
            &["session --why --future"],
            Order::Session(options(1, FUTURE, true))
        ) == 0
    );
}

#[test]
fn once_and_check(rt: HostRuntime) {
    let alloc = rt.alloc();
    assert!(rt; other_orders(alloc, &["once"], Order::Once(NO_SETTINGS)) == 0);
    assert!(rt;
        other_orders(
            alloc,
            &["once --drafts --future", "once --future --drafts"],
            Order::Once(BOTH)
        ) == 0
    );
    assert!(rt; other_orders(alloc, &["check --drafts"], Order::Check(DRAFTS)) == 0);
    assert!(rt; other_orders(alloc, &["check --future"], Order::Check(FUTURE)) == 0);
}

#[test]
fn makes_a_site(rt: HostRuntime) {
    let alloc = rt.alloc();
    assert!(rt;
        other_orders(
            alloc,
            &["make 0 1", "make +0 +1", "make 00 01"],
            Order::Make(0, 1)
        ) == 0
    );
    assert!(rt;
        other_orders(
            alloc,
            &["make 18446744073709551615 1000"],
            Order::Make(18_446_744_073_709_551_615, 1000)
        ) == 0
    );
}

// A line of each kind of fault that words can have.
const WRONG: &[(&str, UsageKind)] = &[
    ("builds", UsageKind::Command),
    ("once --jobs 2", UsageKind::Option),
    ("make 1 1001", UsageKind::Number),
];

#[test]
fn wrong_lines(rt: HostRuntime) {
    let alloc = rt.alloc();
    assert!(rt;
        read_words(alloc, &Words::new(alloc)) == Err(WordsError::Usage(UsageKind::Missing))
    );
    for (line, kind) in WRONG {
        assert!(rt;
            order_of(alloc, line) == Err(WordsError::Usage(*kind)),
            "at {line}"
        );
    }
}

#[test]
fn numbers_of_kinds(rt: HostRuntime) {
    assert!(rt;
        UsageKind::Missing.number() == 1
            && UsageKind::Command.number() == 2
            && UsageKind::Option.number() == 3
    );
    assert!(rt; UsageKind::Number.number() == 4 && UsageKind::Moment.number() == 5);
}
