// Lines and containers, by the standard's rules.
use cm_containers::{Container, Matched, match_line};
use std::test::Fail;

const QUOTE: Container = Container::Quote;

fn item(indent: u128) -> Container {
    Container::Item {
        indent,
        mark: '-',
        start: 1,
    }
}

#[test]
fn lines_go_on_with_their_containers(rt: HostRuntime) -> Result<(), Fail> {
    let quotes = [QUOTE, QUOTE];
    let mixed = [QUOTE, item(2), QUOTE];
    let items = [item(4), item(4)];
    let rows: [(&[Container], &str, (u64, usize, u128)); 14] = [
        (&[], "a", (0, 0, 0)),
        (&quotes, "> > a", (2, 4, 4)),
        (&quotes, ">>a", (2, 2, 2)),
        (&quotes, "   >     > a", (1, 5, 5)),
        (&quotes, "    > a", (0, 0, 0)),
        (&quotes, "a", (0, 0, 0)),
        (&mixed, ">\t  b", (2, 2, 4)),
        (&mixed, ">   > \u{e9}", (3, 6, 6)),
        (&mixed, ">", (2, 1, 1)),
        (&items, "\tc", (1, 1, 4)),
        (&items, "\t\tc", (2, 2, 8)),
        (&items, "   c", (0, 0, 0)),
        (&items, "", (2, 0, 0)),
        (&items, "  \t ", (2, 4, 5)),
    ];
    for (open, line, (kept, at, column)) in rows {
        assert_eq!(rt;
            match_line(open, line),
            Matched { kept, at, column },
            "{line}"
        );
    }
    Ok(())
}
