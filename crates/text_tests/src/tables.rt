// Tables as lists of their cells; tests/markdown has the rows of what they are.
use cm_links::Links;
use cm_tables::read_table;
use site_base::Memory;
use std::alloc::Global;

// How many cells the table of a text has, the header's among them.
fn cells(alloc: Global, text: &str) -> Result<usize, Memory> {
    let mut texts = Vec::new(alloc);
    match read_table(alloc, text, &Links::new(alloc), &mut texts)? {
        Some(table) => Ok(table.cells.len()),
        None => Ok(0),
    }
}

fn has_cells(alloc: Global, text: &str, count: usize) -> bool {
    match cells(alloc, text) {
        Ok(found) => found == count,
        Err(_) => false,
    }
}

// A row has as many cells as there are columns.
const COUNTS: &[(&str, usize)] = &[
    ("a|b\n-|-\n1|2|3\n4", 6),
    ("a|b\n-|-", 2),
    ("a|b\n-|-|-", 0),
    ("a|b", 0),
];

#[test]
fn counts(rt: HostRuntime) {
    for (text, count) in COUNTS {
        assert!(rt; has_cells(rt.alloc(), text, *count));
    }
}
