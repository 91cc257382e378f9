use out_tree::{MemoryOut, OutTree};
use site_base::SitePath;
use std::alloc::Global;

// Paths that are written one after another, and whether that succeeds.
static ROWS: [(&str, bool); 7] = [
    ("a/b", true),
    // A folder of a file, a path below a file, and the file itself.
    ("a", false),
    ("a/b/c", false),
    ("a/b", true),
    // Paths that only begin alike.
    ("a/bc", true),
    ("a.b", true),
    // The listed call.
    ("d", false),
];

fn writes(alloc: Global, out: &mut MemoryOut, path: &str) -> bool {
    match SitePath::read(alloc, path) {
        Ok(path) => out.write(&path, b"text").is_ok(),
        Err(_) => false,
    }
}

fn removes(alloc: Global, out: &mut MemoryOut, path: &str) -> bool {
    match SitePath::read(alloc, path) {
        Ok(path) => out.remove(&path).is_ok(),
        Err(_) => false,
    }
}

fn listed(alloc: Global, out: &mut MemoryOut) -> usize {
    match out.list(alloc) {
        Ok(paths) => paths.len(),
        Err(_) => 0,
    }
}

// Fails at its seventh call.
fn output(alloc: Global) -> Option<MemoryOut> {
    let mut fail = Vec::new(alloc);
    fail.push(7).ok()?;
    let out = MemoryOut::new(alloc, Vec::new(alloc), fail);
    Some(out)
}

#[test]
fn fails_where_a_path_stands_in_the_way(rt: HostRuntime) {
    let alloc = rt.alloc();
    let Some(mut out) = output(alloc) else {
        return assert!(rt; false, "no output");
    };
    assert!(rt; out.is_empty());
    for (path, succeeds) in &ROWS {
        assert!(rt; writes(alloc, &mut out, path) == *succeeds, "at {path}");
    }
    assert!(rt; out.len() == 3 && listed(alloc, &mut out) == 3);
    assert!(rt; removes(alloc, &mut out, "a/b") && writes(alloc, &mut out, "a/b/c"));
    assert!(rt; out.calls() == 10 && out.short() == 0);
}
