// Scans of sources in memory.
use site_base::{FaultKind, Memory, SitePath};
use source_tree::{Held, MemorySource, ScanError, paths_stand_apart};
use std::alloc::Global;

// A source of these files, which fails at listed calls.
fn source_of_files(
    alloc: Global,
    files: Vec<(SitePath, Vec<u8>)>,
    fail: &[u64],
) -> Option<MemorySource> {
    match paths_stand_apart(alloc, &files) {
        Ok(true) => Some(MemorySource::new(files, fail.to_vec(alloc).ok()?)),
        Ok(false) | Err(Memory) => None,
    }
}

fn file(alloc: Global, path: &str, bytes: Vec<u8>) -> Option<(SitePath, Vec<u8>)> {
    Some((SitePath::read(alloc, path).ok()?, bytes))
}

// Short files, the last path first.
fn numbered_files(alloc: Global, count: u32) -> Option<Vec<(SitePath, Vec<u8>)>> {
    let mut files = Vec::new(alloc);
    for number in (0..count).rev() {
        let path = format!(in alloc; "f{number:05}").ok()?;
        let bytes = b"x".to_vec(alloc).ok()?;
        files.push(file(alloc, path.as_str(), bytes)?).ok()?;
    }
    Some(files)
}

fn scan_numbered(
    alloc: Global,
    held: &mut Held,
    count: u32,
    fail: &[u64],
) -> Option<Result<u32, ScanError>> {
    let files = numbered_files(alloc, count)?;
    let mut source = source_of_files(alloc, files, fail)?;
    Some(held.scan(alloc, &mut source))
}

// Whether a scan gave up at this path.
fn is_limit(scan: Option<Result<u32, ScanError>>, path: &str, kind: FaultKind) -> bool {
    match scan {
        Some(Err(ScanError::Limit(fault))) => {
            fault.path.text() == path && fault.kind == kind && fault.line == 0
        }
        _ => false,
    }
}

#[test]
fn scans_as_many_files_as_may_be_held(rt: HostRuntime) {
    let alloc = rt.alloc();
    let mut held = Held::new(alloc);
    assert!(rt;
        matches!(
            scan_numbered(alloc, &mut held, 50_000, &[]),
            Some(Ok(50_000))
        )
    );
    let scan = scan_numbered(alloc, &mut held, 50_001, &[]);
    assert!(rt; is_limit(scan, "f50000", FaultKind::TooManyFiles) && held.len() == 50_000);
}

fn scan_long_file(alloc: Global, held: &mut Held) -> Option<Result<u32, ScanError>> {
    let mut files = Vec::new(alloc);
    files
        .push(file(alloc, "small", b"x".to_vec(alloc).ok()?)?)
        .ok()?;
    let bytes = vec![in alloc; 0; 16_777_217].ok()?;
    files.push(file(alloc, "big", bytes)?).ok()?;
    let mut source = source_of_files(alloc, files, &[])?;
    Some(held.scan(alloc, &mut source))
}

#[test]
fn answers_a_file_that_is_too_long(rt: HostRuntime) {
    let mut held = Held::new(rt.alloc());
    let scan = scan_long_file(rt.alloc(), &mut held);
    assert!(rt; is_limit(scan, "big", FaultKind::FileTooLong) && held.is_empty());
}

// Whether a scan of three files fails at this call, and the next one of the same source has them.
fn fails_once(alloc: Global, call: u64) -> Option<bool> {
    let files = numbered_files(alloc, 3)?;
    let mut source = source_of_files(alloc, files, &[call])?;
    let mut held = Held::new(alloc);
    let failed = matches!(held.scan(alloc, &mut source), Err(ScanError::Failed));
    let none = held.is_empty();
    Some(failed && none && matches!(held.scan(alloc, &mut source), Ok(3)))
}

// One list and three reads; a later scan counts on.
#[test]
fn fails_at_each_listed_call(rt: HostRuntime) {
    assert!(rt; (1..5).all(|call| fails_once(rt.alloc(), call) == Some(true)));
}
