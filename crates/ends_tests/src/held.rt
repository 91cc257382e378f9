// Files that are put, deleted and replaced.
use site_base::{Memory, SitePath};
use source_tree::{Held, PutError, paths_differ};
use std::alloc::Global;

fn file(alloc: Global, path: &str, bytes: Vec<u8>) -> Option<(SitePath, Vec<u8>)> {
    Some((SitePath::read(alloc, path).ok()?, bytes))
}

fn put(alloc: Global, held: &mut Held, path: &str, text: &str) -> Option<Result<(), PutError>> {
    let (path, bytes) = file(alloc, path, text.as_bytes().to_vec(alloc).ok()?)?;
    Some(held.put(path, bytes))
}

fn is_deleted(alloc: Global, held: &mut Held, path: &str) -> Option<bool> {
    let path = SitePath::read(alloc, path).ok()?;
    Some(held.delete(&path))
}

const PUTS: &[(&str, &str, Result<(), PutError>)] = &[
    ("a", "one", Ok(())),
    ("a-b", "two", Ok(())),
    ("a/b", "", Err(PutError::Clash)),
    ("c/d", "three", Ok(())),
    ("c", "", Err(PutError::Clash)),
    ("a", "four", Ok(())),
];

fn are_put(alloc: Global, held: &mut Held, rows: &[(&str, &str, Result<(), PutError>)]) -> bool {
    for (path, text, answer) in rows {
        if put(alloc, held, path, text) != Some(*answer) {
            return false;
        }
    }
    true
}

fn first_is(held: &Held, path: &str, text: &str) -> bool {
    if held.is_empty() {
        return false;
    }
    let (first, bytes) = held.at(0);
    first.text() == path && bytes == text.as_bytes()
}

#[test]
fn puts_and_deletes(rt: HostRuntime) {
    let alloc = rt.alloc();
    let mut held = Held::new(alloc);
    assert!(rt; are_put(alloc, &mut held, PUTS));
    assert!(rt; held.len() == 3 && first_is(&held, "a", "four"));
    assert!(rt; is_deleted(alloc, &mut held, "a") == Some(true));
    assert!(rt; is_deleted(alloc, &mut held, "a") == Some(false));
    assert!(rt; put(alloc, &mut held, "a/b", "") == Some(Ok(())));
}

fn put_zeros(alloc: Global, length: usize) -> Option<Result<(), PutError>> {
    let (path, bytes) = file(alloc, "big", vec![in alloc; 0; length].ok()?)?;
    Some(Held::new(alloc).put(path, bytes))
}

#[test]
fn refuses_a_file_that_is_too_long(rt: HostRuntime) {
    assert!(rt; put_zeros(rt.alloc(), 16_777_217) == Some(Err(PutError::FileTooLong)));
    assert!(rt; put_zeros(rt.alloc(), 16_777_216) == Some(Ok(())));
}

fn files(alloc: Global, paths: &[&str]) -> Option<Vec<(SitePath, Vec<u8>)>> {
    let mut files = Vec::new(alloc);
    for path in paths {
        files
            .push(file(alloc, path, b"x".to_vec(alloc).ok()?)?)
            .ok()?;
    }
    Some(files)
}

fn replace(alloc: Global, held: &mut Held, paths: &[&str]) -> Option<Result<(), PutError>> {
    let files = files(alloc, paths)?;
    match paths_differ(alloc, &files) {
        Ok(true) => Some(held.replace_all(alloc, files)),
        Ok(false) | Err(Memory) => None,
    }
}

#[test]
fn replaces_all_or_nothing(rt: HostRuntime) {
    let alloc = rt.alloc();
    let mut held = Held::new(alloc);
    assert!(rt; replace(alloc, &mut held, &["b", "a"]) == Some(Ok(())) && held.len() == 2);
    let clash = replace(alloc, &mut held, &["c/d", "c-d", "c"]);
    assert!(rt; clash == Some(Err(PutError::Clash)) && held.len() == 2);
    assert!(rt; replace(alloc, &mut held, &["e"]) == Some(Ok(())));
    assert!(rt; held.len() == 1 && first_is(&held, "e", "x"));
}
