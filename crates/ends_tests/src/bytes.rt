// What the calls answer for rows of values.
use site_base::{
    ByteSink, ByteSource, MemoryInput, MemorySink, PathError, PathMap, SharedBytes, SitePath, Text,
    Words,
};
use std::alloc::Global;

fn refusal(alloc: Global, text: &str) -> Option<PathError> {
    SitePath::read(alloc, text).err()
}

const PATHS: &[(&str, Option<PathError>)] = &[
    ("", Some(PathError::Empty)),
    ("/a", Some(PathError::Absolute)),
    ("a/../b", Some(PathError::DotSegment)),
    (".", Some(PathError::DotSegment)),
    ("a//..", Some(PathError::DotSegment)),
    ("a//b", Some(PathError::EmptySegment)),
    ("a/", Some(PathError::EmptySegment)),
    ("a\u{7f}", Some(PathError::Control)),
    ("a/b", None),
    ("...", None),
    ("caf\u{e9}.html", None),
];

#[test]
fn reads_paths(rt: HostRuntime) {
    for (text, want) in PATHS {
        assert!(rt; refusal(rt.alloc(), text) == *want, "at {text}");
    }
}

fn name(alloc: Global, len: u32) -> Option<String> {
    let mut name = String::new(alloc);
    for _ in 0..len {
        name.push('a').ok()?;
    }
    Some(name)
}

// What a path of so many bytes is refused for, and how many a path has that is read.
fn reading(alloc: Global, len: u32) -> Option<Result<usize, PathError>> {
    let name = name(alloc, len)?;
    match SitePath::read(alloc, name.as_str()) {
        Ok(path) => Some(Ok(path.text().len())),
        Err(refusal) => Some(Err(refusal)),
    }
}

#[test]
fn reads_long_paths(rt: HostRuntime) {
    assert!(rt; reading(rt.alloc(), 1024) == Some(Ok(1024)));
    assert!(rt; reading(rt.alloc(), 1025) == Some(Err(PathError::Long)));
}

fn put(alloc: Global, map: &mut PathMap<u8>, path: &str, value: u8) -> bool {
    match SitePath::read(alloc, path) {
        Ok(path) => map.put(path, value).is_ok(),
        Err(_) => false,
    }
}

const PUTS: &[(&str, u8)] = &[("b", 1), ("a/c", 2), ("a-c", 3), ("b", 4)];

const PLACES: &[(usize, &str, u8)] = &[(0, "a-c", 3), (1, "a/c", 2), (2, "b", 4)];

fn is_at(map: &PathMap<u8>, place: usize, want: &str, number: u8) -> bool {
    if place >= map.len() {
        return false;
    }
    let (path, value) = map.at(place);
    path.text() == want && *value == number
}

#[test]
fn keeps_a_map_of_paths(rt: HostRuntime) {
    let mut map = PathMap::new(rt.alloc());
    for (path, value) in PUTS {
        assert!(rt; put(rt.alloc(), &mut map, path, *value), "at {path}");
    }
    for (place, path, value) in PLACES {
        assert!(rt; is_at(&map, *place, path, *value), "at {path}");
    }
    assert!(rt; map.len() == 3);
}

fn has_below(alloc: Global, map: &PathMap<u8>, path: &str) -> bool {
    match SitePath::read(alloc, path) {
        Ok(path) => map.has_below(&path),
        Err(_) => false,
    }
}

fn has_folder(alloc: Global, map: &PathMap<u8>, path: &str) -> bool {
    match SitePath::read(alloc, path) {
        Ok(path) => map.has_folder(&path),
        Err(_) => false,
    }
}

fn clash(map: &PathMap<u8>) -> &str {
    match map.find_clash() {
        Some(path) => path.text(),
        None => "",
    }
}

// Whether the path is there, is taken away once, and is not there then.
fn removes(alloc: Global, map: &mut PathMap<u8>, path: &str) -> bool {
    match SitePath::read(alloc, path) {
        Ok(path) => map.remove(&path) && !map.remove(&path) && map.get(&path).is_none(),
        Err(_) => false,
    }
}

#[test]
fn finds_folders_in_a_map_of_paths(rt: HostRuntime) {
    let alloc = rt.alloc();
    let mut map = PathMap::new(alloc);
    for (path, value) in PUTS {
        assert!(rt; put(alloc, &mut map, path, *value), "at {path}");
    }
    assert!(rt; has_below(alloc, &map, "a") && has_folder(alloc, &map, "b/x"));
    assert!(rt; clash(&map).is_empty());
    assert!(rt; put(alloc, &mut map, "a", 5) && clash(&map) == "a");
    assert!(rt; removes(alloc, &mut map, "a"));
}

fn sink(alloc: Global) -> Option<MemorySink> {
    let fail = vec![in alloc; 2].ok()?;
    Some(MemorySink::new(alloc, fail))
}

#[test]
fn sinks_fail_at_listed_calls(rt: HostRuntime) {
    let Some(mut sink) = sink(rt.alloc()) else {
        return assert!(rt; false, "no sink");
    };
    assert!(rt; sink.write(b"one ").is_ok());
    assert!(rt; sink.write(b"two ").is_err());
    assert!(rt; sink.write(b"three").is_ok());
    assert!(rt; sink.bytes() == b"one three".as_slice());
    assert!(rt; sink.short() == 0);
}

fn input(alloc: Global) -> Option<MemoryInput> {
    let fail = vec![in alloc; 2].ok()?;
    let bytes = b"12345".to_vec(alloc).ok()?;
    Some(MemoryInput::new(bytes, fail))
}

// Whether a read of three bytes gives these.
fn gives(input: &mut MemoryInput, want: &[u8]) -> bool {
    let mut piece = [0; 3];
    match input.read(&mut piece) {
        Ok(count) => piece.get(..count) == Some(want),
        Err(_) => false,
    }
}

fn fails(input: &mut MemoryInput) -> bool {
    let mut piece = [0; 3];
    input.read(&mut piece).is_err()
}

#[test]
fn inputs_fail_at_listed_calls(rt: HostRuntime) {
    let Some(mut input) = input(rt.alloc()) else {
        return assert!(rt; false, "no input");
    };
    assert!(rt; gives(&mut input, b"123"));
    assert!(rt; fails(&mut input));
    assert!(rt; gives(&mut input, b"45"));
    assert!(rt; gives(&mut input, b""));
}

// The text of these pieces, pushed one after another.
fn text_of(alloc: Global, pieces: &[&str]) -> Option<Text> {
    let mut text = Text::new(alloc);
    for piece in pieces {
        text.push_str(piece).ok()?;
    }
    Some(text)
}

// Whether the pieces make this text, also where it is copied and taken apart to its bytes.
fn make(alloc: Global, pieces: &[&str], want: &str) -> bool {
    match text_of(alloc, pieces) {
        Some(text) => {
            text.as_str() == want
                && text.len() == want.len()
                && is_copied(alloc, &text)
                && has_bytes(text, want.as_bytes())
        }
        None => false,
    }
}

fn is_copied(alloc: Global, text: &Text) -> bool {
    match Text::copy(alloc, text.as_str()) {
        Ok(copy) => copy.as_str() == text.as_str() && copy.len() == text.len(),
        Err(_) => false,
    }
}

fn has_bytes(text: Text, want: &[u8]) -> bool {
    match text.into_bytes() {
        Ok(bytes) => bytes.as_slice() == want,
        Err(_) => false,
    }
}

// Texts of fourteen bytes and more.
const PIECES: &[(&[&str], &str)] = &[
    (&["a", "\u{e9}"], "a\u{e9}"),
    (&["twelve bytes", "\u{e9}"], "twelve bytes\u{e9}"),
    (&["twelve bytes", "\u{e9}", "!"], "twelve bytes\u{e9}!"),
    (
        &["twelve bytes", "\u{e9}", "!", "?"],
        "twelve bytes\u{e9}!?",
    ),
];

#[test]
fn texts_grow_out_of_their_place(rt: HostRuntime) {
    for (pieces, want) in PIECES {
        assert!(rt; make(rt.alloc(), pieces, want), "no {want}");
    }
}

fn is_taken(alloc: Global, want: &str) -> bool {
    let Ok(string) = want.to_string(alloc) else {
        return false;
    };
    match Text::from_string(string) {
        Ok(text) => text.as_str() == want && text.as_bytes().len() == want.len(),
        Err(_) => false,
    }
}

#[test]
fn strings_are_taken_as_texts(rt: HostRuntime) {
    assert!(rt; is_taken(rt.alloc(), "twelve bytes\u{e9}"));
    assert!(rt; is_taken(rt.alloc(), "twelve bytes\u{e9}!?"));
}

fn words(alloc: Global) -> Option<Words> {
    let mut words = Words::new(alloc);
    words.push(alloc, "once").ok()?;
    words.push(alloc, "more").ok()?;
    Some(words)
}

fn is_word(words: &Words, place: u64, want: &str) -> bool {
    place < words.len() && words.at(place) == want
}

#[test]
fn joins_words(rt: HostRuntime) {
    match words(rt.alloc()) {
        Some(words) => assert!(rt; words.len() == 2 && is_word(&words, 1, "more")),
        None => assert!(rt; false, "no words"),
    }
}

const LONG: &str = "a text of more bytes than fourteen";

const TEXTS: &[&str] = &["", "fourteen bytes", LONG];

// Whether a second holder has the text, and what is pushed onto it stands in it alone.
fn shares(alloc: Global, first: &Text, text: &str) -> bool {
    let Ok(mut second) = first.share(alloc) else {
        return false;
    };
    second.push_str(" and more").is_ok()
        && first.as_str() == text
        && second.as_str().strip_suffix(" and more") == Some(text)
}

fn gives_its_bytes(alloc: Global, first: &Text, text: &str) -> bool {
    match first.share(alloc) {
        Ok(third) => has_bytes(third, text.as_bytes()),
        Err(_) => false,
    }
}

fn is_shared(alloc: Global, first: Option<Text>, text: &str) -> bool {
    match first {
        Some(first) => shares(alloc, &first, text) && gives_its_bytes(alloc, &first, text),
        None => false,
    }
}

fn copied_then_shared(alloc: Global, text: &str) -> Option<Text> {
    let copy = Text::copy(alloc, text).ok()?;
    copy.into_shared().ok()
}

#[test]
fn holders_share_a_text(rt: HostRuntime) {
    for text in TEXTS {
        let alloc = rt.alloc();
        assert!(rt;
            is_shared(alloc, Text::copy(alloc, text).ok(), text),
            "at {text}"
        );
        assert!(rt;
            is_shared(alloc, Text::shared(alloc, text).ok(), text),
            "at {text}"
        );
        assert!(rt;
            is_shared(alloc, copied_then_shared(alloc, text), text),
            "at {text}"
        );
    }
}

fn file_of(alloc: Global, text: &str) -> Option<(SharedBytes, Text)> {
    let bytes = text.as_bytes().to_vec(alloc).ok()?;
    let file = SharedBytes::from_vec(alloc, bytes).ok()?;
    let end = Text::end_of(alloc, &file, 0, text).ok()?;
    Some((file, end))
}

#[test]
fn texts_share_the_bytes_of_a_file(rt: HostRuntime) {
    match file_of(rt.alloc(), LONG) {
        Some((file, text)) => {
            assert!(rt; shares(rt.alloc(), &text, LONG));
            assert!(rt; has_bytes(text, file.as_slice()));
        }
        None => assert!(rt; false, "no file"),
    }
}
