use front_yaml::{Front, split_front};

// Where front matter starts and ends, and where the body starts; no output shows these places.
const PAGES: &[(&str, usize, usize, usize)] = &[
    ("---\ntitle: Hi\n---\n<h1>", 4, 14, 18),
    ("\u{feff}---\na: b\n---\n", 7, 12, 16),
];

fn is_page(text: &str, start: usize, end: usize, start_of_body: usize) -> bool {
    match split_front(text.as_bytes()) {
        Front::Page {
            yaml_start,
            yaml_end,
            body,
        } => yaml_start == start && yaml_end == end && body == start_of_body,
        _ => false,
    }
}

#[test]
fn splits_files(rt: HostRuntime) {
    for (text, start, end, body) in PAGES {
        assert!(rt; is_page(text, *start, *end, *body), "at {text}");
    }
}

const OTHERS: &[(&str, Front)] = &[
    ("---\ntitle: x", Front::Open),
    ("----\n---\n", Front::Plain),
];

#[test]
fn leaves_others_whole(rt: HostRuntime) {
    for (text, front) in OTHERS {
        assert!(rt; split_front(text.as_bytes()) == *front, "at {text}");
    }
}
