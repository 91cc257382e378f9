use cm_links::reference;

const ROWS: &[(&str, usize, Option<(usize, char)>)] = &[
    ("a &hellip; b", 2, Some((10, '\u{2026}'))),
    ("&#X1f600;", 0, Some((9, '\u{1f600}'))),
    ("&#00000065;", 0, None),
];

fn is_read(text: &str, at: usize, wanted: Option<(usize, char)>) -> bool {
    if !text.is_char_boundary(at) {
        return false;
    }
    match reference(text, at) {
        Some(found) => wanted == Some((found.end, found.first)),
        None => wanted.is_none(),
    }
}

#[test]
fn references_stand_where_they_do(rt: HostRuntime) {
    for (text, at, wanted) in ROWS {
        assert!(rt; is_read(text, *at, *wanted), "{text}");
    }
}
