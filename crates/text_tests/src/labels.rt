use cm_links::{fold_label, link_label};
use std::alloc::{AllocError, Global};
use std::test::Fail;

const FOLDED: &[(&str, &str)] = &[(" A\n b ", "a b"), ("", ""), ("\u{1e9e}x", "ssx")];

fn is_folded(alloc: Global, label: &str, wanted: &str) -> bool {
    match fold_label(alloc, label) {
        Ok(folded) => folded.as_str() == wanted,
        Err(_) => false,
    }
}

#[test]
fn labels_are_folded(rt: HostRuntime) {
    for (label, folded) in FOLDED {
        assert!(rt; is_folded(rt.alloc(), label, folded), "{label}");
    }
}

const LENGTHS: &[(&str, Option<usize>)] = &[
    ("[a]", Some(3)),
    ("[a\\]b] c", Some(6)),
    ("[\u{e9}]", Some(4)),
    ("[ \n]", None),
    ("[]", None),
    ("[a[b]", None),
    ("[a", None),
    ("a]", None),
];

fn has_label(text: &str, len: Option<usize>) -> bool {
    link_label(text) == len
}

#[test]
fn labels_end(rt: HostRuntime) {
    for (text, len) in LENGTHS {
        assert!(rt; has_label(text, *len), "{text}");
    }
}

fn of_characters(alloc: Global, count: usize) -> Result<String, AllocError> {
    let mut text = String::from_str(alloc, "[")?;
    for _ in 0..count {
        text.push_str("\u{e9}")?;
    }
    text.push_str("]")?;
    Ok(text)
}

#[test]
fn long_labels(rt: HostRuntime) -> Result<(), Fail> {
    assert!(rt; has_label(of_characters(rt.alloc(), 999)?.as_str(), Some(2_000)));
    assert!(rt; has_label(of_characters(rt.alloc(), 1_000)?.as_str(), None));
    Ok(())
}
