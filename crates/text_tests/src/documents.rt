// What HTML may be made of; tests/markdown has the rows.
use cm_print::{CommonMark, Convert, HtmlError, to_html};
use std::alloc::Global;

// No text of these tests has longer HTML.
const MOST: u64 = 1_000_000;

fn is_html(alloc: Global, text: &str, most: u64, wanted: &str) -> bool {
    match to_html(alloc, text, most) {
        Ok(found) => found.as_str() == wanted,
        Err(_) => false,
    }
}

fn is_too_long(alloc: Global, text: &str, most: u64) -> bool {
    match to_html(alloc, text, most) {
        Err(HtmlError::TooLong) => true,
        _ => false,
    }
}

#[test]
fn no_more_than_may(rt: HostRuntime) {
    assert!(rt; is_html(rt.alloc(), "", 0, ""));
    assert!(rt; is_html(rt.alloc(), "a", 9, "<p>a</p>\n"));
    for most in 0..9 {
        assert!(rt; is_too_long(rt.alloc(), "a", most), "{most}");
    }
}

fn converts(alloc: Global, text: &str, wanted: &str) -> bool {
    match CommonMark.html(alloc, text, MOST) {
        Ok(found) => found.as_str() == wanted,
        Err(_) => false,
    }
}

fn refuses(alloc: Global, text: &str, most: u64) -> bool {
    match CommonMark.html(alloc, text, most) {
        Err(HtmlError::TooLong) => true,
        _ => false,
    }
}

#[test]
fn converted(rt: HostRuntime) {
    assert!(rt; converts(rt.alloc(), "*a*", "<p><em>a</em></p>\n"));
    assert!(rt; refuses(rt.alloc(), "*a*", 3));
}
