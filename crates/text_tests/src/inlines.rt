// How many inlines there are; tests/markdown has the rows of what they are.
use cm_inlines::{Node, read_inlines};
use cm_links::Links;
use site_base::Memory;
use std::alloc::{AllocError, Global};

fn has_nodes(alloc: Global, text: &str, count: usize) -> bool {
    match read_inlines(alloc, text, &Links::new(alloc)) {
        Ok(inlines) => inlines.nodes().len() == count,
        Err(_) => false,
    }
}

#[test]
fn empty(rt: HostRuntime) {
    assert!(rt; has_nodes(rt.alloc(), "", 0));
}

// How often something opens in texts that are meant to be slow; the numbers are those of cmark, where an image in an image
// counts too. Were a part of the reading to take the square of its text, these would take minutes.
const TIMES: usize = 100_000;

fn opens(node: &Node) -> bool {
    matches!(
        node,
        Node::OpenEmphasis | Node::OpenStrong | Node::OpenLink(_) | Node::OpenImage(_)
    )
}

// The first part again and again, the middle once, and the second part again and again.
fn repeated(alloc: Global, first: &str, middle: &str, second: &str) -> Result<String, AllocError> {
    let mut text = String::new(alloc);
    for _ in 0..TIMES {
        text.push_str(first)?;
    }
    text.push_str(middle)?;
    for _ in 0..TIMES {
        text.push_str(second)?;
    }
    Ok(text)
}

fn opened(alloc: Global, text: &str) -> Result<usize, Memory> {
    let links = Links::new(alloc);
    let inlines = read_inlines(alloc, text, &links)?;
    Ok(inlines.nodes().iter().filter(|node| opens(node)).count())
}

fn opens_so_often(alloc: Global, first: &str, middle: &str, second: &str, count: usize) -> bool {
    match repeated(alloc, first, middle, second) {
        Ok(text) => match opened(alloc, text.as_str()) {
            Ok(found) => found == count,
            Err(_) => false,
        },
        Err(_) => false,
    }
}

const MANY_BRACKETS: &[(&str, &str, &str, usize)] = &[
    ("[", "", "]", 0),
    ("![", "", "](a)", TIMES),
    ("[a](b)", "", "", TIMES),
    ("](", "", "", 0),
    ("![", "", "[a](b)", TIMES),
    ("[", "[a](b)", "]", 1),
    ("[*a", "", "]", 0),
];

#[test]
fn many_brackets(rt: HostRuntime) {
    for (first, middle, second, count) in MANY_BRACKETS {
        assert!(rt;
            opens_so_often(rt.alloc(), first, middle, second, *count),
            "{first}"
        );
    }
}

const MANY_MARKS: &[(&str, &str, &str, usize)] = &[
    ("*a_ ", "", "", 0),
    ("*a_ ", "", "a* ", TIMES),
    ("*a **b ", "", "c** d* ", 2 * TIMES),
    ("a**b", "", "", TIMES / 2),
    ("c*_", "", "", 1),
    ("*", "a", "*", TIMES / 2),
    ("a*b**c***d_", "", "", 2 * TIMES),
];

#[test]
fn many_marks(rt: HostRuntime) {
    for (first, middle, second, count) in MANY_MARKS {
        assert!(rt;
            opens_so_often(rt.alloc(), first, middle, second, *count),
            "{first}"
        );
    }
}

const MANY_OF_BOTH: &[(&str, &str, &str, usize)] = &[
    ("*![", "", "](a)*", 2 * TIMES),
    ("*[", "", "](a)", TIMES / 2 + 1),
    ("[*a ", "", "a*](b)", TIMES + 1),
];

#[test]
fn many_of_both(rt: HostRuntime) {
    for (first, middle, second, count) in MANY_OF_BOTH {
        assert!(rt;
            opens_so_often(rt.alloc(), first, middle, second, *count),
            "{first}"
        );
    }
}
