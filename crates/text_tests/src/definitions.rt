use cm_links::definition;
use site_base::Text;
use std::alloc::Global;

// Texts, with the label, the address, the title and the end of the definition at their front.
const DEFINITIONS: &[(&str, &str, &str, Option<&str>, usize)] = &[
    ("[a]: /u\n", "a", "/u", None, 8),
    (
        "[A  b]:\n <x y> 't&amp;'\nrest",
        "A  b",
        "x y",
        Some("t&"),
        24,
    ),
    ("[a]: /u\\* (t\n\\))", "a", "/u*", Some("t\n)"), 16),
    ("[a]: <> \nb", "a", "", None, 9),
    ("[a]: /u\n't' x\n", "a", "/u", None, 8),
    (
        "[a\\]]:/\u{e9} \"\u{e9}\"",
        "a\\]",
        "/\u{e9}",
        Some("\u{e9}"),
        14,
    ),
];

fn is_title(title: &Option<Text>, wanted: Option<&str>) -> bool {
    match (title, wanted) {
        (Some(title), Some(wanted)) => title.as_str() == wanted,
        (None, None) => true,
        _ => false,
    }
}

fn defines(
    alloc: Global,
    text: &str,
    label: &str,
    url: &str,
    title: Option<&str>,
    end: usize,
) -> bool {
    match definition(alloc, text) {
        Ok(Some(found)) => {
            found.label.as_str() == label
                && found.url.as_str() == url
                && is_title(&found.title, title)
                && found.end == end
        }
        _ => false,
    }
}

#[test]
fn definitions_are_read(rt: HostRuntime) {
    for (text, label, url, title, end) in DEFINITIONS {
        assert!(rt;
            defines(rt.alloc(), text, label, url, *title, *end),
            "{text}"
        );
    }
}

const OTHERS: &[&str] = &["", "[a]: /u 't' x"];

fn defines_nothing(alloc: Global, text: &str) -> bool {
    match definition(alloc, text) {
        Ok(None) => true,
        _ => false,
    }
}

#[test]
fn other_texts_are_none(rt: HostRuntime) {
    for text in OTHERS {
        assert!(rt; defines_nothing(rt.alloc(), text), "{text}");
    }
}
