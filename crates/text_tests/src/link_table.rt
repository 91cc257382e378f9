use cm_links::{Links, definition};
use site_base::Memory;
use std::alloc::Global;

fn three(alloc: Global) -> Result<Links, Memory> {
    let mut links = Links::new(alloc);
    for text in ["[Foo]: /one", "[bar]: /two", "[FOO]: /three"] {
        match definition(alloc, text)? {
            Some(found) => links.add(alloc, found)?,
            None => (),
        }
    }
    Ok(links)
}

const FOUND: &[(&str, Option<&str>)] = &[
    (" foo\n", Some("/one")),
    ("BAR", Some("/two")),
    ("baz", None),
];

fn leads(alloc: Global, links: &Links, label: &str, url: Option<&str>) -> bool {
    match links.find(alloc, label) {
        Ok(Some(found)) => url == Some(found.url.as_str()),
        Ok(None) => url.is_none(),
        Err(_) => false,
    }
}

#[test]
fn first_definitions_win(rt: HostRuntime) -> Result<(), Memory> {
    let links = three(rt.alloc())?;
    for (label, url) in FOUND {
        assert!(rt; leads(rt.alloc(), &links, label, *url), "{label}");
    }
    Ok(())
}
