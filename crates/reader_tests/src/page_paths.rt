use pagination::page_path;
use site_base::Text;

#[test]
fn fills_patterns(rt: HostRuntime) {
    let rows = [
        ("/page:num", 2, "/page2"),
        ("/blog/page:num/", 10, "/blog/page10/"),
        ("page/:num", 4_294_967_295, "/page/4294967295"),
        (":num-:num", 7, "/7-7"),
        ("/é:num", 3, "/é3"),
        ("", 1, "/"),
    ];
    for (pattern, number, path) in rows {
        let text = page_path(rt.alloc(), pattern, number).unwrap_or_else(|_| Text::new(rt.alloc()));
        assert_eq!(rt; text.as_str(), path, "at {pattern:?}");
    }
}
