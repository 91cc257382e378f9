use pagination::page_count;

#[test]
fn counts_pages(rt: HostRuntime) {
    let rows = [
        (0, 5, 0),
        (1, 5, 1),
        (5, 5, 1),
        (6, 5, 2),
        (4_294_967_295, 2, 2_147_483_648),
    ];
    for (posts, per_page, pages) in rows {
        assert!(rt; per_page >= 1);
        assert_eq!(rt;
            page_count(posts, per_page),
            pages,
            "at {posts} by {per_page}"
        );
    }
}
