// What is looked up, in order.
use crate::rows::{EXCERPT, LAYOUT, asks, asks_at};
use std::test::Fail;

const BY_NAMES_AND_FILTERS: &[(&str, &str)] = &[
    ("plain {{ 1 }}{{ page }}{{ site }}{{ jekyll.version }}", ""),
    (
        "{{ nope }}{{ content }}{{ layout }}{{ include.x }}{{ site[0] }}",
        "site liquid",
    ),
    (
        "{{ page.title }}{{ page.title }}{{ page.num }}{{ page[\"title\"] }}",
        "var p.html title, var p.html num",
    ),
    (
        "{{ page.content }}{{ page.output }}{{ site.posts[2].content }}",
        "content p.html, output p.html, site posts, content _posts/2024-01-01-first.md",
    ),
    (
        "{{ site.title }}{{ site.data.people[0].name }}{{ site.data.conf }}{{ site.nope.a }}",
        "site title, data people, data conf, site nope, site liquid",
    ),
    (
        "{{ site.data.people.size }}{{ site.data.people.first.name }}{{ site[\"data\"][\"conf\"][\"x y\"] }}{{ site.data.conf.size.x }}{{ site.data.a.b.c }}",
        "data people, data conf.x y, data conf, site liquid, data a.b.c",
    ),
    (
        "{{ site.data.first }}{{ site.data[\"last\"].a }}{{ site.data[nil] }}{{ site.data }}{{ site.data.conf[true].a }}",
        "data, site liquid, data conf",
    ),
    (
        "{{ site.data[page.title].a[site.data.conf.a] }}{{ site.data.people[page.zero] }}",
        "var p.html title, data conf.a, data Page.a, site liquid, var p.html zero, data people",
    ),
    (
        "{{ (site.data.conf.a..page.num) }}{% assign d = site.data %}{{ d.people.size }}",
        "data conf.a, var p.html num, data",
    ),
    ("{{ site.time }}", "moment, site timezone"),
    ("{{ site.related_posts }}{{ site.posts }}", "site posts"),
    (
        "{{ paginator.page }}{{ paginator.posts.size }}",
        "paginator p.html",
    ),
    (
        "{{ site.posts[0].excerpt }}",
        "site posts, var _posts/2024-01-03-third.html excerpt, site documents, var _posts/2024-01-03-third.html excerpt_separator, source _posts/2024-01-03-third.html, var _posts/2024-01-03-third.html title, var _posts/2024-01-03-third.html ext, site markdown_ext",
    ),
    (
        "{{ site.posts[1].excerpt }}",
        "site posts, var _posts/2024-01-02-second.md excerpt",
    ),
    (
        "{{ site.posts[2].excerpt }}",
        "site posts, var _posts/2024-01-01-first.md excerpt, site documents, var _posts/2024-01-01-first.md excerpt_separator, site excerpt_separator, source _posts/2024-01-01-first.md, var _posts/2024-01-01-first.md title, var _posts/2024-01-01-first.md ext, site markdown_ext",
    ),
    ("{{ page.excerpt }}", "var p.html excerpt, site documents"),
    (
        "{{ site.faulty[0].excerpt }}",
        "site faulty, var _posts/2023-02-01-fault.md excerpt, site documents, var _posts/2023-02-01-fault.md excerpt_separator, site excerpt_separator, source _posts/2023-02-01-fault.md",
    ),
    (
        "{{ site.faulty[3].excerpt }}",
        "site faulty, var _posts/2023-02-04-self.html excerpt, site documents, var _posts/2023-02-04-self.html excerpt_separator, source _posts/2023-02-04-self.html, var _posts/2023-02-04-self.html title, site posts, source _posts/2024-01-01-first.md, var _posts/2023-02-04-self.html ext, site markdown_ext",
    ),
    ("{% link p.html %}", "link p.html, site baseurl"),
    ("{% link {{ page.file }} %}", "var p.html file, site liquid"),
    ("{% link no.md %}", "link no.md"),
    ("{% link away.html %}", "link away.html"),
    ("{% link ../p.html %}", ""),
    (
        "{% post_url 2024-01-01-first %}{% post_url 2024-01-01-first %}",
        "post 2024-01-01-first, site baseurl",
    ),
    (
        "{{ \"a\" | relative_url }}{{ \"http://x\" | relative_url }}",
        "site baseurl",
    ),
    (
        "{{ \"http://x\" | absolute_url }}{{ page.title | relative_url: 1 }}",
        "var p.html title",
    ),
    (
        "{{ page.title | absolute_url }}",
        "var p.html title, site url, site baseurl",
    ),
    (
        "{{ nil | date: \"%F\" }}{{ true | date: \"%F\" }}{{ 0 | date: \"\" }}{{ site | date: \"%F\" }}{{ \"2024-01-01\" | date }}",
        "",
    ),
    (
        "{{ \"2024-01-01\" | date: \"%F\" }}{{ \"today\" | date_to_string }}",
        "site timezone, moment",
    ),
    (
        "{{ \"now\" | date: page.title }}",
        "var p.html title, moment, site timezone",
    ),
    ("{{ \"nope\" | date: \"%Q\" }}", "site timezone"),
    (
        "{{ site.posts | where: \"rating\", 3 | size }}",
        "site posts, var _posts/2024-01-03-third.html rating, var _posts/2024-01-02-second.md rating, var _posts/2024-01-01-first.md rating",
    ),
    (
        "{{ site.posts | sort: \"title\" | map: \"title\" | first }}",
        "site posts, var _posts/2024-01-03-third.html title, var _posts/2024-01-02-second.md title, var _posts/2024-01-01-first.md title",
    ),
    (
        "{{ site.posts | group_by: \"rating\" | size }}{{ site.goods | where: \"kind\", \"x\" }}",
        "site posts, var _posts/2024-01-03-third.html rating, var _posts/2024-01-02-second.md rating, var _posts/2024-01-01-first.md rating, site goods",
    ),
    (
        "{{ site.posts | map: \"content\" | size }}",
        "site posts, content _posts/2024-01-03-third.html, content _posts/2024-01-02-second.md, content _posts/2024-01-01-first.md",
    ),
    (
        "{{ site.posts | uniq: \"output\" | size }}",
        "site posts, output _posts/2024-01-03-third.html, output _posts/2024-01-02-second.md, output _posts/2024-01-01-first.md",
    ),
    (
        "{{ site.posts | compact: \"excerpt\" | size }}",
        "site posts, var _posts/2024-01-03-third.html excerpt, var _posts/2024-01-02-second.md excerpt, var _posts/2024-01-01-first.md excerpt",
    ),
    (
        "{{ site.posts | jsonify }}",
        "site posts, var _posts/2024-01-03-third.html url, var _posts/2024-01-02-second.md url, var _posts/2024-01-01-first.md url",
    ),
    (
        "{{ site.posts | sort: \"title\", \"middle\" }}",
        "site posts",
    ),
    ("{{ site.posts | where: \"title\" }}", "site posts"),
    ("{{ \"a\" | nope: page.title, site.x }}", "site liquid"),
    (
        "{{ page.a | nope: page.b | default: page.c }}",
        "var p.html a, site liquid, var p.html c",
    ),
];

#[test]
fn names_and_filters_look_up(rt: HostRuntime) -> Result<(), Fail> {
    for (template, wanted) in BY_NAMES_AND_FILTERS {
        assert!(rt; asks(rt.alloc(), template, wanted), "at {template}");
    }
    Ok(())
}

const BY_TAGS: &[(&str, &str)] = &[
    (
        "{{ page.a | append: page.b | replace: page.c, page.d | plus: page.e }}",
        "var p.html a, site liquid, var p.html b, var p.html c, var p.html d",
    ),
    (
        "{{ 1 | plus: page.num, page.zero }}",
        "var p.html num, var p.html zero",
    ),
    (
        "{% if page.flag or page.nay %}{% endif %}{% if page.nay and page.title %}{% endif %}",
        "var p.html flag, var p.html nay",
    ),
    (
        "{% if page.nay or page.flag and page.title %}{% endif %}",
        "var p.html nay, var p.html flag, var p.html title",
    ),
    (
        "{% if page.flag == page.nay and page.title %}{% endif %}",
        "var p.html flag, var p.html nay",
    ),
    (
        "{% if page.flag or page.a and page.b %}{% endif %}{% if page.nay and page.c or page.d %}{% endif %}",
        "var p.html flag, var p.html nay",
    ),
    (
        "{% if page.nay %}{{ page.a }}{% elsif page.flag %}{{ page.b }}{% elsif page.c %}{% else %}{{ page.d }}{% endif %}",
        "var p.html nay, var p.html flag, var p.html b, site liquid",
    ),
    (
        "{% unless page.flag %}{{ page.a }}{% elsif page.nay %}{{ page.b }}{% else %}{{ page.c }}{% endunless %}",
        "var p.html flag, var p.html nay, var p.html c, site liquid",
    ),
    (
        "{% case page.num %}{{ page.z }}{% when page.a, page.num, page.b %}{{ page.c }}{% when page.d %}{% else %}{{ page.e }}{% endcase %}",
        "var p.html num, var p.html a, var p.html c, site liquid",
    ),
    (
        "{% for i in page.list offset:page.zero limit:page.num %}{{ page.title }}{% endfor %}",
        "var p.html list, var p.html zero, var p.html num, var p.html title",
    ),
    (
        "{% for i in page.list limit:page.num reversed offset:page.zero %}{% endfor %}",
        "var p.html list, var p.html num, var p.html zero",
    ),
    (
        "{% for i in page.list limit:page.title offset:page.zero %}{% endfor %}",
        "var p.html list, var p.html title",
    ),
    (
        "{% tablerow i in page.list cols:page.one limit:page.num offset:page.zero %}{% endtablerow %}",
        "var p.html list, var p.html one, var p.html num, var p.html zero",
    ),
    (
        "{% tablerow i in page.nope cols:page.one %}{% endtablerow %}",
        "var p.html nope, site liquid",
    ),
    (
        "{% for i in page.nope %}{{ page.a }}{% else %}{{ page.b }}{% endfor %}",
        "var p.html nope, site liquid, var p.html b",
    ),
    (
        "{% for p in site.posts %}{{ p.title }}{% break %}{{ p.url }}{% endfor %}{{ page.num }}",
        "site posts, var _posts/2024-01-03-third.html title, var p.html num",
    ),
    (
        "{% tablerow i in page.list offset:page.zero limit:page.num cols:page.one %}{{ page.title }}{% endtablerow %}",
        "var p.html list, var p.html zero, var p.html num, var p.html one, var p.html title",
    ),
    (
        "{% cycle page.a: page.b, page.c %}{% cycle page.a: page.b, page.c %}",
        "var p.html a, site liquid, var p.html b, var p.html c",
    ),
    (
        "{% cycle page.a, page.b %}{% assign x = page.num %}{% capture y %}{{ page.title }}{% endcapture %}",
        "var p.html a, site liquid, var p.html num, var p.html title",
    ),
    (
        "{% include n.html x=page.title y=page.num %}{% include n.html %}",
        "include n.html, var p.html title, var p.html num, site liquid",
    ),
    (
        "{% include {{ page.title }}.html x=page.num %}",
        "var p.html title, include Page.html",
    ),
    ("{% include no.html x=page.title %}", "include no.html"),
    ("{% include bad.html x=page.title %}", "include bad.html"),
    ("{% include ../n.html x=page.title %}", ""),
    (
        "{% include_relative side.txt x=page.num %}",
        "file side.txt, var p.html num, var p.html title",
    ),
    (
        "{{ page[page.title].a }}{{ site[page.nope] }}{{ (page.num..page.zero) }}",
        "var p.html title, var p.html Page, site liquid, var p.html nope, var p.html num, var p.html zero",
    ),
    (
        "{% assign x = site.posts %}{{ x[0].title }}{% assign y = page %}{% if y == page %}{{ y.url }}{% endif %}",
        "site posts, var _posts/2024-01-03-third.html title, var p.html url",
    ),
    (
        "{{ page.list[page.zero] }}{{ page.hash[page.nope].a }}",
        "var p.html list, var p.html zero, var p.html hash, var p.html nope, site liquid",
    ),
    (
        "{% if page.a.b[page.c] == page.d %}{% endif %}{{ page.e | default: page.title }}",
        "var p.html a, var p.html c, var p.html d, var p.html e, var p.html title",
    ),
    (
        "{% case page.a | default: page.b %}{% when page.c %}{% endcase %}",
        "var p.html a, var p.html b, site liquid, var p.html c",
    ),
    ("{{ 1 | divided_by: 0 }}{{ page.title }}", ""),
    ("{% break %}{{ page.title }}", ""),
    ("{{ page.title }}{% nope %}", ""),
];

#[test]
fn tags_look_up(rt: HostRuntime) -> Result<(), Fail> {
    for (template, wanted) in BY_TAGS {
        assert!(rt; asks(rt.alloc(), template, wanted), "at {template}");
    }
    Ok(())
}

const BY_A_LAYOUT: &[(&str, &str)] = &[
    (
        "{{ page.content }}{{ content }}{{ layout.x }}{{ page.title }}",
        "var p.html title",
    ),
    (
        "{% for p in site.pages %}{{ p.content }}{% endfor %}",
        "site pages, content sub/q.html",
    ),
    (
        "{{ site.pages | map: \"content\" | size }}{{ page.output }}",
        "site pages, content p.html, content sub/q.html, output p.html",
    ),
    (
        "{{ site.posts[1].excerpt }}{% include_relative side.txt %}",
        "site posts, var _posts/2024-01-02-second.md excerpt, file side.txt, var p.html title, site liquid",
    ),
];

#[test]
fn layouts_look_up(rt: HostRuntime) -> Result<(), Fail> {
    for (template, wanted) in BY_A_LAYOUT {
        assert!(rt;
            asks_at(rt.alloc(), LAYOUT, template, wanted),
            "at {template}"
        );
    }
    Ok(())
}

const BY_AN_EXCERPT: &[(&str, &str)] = &[
    (
        "{{ page.content }}{{ page.output }}{{ page.title }}",
        "source _posts/2024-01-01-first.md, var _posts/2024-01-01-first.md title",
    ),
    (
        "{{ site.posts[0].content }}{{ site.posts | map: \"content\" | size }}",
        "site posts, source _posts/2024-01-03-third.html, content _posts/2024-01-03-third.html, content _posts/2024-01-02-second.md, content _posts/2024-01-01-first.md",
    ),
    (
        "{{ site.related_posts }}{% include_relative side.txt %}",
        "site posts, file _posts/side.txt, var _posts/2024-01-01-first.md title",
    ),
    (
        "{{ site.posts[1].excerpt }}{{ site.posts[0].excerpt }}",
        "site posts, var _posts/2024-01-02-second.md excerpt, var _posts/2024-01-03-third.html excerpt",
    ),
];

#[test]
fn excerpts_look_up(rt: HostRuntime) -> Result<(), Fail> {
    for (template, wanted) in BY_AN_EXCERPT {
        assert!(rt;
            asks_at(rt.alloc(), EXCERPT, template, wanted),
            "at {template}"
        );
    }
    Ok(())
}
