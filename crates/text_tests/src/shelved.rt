// Templates over a site in memory that answers what no folder holds, as an address elsewhere, and an output of one item alone;
// tests/liquid has the other rows.
use crate::rows::{EXCERPT, LAYOUT, is, is_at};
use std::test::Fail;

const OF_A_PAGE: &[(&str, &str)] = &[
    (
        "{% link away.html %} {% link empty.html %} {% link {{ \"p\" }}.{{ \"html\" }} %}",
        "mailto:x /b /b/p.html",
    ),
    (
        "{{ page.content }}|{{ page.output }}|{{ site.posts[2].output }}|{{ site.posts[2].content }}|{{ site.posts[0].nope }}",
        "body\n||<html>first</html>|<p>One <em>first</em> First post</p>\n<p>Two.</p>\n|",
    ),
    (
        "{{ site.posts | map: \"output\" | join: \";\" }} {{ site.pages | map: \"content\" | join: \";\" }}",
        ";;<html>first</html> body\n;{{ page.title }}",
    ),
    // A file begins with no blank line behind its front matter, and this text does.
    ("\n{{ 9223372036854775808 }}", "!p.html:2:Overflow"),
    ("\n\n{% nope %}", "!p.html:3:UnknownTag"),
];

#[test]
fn templates_of_a_page(rt: HostRuntime) -> Result<(), Fail> {
    for (template, wanted) in OF_A_PAGE {
        assert!(rt; is(rt.alloc(), template, wanted), "at {template}");
    }
    Ok(())
}

const OF_A_LAYOUT: &[(&str, &str)] = &[
    (
        "{{ layout.size }} {{ page.content }} {{ site.pages | map: \"content\" | join: \";\" }} {{ paginator.page }}",
        "2 <own> body\n;{{ page.title }} 1",
    ),
    (
        "\n{{ 1 | divided_by: 0 }}",
        "!_layouts/base.html:2:DividedByZero",
    ),
];

#[test]
fn templates_of_a_layout(rt: HostRuntime) -> Result<(), Fail> {
    for (template, wanted) in OF_A_LAYOUT {
        assert!(rt;
            is_at(rt.alloc(), LAYOUT, template, wanted),
            "at {template}"
        );
    }
    Ok(())
}

const OF_AN_EXCERPT: &[(&str, &str)] = &[
    (
        "{{ page.content }}|{{ site.pages[0].content }}",
        "One *first* {{ page.title }}\n\nTwo.\n|body\n",
    ),
    (
        "{{ site.posts | map: \"output\" | join: \";\" }} {{ site.posts | map: \"content\" | last | strip_newlines }} {{ site.posts | map: \"excerpt\" | join: \";\" }}",
        ";;<html>first</html> <p>One <em>first</em> First post</p><p>Two.</p> ;Own *excerpt*;",
    ),
];

#[test]
fn templates_of_an_excerpt(rt: HostRuntime) -> Result<(), Fail> {
    for (template, wanted) in OF_AN_EXCERPT {
        assert!(rt;
            is_at(rt.alloc(), EXCERPT, template, wanted),
            "at {template}"
        );
    }
    Ok(())
}
