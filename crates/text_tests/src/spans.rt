// Where spans end; tests/markdown has the rows of what they come to.
use cm_spans::{
    MissingEnds, Span, char_before, code_text, email, html_tag, span_at, uri, words_len,
};
use std::test::Fail;

#[test]
fn autolinks(rt: HostRuntime) {
    let rows = [("<http://foo.bar.baz>x", Some(20)), ("<m:abc>", None)];
    for (text, len) in rows {
        assert_eq!(rt; uri(text), len);
    }
}

#[test]
fn addresses(rt: HostRuntime) {
    let rows = [
        ("<foo@bar.example.com>", Some(21)),
        ("<foo\\+@bar.example.com>", None),
    ];
    for (text, len) in rows {
        assert_eq!(rt; email(text), len);
    }
}

#[test]
fn raw_html(rt: HostRuntime) {
    let rows = [
        ("<a><bab>", Some(3)),
        ("<b2\ndata=\"foo\" >", Some(16)),
        ("<33>", None),
        ("<!-- this is a --\ncomment - with hyphens --> x", Some(44)),
    ];
    for (text, len) in rows {
        assert_eq!(rt; html_tag(text, &mut MissingEnds::new(rt.alloc())), len);
    }
}

#[test]
fn code_is_stripped(rt: HostRuntime) {
    let rows = [("  ``  ", " `` "), (" a", " a")];
    for (text, code) in rows {
        assert_eq!(rt; code_text(text), code);
    }
}

#[test]
fn characters_before(rt: HostRuntime) -> Result<(), Fail> {
    let text = "a\u{e9}\u{20ac}\u{1f600}";
    let rows = [
        (0, '\n'),
        (1, 'a'),
        (3, '\u{e9}'),
        (6, '\u{20ac}'),
        (10, '\u{1f600}'),
    ];
    for (at, c) in rows {
        assert!(rt; text.is_char_boundary(at));
        assert_eq!(rt; char_before(text, at), c);
    }
    Ok(())
}

#[test]
fn lengths(rt: HostRuntime) {
    let rows = [
        ("\\*a", 2),
        ("\\a", 1),
        ("\\\nb", 2),
        ("&amp;", 5),
        ("& b", 1),
        ("``a`b`` c", 7),
        ("``a` b", 2),
        ("***a", 3),
        ("![a", 2),
        ("!a", 2),
        ("[a", 1),
        ("  \nb", 3),
        ("  b", 2),
        ("\nb", 1),
        ("a\u{e9}b*", 4),
        ("<b", 1),
    ];
    for (text, len) in rows {
        assert!(rt; text.is_char_boundary(0));
        assert!(rt; text.len() > 0);
        assert_eq!(rt;
            span_at(text, 0, &mut MissingEnds::new(rt.alloc())).len,
            len
        );
    }
}

#[test]
fn breaks(rt: HostRuntime) {
    let rows = [("  \nb", true), (" \nb", false)];
    for (text, is_hard) in rows {
        assert!(rt; text.is_char_boundary(0));
        assert!(rt; text.len() > 0);
        let span = span_at(text, 0, &mut MissingEnds::new(rt.alloc())).span;
        assert_eq!(rt; matches!(span, Span::HardBreak), is_hard);
        assert_eq!(rt; matches!(span, Span::SoftBreak), !is_hard);
    }
}

#[test]
fn words(rt: HostRuntime) {
    let rows = [
        ("foo bar", 7),
        ("foo  bar \u{e9} *b*", 12),
        ("foo bar  \n b", 7),
        (" foo ", 5),
        ("  \nfoo", 0),
        ("foo! bar", 3),
        ("*foo", 0),
        ("", 0),
    ];
    for (text, len) in rows {
        assert!(rt; text.is_char_boundary(0));
        assert_eq!(rt; words_len(text, 0), len);
    }
}
