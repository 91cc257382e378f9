// What lines start, each kind once; tests/markdown has the rows.
use cm_starts::{
    HeadingLevel, ListMark, Place, Start, closes_fence, fence, heading, html_block,
    is_thematic_break, line_start, list_mark, underline,
};
use markdown_grammar::HtmlKind;
use std::test::Fail;

const PARAGRAPH: Place = Place::Paragraph { has_text: true };

#[test]
fn breaks_are_told(rt: HostRuntime) -> Result<(), Fail> {
    let rows = [("***", true), ("--", false)];
    for (text, is_break) in rows {
        assert_eq!(rt; is_thematic_break(text), is_break, "{text}");
    }
    Ok(())
}

// The level of the heading that a line starts, as a digit, and its text; a space where it starts none.
fn headed(text: &str) -> (char, &str) {
    match heading(text) {
        Start::Heading { level, text } => (level.digit() as char, text),
        Start::Text => (' ', ""),
        _ => ('?', ""),
    }
}

#[test]
fn headings_are_told(rt: HostRuntime) -> Result<(), Fail> {
    let rows = [("## foo ##    ", ('2', "foo")), ("####### foo", (' ', ""))];
    for (text, wanted) in rows {
        assert_eq!(rt; headed(text), wanted, "{text}");
    }
    Ok(())
}

// The level of the heading that a line underlines, as a digit; a space where it underlines none.
fn underlined(place: Place, text: &str) -> char {
    match underline(place, text) {
        Start::Underline { level } => level.digit() as char,
        Start::Text => ' ',
        _ => '?',
    }
}

#[test]
fn underlines_are_told(rt: HostRuntime) -> Result<(), Fail> {
    let rows = [
        (PARAGRAPH, "=== ", '1'),
        (PARAGRAPH, "-", '2'),
        (Place::Paragraph { has_text: false }, "===", ' '),
        (Place::Beside, "---", ' '),
    ];
    for (place, text, level) in rows {
        assert_eq!(rt; underlined(place, text), level, "{text}");
    }
    Ok(())
}

// The mark of the fence that a line starts, how many there are, and the info string; none where it starts no fence.
fn fenced(text: &str) -> (char, usize, &str) {
    match fence(2, text) {
        Start::Fence {
            indent: 2,
            mark,
            len,
            info,
        } => (mark, len, info),
        Start::Text => (' ', 0, ""),
        _ => ('?', 0, ""),
    }
}

#[test]
fn fences_are_told(rt: HostRuntime) -> Result<(), Fail> {
    let rows = [
        (
            "~~~~    ruby startline=3 $%@#$",
            ('~', 4, "ruby startline=3 $%@#$"),
        ),
        ("``` aa ```", (' ', 0, "")),
    ];
    for (text, wanted) in rows {
        assert_eq!(rt; fenced(text), wanted, "{text}");
    }
    Ok(())
}

#[test]
fn closing_fences_are_told(rt: HostRuntime) -> Result<(), Fail> {
    let rows = [(3, "```` ", true), (4, "```", false)];
    for (indent, text, closes) in rows {
        assert_eq!(rt; closes_fence('`', 3, indent, text), closes, "{text}");
    }
    Ok(())
}

// The mark of the item that a line starts, its number, and how many digits it has; none where it starts no item.
fn numbered(place: Place, text: &str) -> (char, u32, usize) {
    match list_mark(place, text) {
        Start::Item {
            mark,
            number,
            digits,
        } => (mark.as_char(), number, digits),
        Start::Text => (' ', 0, 0),
        _ => ('?', 0, 0),
    }
}

#[test]
fn items_are_told(rt: HostRuntime) -> Result<(), Fail> {
    let rows = [
        (Place::Fresh, "- a", ('-', 1, 0)),
        (Place::Fresh, "003) ok", (')', 3, 3)),
        (PARAGRAPH, "*", (' ', 0, 0)),
    ];
    for (place, text, wanted) in rows {
        assert_eq!(rt; numbered(place, text), wanted, "{text}");
    }
    Ok(())
}

#[test]
fn html_is_told(rt: HostRuntime) -> Result<(), Fail> {
    let rows = [
        (Place::Fresh, "<PRE", HtmlKind::Verbatim),
        (PARAGRAPH, "<!-- a", HtmlKind::Comment),
        (PARAGRAPH, "<?php", HtmlKind::Instruction),
        (PARAGRAPH, "<!DOCTYPE html>", HtmlKind::Declaration),
        (PARAGRAPH, "<![CDATA[", HtmlKind::Cdata),
        (PARAGRAPH, "<dIV>", HtmlKind::Listed),
        (Place::Fresh, "<i />", HtmlKind::Lone),
    ];
    for (place, text, kind) in rows {
        assert_eq!(rt; html_block(place, text), Start::Html { kind }, "{text}");
    }
    let others = [(Place::Beside, "<a>"), (PARAGRAPH, "<a>")];
    for (place, text) in others {
        assert_eq!(rt; html_block(place, text), Start::Text, "{text}");
    }
    Ok(())
}

fn heading_sign(level: HeadingLevel, text: &str) -> char {
    if level.digit() == b'1' && text == "a" {
        '#'
    } else {
        '?'
    }
}

fn underline_sign(level: HeadingLevel) -> char {
    if level.digit() == b'2' { '=' } else { '?' }
}

fn fence_sign(indent: u128, mark: char, len: usize, info: &str) -> char {
    if indent == 2 && mark == '~' && len == 3 && info == "a" {
        '~'
    } else {
        '?'
    }
}

fn item_sign(mark: ListMark, number: u32, digits: usize) -> char {
    if number == 1 && digits == 0 {
        mark.as_char()
    } else {
        '?'
    }
}

// A sign for each of the blocks that lines start below.
fn started(place: Place, indent: u128, text: &str) -> char {
    match line_start(place, indent, text) {
        Start::Blank => '_',
        Start::Quote => '>',
        Start::Heading { level, text } => heading_sign(level, text),
        Start::Fence {
            indent,
            mark,
            len,
            info,
        } => fence_sign(indent, mark, len, info),
        Start::Html { kind } => { if kind == HtmlKind::Listed { '<' } else { '?' } }
        Start::Underline { level } => underline_sign(level),
        Start::Break => '*',
        Start::Item {
            mark,
            number,
            digits,
        } => item_sign(mark, number, digits),
        Start::Indented => 'i',
        Start::Text => 't',
    }
}

#[test]
fn marks_are_tried_in_their_order(rt: HostRuntime) -> Result<(), Fail> {
    let rows = [
        (Place::Fresh, 0, "", '_'),
        (Place::Fresh, 9, "", '_'),
        (PARAGRAPH, 3, "> a", '>'),
        (PARAGRAPH, 0, "---", '='),
        (Place::Fresh, 0, "---", '*'),
        (Place::Fresh, 0, "- -", '-'),
        (Place::Fresh, 0, "* * *", '*'),
        (Place::Fresh, 0, "===", 't'),
        (Place::Fresh, 0, "# a", '#'),
        (Place::Fresh, 2, "~~~ a", '~'),
        (Place::Fresh, 0, "<div>", '<'),
        (Place::Fresh, 4, "> a", 'i'),
        (Place::Beside, 4, "> a", 't'),
        (PARAGRAPH, 4, "> a", 't'),
        (Place::Fresh, 0, "a", 't'),
    ];
    for (place, indent, text, wanted) in rows {
        assert_eq!(rt; started(place, indent, text), wanted, "{text}");
    }
    Ok(())
}
