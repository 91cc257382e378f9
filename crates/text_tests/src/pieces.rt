use liquid_expr::{CutError, cut, inside};
use liquid_grammar::{Piece, PieceKind};
use std::alloc::Global;
use std::fmt::Write;

fn name(kind: PieceKind) -> char {
    match kind {
        PieceKind::Text => 't',
        PieceKind::Output => 'o',
        PieceKind::Tag => 'g',
    }
}

// Whether the pieces follow one another and cover the text.
fn cover(pieces: &[Piece], text: &str) -> bool {
    let mut end = 0;
    for piece in pieces {
        if piece.span.start != end {
            return false;
        }
        end = piece.span.end;
    }
    end == text.len()
}

// The kind, the line and the inside of each piece, with a bar behind it.
fn told(alloc: Global, text: &str, pieces: &[Piece]) -> Option<String> {
    let mut told = String::new(alloc);
    for piece in pieces {
        let inner = text.get(piece.inner.start..piece.inner.end)?;
        write!(told, "{}{}:{inner}|", name(piece.kind), piece.line).ok()?;
    }
    Some(told)
}

fn reads_as(alloc: Global, text: &str, wanted: &str) -> bool {
    let Ok(pieces) = cut(alloc, text) else {
        return false;
    };
    match told(alloc, text, &pieces) {
        Some(told) => told.as_str() == wanted && cover(&pieces, text),
        None => false,
    }
}

const PLAIN: &[(&str, &str)] = &[
    ("", ""),
    ("ab", "t1:ab|"),
    ("}} %} {", "t1:}} %} {|"),
    ("{{}}{%%}", "o1:|g1:|"),
    ("{% a {{ b %}", "g1: a {{ b |"),
    ("{{{ a }}}", "o1:{ a |t1:}|"),
    ("{{ \"}}\" }}", "o1: \"|t1:\" }}|"),
    ("a\r\n\n{% b\n %}{{ c }}", "t1:a\r\n\n|g3: b\n |o4: c |"),
];

#[test]
fn cuts_plain_pieces(rt: HostRuntime) {
    for (text, wanted) in PLAIN {
        assert!(rt; reads_as(rt.alloc(), text, wanted), "at {text}");
    }
}

const DASHES: &[(&str, &str)] = &[
    ("a {{- b -}} \n c", "t1:a|o1: b |t1:c|"),
    (" \t\u{b}{{- a }} ", "t1:|o1: a |t1: |"),
    ("é {%- a -%} é", "t1:é|g1: a |t1:é|"),
    (" {{ a -}} {{- b }} ", "t1: |o1: a |t1:|o1: b |t1: |"),
];

#[test]
fn strips_at_dashes(rt: HostRuntime) {
    for (text, wanted) in DASHES {
        assert!(rt; reads_as(rt.alloc(), text, wanted), "at {text}");
    }
}

const VERBATIM: &[(&str, &str)] = &[
    (
        "{% raw %}{{ a }}{% endraw %}b",
        "g1: raw |t1:{{ a }}|g1: endraw |t1:b|",
    ),
    (
        "{%- raw -%} x {%- endraw -%} y",
        "g1: raw |t1:x|g1: endraw |t1:y|",
    ),
    ("{%raw%}{%endraw%}", "g1:raw|g1:endraw|"),
    (
        "{% raw %}{% if endraw %}{%endraw%}",
        "g1: raw |t1:{% if endraw %}|g1:endraw|",
    ),
    (
        "{% comment %}{{\n{% endcomment %}x",
        "g1: comment |t1:|g2: endcomment |t2:x|",
    ),
    (
        "{%comment%}{%comment%}{%endcomment%}{%endcomment%}",
        "g1:comment|t1:|g1:endcomment|g1:endcomment|",
    ),
    ("{%comment%}{% x", "g1:comment|t1:|"),
];

#[test]
fn keeps_raw_text_and_drops_comments(rt: HostRuntime) {
    for (text, wanted) in VERBATIM {
        assert!(rt; reads_as(rt.alloc(), text, wanted), "at {text}");
    }
}

fn unclosed(alloc: Global, text: &str) -> u64 {
    match cut(alloc, text) {
        Err(CutError::Unclosed(line)) => line,
        _ => 0,
    }
}

const UNCLOSED: &[(&str, u64)] = &[
    ("{{ a", 1),
    ("{{", 1),
    ("{{ a %}", 1),
    ("{% a }}", 1),
    ("x\n\n{{ a", 3),
    ("{{ a }}\n{% raw %}{{ b }}", 2),
    ("\n{% raw %}{% endra %}", 2),
    ("{% raw %}\n{% endraw", 1),
];

#[test]
fn names_the_line_without_an_end(rt: HostRuntime) {
    for (text, line) in UNCLOSED {
        assert!(rt; unclosed(rt.alloc(), text) == *line, "at {text}");
    }
}
