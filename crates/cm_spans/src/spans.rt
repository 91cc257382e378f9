// The pieces that stand for themselves.
ghost use Rattle.std.specs.Prelude.{◌≡◌, ◌<◌, ◌≤◌, ◌+◌, ◌==◌, ◌||◌, IsTrue, drop, length, reverse, take};
ghost use Rattle.std.specs.Str.{IsCharBoundary};
ghost use Rattle.markdown_grammar.specs.CodeSpans as code;
ghost use Rattle.markdown_grammar.specs.Spans as grammar;
ghost use Rattle.cm_spans.specs.Cuts.{Ends};
ghost use Rattle.site_text.specs.Classes.{is_in};
ghost use Rattle.site_text.specs.Fronts.{first_byte, run_len};
ghost use Rattle.site_text.specs.declared.classes.Class.TheVariants.{Textual};
ghost use Rattle.cm_links.specs.Cuts.{IsLabelled};
ghost use Rattle.cm_spans.specs.Missing.{Lacks, LacksRuns};
ghost use Rattle.cm_spans.specs.Pieces.{bracket_or_text, email_or_html, html_or_text, mark_byte, marks_at, taken_of};

use crate::autolinks::{email, uri};
use crate::code::{code_text, next_run};
use crate::flanking::{Mark, Marks, char_after, char_before, marks_between};
use crate::missing_ends::MissingEnds;
use crate::missing_runs::MissingRuns;
use crate::tags::html_tag;
use cm_links::reference;
use cm_starts::run;
use site_text::{Class, byte_at, class_run, is_punctuation};

/// What stands at a place of a text.
#[derive(Clone, Copy)]
pub enum Span<'a> {
    Text(&'a str),
    /// What an escape or a reference stands for.
    Character(char),
    SoftBreak,
    HardBreak,
    /// The text of a code span, in which line ends stand for spaces.
    Code(&'a str),
    Html(&'a str),
    /// An address with a scheme, which is its own text.
    Uri(&'a str),
    /// A mail address, which is its own text.
    Email(&'a str),
    Run(Marks),
    /// An opening bracket.
    Bracket,
    /// An opening bracket of an image.
    ImageBracket,
}

/// A span, and how many bytes it takes.
#[derive(Clone, Copy)]
pub struct Taken<'a> {
    pub span: Span<'a>,
    pub len: usize,
}

/// What stands at a place of a text before its end. A closing bracket is text here. `missing` are ends that the text is known to
/// lack from there on.
pub fn span_at<'a>(text: &'a str, at: usize, missing: &mut MissingEnds) -> Taken<'a>
    requires start { IsCharBoundary text.now at }
    requires before_end { at < length text.now }
    requires lacks { Lacks missing.old (drop at text.now) }
    ensures value { taken_of result (drop at text.now) ≡ grammar.piece_at (reverse (take at text.now)) (drop at text.now) }
    ensures ends { Ends (drop at text.now) result.len }
    ensures kept { Lacks missing.new (drop at text.now) }
{
    let rest = &text[at..];
    let c = byte_at(text, at);
    if c == b'\\' {
        return escape(rest);
    }
    if c == b'&' {
        return character(rest);
    }
    if c == b'`' {
        return code_span(rest, &mut missing.backticks);
    }
    if c == b'<' {
        return pointed(rest, missing);
    }
    if c == b'*' {
        return marks(text, at, Mark::Star);
    }
    if c == b'_' {
        return marks(text, at, Mark::Underscore);
    }
    bracket_or_text(rest)
}

// Brackets, white space and text.
fn bracket_or_text<'a>(text: &'a str) -> Taken<'a>
    requires { 0 < length text.now }
    ensures value { taken_of result text.now ≡ bracket_or_text text.now }
    ensures ends { Ends text.now result.len }
{
    let c = byte_at(text, 0);
    if c == b'[' {
        return Taken {
            span: Span::Bracket,
            len: 1,
        };
    }
    if c == b'!' && byte_at(text, 1) == b'[' {
        return Taken {
            span: Span::ImageBracket,
            len: 2,
        };
    }
    if c == b' ' || c == b'\n' {
        return spaces(text);
    }
    textual(text)
}

// A backslash.
fn escape<'a>(text: &'a str) -> Taken<'a>
    requires { first_byte text.now ≡ 92 }
    ensures value { taken_of result text.now ≡ grammar.escape_at text.now }
    ensures ends { Ends text.now result.len }
{
    let c = byte_at(text, 1);
    if c == b'\n' {
        return Taken {
            span: Span::HardBreak,
            len: 2,
        };
    }
    if is_punctuation(c) {
        return Taken {
            span: Span::Character(c as char),
            len: 2,
        };
    }
    Taken {
        span: Span::Text(&text[..1]),
        len: 1,
    }
}

// An ampersand.
fn character<'a>(text: &'a str) -> Taken<'a>
    requires { first_byte text.now ≡ 38 }
    ensures value { taken_of result text.now ≡ grammar.reference_at text.now }
    ensures ends { Ends text.now result.len }
{
    match reference(text, 0) {
        Some(found) => {
            let c = found.first;
            Taken {
                span: Span::Character(c),
                len: found.end,
            }
        }
        None => Taken {
            span: Span::Text(&text[..1]),
            len: 1,
        },
    }
}

// Backticks.
fn code_span<'a>(text: &'a str, missing: &mut MissingRuns) -> Taken<'a>
    requires start { first_byte text.now ≡ 96 }
    requires lacks { LacksRuns missing.old.known.items text.now }
    ensures value { taken_of result text.now ≡ code.code_at text.now }
    ensures ends { Ends text.now result.len }
    ensures kept { LacksRuns missing.new.known.items text.now }
{
    let n = run(text, b'`');
    match next_run(n, text, missing) {
        Some(k) => Taken {
            span: Span::Code(code_text(&text[n..k])),
            len: n + k,
        },
        None => Taken {
            span: Span::Text(&text[..n]),
            len: n,
        },
    }
}

// An opening pointed bracket.
fn pointed<'a>(text: &'a str, missing: &mut MissingEnds) -> Taken<'a>
    requires start { first_byte text.now ≡ 60 }
    requires lacks { Lacks missing.old text.now }
    ensures value { taken_of result text.now ≡ grammar.pointed_at text.now }
    ensures ends { Ends text.now result.len }
    ensures kept { Lacks missing.new text.now }
{
    match uri(text) {
        Some(n) => Taken {
            span: Span::Uri(between_ends(text, n)),
            len: n,
        },
        None => email_or_html(text, missing),
    }
}

fn email_or_html<'a>(text: &'a str, missing: &mut MissingEnds) -> Taken<'a>
    requires start { first_byte text.now ≡ 60 }
    requires lacks { Lacks missing.old text.now }
    ensures value { taken_of result text.now ≡ email_or_html text.now }
    ensures ends { Ends text.now result.len }
    ensures kept { Lacks missing.new text.now }
{
    match email(text) {
        Some(n) => Taken {
            span: Span::Email(between_ends(text, n)),
            len: n,
        },
        None => html_or_text(text, missing),
    }
}

fn html_or_text<'a>(text: &'a str, missing: &mut MissingEnds) -> Taken<'a>
    requires start { first_byte text.now ≡ 60 }
    requires lacks { Lacks missing.old text.now }
    ensures value { taken_of result text.now ≡ html_or_text text.now }
    ensures ends { Ends text.now result.len }
    ensures kept { Lacks missing.new text.now }
{
    match html_tag(text, missing) {
        Some(n) => Taken {
            span: Span::Html(&text[..n]),
            len: n,
        },
        None => Taken {
            span: Span::Text(&text[..1]),
            len: 1,
        },
    }
}

// n bytes without the first and the last.
fn between_ends<'a>(text: &'a str, n: usize) -> &'a str
    requires { IsLabelled text.now n }
    ensures { result.now ≡ grammar.between_ends n text.now }
{
    let inside = &text[1..];
    &inside[..n - 2]
}

// A run of a mark.
fn marks<'a>(text: &'a str, at: usize, mark: Mark) -> Taken<'a>
    requires start { IsCharBoundary text.now at }
    requires some { first_byte (drop at text.now) ≡ mark_byte mark }
    ensures value { taken_of result (drop at text.now) ≡ marks_at (mark_byte mark) (reverse (take at text.now)) (drop at text.now) }
    ensures ends { Ends (drop at text.now) result.len }
{
    let rest = &text[at..];
    let len = run(rest, mark.byte());
    let before = char_before(text, at);
    let after = char_after(&rest[len..]);
    Taken {
        span: Span::Run(marks_between(mark, len, before, after)),
        len,
    }
}

// Spaces, and a line end behind them.
fn spaces<'a>(text: &'a str) -> Taken<'a>
    requires { IsTrue ((first_byte text.now == 32) || (first_byte text.now == 10)) }
    ensures value { taken_of result text.now ≡ grammar.spaces_at text.now }
    ensures ends { Ends text.now result.len }
{
    let n = run(text, b' ');
    if byte_at(text, n) == b'\n' {
        return Taken {
            span: if n > 1 {
                Span::HardBreak
            } else {
                Span::SoftBreak
            },
            len: n + 1,
        };
    }
    Taken {
        span: Span::Text(&text[..n]),
        len: n,
    }
}

// Text up to the next byte that may be something else.
fn textual<'a>(text: &'a str) -> Taken<'a>
    requires { 0 < length text.now }
    ensures value { taken_of result text.now ≡ grammar.textual_at text.now }
    ensures ends { Ends text.now result.len }
{
    let len = 1 + textual_run(text);
    Taken {
        span: Span::Text(&text[..len]),
        len,
    }
}

// How many bytes behind the first are text.
fn textual_run(text: &str) -> usize
    requires { 0 < length text.now }
    ensures value { result ≡ run_len (is_in Textual) (drop 1 text.now) }
    ensures within { 1 + result ≤ length text.now }
{
    let bytes = text.as_bytes();
    class_run(Class::Textual, &bytes[1..])
}
