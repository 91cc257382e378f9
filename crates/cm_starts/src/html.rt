// What starts a block of HTML.
ghost use Rattle.std.specs.Prelude.{◌≡◌, ◌<◌, ◌≤◌, ◌==◌, ◌&&◌, ◌||◌, codes, length, take, drop};
ghost use Rattle.markdown_grammar.specs.Fronts.{has};
ghost use Rattle.site_text.specs.Fronts.{begins_with, first_byte, run_len};
ghost use Rattle.site_text.specs.Bytes as bytes;
ghost use Rattle.markdown_grammar.specs.HtmlStarts as grammar;
ghost use Rattle.markdown_grammar.specs.Places as places;
ghost use Rattle.markdown_grammar.specs.Readers.{◌or◌};
ghost use Rattle.markdown_grammar.specs.Readers as readers;
ghost use Rattle.cm_starts.specs.Answers.{as_place, as_start};
ghost use Rattle.cm_starts.specs.HtmlParts.{marked_at, tagged_at};

use crate::kinds::{Place, Start};
use crate::names::{is_block, is_verbatim};
use crate::tags::is_alone;
use markdown_grammar::HtmlKind;
use site_text::{Class, begins, class_run, is_letter, is_space};

/// The block of HTML that a line starts, by its text behind the white space in front, or `Text` where
/// it starts none. Kind 7, any other tag alone on its line, starts only where no paragraph is open.
/// CommonMark 0.31.2, section 4.6.
pub fn html_block<'a>(place: Place, text: &'a str) -> Start<'a>
    ensures { as_start result ≡ grammar.html_at (as_place place) text.now }
{
    let bytes = text.as_bytes();
    if bytes.len() == 0 || bytes[0] != b'<' {
        return Start::Text;
    }
    if starts_verbatim(&bytes[1..]) {
        return Start::Html {
            kind: HtmlKind::Verbatim,
        };
    }
    marked(place, bytes)
}

// Kinds 2 to 5, and those behind them.
fn marked<'a>(place: Place, text: &'a [u8]) -> Start<'a>
    requires { 0 < length text.now }
    ensures { as_start result ≡ marked_at (as_place place) text.now }
{
    if begins(text, b"<!--") {
        return Start::Html {
            kind: HtmlKind::Comment,
        };
    }
    if begins(text, b"<?") {
        return Start::Html {
            kind: HtmlKind::Instruction,
        };
    }
    if is_declaration(text) {
        return Start::Html {
            kind: HtmlKind::Declaration,
        };
    }
    if begins(text, b"<![CDATA[") {
        return Start::Html {
            kind: HtmlKind::Cdata,
        };
    }
    tagged(place, text)
}

// Kinds 6 and 7.
fn tagged<'a>(place: Place, text: &'a [u8]) -> Start<'a>
    requires { 0 < length text.now }
    ensures { as_start result ≡ tagged_at (as_place place) text.now }
{
    if starts_listed(tag_text(text)) {
        return Start::Html {
            kind: HtmlKind::Listed,
        };
    }
    if is_fresh(place) && is_alone(text) && !is_verbatim(name_of(tag_text(text))) {
        return Start::Html {
            kind: HtmlKind::Lone,
        };
    }
    Start::Text
}

fn is_fresh(place: Place) -> bool
    ensures { result ≡ places.is_fresh (as_place place) }
{
    match place {
        Place::Fresh => true,
        Place::Beside => false,
        Place::Paragraph { .. } => false,
    }
}

fn is_declaration(text: &[u8]) -> bool
    ensures { result ≡ (begins_with (codes "<!") text.now && bytes.is_letter (first_byte (drop 2 text.now))) }
{
    begins(text, b"<!") && text.len() > 2 && is_letter(text[2])
}

// What stands behind `<` or `</`.
fn tag_text(text: &[u8]) -> &[u8]
    requires { 0 < length text.now }
    ensures { result.now ≡ grammar.tag_text text.now }
{
    if text.len() > 1 && text[1] == b'/' {
        return &text[2..];
    }
    &text[1..]
}

fn name_of(text: &[u8]) -> &[u8]
    ensures { result.now ≡ take (run_len (λ c. bytes.is_alnum c || (c == bytes.hyphen)) text.now) text.now }
{
    let n = class_run(Class::Hyphenated, text);
    &text[..n]
}

fn starts_verbatim(text: &[u8]) -> bool
    ensures { result ≡ grammar.starts_verbatim text.now }
{
    let name = name_of(text);
    is_verbatim(name) && ends_name(&text[name.len()..])
}

fn starts_listed(text: &[u8]) -> bool
    ensures { result ≡ grammar.starts_listed text.now }
{
    let name = name_of(text);
    is_block(name) && ends_listed(&text[name.len()..])
}

fn ends_name(text: &[u8]) -> bool
    ensures { result ≡ has (grammar.tag_end text.now) }
{
    text.len() == 0 || is_space(text[0]) || text[0] == b'>'
}

fn ends_listed(text: &[u8]) -> bool
    ensures { result ≡ has ((grammar.tag_end or readers.exactly (codes "/>")) text.now) }
{
    ends_name(text) || begins(text, b"/>")
}
