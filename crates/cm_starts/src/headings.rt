// Headings.
ghost use Rattle.std.specs.Prelude.{◌≡◌, ◌<◌, ◌||◌, if◌then◌else◌, reverse, true};
ghost use Rattle.site_text.specs.Bytes.{is_space};
ghost use Rattle.site_text.specs.Fronts.{first_byte};
ghost use Rattle.markdown_grammar.specs.Fronts.{is_empty};
ghost use Rattle.markdown_grammar.specs.Lines.{trim};
ghost use Rattle.markdown_grammar.specs.Places.{in_paragraph};
ghost use Rattle.markdown_grammar.specs.Starts.{atx_start, text_start};
ghost use Rattle.markdown_grammar.specs.Headings as grammar;
ghost use Rattle.cm_starts.specs.Answers.{as_place, as_start};

use crate::heading_level::HeadingLevel;
use crate::kinds::{Place, Start};
use crate::texts::{before_run, is_apart, is_blank, run, trim};

/// The heading that a line starts by `#`, by its text behind the white space in front, or `Text` where
/// it starts none: one to six `#`, and then white space or the end. A closing run of `#` behind white
/// space is left out of its text. CommonMark 0.31.2, section 4.2.
pub fn heading<'a>(text: &'a str) -> Start<'a>
    ensures { as_start result ≡ grammar.atx_at text.now }
{
    let count = run(text, b'#');
    match HeadingLevel::of(count) {
        Some(level) => headed(level, &text[count..]),
        None => Start::Text,
    }
}

// A heading of a level, by the text behind its marks.
fn headed<'a>(level: HeadingLevel, rest: &'a str) -> Start<'a>
    ensures { as_start result ≡ (if is_empty rest.now || is_space (first_byte rest.now) then atx_start level (grammar.without_closing (reverse (trim rest.now))) else text_start) }
{
    if !is_apart(rest) {
        return Start::Text;
    }
    Start::Heading {
        level,
        text: without_closing(trim(rest)),
    }
}

// Without a closing run of `#` that is the whole text or stands behind white space.
fn without_closing(text: &str) -> &str
    ensures { result.now ≡ grammar.without_closing (reverse text.now) }
{
    let end = before_run(text, b'#');
    let front = &text[..end];
    if ends_apart(front) { trim(front) } else { text }
}

// Whether a text is empty or ends with a space or a tab.
fn ends_apart(text: &str) -> bool
    ensures { result ≡ (is_empty (reverse text.now) || is_space (first_byte (reverse text.now))) }
{
    let bytes = text.as_bytes();
    bytes.len() == 0 || site_text::is_space(bytes[bytes.len() - 1])
}

/// The underline of a heading, by the text of the line behind its white space, or `Text` where the line
/// is none: a run of `=` or of `-` alone, after a paragraph that has text. CommonMark 0.31.2, section 4.3.
pub fn underline<'a>(place: Place, text: &'a str) -> Start<'a>
    ensures { as_start result ≡ grammar.underline_at (as_place place) text.now }
{
    match place {
        Place::Paragraph { has_text: true } => underline_of_text(text),
        _ => Start::Text,
    }
}

fn underline_of_text<'a>(text: &'a str) -> Start<'a>
    ensures { as_start result ≡ grammar.underline_at (in_paragraph true) text.now }
{
    if is_run_of(text, b'=') {
        Start::Underline {
            level: HeadingLevel::one(),
        }
    } else if is_run_of(text, b'-') {
        Start::Underline {
            level: HeadingLevel::two(),
        }
    } else {
        Start::Text
    }
}

fn is_run_of(text: &str, mark: u8) -> bool
    requires { mark < 128 }
    ensures { result ≡ grammar.underline_of mark text.now }
{
    let n = run(text, mark);
    0 < n && is_blank(&text.as_bytes()[n..])
}
