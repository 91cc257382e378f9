// What a line starts, the rules tried one after another.
ghost use Rattle.std.specs.Prelude.{◌≡◌, ◌<◌, List, ℕ};
ghost use Rattle.markdown_grammar.specs.Columns as columns;
ghost use Rattle.markdown_grammar.specs.Lines.{trim_front};
ghost use Rattle.markdown_grammar.specs.LineStarts as grammar;
ghost use Rattle.cm_starts.specs.Answers.{as_place, as_start};
ghost use Rattle.cm_starts.specs.Order as order;

use crate::breaks::is_thematic_break;
use crate::fences::fence;
use crate::headings::{heading, underline};
use crate::html::html_block;
use crate::items::list_mark;
use crate::kinds::{Place, Start};

/// What a line starts, by where it stands, its indent in columns and its text behind that: nothing but
/// white space; a block by its mark, where it is indented by at most three columns; indented code,
/// where no paragraph is open; or text. CommonMark 0.31.2, sections 4 and 5.
pub fn line_start<'a>(place: Place, indent: u128, text: &'a str) -> Start<'a>
    ensures { (col : ℕ) (line : List ℕ) → columns.indent col line ≡ indent → trim_front line ≡ text.now → as_start result ≡ grammar.start_of (as_place place) col line }
{
    start_at(place, indent, text)
}

fn start_at<'a>(place: Place, indent: u128, text: &'a str) -> Start<'a>
    ensures { as_start result ≡ order.start_at (as_place place) indent text.now }
{
    if text.len() == 0 {
        return Start::Blank;
    }
    if indent < 4 {
        return mark(place, indent, text);
    }
    match place {
        Place::Fresh => Start::Indented,
        Place::Beside => Start::Text,
        Place::Paragraph { .. } => Start::Text,
    }
}

// The first mark in the order in which they are tried.
fn mark<'a>(place: Place, indent: u128, text: &'a str) -> Start<'a>
    ensures { as_start result ≡ grammar.mark_at (as_place place) indent text.now }
{
    match quote(text) {
        Start::Text => heading_on(place, indent, text),
        found => found,
    }
}

fn quote<'a>(text: &'a str) -> Start<'a>
    ensures { as_start result ≡ grammar.quote_at text.now }
{
    let bytes = text.as_bytes();
    if bytes.len() == 0 || bytes[0] != b'>' {
        return Start::Text;
    }
    Start::Quote
}

fn heading_on<'a>(place: Place, indent: u128, text: &'a str) -> Start<'a>
    ensures { as_start result ≡ order.heading_on (as_place place) indent text.now }
{
    match heading(text) {
        Start::Text => fence_on(place, indent, text),
        found => found,
    }
}

fn fence_on<'a>(place: Place, indent: u128, text: &'a str) -> Start<'a>
    ensures { as_start result ≡ order.fence_on (as_place place) indent text.now }
{
    match fence(indent, text) {
        Start::Text => html_on(place, text),
        found => found,
    }
}

fn html_on<'a>(place: Place, text: &'a str) -> Start<'a>
    ensures { as_start result ≡ order.html_on (as_place place) text.now }
{
    match html_block(place, text) {
        Start::Text => underline_on(place, text),
        found => found,
    }
}

fn underline_on<'a>(place: Place, text: &'a str) -> Start<'a>
    ensures { as_start result ≡ order.underline_on (as_place place) text.now }
{
    match underline(place, text) {
        Start::Text => break_on(place, text),
        found => found,
    }
}

fn break_on<'a>(place: Place, text: &'a str) -> Start<'a>
    ensures { as_start result ≡ order.break_on (as_place place) text.now }
{
    if is_thematic_break(text) {
        Start::Break
    } else {
        list_mark(place, text)
    }
}
