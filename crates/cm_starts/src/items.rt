// The marks of list items.
ghost use Rattle.std.specs.Prelude.{◌≡◌, IfSome, is_some};
ghost use Rattle.site_text.specs.Bytes as bytes;
ghost use Rattle.site_text.specs.Fronts.{run_len};
ghost use Rattle.markdown_grammar.specs.Lines as lines;
ghost use Rattle.markdown_grammar.specs.ListMarks as grammar;
ghost use Rattle.cm_starts.specs.Answers.{as_place, as_start};
ghost use Rattle.cm_starts.specs.Marks.{mark_byte};
ghost use Rattle.cm_starts.specs.Runs.{is_bullet_mark, is_delimiter_mark, ordered_at};

use crate::kinds::{Place, Start};
use crate::list_marks::ListMark;
use crate::texts::{is_apart, is_blank};
use site_text::{Class, class_run};

/// The list item that a line starts, by its text behind the white space in front, or `Text` where it
/// starts none: `+`, `-` or `*`, or one to nine digits with `.` or `)`, before white space or the end. In
/// a paragraph an item starts only where it is not empty, and has the number 1. CommonMark 0.31.2,
/// section 5.2.
pub fn list_mark<'a>(place: Place, text: &'a str) -> Start<'a>
    ensures { as_start result ≡ grammar.item_at (as_place place) text.now }
{
    let bytes = text.as_bytes();
    if bytes.len() == 0 {
        return Start::Text;
    }
    match bullet(bytes[0]) {
        Some(mark) => item(place, mark, 1, 0, &text[1..]),
        None => ordered(place, text),
    }
}

fn bullet(c: u8) -> Option<ListMark>
    ensures some { is_some result ≡ is_bullet_mark c }
    ensures same { IfSome result (λ mark. mark_byte mark ≡ c) }
{
    match c {
        b'+' => Some(ListMark::Plus),
        b'-' => Some(ListMark::Hyphen),
        b'*' => Some(ListMark::Star),
        _ => None,
    }
}

// What may stand behind a number.
fn delimiter(c: u8) -> Option<ListMark>
    ensures some { is_some result ≡ is_delimiter_mark c }
    ensures same { IfSome result (λ mark. mark_byte mark ≡ c) }
{
    match c {
        b'.' => Some(ListMark::FullStop),
        b')' => Some(ListMark::Parenthesis),
        _ => None,
    }
}

// An item with a number.
fn ordered<'a>(place: Place, text: &'a str) -> Start<'a>
    ensures { as_start result ≡ ordered_at (as_place place) text.now }
{
    let bytes = text.as_bytes();
    let n = class_run(Class::Digit, bytes);
    if n == 0 || n > 9 || n == text.len() {
        return Start::Text;
    }
    let Some(mark) = delimiter(bytes[n]) else {
        return Start::Text;
    };
    match text[..n].parse() {
        Ok(number) => item(place, mark, number, n, &text[n + 1..]),
        Err(_) => Start::Text,
    }
}

// An item whose mark stands before white space or the end.
fn item<'a>(place: Place, mark: ListMark, number: u32, digits: usize, after: &'a str) -> Start<'a>
    ensures { as_start result ≡ grammar.item_if (as_place place) (mark_byte mark) number digits after.now }
{
    if is_apart(after) && may_interrupt(place, after, number) {
        Start::Item {
            mark,
            number,
            digits,
        }
    } else {
        Start::Text
    }
}

fn may_interrupt(place: Place, after: &str, number: u32) -> bool
    ensures { result ≡ grammar.may_interrupt (as_place place) (lines.is_blank after.now) number }
{
    match place {
        Place::Fresh => true,
        Place::Beside => true,
        Place::Paragraph { .. } => !is_blank(after.as_bytes()) && number == 1,
    }
}
