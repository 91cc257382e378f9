// The characters beside a run of marks, and what the run can open and close.
ghost use Rattle.std.specs.Prelude.{◌≡◌, ◌≤◌, chars, drop, length, not, reverse, slice_index_or, suc, take};
ghost use Rattle.std.specs.Str.{IsCharBoundary};
ghost use Rattle.site_text.specs.Bytes as bytes;
ghost use Rattle.markdown_grammar.specs.Flanking as grammar;
ghost use Rattle.site_text.specs.Fronts.{run_len};
ghost use Rattle.markdown_grammar.specs.Pieces.{run_at};
ghost use Rattle.cm_spans.specs.Pieces.{mark_byte, run_of};

use ucd_category::{GeneralCategory, GeneralCategoryGroup};

/// A mark of emphasis.
#[derive(Clone, Copy, PartialEq, Eq)]
pub enum Mark {
    /// `*`
    Star,
    /// `_`
    Underscore,
}

impl Mark {
    ghost use Rattle.std.specs.Prelude.{◌≡◌, ◌<◌};
    ghost use Rattle.cm_spans.specs.Pieces.{mark_byte};

    /// The byte that it is.
    pub fn byte(self) -> u8
        ensures value { result ≡ mark_byte self }
        ensures some { 0 < result }
        ensures ascii { result < 128 }
    {
        match self {
            Mark::Star => b'*',
            Mark::Underscore => b'_',
        }
    }
}

/// A run of emphasis marks: the mark, how many there are, and whether they can open and close emphasis.
#[derive(Clone, Copy)]
pub struct Marks {
    pub mark: Mark,
    pub len: usize,
    pub opens: bool,
    pub closes: bool,
}

/// The character that ends at a place of a text, or a line end at its start.
pub fn char_before(text: &str, at: usize) -> char
    requires { IsCharBoundary text.now at }
    ensures { result ≡ grammar.char_before (reverse (take at text.now)) }
{
    let done = &text[..at];
    let start = last_start(done);
    first_char(&done[start..])
}

/// The character that a text begins with, or a line end where it has none.
pub fn char_after(text: &str) -> char
    ensures { result ≡ grammar.char_after text.now }
{
    first_char(text)
}

fn first_char(text: &str) -> char
    ensures { result ≡ slice_index_or (chars text.now) 0 10 }
{
    match text.chars().next() {
        Some(c) => c,
        None => '\n',
    }
}

// Where the last character begins.
fn last_start(text: &str) -> usize
    ensures value { drop result text.now ≡ reverse (take (suc (run_len (λ b. not (grammar.is_lead b)) (reverse text.now))) (reverse text.now)) }
    ensures cut { IsCharBoundary text.now result }
{
    let bytes = text.as_bytes();
    let mut end = bytes.len();
    while end > 0 {
        if is_lead(bytes[end - 1]) {
            return end - 1;
        }
        end -= 1;
    }
    0
}

fn is_lead(b: u8) -> bool
    ensures { result ≡ grammar.is_lead b }
{
    b < 128 || 191 < b
}

/// Whether a character is Unicode white space.
pub fn is_unicode_white(c: char) -> bool
    ensures { result ≡ grammar.is_unicode_white c }
{
    c == ' '
        || ('\t' <= c && c <= '\n')
        || ('\u{c}' <= c && c <= '\r')
        || GeneralCategory::for_char(c) == GeneralCategory::SpaceSeparator
}

/// Whether a character is Unicode punctuation or a symbol.
pub fn is_unicode_punctuation(c: char) -> bool
    ensures { result ≡ grammar.is_unicode_punct c }
{
    if c < '\u{80}' {
        is_punctuation(c)
    } else {
        is_in_category(c)
    }
}

fn is_punctuation(c: char) -> bool
    ensures { result ≡ bytes.is_punct c }
{
    ('!' <= c && c <= '/')
        || (':' <= c && c <= '@')
        || ('[' <= c && c <= '`')
        || ('{' <= c && c <= '~')
}

fn is_in_category(c: char) -> bool
    ensures { result ≡ grammar.in_category c }
{
    let category = GeneralCategory::for_char(c);
    GeneralCategoryGroup::Punctuation.contains(category)
        || GeneralCategoryGroup::Symbol.contains(category)
}

fn is_left_flanking(before: char, after: char) -> bool
    ensures { result ≡ grammar.left_flanking before after }
{
    !is_unicode_white(after)
        && (!is_unicode_punctuation(after)
            || is_unicode_white(before)
            || is_unicode_punctuation(before))
}

fn is_right_flanking(before: char, after: char) -> bool
    ensures { result ≡ grammar.right_flanking before after }
{
    !is_unicode_white(before)
        && (!is_unicode_punctuation(before)
            || is_unicode_white(after)
            || is_unicode_punctuation(after))
}

/// A run of marks between two characters.
pub(crate) fn marks_between(mark: Mark, len: usize, before: char, after: char) -> Marks
    ensures { run_of result ≡ run_at (mark_byte mark) len before after }
{
    let left = is_left_flanking(before, after);
    let right = is_right_flanking(before, after);
    match mark {
        Mark::Star => Marks {
            mark,
            len,
            opens: left,
            closes: right,
        },
        Mark::Underscore => Marks {
            mark,
            len,
            opens: left && (!right || is_unicode_punctuation(before)),
            closes: right && (!left || is_unicode_punctuation(after)),
        },
    }
}
