// Where flow values end.
ghost use Rattle.std.specs.Prelude.{◌≡◌, ◌<◌, ◌+◌, ◌&&◌, ◌==◌, ◌^◌, false, true, length};
ghost use Rattle.front_yaml.specs.Extents.{opens, begins_value, closes, may_end_key, is_fresh, is_separator, is_closed};
ghost use Rattle.front_yaml.specs.Scanning.{Stepped, IsNear};
ghost use Rattle.front_yaml.specs.Quotes.{is_quote};

use crate::plain_scalars::separates;
use crate::quote_ends::{is_quote, quote_len};
use crate::scans::{is_gap, tail};

/// What stands before a byte of a flow value.
#[derive(Clone, Copy)]
pub(crate) enum Before {
    /// A separator.
    Fresh,
    /// A part of a plain scalar.
    Plainly,
    /// The end of a value.
    Ended,
}

pub(crate) fn opens(c: u8) -> bool
    ensures { result ≡ opens c }
{
    c == b'[' || c == b'{'
}

/// Whether a flow value begins at the front.
pub(crate) fn begins_value(text: &[u8]) -> bool
    ensures { result ≡ begins_value text.now }
{
    match text {
        [c, ..] => opens(*c),
        [] => false,
    }
}

fn closes(c: u8) -> bool
    ensures { result ≡ closes c }
{
    c == b']' || c == b'}'
}

impl Before {
    fn is_fresh(self) -> bool
        ensures { result ≡ is_fresh self }
    {
        match self {
            Before::Fresh => true,
            Before::Plainly | Before::Ended => false,
        }
    }

    fn may_end_key(self) -> bool
        ensures { result ≡ may_end_key self }
    {
        match self {
            Before::Ended => true,
            Before::Fresh | Before::Plainly => false,
        }
    }
}

/// What is known of a flow value before one of its bytes.
#[derive(Clone, Copy)]
pub(crate) struct Scan {
    before: Before,
    /// White space stands directly before.
    gap: bool,
    /// The byte stands in a comment.
    comment: bool,
    /// How many brackets are open.
    depth: usize,
}

/// What a byte of a flow value does.
#[derive(Clone, Copy)]
pub(crate) enum Step {
    /// It closes the value.
    Ends,
    /// It opens a quote without an end.
    Endless,
    /// The value goes on behind some bytes.
    On(Scan, usize),
}

impl Scan {
    // Behind a byte that is neither white space nor part of a comment.
    fn past(before: Before, depth: usize) -> Scan
        ensures { result ≡ record { before = before; gap = false; comment = false; depth = depth } }
    {
        Scan {
            before,
            gap: false,
            comment: false,
            depth,
        }
    }

    // Behind white space or a byte of a comment.
    fn past_gap(self, comment: bool) -> Scan
        ensures { result ≡ record { before = self.before; gap = true; comment = comment; depth = self.depth } }
    {
        Scan {
            before: self.before,
            gap: true,
            comment,
            depth: self.depth,
        }
    }

    fn starts_comment(self, c: u8) -> bool
        ensures { result ≡ self.gap && (c == 35) }
    {
        self.gap && c == b'#'
    }

    fn starts_quote(self, c: u8) -> bool
        ensures { result ≡ is_quote c && is_fresh self.before }
    {
        is_quote(c) && self.before.is_fresh()
    }

    fn is_separator(self, c: u8, rest: &[u8]) -> bool
        ensures { result ≡ is_separator self.before c rest.now }
    {
        c == b',' || c == b':' && (self.before.may_end_key() || separates(true, rest))
    }

    fn step(self, c: u8, rest: &[u8]) -> Step
        requires { self.depth < 2 ^ 63 }
        ensures value { Stepped result self c rest.now }
        ensures near { IsNear result self rest.now }
    {
        if self.comment {
            return Step::On(self.past_gap(c != b'\n'), 1);
        }
        if self.starts_comment(c) {
            return Step::On(self.past_gap(true), 1);
        }
        if self.starts_quote(c) {
            return match quote_len(c, rest) {
                Some(len) => Step::On(Scan::past(Before::Ended, self.depth), len + 2),
                None => Step::Endless,
            };
        }
        self.step_outside(c, rest)
    }

    // The same outside of comments and quotes.
    fn step_outside(self, c: u8, rest: &[u8]) -> Step
        requires small { self.depth < 2 ^ 63 }
        requires no_comment { self.comment ≡ false }
        requires no_hash { self.gap && (c == 35) ≡ false }
        requires no_quote { is_quote c && is_fresh self.before ≡ false }
        ensures value { Stepped result self c rest.now }
        ensures near { IsNear result self rest.now }
    {
        if opens(c) {
            return Step::On(Scan::past(Before::Fresh, self.depth + 1), 1);
        }
        if closes(c) {
            return if self.depth <= 1 {
                Step::Ends
            } else {
                Step::On(Scan::past(Before::Ended, self.depth - 1), 1)
            };
        }
        if self.is_separator(c, rest) {
            return Step::On(Scan::past(Before::Fresh, self.depth), 1);
        }
        if is_gap(c) {
            return Step::On(self.past_gap(false), 1);
        }
        Step::On(Scan::past(Before::Plainly, self.depth), 1)
    }
}

/// Whether the flow value at the front is closed.
pub(crate) fn is_closed(text: &[u8]) -> bool
    ensures { result ≡ is_closed text.now }
{
    let mut scan = Scan::past(Before::Fresh, 0);
    let mut n = 0;
    while n < text.len() {
        match scan.step(text[n], tail(text, n + 1)) {
            Step::Ends => return true,
            Step::Endless => return false,
            Step::On(next, len) => {
                scan = next;
                n += len;
            }
        }
    }
    false
}
