// The cells of a line, one after another.
ghost use Rattle.std.specs.Prelude.{◌≡◌, ◌==◌, ◌<◌, ◌∷◌, ◌+◌, [], MatchOption, false, length, map, ℕ};
ghost use Rattle.std.specs.Str.{IsCharBoundary};
ghost use Rattle.markdown_grammar.specs.Tables.{cut_at_pipes, filled, unescaped, without_first_pipe, without_last_pipe, written_cells};
ghost use Rattle.cm_tables.specs.Cells.{cell_len, cut_rest, left};

use crate::white::bare;
use site_text::starts_with_byte;

/// The cells of a line that are still to come. Each is lent as it is written, without the white space at its ends: a pipe in it
/// has a backslash before it, which `unescaped` takes away.
#[derive(Drop)]
pub struct Cells<'a> {
    rest: Option<&'a str>,
}

impl<'a> Cells<'a> {
    /// All cells of a line; there is at least one.
    pub fn in_line(line: &'a str) -> Cells<'a>
        ensures { left result ≡ written_cells line.now }
    {
        let line = bare(line);
        Cells {
            rest: Some(without_last_pipe(without_first_pipe(line))),
        }
    }

    /// The next cell, or none behind the last.
    pub fn next_cell(&mut self) -> Option<&'a str>
        ensures { MatchOption result ((left self.old ≡ []) × (left self.new ≡ [])) (λ cell. left self.old ≡ cell.now ∷ left self.new) }
    {
        let (cell, rest) = cut_first(self.rest?);
        self.rest = rest;
        Some(bare(cell))
    }

    /// The next cell, or an empty one behind the last.
    pub fn next_filled(&mut self) -> &'a str
        ensures { (n : ℕ) → filled (1 + n) (map unescaped (left self.old)) ≡ unescaped result.now ∷ filled n (map unescaped (left self.new)) }
    {
        match self.next_cell() {
            Some(cell) => cell,
            None => "",
        }
    }

    /// Whether exactly so many cells are still to come.
    pub(crate) fn are(self, count: usize) -> bool
        ensures { result ≡ (length (left self.entry) == count) }
    {
        let mut cells = self;
        for place in 0..count {
            if cells.next_cell().is_none() {
                return false;
            }
        }
        cells.next_cell().is_none()
    }
}

fn without_first_pipe(text: &str) -> &str
    ensures { result.now ≡ without_first_pipe text.now }
{
    if text.as_bytes().starts_with(b"|") {
        &text[1..]
    } else {
        text
    }
}

fn without_last_pipe(text: &str) -> &str
    ensures { result.now ≡ without_last_pipe text.now }
{
    let bytes = text.as_bytes();
    if bytes.ends_with(b"|") && !bytes.ends_with(b"\\|") {
        &text[..text.len() - 1]
    } else {
        text
    }
}

// The first cell, and what stands behind the pipe after it, if there is one.
fn cut_first(text: &str) -> (&str, Option<&str>)
    ensures { cut_at_pipes false text.now ≡ result.0.now ∷ cut_rest result.1 }
{
    let len = cell_len(text);
    if len < text.len() {
        (&text[..len], Some(&text[len + 1..]))
    } else {
        (text, None)
    }
}

// How many bytes stand before the first pipe that has no backslash before it.
fn cell_len(text: &str) -> usize
    ensures value { result ≡ cell_len false text.now }
    ensures cut { IsCharBoundary text.now result }
    ensures behind { result < length text.now → IsCharBoundary text.now (result + 1) }
{
    let mut escaped = false;
    for (place, byte) in text.as_bytes().iter().enumerate() {
        if *byte == b'|' && !escaped {
            return place;
        }
        escaped = *byte == b'\\';
    }
    text.len()
}
