// The rows of a table, one after another.
ghost use Rattle.std.specs.Prelude.{◌≡◌, ◌==◌, ◌≤◌, ◌∷◌, ◌^◌, [], MatchOption, length};
ghost use Rattle.std.specs.List.{slice_split};
ghost use Rattle.site_text.specs.Bytes.{line_feed};
ghost use Rattle.markdown_grammar.specs.Fronts.{is_empty};
ghost use Rattle.cm_tables.specs.Rows.{below, lines_in};

/// The rows below a table's header that are still to come.
#[derive(Drop)]
pub struct Rows<'a> {
    rest: Option<&'a str>,
}

impl<'a> Rows<'a> {
    /// The lines of a text, with LF between them, or none.
    pub(crate) fn in_lines(rest: Option<&'a str>) -> Rows<'a>
        ensures { below result ≡ lines_in rest.entry }
    {
        Rows { rest }
    }

    /// Whether no row is still to come.
    pub fn is_empty(&self) -> bool
        ensures { result ≡ is_empty (below self.now) }
    {
        self.rest.is_none()
    }

    /// How many rows are still to come.
    pub(crate) fn len(&self) -> usize
        ensures value { result ≡ length (below self.now) }
        ensures bound { result ≤ 2 ^ 63 }
    {
        match self.rest {
            Some(text) => line_count(text),
            None => 0,
        }
    }

    /// The line of the next row, or none behind the last.
    pub fn next_row(&mut self) -> Option<&'a str>
        ensures { MatchOption result (below self.old ≡ []) (λ line. below self.old ≡ line.now ∷ below self.new) }
    {
        let (line, rest) = first_line(self.rest?);
        self.rest = rest;
        Some(line)
    }
}

/// The first line of a text, and those below it, if there are any.
pub(crate) fn first_line(text: &str) -> (&str, Option<&str>)
    ensures { slice_split (λ c. c == line_feed) text.now ≡ result.0.now ∷ lines_in result.1 }
{
    match text.split_once('\n') {
        Some((line, below)) => (line, Some(below)),
        None => (text, None),
    }
}

fn line_count(text: &str) -> usize
    ensures value { result ≡ length (slice_split (λ c. c == line_feed) text.now) }
    ensures bound { result ≤ 2 ^ 63 }
{
    let mut count = 1;
    for byte in text.as_bytes() {
        if *byte == b'\n' {
            count += 1;
        }
    }
    count
}
