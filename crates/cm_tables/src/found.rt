// The table in a paragraph's text.
ghost use Rattle.std.specs.Prelude.{◌≡◌, ◌==◌, ◌∷◌, IfOk, option_map};
ghost use Rattle.std.specs.List.{slice_split};
ghost use Rattle.site_text.specs.Bytes.{line_feed};
ghost use Rattle.markdown_grammar.specs.Tables.{headed, table_in, table_of};
ghost use Rattle.cm_tables.specs.Found.{shown};
ghost use Rattle.cm_tables.specs.Rows.{below};

use crate::cells::Cells;
use crate::delimiters::delimiter_row;
use crate::rows::{Rows, first_line};
use markdown_grammar::Align;
use site_base::Memory;
use std::alloc::Global;

/// A table in a paragraph's text, whose lines are lent from there. Each line is one row, and `Cells` gives its cells. A row has
/// as many as there are alignments: empty ones where its line has too few, and none of those that are too many.
#[derive(Drop)]
pub struct TableText<'a> {
    /// How the cells of each column are aligned.
    pub aligns: Vec<Align>,
    /// The header's line, which has as many cells as there are columns.
    pub header: &'a str,
    /// The lines below the delimiter row.
    pub rows: Rows<'a>,
}

/// The table of a paragraph's text, in which LF stands between the lines, or none where it is none. GitHub Flavored Markdown
/// 0.29, section 4.10.
pub fn find_table<'a>(alloc: Global, text: &'a str) -> Result<Option<TableText<'a>>, Memory>
    ensures { IfOk result (λ found. option_map shown found ≡ table_of text.now) }
{
    let (header, below) = first_line(text);
    match below {
        Some(below) => table_under(alloc, header, below),
        None => Ok(None),
    }
}

// Under a header stands a delimiter row first.
fn table_under<'a>(
    alloc: Global,
    header: &'a str,
    below: &'a str,
) -> Result<Option<TableText<'a>>, Memory>
    ensures { IfOk result (λ found. option_map shown found ≡ table_in (header.now ∷ slice_split (λ c. c == line_feed) below.now)) }
{
    let (delimiters, rows) = first_line(below);
    match delimiter_row(alloc, delimiters)? {
        Some(aligns) => Ok(headed(header, Rows::in_lines(rows), aligns)),
        None => Ok(None),
    }
}

// The header has as many cells as the delimiter row.
fn headed<'a>(header: &'a str, rows: Rows<'a>, aligns: Vec<Align>) -> Option<TableText<'a>>
    ensures { option_map shown result ≡ headed header.now (below rows.entry) aligns.items }
{
    if Cells::in_line(header).are(aligns.len()) {
        Some(TableText {
            aligns,
            header,
            rows,
        })
    } else {
        None
    }
}
