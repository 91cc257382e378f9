// Tables whose cells are read.
ghost use Rattle.std.specs.Prelude.{◌≡◌, ◌∷◌, ◌++◌, IfOk, OnOk, flat_map, map};
ghost use Rattle.markdown_grammar.specs.Reading.{inlines};
ghost use Rattle.markdown_grammar.specs.Tables.{cells, filled, table_of};
ghost use Rattle.cm_tables.specs.Rows.{below};
ghost use Rattle.cm_tables.specs.Found.{shown};
ghost use Rattle.cm_tables.specs.Tables.{IsMade, IsRead};

use crate::cells::Cells;
use crate::escapes::unescaped;
use crate::found::{TableText, find_table};
use crate::rows::Rows;
use cm_inlines::{Inlines, read_inlines};
use cm_links::Links;
use markdown_grammar::Align;
use site_base::{Memory, Text};
use std::alloc::Global;

/// A table whose cells are read.
#[derive(Drop)]
pub struct Table<'a> {
    /// How the cells of each column are aligned.
    pub aligns: Vec<Align>,
    /// How many rows there are, the header among them.
    pub rows: u64,
    /// The cells row by row, the header's first: in each row as many as there are columns.
    pub cells: Vec<Inlines<'a>>,
}

/// The table of a paragraph's text, in which LF stands between the lines, where these definitions of links are known; or none
/// where it is none. What its inlines are lent from is put into `texts`, in place of what is there: the text of each cell, which
/// may have lost backslashes. Room for all cells is taken before the first is read, and where there is none the answer is Memory.
pub fn read_table<'a>(
    alloc: Global,
    text: &str,
    links: &Links,
    texts: &'a mut Vec<Text>,
) -> Result<Option<Table<'a>>, Memory>
    ensures { IfOk result (λ found. IsRead links.now found (table_of text.now)) }
{
    match find_table(alloc, text)? {
        Some(table) => Ok(Some(read_found(alloc, table, links, texts)?)),
        None => Ok(None),
    }
}

fn read_found<'a>(
    alloc: Global,
    table: TableText<'_>,
    links: &Links,
    texts: &'a mut Vec<Text>,
) -> Result<Table<'a>, Memory>
    ensures { IfOk result (λ made. IsMade links.now made (shown table.entry)) }
{
    let rows = 1 + table.rows.len();
    let Some(count) = rows.checked_mul(table.aligns.len()) else {
        return Err(Memory);
    };
    *texts = Vec::with_capacity(alloc, count)?;
    let mut cells = Vec::with_capacity(alloc, count)?;
    push_texts(alloc, texts, table.aligns.len(), table.header, table.rows)?;
    read_cells(alloc, &mut cells, texts.as_slice(), links)?;
    Ok(Table {
        aligns: table.aligns,
        rows: rows as u64,
        cells,
    })
}

// Adds the texts of all cells, row by row.
fn push_texts(
    alloc: Global,
    texts: &mut Vec<Text>,
    columns: usize,
    header: &str,
    rows: Rows<'_>,
) -> Result<(), Memory>
    ensures { OnOk result (texts.new.items ≡ texts.old.items ++ flat_map (λ line. filled columns (cells line)) (header.now ∷ below rows.entry)) }
{
    push_row(alloc, texts, columns, header)?;
    let mut rows = rows;
    while let Some(line) = rows.next_row() {
        push_row(alloc, texts, columns, line)?;
    }
    Ok(())
}

fn push_row(alloc: Global, texts: &mut Vec<Text>, columns: usize, line: &str) -> Result<(), Memory>
    ensures { OnOk result (texts.new.items ≡ texts.old.items ++ filled columns (cells line.now)) }
{
    let mut cells = Cells::in_line(line);
    for column in 0..columns {
        texts.push(unescaped(alloc, cells.next_filled())?)?;
    }
    Ok(())
}

fn read_cells<'a>(
    alloc: Global,
    cells: &mut Vec<Inlines<'a>>,
    texts: &'a [Text],
    links: &Links,
) -> Result<(), Memory>
    ensures { OnOk result (cells.new.items ≡ cells.old.items ++ map (inlines links.now) texts.now) }
{
    for text in texts {
        cells.push(read_inlines(alloc, text.as_str(), links)?)?;
    }
    Ok(())
}
