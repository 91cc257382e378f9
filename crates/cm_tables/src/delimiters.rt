// Delimiter rows. GitHub Flavored Markdown 0.29, section 4.10.
ghost use Rattle.std.specs.Prelude.{◌≡◌, ◌==◌, ◌≤◌, IfOk, length, option_map};
ghost use Rattle.std.specs.List.{prefix_len};
ghost use Rattle.site_text.specs.Bytes.{hyphen};
ghost use Rattle.markdown_grammar.specs.Tables.{align_of, aligned, aligns_of, delimiter_row, ended, hyphens};
ghost use Rattle.cm_tables.specs.Cells.{left};

use crate::cells::Cells;
use markdown_grammar::Align;
use site_base::Memory;
use std::alloc::Global;

/// The alignments that a line gives as a delimiter row, one for each of its cells, or none where it is none.
pub(crate) fn delimiter_row(alloc: Global, line: &str) -> Result<Option<Vec<Align>>, Memory>
    ensures { IfOk result (λ found. option_map (λ aligns. aligns.items) found ≡ delimiter_row line.now) }
{
    if !line.as_bytes().contains(&b'|') {
        return Ok(None);
    }
    aligns_of(alloc, Cells::in_line(line))
}

fn aligns_of(alloc: Global, cells: Cells<'_>) -> Result<Option<Vec<Align>>, Memory>
    ensures { IfOk result (λ found. option_map (λ aligns. aligns.items) found ≡ aligns_of (left cells.entry)) }
{
    let mut cells = cells;
    let mut aligns = Vec::new(alloc);
    while let Some(cell) = cells.next_cell() {
        let Some(align) = align_of(cell) else {
            return Ok(None);
        };
        aligns.push(align)?;
    }
    Ok(Some(aligns))
}

fn align_of(cell: &str) -> Option<Align>
    ensures { result ≡ align_of cell.now }
{
    match cell.as_bytes() {
        [b':', rest @ ..] => hyphens(true, rest),
        all => hyphens(false, all),
    }
}

// One hyphen or more, and what follows them.
fn hyphens(first: bool, text: &[u8]) -> Option<Align>
    ensures { result ≡ hyphens first text.now }
{
    let count = hyphen_count(text);
    if count == 0 {
        return None;
    }
    ended(first, &text[count..])
}

fn hyphen_count(text: &[u8]) -> usize
    ensures value { result ≡ prefix_len (λ c. c == hyphen) text.now }
    ensures within { result ≤ length text.now }
{
    text.iter().take_while(|byte| **byte == b'-').count()
}

// Behind the hyphens: nothing, or a colon.
fn ended(first: bool, rest: &[u8]) -> Option<Align>
    ensures { result ≡ ended first rest.now }
{
    match rest {
        [] => Some(aligned(first, false)),
        [b':'] => Some(aligned(first, true)),
        _ => None,
    }
}

// By whether a colon stands in front, and at the end.
fn aligned(first: bool, last: bool) -> Align
    ensures { result ≡ aligned first last }
{
    match (first, last) {
        (false, false) => Align::Plain,
        (true, false) => Align::Left,
        (false, true) => Align::Right,
        (true, true) => Align::Center,
    }
}
