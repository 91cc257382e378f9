// Tables as HTML. GitHub Flavored Markdown 0.29, section 4.10.
ghost use Rattle.std.specs.Prelude.{◌≡◌, ◌++◌, codes, flat_map, length, map};
ghost use Rattle.markdown_grammar.specs.ListTags.{fresh_line};
ghost use Rattle.markdown_grammar.specs.TableHtml.{body_html, cell_end, cell_html, cell_start, cells_html, parts_html, row_html, table_html};
ghost use Rattle.markdown_grammar.specs.Tables.{cells, filled, unescaped};
ghost use Rattle.cm_tables.specs.Cells.{left};
ghost use Rattle.cm_tables.specs.Found.{shown};
ghost use Rattle.cm_tables.specs.Rows.{below};
ghost use Rattle.cm_print.specs.DocumentHtml.{prose};
ghost use Rattle.cm_print.specs.Tables.{cell_name, rows_of};
ghost use Rattle.cm_print.specs.Writing.{Prints, Reaches, written};

use crate::writer::Writer;
use cm_inlines::read_inlines;
use cm_links::Links;
use cm_tables::{Cells, Rows, TableText, has_pipe, unescaped};
use markdown_grammar::{Align, HtmlError};
use std::alloc::Global;

/// What the cells of a row are.
#[derive(Clone, Copy, Debug, PartialEq, Eq)]
pub(crate) enum CellKind {
    Header,
    Data,
}

impl CellKind {
    fn start(self, align: Align) -> &'static str
        ensures { result.now ≡ cell_start (cell_name self) align }
    {
        match (self, align) {
            (CellKind::Header, Align::Plain) => "<th>",
            (CellKind::Header, Align::Left) => "<th align=\"left\">",
            (CellKind::Header, Align::Right) => "<th align=\"right\">",
            (CellKind::Header, Align::Center) => "<th align=\"center\">",
            (CellKind::Data, Align::Plain) => "<td>",
            (CellKind::Data, Align::Left) => "<td align=\"left\">",
            (CellKind::Data, Align::Right) => "<td align=\"right\">",
            (CellKind::Data, Align::Center) => "<td align=\"center\">",
        }
    }

    fn end(self) -> &'static str
        ensures { result.now ≡ cell_end (cell_name self) }
    {
        match self {
            CellKind::Header => "</th>\n",
            CellKind::Data => "</td>\n",
        }
    }
}

impl Writer {
    /// Adds a table on lines of its own.
    pub(crate) fn push_table(
        &mut self,
        alloc: Global,
        links: &Links,
        table: TableText<'_>,
    ) -> Result<(), HtmlError>
        ensures { Reaches self.old self.new (fresh_line (written self.old) ++ table_html links.now (shown table.entry)) result }
    {
        self.fresh_line()?;
        self.push_tagged_table(alloc, links, table)
    }

    fn push_tagged_table(
        &mut self,
        alloc: Global,
        links: &Links,
        table: TableText<'_>,
    ) -> Result<(), HtmlError>
        ensures { Prints self.old self.new (table_html links.now (shown table.entry)) result }
    {
        self.push("<table>\n")?;
        self.push_parts(alloc, links, table)?;
        self.push("</table>\n")
    }

    fn push_parts(
        &mut self,
        alloc: Global,
        links: &Links,
        table: TableText<'_>,
    ) -> Result<(), HtmlError>
        ensures { Prints self.old self.new (parts_html links.now (shown table.entry).aligns (shown table.entry).rows) result }
    {
        let aligns = table.aligns.as_slice();
        self.push("<thead>\n")?;
        self.push_row(alloc, links, CellKind::Header, aligns, table.header)?;
        self.push("</thead>\n")?;
        self.push_body(alloc, links, aligns, table.rows)
    }

    fn push_body(
        &mut self,
        alloc: Global,
        links: &Links,
        aligns: &[Align],
        rows: Rows<'_>,
    ) -> Result<(), HtmlError>
        ensures { Prints self.old self.new (body_html links.now aligns.now (rows_of (length aligns.now) (below rows.entry))) result }
    {
        if rows.is_empty() {
            return Ok(());
        }
        self.push("<tbody>\n")?;
        self.push_rows(alloc, links, aligns, rows)?;
        self.push("</tbody>\n")
    }

    fn push_rows(
        &mut self,
        alloc: Global,
        links: &Links,
        aligns: &[Align],
        rows: Rows<'_>,
    ) -> Result<(), HtmlError>
        ensures { Prints self.old self.new (flat_map (row_html links.now (codes "td") aligns.now) (rows_of (length aligns.now) (below rows.entry))) result }
    {
        let mut rows = rows;
        while let Some(line) = rows.next_row() {
            self.push_row(alloc, links, CellKind::Data, aligns, line)?;
        }
        Ok(())
    }

    // A row: of the cells of its line as many as there are columns, and empty ones for those that it lacks.
    fn push_row(
        &mut self,
        alloc: Global,
        links: &Links,
        kind: CellKind,
        aligns: &[Align],
        line: &str,
    ) -> Result<(), HtmlError>
        ensures { Prints self.old self.new (row_html links.now (cell_name kind) aligns.now (filled (length aligns.now) (cells line.now))) result }
    {
        self.push("<tr>\n")?;
        self.push_cells(alloc, links, kind, aligns, Cells::in_line(line))?;
        self.push("</tr>\n")
    }

    fn push_cells(
        &mut self,
        alloc: Global,
        links: &Links,
        kind: CellKind,
        aligns: &[Align],
        cells: Cells<'_>,
    ) -> Result<(), HtmlError>
        ensures { Prints self.old self.new (cells_html links.now (cell_name kind) aligns.now (filled (length aligns.now) (map unescaped (left cells.entry)))) result }
    {
        let mut cells = cells;
        for align in aligns {
            self.push_cell(alloc, links, kind, *align, cells.next_filled())?;
        }
        Ok(())
    }

    // A cell, from what is written of it.
    fn push_cell(
        &mut self,
        alloc: Global,
        links: &Links,
        kind: CellKind,
        align: Align,
        written: &str,
    ) -> Result<(), HtmlError>
        ensures { Prints self.old self.new (cell_html links.now (cell_name kind) align (unescaped written.now)) result }
    {
        self.push(kind.start(align))?;
        self.push_cell_text(alloc, links, written)?;
        self.push(kind.end())
    }

    fn push_cell_text(
        &mut self,
        alloc: Global,
        links: &Links,
        written: &str,
    ) -> Result<(), HtmlError>
        ensures { Prints self.old self.new (prose links.now (unescaped written.now)) result }
    {
        if !has_pipe(written) {
            return self.push_prose(alloc, links, written);
        }
        let text = unescaped(alloc, written)?;
        self.push_prose(alloc, links, text.as_str())
    }

    fn push_prose(&mut self, alloc: Global, links: &Links, text: &str) -> Result<(), HtmlError>
        ensures { Prints self.old self.new (prose links.now text.now) result }
    {
        let inlines = read_inlines(alloc, text, links)?;
        self.push_inlines(&inlines)
    }
}
