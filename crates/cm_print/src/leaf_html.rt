// Leaf blocks as HTML.
ghost use Rattle.std.specs.Prelude.{◌≡◌, ◌++◌, ◌∷◌, ◌+◌, codes};
ghost use Rattle.markdown_grammar.specs.InlineHtml.{inline_html};
ghost use Rattle.markdown_grammar.specs.LeafHtml.{heading_name, paragraph_onto, prose_onto, tagged};
ghost use Rattle.markdown_grammar.specs.ListTags.{fresh_line};
ghost use Rattle.cm_print.specs.DocumentHtml.{heading_after, prose};
ghost use Rattle.cm_print.specs.Writing.{Prints, Reaches, written};

use crate::writer::Writer;
use cm_inlines::{Inlines, read_inlines};
use cm_links::Links;
use cm_starts::HeadingLevel;
use cm_tables::find_table;
use markdown_grammar::HtmlError;
use std::alloc::Global;

impl Writer {
    /// Begins a line, unless one has begun.
    pub(crate) fn fresh_line(&mut self) -> Result<(), HtmlError>
        ensures { Reaches self.old self.new (fresh_line (written self.old)) result }
    {
        match self.text.as_bytes().last() {
            None | Some(b'\n') => Ok(()),
            Some(_) => self.push("\n"),
        }
    }

    /// Adds a paragraph, unless its text is empty: a table, where its text is one, and else prose.
    pub(crate) fn push_paragraph(
        &mut self,
        alloc: Global,
        links: &Links,
        is_tight: bool,
        text: &str,
    ) -> Result<(), HtmlError>
        ensures { Reaches self.old self.new (paragraph_onto links.now is_tight text.now (written self.old)) result }
    {
        if text.is_empty() {
            return Ok(());
        }
        match find_table(alloc, text)? {
            Some(table) => self.push_table(alloc, links, table),
            None => {
                let body = read_inlines(alloc, text, links)?;
                self.push_paragraph_of(is_tight, &body)
            }
        }
    }

    // Prose: in a tight list its inlines alone.
    fn push_paragraph_of(&mut self, is_tight: bool, body: &Inlines<'_>) -> Result<(), HtmlError>
        ensures { Reaches self.old self.new (prose_onto is_tight (inline_html body.now) (written self.old)) result }
    {
        if is_tight {
            return self.push_inlines(body);
        }
        self.fresh_line()?;
        self.push_tagged_paragraph(body)
    }

    fn push_tagged_paragraph(&mut self, body: &Inlines<'_>) -> Result<(), HtmlError>
        ensures { Prints self.old self.new (tagged (codes "p") (inline_html body.now)) result }
    {
        self.push("<p>")?;
        self.push_inlines(body)?;
        self.push("</p>\n")
    }

    /// Adds a heading.
    pub(crate) fn push_heading(
        &mut self,
        alloc: Global,
        links: &Links,
        level: HeadingLevel,
        text: &str,
    ) -> Result<(), HtmlError>
        ensures { Reaches self.old self.new (heading_after level (prose links.now text.now) (written self.old)) result }
    {
        let body = read_inlines(alloc, text, links)?;
        self.push_heading_of(level, &body)
    }

    fn push_heading_of(&mut self, level: HeadingLevel, body: &Inlines<'_>) -> Result<(), HtmlError>
        ensures { Reaches self.old self.new (heading_after level (inline_html body.now) (written self.old)) result }
    {
        self.fresh_line()?;
        self.push_tagged_heading(level, body)
    }

    fn push_tagged_heading(
        &mut self,
        level: HeadingLevel,
        body: &Inlines<'_>,
    ) -> Result<(), HtmlError>
        ensures { Prints self.old self.new (tagged (heading_name level) (inline_html body.now)) result }
    {
        self.push_heading_tag("<h", level, ">")?;
        self.push_inlines(body)?;
        self.push_heading_tag("</h", level, ">\n")
    }

    fn push_heading_tag(
        &mut self,
        start: &str,
        level: HeadingLevel,
        end: &str,
    ) -> Result<(), HtmlError>
        ensures { Prints self.old self.new (start.now ++ ((48 + level) ∷ end.now)) result }
    {
        self.push(start)?;
        self.push_ascii(level.digit())?;
        self.push(end)
    }
}
