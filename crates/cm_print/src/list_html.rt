// The tags of lists and quotes as HTML.
ghost use Rattle.std.specs.Prelude.{◌≡◌, ◌++◌, IfOk, codes, if◌then◌else◌, string_bytes};
ghost use Rattle.std.specs.Fmt.{decimal};
ghost use Rattle.markdown_grammar.specs.ListTags.{fresh_line, is_bullet, list_tag};
ghost use Rattle.cm_print.specs.DocumentHtml.{list_after};
ghost use Rattle.cm_print.specs.NodeWalk.{text_after};
ghost use Rattle.cm_print.specs.Writing.{Prints, Reaches, written};

use crate::level::Closing;
use crate::writer::Writer;
use markdown_grammar::HtmlError;
use std::alloc::{AllocError, Global};

impl Writer {
    /// Begins a list.
    pub(crate) fn push_list_start(
        &mut self,
        alloc: Global,
        mark: char,
        number: u32,
    ) -> Result<(), HtmlError>
        ensures { Reaches self.old self.new (list_after mark number (written self.old)) result }
    {
        self.fresh_line()?;
        self.push_list_tag(alloc, mark, number)
    }

    fn push_list_tag(&mut self, alloc: Global, mark: char, number: u32) -> Result<(), HtmlError>
        ensures { Prints self.old self.new (list_tag mark number) result }
    {
        if is_bullet(mark) {
            return self.push("<ul>\n");
        }
        if number == 1 {
            return self.push("<ol>\n");
        }
        let tag = numbered_tag(alloc, number)?;
        self.push(tag.as_str())
    }

    /// Adds a piece on a line of its own.
    pub(crate) fn push_line(&mut self, piece: &str) -> Result<(), HtmlError>
        ensures { Reaches self.old self.new (fresh_line (written self.old) ++ piece.now) result }
    {
        self.fresh_line()?;
        self.push(piece)
    }

    /// Ends a level.
    pub(crate) fn push_end(&mut self, closing: Closing) -> Result<(), HtmlError>
        ensures { Reaches self.old self.new (text_after closing (written self.old)) result }
    {
        match closing {
            Closing::Text => Ok(()),
            Closing::Quote => self.push("</blockquote>\n"),
            Closing::List { mark } => self.push(list_end(mark)),
            Closing::Item => self.push("</li>\n"),
        }
    }
}

fn numbered_tag(alloc: Global, number: u32) -> Result<String, AllocError>
    ensures { IfOk result (λ tag. string_bytes tag ≡ codes "<ol start=\"" ++ (decimal number ++ codes "\">\n")) }
{
    format!(in alloc; "<ol start=\"{number}\">\n")
}

fn list_end(mark: char) -> &'static str
    ensures { result.now ≡ (if is_bullet mark then codes "</ul>\n" else codes "</ol>\n") }
{
    if is_bullet(mark) {
        "</ul>\n"
    } else {
        "</ol>\n"
    }
}

fn is_bullet(mark: char) -> bool
    ensures { result ≡ is_bullet mark }
{
    matches!(mark, '*' | '+' | '-')
}
