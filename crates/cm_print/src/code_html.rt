// Code blocks as HTML.
ghost use Rattle.std.specs.Prelude.{◌≡◌, ◌++◌, IfOk, codes, not, take};
ghost use Rattle.site_text.specs.Bytes.{is_white};
ghost use Rattle.site_text.specs.Fronts.{run_len};
ghost use Rattle.markdown_grammar.specs.Escaping.{escaped};
ghost use Rattle.markdown_grammar.specs.LeafHtml.{class_text, info_word};
ghost use Rattle.cm_blocks.specs.DocumentHtml.{code_html};
ghost use Rattle.cm_print.specs.DocumentHtml.{code_after};
ghost use Rattle.cm_print.specs.Writing.{Prints, Reaches, written};

use crate::writer::Writer;
use cm_links::resolved;
use markdown_grammar::HtmlError;
use site_text::{Class, class_len};
use std::alloc::Global;

impl Writer {
    /// Adds a code block, whose info string names a language by its first word, or none.
    pub(crate) fn push_code_block(
        &mut self,
        alloc: Global,
        info: &str,
        text: &str,
    ) -> Result<(), HtmlError>
        ensures { Reaches self.old self.new (code_after info.now text.now (written self.old)) result }
    {
        self.fresh_line()?;
        self.push_code_tags(alloc, info, text)
    }

    fn push_code_tags(&mut self, alloc: Global, info: &str, text: &str) -> Result<(), HtmlError>
        ensures { Prints self.old self.new (code_html info.now text.now) result }
    {
        self.push("<pre><code")?;
        self.push_language(alloc, info)?;
        self.push(">")?;
        self.push_text(text)?;
        self.push("</code></pre>\n")
    }

    fn push_language(&mut self, alloc: Global, info: &str) -> Result<(), HtmlError>
        ensures { Prints self.old self.new (class_text (info_word info.now)) result }
    {
        let info = resolved(alloc, info)?;
        self.push_class(first_word(info.as_str()))
    }

    fn push_class(&mut self, language: &str) -> Result<(), HtmlError>
        ensures { Prints self.old self.new (class_text language.now) result }
    {
        if language.is_empty() {
            return Ok(());
        }
        self.push_given_class(language)
    }

    fn push_given_class(&mut self, language: &str) -> Result<(), HtmlError>
        ensures { Prints self.old self.new (codes " class=\"language-" ++ (escaped language.now ++ codes "\"")) result }
    {
        self.push(" class=\"language-")?;
        self.push_text(language)?;
        self.push("\"")
    }
}

// What stands before the first white space.
fn first_word(text: &str) -> &str
    ensures { result.now ≡ take (run_len (λ c. not (is_white c)) text.now) text.now }
{
    &text[..class_len(Class::NoWhite, text)]
}
