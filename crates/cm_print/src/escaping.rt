// Text as it stands in HTML.
ghost use Rattle.std.specs.Prelude.{◌≡◌, ◌<◌, false, length, slice_index};
ghost use Rattle.std.specs.Str.{IsCharBoundary};
ghost use Rattle.markdown_grammar.specs.CodeSpans.{spaced};
ghost use Rattle.markdown_grammar.specs.Escaping.{escaped};
ghost use Rattle.site_text.specs.Fronts.{run_len};
ghost use Rattle.cm_print.specs.Escapes.{escaped_as, is_plain};
ghost use Rattle.cm_print.specs.Writing.{Prints};

use crate::escape::Escape;
use crate::writer::Writer;
use markdown_grammar::HtmlError;

impl Writer {
    /// Adds a text with references for `&`, `<`, `>` and `"`.
    pub(crate) fn push_text(&mut self, text: &str) -> Result<(), HtmlError>
        ensures { Prints self.old self.new (escaped text.now) result }
    {
        self.push_escaped(Escape::Text, text)
    }

    /// Adds the text of a code span in the same way, with a space for each line end.
    pub(crate) fn push_code(&mut self, text: &str) -> Result<(), HtmlError>
        ensures { Prints self.old self.new (escaped (spaced text.now)) result }
    {
        self.push_escaped(Escape::Code, text)
    }

    fn push_escaped(&mut self, escape: Escape, text: &str) -> Result<(), HtmlError>
        ensures { Prints self.old self.new (escaped_as escape text.now) result }
    {
        let mut rest = text;
        while !rest.is_empty() {
            let plain = plain_len(escape, rest);
            self.push(&rest[..plain])?;
            if plain == rest.len() {
                return Ok(());
            }
            self.push(escape.reference(rest.as_bytes()[plain]))?;
            rest = &rest[plain + 1..];
        }
        Ok(())
    }
}

// How many bytes at the front of a text stand for themselves.
fn plain_len(escape: Escape, text: &str) -> usize
    ensures value { result ≡ run_len (is_plain escape) text.now }
    ensures boundary { IsCharBoundary text.now result }
    ensures stop { result < length text.now → is_plain escape (slice_index text.now result) ≡ false }
{
    let bytes = text.as_bytes();
    let mut i = 0;
    while i < bytes.len() && escape.is_plain(bytes[i]) {
        i += 1;
    }
    i
}
