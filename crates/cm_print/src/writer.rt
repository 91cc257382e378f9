// HTML that is being written.
ghost use Rattle.std.specs.Prelude.{◌≤◌, string_len};

use markdown_grammar::HtmlError;
use std::alloc::Global;

/// HTML that is being written, of at most so many bytes.
#[derive(Drop)]
pub(crate) struct Writer {
    pub(crate) text: String,
    pub(crate) most: u64,
    ghost fits: { string_len text ≤ most },
}

impl Writer {
    ghost use Rattle.std.specs.Prelude.{◌≡◌, ◌<◌, ◌∷◌, []};
    ghost use Rattle.cm_print.specs.Writing.{Prints, written};

    /// Nothing written; it takes no memory.
    pub(crate) fn new(alloc: Global, most: u64) -> Writer
        ensures text { written result ≡ [] }
        ensures most { result.most ≡ most }
    {
        Writer {
            text: String::new(alloc),
            most,
        }
    }

    /// Adds a text at the end.
    pub(crate) fn push(&mut self, text: &str) -> Result<(), HtmlError>
        ensures { Prints self.old self.new text.now result }
    {
        if self.text.len() as u128 + text.len() as u128 > self.most as u128 {
            return Err(HtmlError::TooLong);
        }
        self.text.push_str(text)?;
        Ok(())
    }

    /// Adds a character of ASCII at the end.
    pub(crate) fn push_ascii(&mut self, byte: u8) -> Result<(), HtmlError>
        requires { byte < 128 }
        ensures { Prints self.old self.new (byte ∷ []) result }
    {
        if self.text.len() as u128 + 1 > self.most as u128 {
            return Err(HtmlError::TooLong);
        }
        self.text.push(byte as char)?;
        Ok(())
    }
}
