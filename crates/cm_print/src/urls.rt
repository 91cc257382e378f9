// Addresses as they stand in attributes.
ghost use Rattle.site_text.specs.Urls.{percent_byte, url_byte, url_text};
ghost use Rattle.cm_print.specs.Writing.{Prints};

use crate::writer::Writer;
use markdown_grammar::HtmlError;
use site_text::{hex_digit, stands_in_urls};

impl Writer {
    /// Adds an address: bytes that may not stand in one as `%` and two digits of base 16, and `&` as a reference.
    pub(crate) fn push_url(&mut self, url: &str) -> Result<(), HtmlError>
        ensures { Prints self.old self.new (url_text url.now) result }
    {
        for byte in url.as_bytes() {
            self.push_url_byte(*byte)?;
        }
        Ok(())
    }

    fn push_url_byte(&mut self, byte: u8) -> Result<(), HtmlError>
        ensures { Prints self.old self.new (url_byte byte) result }
    {
        if !stands_in_urls(byte) {
            return self.push_percent(byte);
        }
        if byte == b'&' {
            return self.push("&amp;");
        }
        self.push_ascii(byte)
    }

    // Adds `%` and the two digits of a byte.
    fn push_percent(&mut self, byte: u8) -> Result<(), HtmlError>
        ensures { Prints self.old self.new (percent_byte byte) result }
    {
        self.push("%")?;
        self.push_ascii(hex_digit(byte / 16))?;
        self.push_ascii(hex_digit(byte % 16))
    }
}
