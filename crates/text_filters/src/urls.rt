// Texts as they are written in URLs.
ghost use Rattle.std.specs.Prelude.{◌≡◌, ◌++◌, flat_map, IfOk, OnOk};
ghost use Rattle.std.specs.String.{string_bytes};
ghost use Rattle.text_filters.specs.Urls.{is_unreserved, stays_in_addresses, query_byte, address_byte, url_byte};

use site_text::push_percent;
use std::alloc::{AllocError, Global};

/// How the bytes of a text are written in a URL.
#[derive(Clone, Copy, Debug, PartialEq, Eq)]
pub enum UrlCode {
    /// In a query: letters, digits and the marks `-_.~` stay, and a space is a `+`.
    Query,
    /// In an address: the marks that have a meaning there stay too.
    Address,
}

/// A text, of which each byte that may not stay is `%` and two digits.
pub fn percent_encoded(alloc: Global, code: UrlCode, text: &str) -> Result<String, AllocError>
    ensures { IfOk result (λ made. string_bytes made ≡ flat_map (url_byte code) text.now) }
{
    let mut made = String::new(alloc);
    for byte in text.as_bytes() {
        push_byte(&mut made, code, *byte)?;
    }
    Ok(made)
}

fn push_byte(made: &mut String, code: UrlCode, byte: u8) -> Result<(), AllocError>
    ensures { OnOk result (string_bytes made.new ≡ string_bytes made.old ++ url_byte code byte) }
{
    match code {
        UrlCode::Query => push_query_byte(made, byte),
        UrlCode::Address => push_address_byte(made, byte),
    }
}

fn push_query_byte(made: &mut String, byte: u8) -> Result<(), AllocError>
    ensures { OnOk result (string_bytes made.new ≡ string_bytes made.old ++ query_byte byte) }
{
    if is_unreserved(byte) {
        made.push(byte as char)
    } else if byte == b' ' {
        made.push('+')
    } else {
        push_percent(made, byte)
    }
}

fn push_address_byte(made: &mut String, byte: u8) -> Result<(), AllocError>
    ensures { OnOk result (string_bytes made.new ≡ string_bytes made.old ++ address_byte byte) }
{
    if stays_in_addresses(byte) {
        made.push(byte as char)
    } else {
        push_percent(made, byte)
    }
}

// Letters, digits and the marks that stand for themselves everywhere.
fn is_unreserved(byte: u8) -> bool
    ensures { result ≡ is_unreserved byte }
{
    byte.is_ascii_alphanumeric() || b"-_.~".contains(&byte)
}

fn stays_in_addresses(byte: u8) -> bool
    ensures { result ≡ stays_in_addresses byte }
{
    is_unreserved(byte) || b"!*'();:@&=+$,/?#[]%".contains(&byte)
}
