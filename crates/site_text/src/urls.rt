// Bytes as they are written in addresses.
ghost use Rattle.std.specs.Prelude.{◌≡◌, ◌<◌, ◌++◌, OnOk};
ghost use Rattle.std.specs.String.{string_bytes};
ghost use Rattle.site_text.specs.Urls.{hex_digit, percent_byte, stands_in_urls};

use std::alloc::AllocError;

/// Whether a byte stands for itself in an address: letters, digits and the marks that may stay there.
pub fn stands_in_urls(byte: u8) -> bool
    ensures { result ≡ stands_in_urls byte }
{
    byte.is_ascii_alphanumeric() || b"-_.+!*'(),%#@?=;:/&$~".contains(&byte)
}

/// A digit of base 16, in capitals.
pub fn hex_digit(digit: u8) -> u8
    requires { digit < 16 }
    ensures is { result ≡ hex_digit digit }
    ensures ascii { result < 128 }
{
    if digit < 10 {
        b'0' + digit
    } else {
        b'7' + digit
    }
}

/// Adds a byte as `%` and two digits of base 16 (RFC 3986, section 2.1).
pub fn push_percent(text: &mut String, byte: u8) -> Result<(), AllocError>
    ensures { OnOk result (string_bytes text.new ≡ string_bytes text.old ++ percent_byte byte) }
{
    text.push('%')?;
    text.push(hex_digit(byte / 16) as char)?;
    text.push(hex_digit(byte % 16) as char)
}
