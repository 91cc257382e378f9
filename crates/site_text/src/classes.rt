// Classes of bytes, and the runs of them that a text begins with.
ghost use Rattle.std.specs.Prelude.{◌≡◌, ◌<◌, ◌≤◌, false, length, slice_index};
ghost use Rattle.std.specs.List.{prefix_len};
ghost use Rattle.std.specs.Str.{IsCharBoundary};
ghost use Rattle.site_text.specs.Classes.{is_in};
ghost use Rattle.site_text.specs.Fronts.{run_len};

use crate::bytes::{
    is_alnum, is_control, is_digit, is_hex, is_name_byte, is_one_of, is_space, is_special, is_white,
};

/// Which bytes a part of a text is made of.
#[derive(Clone, Copy)]
pub enum Class {
    /// Spaces and tabs.
    Space,
    /// All but white space.
    NoWhite,
    Digit,
    HexDigit,
    Alphanumeric,
    /// Letters, digits and hyphens, as in the names of tags and hosts.
    Hyphenated,
    /// In a name of Liquid or of the configuration.
    Name,
    AttributeName,
    /// The value of an attribute without quotes.
    Unquoted,
    NoSingleQuote,
    NoDoubleQuote,
    /// Behind the first letter of an autolink's scheme.
    Scheme,
    /// Behind an autolink's scheme.
    Address,
    /// Before the `@` of a mail address.
    Mailbox,
    /// At which no escape and no character reference begins.
    Literal,
    /// At which nothing but text may begin in Markdown.
    Textual,
    /// The same, and spaces.
    Plain,
}

/// How many bytes of a class some bytes begin with.
pub fn class_run(class: Class, bytes: &[u8]) -> usize
    ensures value { result ≡ run_len (is_in class) bytes.now }
    ensures counted { result ≡ prefix_len (is_in class) bytes.now }
    ensures within { result ≤ length bytes.now }
    ensures stops { result < length bytes.now → is_in class (slice_index bytes.now result) ≡ false }
{
    count_at_front(class, bytes)
}

/// How many bytes of a class a text begins with, behind which it may be cut.
pub fn class_len(class: Class, text: &str) -> usize
    ensures value { result ≡ run_len (is_in class) text.now }
    ensures cut { IsCharBoundary text.now result }
    ensures stops { result < length text.now → is_in class (slice_index text.now result) ≡ false }
{
    class_run(class, text.as_bytes())
}

fn count_at_front(class: Class, bytes: &[u8]) -> usize
    ensures value { result ≡ prefix_len (is_in class) bytes.now }
    ensures within { result ≤ length bytes.now }
{
    bytes.iter().take_while(|c| is_of(class, **c)).count()
}

fn is_of(class: Class, c: u8) -> bool
    ensures { result ≡ is_in class c }
{
    match class {
        Class::Space => is_space(c),
        Class::NoWhite => !is_white(c),
        Class::Digit => is_digit(c),
        Class::HexDigit => is_hex(c),
        Class::Alphanumeric => is_alnum(c),
        Class::Hyphenated => is_alnum(c) || c == b'-',
        Class::Name => is_name_byte(c),
        Class::AttributeName => is_alnum(c) || is_one_of(b"_.:-", c),
        Class::Unquoted => !(is_white(c) || is_one_of(b"\"'=<>`", c)),
        Class::NoSingleQuote => c != b'\'',
        Class::NoDoubleQuote => c != b'"',
        Class::Scheme => is_alnum(c) || is_one_of(b"+.-", c),
        Class::Address => !(c == b' ' || (is_control(c) || is_one_of(b"<>", c))),
        Class::Mailbox => is_alnum(c) || is_one_of(b".!#$%&'*+/=?^_`{|}~-", c),
        Class::Literal => !(c == b'\\' || c == b'&'),
        Class::Textual => !is_special(c),
        Class::Plain => c == b' ' || !is_special(c),
    }
}
