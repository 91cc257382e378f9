// Single bytes, and the classes that they are of.
ghost use Rattle.std.specs.Prelude.{◌≡◌};
ghost use Rattle.site_text.specs.Bytes as bytes;

/// Whether a byte is one of these.
pub fn is_one_of(listed: &[u8], c: u8) -> bool
    ensures { result ≡ bytes.is_one_of listed.now c }
{
    listed.contains(&c)
}

/// Whether a byte is ASCII punctuation.
pub fn is_punctuation(c: u8) -> bool
    ensures { result ≡ bytes.is_punct c }
{
    c.is_ascii_punctuation()
}

/// Whether a byte is an ASCII letter.
pub fn is_letter(c: u8) -> bool
    ensures { result ≡ bytes.is_letter c }
{
    c.is_ascii_alphabetic()
}

/// Whether a byte is an ASCII letter or digit.
pub fn is_alnum(c: u8) -> bool
    ensures { result ≡ bytes.is_alnum c }
{
    c.is_ascii_alphanumeric()
}

/// Whether a byte is a space or a tab.
pub fn is_space(c: u8) -> bool
    ensures { result ≡ bytes.is_space c }
{
    c == b' ' || c == b'\t'
}

/// Whether a byte is a space, a tab or part of a line end.
pub fn is_white(c: u8) -> bool
    ensures { result ≡ bytes.is_white c }
{
    c == b' ' || c == b'\t' || c == b'\n' || c == b'\r'
}

/// Whether a word of Liquid may start with a byte: a letter or `_`.
pub fn is_name_start(c: u8) -> bool
    ensures { result ≡ bytes.is_name_start c }
{
    is_letter(c) || c == b'_'
}

/// An ASCII letter in lower case, and any other byte as it is.
pub fn lower(c: u8) -> u8
    ensures { result ≡ bytes.lower c }
{
    c.to_ascii_lowercase()
}

pub(crate) fn is_name_byte(c: u8) -> bool
    ensures { result ≡ bytes.is_name_byte c }
{
    is_alnum(c) || c == b'_' || c == b'-'
}

pub(crate) fn is_digit(c: u8) -> bool
    ensures { result ≡ bytes.is_digit c }
{
    c.is_ascii_digit()
}

pub(crate) fn is_hex(c: u8) -> bool
    ensures { result ≡ bytes.is_hex c }
{
    c.is_ascii_hexdigit()
}

pub(crate) fn is_control(c: u8) -> bool
    ensures { result ≡ bytes.is_control c }
{
    c.is_ascii_control()
}

/// Whether something else than text may begin at a byte in Markdown.
pub(crate) fn is_special(c: u8) -> bool
    ensures { result ≡ bytes.is_special c }
{
    matches!(
        c,
        b'\\' | b'&' | b'`' | b'<' | b'*' | b'_' | b'!' | b'[' | b']' | b' ' | b'\n'
    )
}
