// White space between the parts of a link.
ghost use Rattle.std.specs.Prelude.{◌≡◌, Some, IfSome};
ghost use Rattle.std.specs.Str.{IsCharBoundary};
ghost use Rattle.markdown_grammar.specs.Readers as readers;
ghost use Rattle.markdown_grammar.specs.Definitions as grammar;

use site_text::{Class, class_len, starts_with_byte};

/// How many spaces and tabs a text begins with, with up to one line end among them.
pub fn white_gap(text: &str) -> usize
    ensures value { Some result ≡ readers.white_gap text.now }
    ensures boundary { IsCharBoundary text.now result }
{
    let first = class_len(Class::Space, text);
    let rest = &text[first..];
    if starts_with_byte(rest, b'\n') {
        first + 1 + class_len(Class::Space, &rest[1..])
    } else {
        first
    }
}

/// How long the rest of a line is that has nothing but white space, with its end.
pub(crate) fn line_rest(text: &str) -> Option<usize>
    ensures value { result ≡ grammar.line_rest text.now }
    ensures boundary { IfSome result (IsCharBoundary text.now) }
{
    let n = class_len(Class::Space, text);
    if n == text.len() {
        Some(n)
    } else if text.as_bytes()[n] == b'\n' {
        Some(n + 1)
    } else {
        None
    }
}
