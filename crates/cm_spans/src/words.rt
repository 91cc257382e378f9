// Words, and the spaces between them.
ghost use Rattle.std.specs.Prelude.{◌≡◌, ◌≤◌, drop, length};
ghost use Rattle.std.specs.Str.{IsCharBoundary};
ghost use Rattle.site_text.specs.Fronts.{first_byte, run_len};
ghost use Rattle.cm_spans.specs.Words.{is_plain, words_len};

use site_text::{Class, byte_at, class_run};

/// How many bytes of words and of spaces between them stand at a place of a text: up to the next byte that may be
/// something else, but not the spaces before a line end.
pub fn words_len(text: &str, at: usize) -> usize
    requires { IsCharBoundary text.now at }
    ensures value { result ≡ words_len (drop at text.now) }
    ensures cut { IsCharBoundary (drop at text.now) result }
{
    plain_words(&text[at..])
}

fn plain_words(text: &str) -> usize
    ensures value { result ≡ words_len text.now }
    ensures cut { IsCharBoundary text.now result }
{
    let bytes = text.as_bytes();
    let len = class_run(Class::Plain, bytes);
    if byte_at(text, len) == b'\n' {
        return without_spaces(bytes, len);
    }
    len
}

// How many bytes stand before the spaces at a line end.
fn without_spaces(text: &[u8], line: usize) -> usize
    requires plain { line ≡ run_len is_plain text.now }
    requires ended { first_byte (drop line text.now) ≡ 10 }
    ensures { result ≡ words_len text.now }
{
    let mut end = line;
    while end > 0 && text[end - 1] == b' ' {
        end -= 1;
    }
    end
}
