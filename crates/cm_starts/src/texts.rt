// Runs of bytes, and white space at the ends of a text.
ghost use Rattle.std.specs.Prelude.{◌≡◌, ◌<◌, ◌||◌, ◌==◌, reverse, take};
ghost use Rattle.std.specs.Str.{IsCharBoundary};
ghost use Rattle.site_text.specs.Bytes as bytes;
ghost use Rattle.markdown_grammar.specs.Fronts.{is_empty};
ghost use Rattle.site_text.specs.Fronts.{first_byte, has_one, run_len};
ghost use Rattle.markdown_grammar.specs.Lines as lines;
ghost use Rattle.cm_starts.specs.Runs.{behind_run};

use site_text::{Class, class_len, is_space};

/// How many of a byte a text begins with.
pub fn run(text: &str, c: u8) -> usize
    requires { c < 128 }
    ensures value { result ≡ run_len (λ d. d == c) text.now }
    ensures cut { IsCharBoundary text.now result }
{
    let bytes = text.as_bytes();
    let mut i = 0;
    while i < bytes.len() && bytes[i] == c {
        i += 1;
    }
    i
}

/// Whether a byte stands in a text.
pub(crate) fn has_byte(text: &str, c: u8) -> bool
    ensures { result ≡ has_one (λ d. d == c) text.now }
{
    for b in text.as_bytes() {
        if *b == c {
            return true;
        }
    }
    false
}

/// Whether a text is spaces and tabs alone.
pub fn is_blank(text: &[u8]) -> bool
    ensures { result ≡ lines.is_blank text.now }
{
    for c in text {
        if !is_space(*c) {
            return false;
        }
    }
    true
}

/// Whether a text is empty or begins with a space or a tab.
pub(crate) fn is_apart(text: &str) -> bool
    ensures { result ≡ (is_empty text.now || bytes.is_space (first_byte text.now)) }
{
    let bytes = text.as_bytes();
    bytes.len() == 0 || is_space(bytes[0])
}

/// A text without the spaces and tabs at both ends.
pub fn trim(text: &str) -> &str
    ensures { result.now ≡ lines.trim text.now }
{
    let front = class_len(Class::Space, text);
    trim_end(&text[front..])
}

fn trim_end(text: &str) -> &str
    ensures { result.now ≡ reverse (lines.trim_front (reverse text.now)) }
{
    let end = before_spaces(text);
    &text[..end]
}

// Where the spaces and tabs at the end begin.
fn before_spaces(text: &str) -> usize
    ensures value { behind_run bytes.is_space (reverse text.now) ≡ reverse (take result text.now) }
    ensures cut { IsCharBoundary text.now result }
{
    let bytes = text.as_bytes();
    let mut end = bytes.len();
    while end > 0 {
        if !is_space(bytes[end - 1]) {
            return end;
        }
        end -= 1;
    }
    end
}

/// Where the run of a byte at the end of a text begins.
pub(crate) fn before_run(text: &str, c: u8) -> usize
    requires { c < 128 }
    ensures value { behind_run (λ d. d == c) (reverse text.now) ≡ reverse (take result text.now) }
    ensures cut { IsCharBoundary text.now result }
{
    let bytes = text.as_bytes();
    let mut end = bytes.len();
    while end > 0 {
        if bytes[end - 1] != c {
            return end;
        }
        end -= 1;
    }
    end
}
