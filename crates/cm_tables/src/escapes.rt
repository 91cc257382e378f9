// Pipes in cells, which have a backslash before them where they are written.
ghost use Rattle.std.specs.Prelude.{◌≡◌, ◌==◌, ◌<◌, ◌+◌, IfOk, false, length};
ghost use Rattle.std.specs.List.{list_any};
ghost use Rattle.std.specs.Str.{IsCharBoundary};
ghost use Rattle.markdown_grammar.specs.Tables.{pipe, unescaped};
ghost use Rattle.cm_tables.specs.Cells.{plain_len};

use site_base::{Memory, Text};
use std::alloc::Global;

/// Whether a pipe stands in a text. The text of a cell without one is as it is written.
pub fn has_pipe(text: &str) -> bool
    ensures value { result ≡ list_any (λ c. c == pipe) text.now }
    ensures same { result ≡ false → unescaped text.now ≡ text.now }
{
    text.as_bytes().contains(&b'|')
}

/// The text of a cell as it is written, without the backslash directly before each pipe.
pub fn unescaped(alloc: Global, written: &str) -> Result<Text, Memory>
    ensures { IfOk result (λ text. text ≡ unescaped written.now) }
{
    let mut text = Text::new(alloc);
    let mut rest = written;
    while !rest.is_empty() {
        let len = plain_len(rest);
        text.push_str(&rest[..len])?;
        rest = if len < rest.len() {
            &rest[len + 1..]
        } else {
            ""
        };
    }
    Ok(text)
}

// How many bytes stand before the first backslash directly before a pipe.
fn plain_len(text: &str) -> usize
    ensures value { result ≡ plain_len text.now }
    ensures cut { IsCharBoundary text.now result }
    ensures behind { result < length text.now → IsCharBoundary text.now (result + 1) }
{
    let bytes = text.as_bytes();
    let mut len = 0;
    while len < bytes.len() && !bytes[len..].starts_with(b"\\|") {
        len += 1;
    }
    len
}
