// The lines before and after fenced code.
ghost use Rattle.std.specs.Prelude.{◌≡◌, ◌==◌, ◌≤◌, List, length, ℕ};
ghost use Rattle.markdown_grammar.specs.Columns as columns;
ghost use Rattle.markdown_grammar.specs.Fences as grammar;
ghost use Rattle.site_text.specs.Fronts.{run_len};
ghost use Rattle.markdown_grammar.specs.Lines.{trim_front};
ghost use Rattle.cm_starts.specs.Answers.{as_start};
ghost use Rattle.cm_starts.specs.Runs.{closes_at, is_fence_mark, is_spoilt};

use crate::kinds::Start;
use crate::texts::{has_byte, is_blank, run, trim};

/// The code fence that a line starts, by its indent in columns and its text behind that, or `Text`
/// where it starts none: at least three backticks or tildes, and the info string, which holds no
/// backtick behind backticks. CommonMark 0.31.2, section 4.5.
pub fn fence<'a>(indent: u128, text: &'a str) -> Start<'a>
    ensures { as_start result ≡ grammar.fence_at indent text.now }
{
    let bytes = text.as_bytes();
    if bytes.len() == 0 {
        return Start::Text;
    }
    let mark = bytes[0];
    if !is_mark(mark) {
        return Start::Text;
    }
    let len = run(text, mark);
    let info = &text[len..];
    if len < 3 || spoils(mark, info) {
        return Start::Text;
    }
    Start::Fence {
        indent,
        mark: mark as char,
        len,
        info: trim(info),
    }
}

fn is_mark(c: u8) -> bool
    ensures { result ≡ is_fence_mark c }
{
    c == b'`' || c == b'~'
}

// Whether a backtick stands in the info string behind backticks.
fn spoils(mark: u8, info: &str) -> bool
    ensures { result ≡ is_spoilt mark info.now }
{
    mark == b'`' && has_byte(info, b'`')
}

/// Whether a line ends the code behind a fence of so many marks, by its indent in columns and its text
/// behind that: it is indented by at most three columns, and has at least as many of the mark and
/// nothing else. CommonMark 0.31.2, section 4.5.
pub fn closes_fence(mark: char, len: usize, indent: u128, text: &str) -> bool
    ensures { (col : ℕ) (line : List ℕ) → columns.indent col line ≡ indent → trim_front line ≡ text.now → result ≡ grammar.closes_fence mark len col line }
{
    closes(mark, len, indent, text.as_bytes())
}

fn closes(mark: char, len: usize, indent: u128, text: &[u8]) -> bool
    ensures { result ≡ closes_at mark len indent text.now }
{
    let n = marks(text, mark);
    indent < 4 && len <= n && is_blank(&text[n..])
}

fn marks(text: &[u8], mark: char) -> usize
    ensures value { result ≡ run_len (λ d. d == mark) text.now }
    ensures within { result ≤ length text.now }
{
    let mut i = 0;
    while i < text.len() && text[i] as u32 == mark as u32 {
        i += 1;
    }
    i
}
