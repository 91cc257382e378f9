// Thematic breaks.
ghost use Rattle.std.specs.Prelude.{◌≡◌, if◌then◌else◌};
ghost use Rattle.markdown_grammar.specs.Breaks as grammar;
ghost use Rattle.markdown_grammar.specs.Starts as starts;
ghost use Rattle.cm_starts.specs.Runs.{is_break_mark, marks_in};

use site_text::is_space;

/// Whether a line is a thematic break, by its text behind the white space in front: three or more of
/// `*`, `-` or `_`, with nothing but white space beside them. CommonMark 0.31.2, section 4.1.
pub fn is_thematic_break(text: &str) -> bool
    ensures { grammar.break_at text.now ≡ (if result then starts.break_start else starts.text_start) }
{
    let bytes = text.as_bytes();
    if bytes.len() == 0 {
        return false;
    }
    let mark = bytes[0];
    is_mark(mark) && marks(bytes, mark) >= 3
}

fn is_mark(c: u8) -> bool
    ensures { result ≡ is_break_mark c }
{
    c == b'*' || c == b'-' || c == b'_'
}

// How many marks stand in a text that has nothing but them and white space; 0 for another text.
fn marks(text: &[u8], mark: u8) -> usize
    ensures { result ≡ marks_in 0 mark text.now }
{
    let mut count = 0;
    for c in text {
        if *c == mark {
            count += 1;
        } else if !is_space(*c) {
            return 0;
        }
    }
    count
}
