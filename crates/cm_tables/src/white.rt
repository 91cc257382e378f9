// Texts without white space at their ends.
ghost use Rattle.std.specs.Prelude.{◌≡◌, ◌≤◌, length};
ghost use Rattle.std.specs.List.{prefix_len, suffix_len};
ghost use Rattle.markdown_grammar.specs.Tables.{bare, bare_end, bare_front, is_cell_white};

/// A text without the white space at both ends.
pub(crate) fn bare(text: &str) -> &str
    ensures { result.now ≡ bare text.now }
{
    bare_end(bare_front(text))
}

fn bare_front(text: &str) -> &str
    ensures { result.now ≡ bare_front text.now }
{
    &text[white_len(text.as_bytes())..]
}

fn bare_end(text: &str) -> &str
    ensures { result.now ≡ bare_end text.now }
{
    let len = text.len() - white_end_len(text.as_bytes());
    &text[..len]
}

fn white_len(text: &[u8]) -> usize
    ensures value { result ≡ prefix_len is_cell_white text.now }
    ensures within { result ≤ length text.now }
{
    text.iter().take_while(|byte| is_white(**byte)).count()
}

fn white_end_len(text: &[u8]) -> usize
    ensures value { result ≡ suffix_len is_cell_white text.now }
    ensures within { result ≤ length text.now }
{
    text.iter()
        .rev()
        .take_while(|byte| is_white(**byte))
        .count()
}

fn is_white(byte: u8) -> bool
    ensures { result ≡ is_cell_white byte }
{
    matches!(byte, b' ' | b'\t'..=b'\r')
}
