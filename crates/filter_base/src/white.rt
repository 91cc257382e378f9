// White space, and texts without it at their ends.
ghost use Rattle.std.specs.Prelude.{◌≡◌, ◌≤◌, length};
ghost use Rattle.std.specs.List.{prefix_len, suffix_len};
ghost use Rattle.filter_base.specs.White.{is_white, begins_white, without_front, without_end};

/// Whether a byte is a space, tab, LF, VT, FF or CR.
pub fn is_white(byte: u8) -> bool
    ensures { result ≡ is_white byte }
{
    byte == b' ' || 8 < byte && byte < 14
}

/// Whether white space stands at the front of a text.
pub fn begins_white(text: &[u8]) -> bool
    ensures { result ≡ begins_white text.now }
{
    match text {
        [byte, ..] => is_white(*byte),
        [] => false,
    }
}

fn white_len(text: &[u8]) -> usize
    ensures value { result ≡ prefix_len is_white text.now }
    ensures within { result ≤ length text.now }
{
    text.iter().take_while(|byte| is_white(**byte)).count()
}

fn white_end_len(text: &[u8]) -> usize
    ensures value { result ≡ suffix_len is_white text.now }
    ensures within { result ≤ length text.now }
{
    text.iter()
        .rev()
        .take_while(|byte| is_white(**byte))
        .count()
}

/// The text without the white space at its front.
pub fn without_front(text: &str) -> &str
    ensures { result.now ≡ without_front text.now }
{
    &text[white_len(text.as_bytes())..]
}

/// The text without the white space at its end.
pub fn without_end(text: &str) -> &str
    ensures { result.now ≡ without_end text.now }
{
    let len = text.len() - white_end_len(text.as_bytes());
    &text[..len]
}
