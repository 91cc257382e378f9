// What stands at the front of a text.
ghost use Rattle.std.specs.Prelude.{◌≡◌, ◌≤◌, ◌+◌, ◌==◌, ◌||◌, length, drop, take, true, false};
ghost use Rattle.std.specs.List.{prefix_len, suffix_len};
ghost use Rattle.front_yaml.specs.Bytes.{starts, is_empty, white_len, is_white, is_gap, trim};
ghost use Rattle.front_yaml.specs.Keys.{is_dash};

pub(crate) fn starts(text: &[u8], byte: u8) -> bool
    ensures { result ≡ starts byte text.now }
{
    match text {
        [first, ..] => *first == byte,
        [] => false,
    }
}

pub(crate) fn is_empty(text: &[u8]) -> bool
    ensures { result ≡ is_empty text.now }
{
    match text {
        [_, ..] => false,
        [] => true,
    }
}

/// What follows a place.
pub(crate) fn tail(text: &[u8], at: usize) -> &[u8]
    requires { at ≤ length text.now }
    ensures { result.now ≡ drop at text.now }
{
    &text[at..]
}

/// What stands before a place.
pub(crate) fn front(text: &[u8], end: usize) -> &[u8]
    requires { end ≤ length text.now }
    ensures { result.now ≡ take end text.now }
{
    &text[..end]
}

pub(crate) fn is_white(c: u8) -> bool
    ensures { result ≡ is_white c }
{
    c == b' ' || c == b'\t'
}

pub(crate) fn is_gap(c: u8) -> bool
    ensures { result ≡ is_gap c }
{
    c == b' ' || c == b'\t' || c == b'\n'
}

/// How many spaces and tabs stand at the front.
pub(crate) fn white_len(text: &[u8]) -> usize
    ensures value { result ≡ white_len text.now }
    ensures within { result ≤ length text.now }
{
    text.iter().take_while(|c| is_white(**c)).count()
}

/// How many spaces, tabs and line ends stand at the front.
pub(crate) fn blank_len(text: &[u8]) -> usize
    ensures value { result ≡ prefix_len is_gap text.now }
    ensures within { result ≤ length text.now }
{
    text.iter().take_while(|c| is_gap(**c)).count()
}

// How many spaces, tabs and line ends stand at the end.
fn gap_end_len(text: &[u8]) -> usize
    ensures value { result ≡ suffix_len is_gap text.now }
    ensures within { result ≤ length text.now }
{
    text.iter().rev().take_while(|c| is_gap(**c)).count()
}

/// The text without the white space and line ends at its end.
pub(crate) fn trim(text: &[u8]) -> &[u8]
    ensures value { result.now ≡ trim text.now }
    ensures within { length result.now ≤ length text.now }
{
    front(text, text.len() - gap_end_len(text))
}

/// Whether a `-` stands at the front that begins an item.
pub(crate) fn is_dash(text: &[u8]) -> bool
    ensures { result ≡ is_dash text.now }
{
    match text {
        [c, rest @ ..] => {
            *c == b'-' && (is_empty(tail(rest, white_len(rest))) || starts(rest, b' '))
        }
        [] => false,
    }
}

/// The bytes of a `-` and the white space after it.
#[tactic(auto, using(crate::proofs::LineLaws::after_dash))]
pub(crate) fn dash_len(text: &[u8]) -> usize
    requires { is_dash text.now ≡ true }
    ensures value { result ≡ 1 + white_len (drop 1 text.now) }
    ensures within { result ≤ length text.now }
    ensures no_space { starts 32 (drop result text.now) ≡ false }
{
    if text.is_empty() {
        0
    } else {
        1 + white_len(tail(text, 1))
    }
}
