// Where the front matter of a file stands.
ghost use Rattle.std.specs.Prelude.{◌≡◌, ◌+◌, ◌<◌, ◌≤◌, length, drop, take_while, slice_range, MatchOption, IfSome, IsTrue};
ghost use Rattle.site_base.specs.Lines.{lines};
ghost use Rattle.front_yaml.specs.Front.{front, front_at, opened, is_blank, begins_white, begins_fence, is_fence, opens, closes, mark_len, total, HasCuts, IsCut};

use crate::lines::line_end;

/// Where the front matter and the body of a file stand.
#[derive(Clone, Copy, Debug, PartialEq, Eq)]
pub enum Front {
    /// The YAML text stands from `yaml_start` to `yaml_end`, and the body from `body` on.
    Page {
        yaml_start: usize,
        yaml_end: usize,
        body: usize,
    },
    /// Front matter is opened and never closed.
    Open,
    /// The file has no front matter.
    Plain,
}

/// Finds the front matter of a file.
///
/// A byte-order mark at the front is passed over. Front matter is opened by a first line `---`, and closed by the
/// first later line `---` or `...`; each may have spaces and tabs behind it. The YAML text is what stands between the
/// two. The body begins after the closing line and the blank lines that directly follow it.
pub fn split_front(bytes: &[u8]) -> Front
    ensures front { result ≡ front bytes.now }
    ensures cuts { HasCuts bytes.now result }
{
    let mark = mark_len(bytes);
    match opening_end(bytes, mark) {
        Some(start) => split_opened(bytes, start),
        None => Front::Plain,
    }
}

pub(crate) fn mark_len(bytes: &[u8]) -> usize
    ensures value { result ≡ mark_len bytes.now }
    ensures within { result ≤ length bytes.now }
{
    match bytes {
        [0xEF, 0xBB, 0xBF, ..] => 3,
        _ => 0,
    }
}

// Where the line that opens front matter ends, if it stands at `at`.
fn opening_end(bytes: &[u8], at: usize) -> Option<usize>
    requires { at ≤ length bytes.now }
    ensures plain { MatchOption result (front_at at (lines (drop at bytes.now)) ≡ Front.Plain)
        (λ end. front_at at (lines (drop at bytes.now)) ≡ opened end (lines (drop end bytes.now))) }
    ensures cut { IfSome result (λ end. (end ≤ length bytes.now) × IsCut bytes.now end) }
{
    // A file without front matter is mostly seen by its first bytes, so that its first line is not looked for.
    if !begins_fence(&bytes[at..], b'-') {
        return None;
    }
    let end = line_end(bytes, at);
    if opens(&bytes[at..end]) {
        Some(end)
    } else {
        None
    }
}

#[tactic(auto, using(crate::proofs::FrontLemmas::goes_on, crate::proofs::FrontLemmas::ends_here))]
fn split_opened(bytes: &[u8], start: usize) -> Front
    requires within { start ≤ length bytes.now }
    requires cut { IsCut bytes.now start }
    ensures front { result ≡ opened start (lines (drop start bytes.now)) }
    ensures cuts { HasCuts bytes.now result }
{
    let mut at = start;
    while at < bytes.len() {
        let next = line_end(bytes, at);
        if closes(&bytes[at..next]) {
            return Front::Page {
                yaml_start: start,
                yaml_end: at,
                body: blank_end(bytes, next),
            };
        }
        at = next;
    }
    Front::Open
}

// Where the blank lines that start at `from` end.
#[tactic(auto, using(crate::proofs::FrontLemmas::blank_more, crate::proofs::FrontLemmas::blank_none))]
fn blank_end(bytes: &[u8], from: usize) -> usize
    requires within { from ≤ length bytes.now }
    requires cut { IsCut bytes.now from }
    ensures value { result ≡ from + total (take_while is_blank (lines (drop from bytes.now))) }
    ensures order { from ≤ result }
    ensures within { result ≤ length bytes.now }
    ensures cut { IsCut bytes.now result }
{
    let mut at = from;
    // A body mostly begins with a letter, so that the end of its first line, which may be far, is not looked for.
    while begins_white(&bytes[at..]) {
        let next = line_end(bytes, at);
        if !is_blank(&bytes[at..next]) {
            return at;
        }
        at = next;
    }
    at
}

fn begins_white(text: &[u8]) -> bool
    ensures value { result ≡ begins_white text.now }
    ensures some { IsTrue result → 0 < length text.now }
{
    matches!(text.first(), Some(b' ' | b'\t' | b'\n' | b'\r'))
}

fn opens(line: &[u8]) -> bool
    ensures { result ≡ opens line.now }
{
    is_fence(line, b'-') && matches!(line.last(), Some(b'\n' | b'\r'))
}

fn closes(line: &[u8]) -> bool
    ensures { result ≡ closes line.now }
{
    is_fence(line, b'-') || is_fence(line, b'.')
}

fn is_fence(line: &[u8], mark: u8) -> bool
    ensures { result ≡ is_fence mark line.now }
{
    begins_fence(line, mark) && is_blank(&line[3..])
}

fn begins_fence(line: &[u8], mark: u8) -> bool
    ensures value { result ≡ begins_fence mark line.now }
    ensures long { IsTrue result → 3 ≤ length line.now }
{
    match line {
        [x, y, z, ..] => *x == mark && *y == mark && *z == mark,
        _ => false,
    }
}

fn is_blank(line: &[u8]) -> bool
    ensures { result ≡ is_blank line.now }
{
    line.iter()
        .all(|byte| matches!(*byte, b' ' | b'\t' | b'\n' | b'\r'))
}
