// Code spans.
ghost use Rattle.std.specs.Prelude.{◌≡◌, ◌≤◌, ◌<◌, ◌-◌, ◌==◌, IfSome, drop, length, not};
ghost use Rattle.std.specs.Str.{IsCharBoundary};
ghost use Rattle.site_text.specs.Bytes.{backtick};
ghost use Rattle.site_text.specs.Fronts.{has_one, run_len};
ghost use Rattle.markdown_grammar.specs.CodeSpans as grammar;
ghost use Rattle.std.specs.Bool.{OnTrue};
ghost use Rattle.cm_spans.specs.Code.{is_blank, is_padded};
ghost use Rattle.cm_links.specs.Cuts.{Encloses};
ghost use Rattle.cm_spans.specs.Missing.{LacksRuns};

use crate::missing_runs::MissingRuns;

/// How many bytes stand up to and with the next run of just n backticks, or none where there is no such run.
pub fn code_end(n: usize, text: &str) -> Option<usize>
    ensures value { result ≡ grammar.before_run n 0 text.now }
    ensures within { IfSome result (λ k. k ≤ length text.now) }
{
    let bytes = text.as_bytes();
    let mut i = 0;
    let mut current = 0;
    while i < bytes.len() {
        if bytes[i] == b'`' {
            current += 1;
        } else {
            if current == n {
                return Some(i);
            }
            current = 0;
        }
        i += 1;
    }
    if current == n { Some(i) } else { None }
}

/// How many bytes stand behind the n backticks that a text begins with, up to and with the next run of just n, or none where there is no
/// such run. `missing` are runs that the text is known to lack.
pub(crate) fn next_run(n: usize, text: &str, missing: &mut MissingRuns) -> Option<usize>
    requires some { 0 < n }
    requires all { n ≡ run_len (λ c. c == backtick) text.now }
    requires lacks { LacksRuns missing.old.known.items text.now }
    requires cut { IsCharBoundary text.now n }
    ensures value { result ≡ grammar.before_run n 0 (drop n text.now) }
    ensures kept { LacksRuns missing.new.known.items text.now }
{
    if missing.lacks(n, text) {
        return None;
    }
    match code_end(n, &text[n..]) {
        Some(len) => Some(len),
        None => {
            missing.note(text.as_bytes());
            None
        }
    }
}

/// The text of a code span, from what stands between its backticks, in which line ends still stand
/// for spaces: without one space at each end where it is not all spaces.
pub fn code_text(text: &str) -> &str
    ensures { grammar.spaced result.now ≡ grammar.span_text text.now }
{
    if is_padded(text) {
        let rest = &text[1..];
        &rest[..text.len() - 2]
    } else {
        text
    }
}

// A space or line end stands at both ends, and something else between them.
fn is_padded(text: &str) -> bool
    ensures value { result ≡ is_padded text.now }
    ensures cuts { OnTrue result (Encloses text.now (length text.now - 2)) }
{
    let bytes = text.as_bytes();
    if bytes.len() < 3 || !is_blank(bytes[0]) || !is_blank(bytes[bytes.len() - 1]) {
        return false;
    }
    has_other(bytes)
}

fn has_other(text: &[u8]) -> bool
    ensures { result ≡ has_one (λ c. not (is_blank c)) text.now }
{
    for c in text {
        if !is_blank(*c) {
            return true;
        }
    }
    false
}

fn is_blank(c: u8) -> bool
    ensures { result ≡ is_blank c }
{
    c == b' ' || c == b'\n'
}
