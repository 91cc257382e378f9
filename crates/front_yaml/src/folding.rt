// Line ends inside a value, and the tabs that stand at the front of a line.
ghost use Rattle.std.specs.Prelude.{◌≡◌, ◌≤◌, ◌<◌, ◌++◌, ◌∷◌, ◌==◌, ◌&&◌, ◌||◌, not, length, OnOk, IfOk, IfSome, false, true, encode_utf8, None};
ghost use Rattle.std.specs.List.{prefix_len};
ghost use Rattle.front_yaml.specs.Bytes.{repeated};
ghost use Rattle.front_yaml.specs.Escapes.{escape};
ghost use Rattle.front_yaml.specs.TextLines.{line_ends};
ghost use Rattle.front_yaml.specs.Folding.{between, within, joint, ends_line, first_tab, folded};
ghost use Rattle.front_yaml.specs.Given.{Folds, is_solid, kept_white};

use crate::escapes::escape;
use crate::growth::{append, append_repeated};
use crate::scans::{blank_len, front, is_gap, is_white, starts, tail, white_len};
use site_base::Memory;
use std::alloc::Global;

// Whether white space alone stands before a line end.
#[tactic(auto, using(crate::proofs::FoldLaws::ends_line_is))]
fn ends_line(text: &[u8]) -> bool
    ensures { result ≡ ends_line text.now }
{
    starts(tail(text, white_len(text)), b'\n')
}

fn is_tab_at(leads: bool, c: u8, rest: &[u8]) -> bool
    ensures { result ≡ leads && (c == 9) && not (ends_line rest.now) }
{
    leads && c == b'\t' && !ends_line(rest)
}

fn leads_on(leads: bool, c: u8) -> bool
    ensures { result ≡ (c == 10) || (leads && (c == 32)) }
{
    c == b'\n' || leads && c == b' '
}

/// The first tab among the leading white space of a line that is not blank, behind the first line.
#[tactic(auto, using(crate::proofs::Added::added_later, crate::proofs::Added::added_zero))]
pub(crate) fn first_tab(text: &[u8]) -> Option<usize>
    ensures value { result ≡ first_tab false text.now }
    ensures within { IfSome result (λ n. n < length text.now) }
{
    let mut leads = false;
    let mut n = 0;
    while n < text.len() {
        if is_tab_at(leads, text[n], tail(text, n + 1)) {
            return Some(n);
        }
        leads = leads_on(leads, text[n]);
        n += 1;
    }
    None
}

/// How many lines end in a text.
pub(crate) fn line_ends(text: &[u8]) -> usize
    ensures value { result ≡ line_ends text.now }
    ensures within { result ≤ length text.now }
{
    let mut count = 0;
    for c in text {
        if *c == b'\n' {
            count += 1;
        }
    }
    count
}

// Adds what stands for a line end and some blank lines.
fn append_joint(out: &mut Vec<u8>, blank: usize) -> Result<(), Memory>
    ensures { OnOk result (out.new.items ≡ out.old.items ++ joint (between blank)) }
{
    if blank == 0 {
        append(out, b" ")
    } else {
        append_repeated(out, blank, b'\n')
    }
}

// The white space at the front, unless the line ends behind it.
fn kept_white(text: &[u8]) -> &[u8]
    ensures { result.now ≡ kept_white text.now }
{
    if ends_line(text) {
        front(text, 0)
    } else {
        front(text, white_len(text))
    }
}

fn is_escape(escapes: bool, c: u8) -> bool
    ensures { result ≡ escapes && (c == 92) }
{
    escapes && c == b'\\'
}

fn is_solid(escapes: bool, c: u8) -> bool
    ensures { result ≡ is_solid escapes c }
{
    !(is_gap(c) || escapes && c == b'\\')
}

// How many bytes at the front stand for themselves.
fn solid_len(escapes: bool, text: &[u8]) -> usize
    ensures value { result ≡ prefix_len (is_solid escapes) text.now }
    ensures within { result ≤ length text.now }
{
    text.iter().take_while(|c| is_solid(escapes, **c)).count()
}

fn append_char(out: &mut Vec<u8>, c: char) -> Result<(), Memory>
    ensures { OnOk result (out.new.items ≡ out.old.items ++ encode_utf8 c) }
{
    let mut room = [0u8; 4];
    append(out, c.encode_utf8(&mut room).as_bytes())
}

// Adds what an escape stands for whose `\` stands before the text; answers its bytes with the `\`.
fn append_escape(out: &mut Vec<u8>, text: &[u8]) -> Result<usize, Memory>
    ensures { IfOk result (λ n. Folds true out.old.items out.new.items (92 ∷ text.now) n) }
{
    match escape(text) {
        Some((c, len)) => {
            append_char(out, c)?;
            Ok(1 + len)
        }
        None => append_line_end(out, text),
    }
}

// Adds the blank lines behind a line end that a `\` takes away.
fn append_line_end(out: &mut Vec<u8>, text: &[u8]) -> Result<usize, Memory>
    requires { escape text.now ≡ None }
    ensures { IfOk result (λ n. Folds true out.old.items out.new.items (92 ∷ text.now) n) }
{
    if text.is_empty() {
        return Ok(1);
    }
    let rest = tail(text, 1);
    let gap = blank_len(rest);
    append_repeated(out, line_ends(front(rest, gap)), b'\n')?;
    Ok(2 + gap)
}

// Adds what the front of a text stands for; answers how many bytes that front has.
fn append_part(out: &mut Vec<u8>, escapes: bool, text: &[u8]) -> Result<usize, Memory>
    requires { 0 < length text.now }
    ensures { IfOk result (λ n. Folds escapes out.old.items out.new.items text.now n) }
{
    let c = text[0];
    let rest = tail(text, 1);
    if c == b'\n' {
        let gap = blank_len(rest);
        append_joint(out, line_ends(front(rest, gap)))?;
        return Ok(1 + gap);
    }
    if is_white(c) {
        append(out, kept_white(text))?;
        return Ok(white_len(text));
    }
    if is_escape(escapes, c) {
        return append_escape(out, rest);
    }
    let solid = solid_len(escapes, text);
    append(out, front(text, solid))?;
    Ok(solid)
}

/// The bytes for which those of a scalar stand: line ends are folded, and where `escapes`, escapes are replaced.
pub(crate) fn folded(alloc: Global, escapes: bool, text: &[u8]) -> Result<Vec<u8>, Memory>
    ensures { IfOk result (λ bytes. bytes.items ≡ folded escapes within 0 text.now) }
{
    let mut out = Vec::new(alloc);
    let mut n = 0;
    while n < text.len() {
        n += append_part(&mut out, escapes, tail(text, n))?;
    }
    Ok(out)
}
