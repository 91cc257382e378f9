// Backslash escapes and character references in a text.
ghost use Rattle.std.specs.Prelude.{◌≡◌, ◌++◌, ◌≤◌, ◌<◌, IfOk, IfSome, IsOkAnd, length, drop, string_bytes, not};
ghost use Rattle.std.specs.Str.{IsCharBoundary};
ghost use Rattle.site_text.specs.Fronts.{run_len};
ghost use Rattle.markdown_grammar.specs.References as grammar;
ghost use Rattle.cm_links.specs.Resolving.{may_mean, StartsAscii, EndsAscii, Resolves};

use crate::references::front_reference;
use site_base::{Memory, Text};
use site_text::{Class, class_len, is_punctuation};
use std::alloc::{AllocError, Global};

/// A text in which each backslash escape and character reference is taken for what it stands for.
pub fn resolved(alloc: Global, text: &str) -> Result<Text, Memory>
    ensures { IfOk result (λ out. out ≡ grammar.resolved text.now) }
{
    match resolve(alloc, text) {
        Ok(out) => Text::from_string(out),
        Err(_) => Err(Memory),
    }
}

fn resolve(alloc: Global, text: &str) -> Result<String, AllocError>
    ensures { IfOk result (λ out. string_bytes out ≡ grammar.resolved text.now) }
{
    let mut out = String::new(alloc);
    let mut rest = text;
    while !rest.is_empty() {
        let plain = plain_len(rest);
        out.push_str(&rest[..plain])?;
        rest = &rest[plain..];
        let taken = push_front(&mut out, rest)?;
        rest = &rest[taken..];
    }
    Ok(out)
}

// How many bytes stand before the first that may stand for something else.
fn plain_len(text: &str) -> usize
    ensures value { result ≡ run_len (λ c. not (may_mean c)) text.now }
    ensures boundary { IsCharBoundary text.now result }
    ensures stop { StartsAscii (drop result text.now) }
{
    class_len(Class::Literal, text)
}

// What a byte at the front stands for that may stand for something else: how many bytes that takes.
fn push_front(out: &mut String, text: &str) -> Result<usize, AllocError>
    requires { StartsAscii text.now }
    ensures { IfOk result (λ n. Resolves (string_bytes out.old) (string_bytes out.new) text.now n) }
{
    match front_meaning(text.as_bytes()) {
        Some((c, size)) => {
            out.push(c)?;
            Ok(size)
        }
        None => {
            let n = text.len().min(1);
            out.push_str(&text[..n])?;
            Ok(n)
        }
    }
}

// The escape or reference at the front: what it stands for, and how many bytes it takes.
fn front_meaning(text: &[u8]) -> Option<(char, usize)>
    ensures value { result ≡ grammar.front_meaning text.now }
    ensures ends { IfSome result (λ found. EndsAscii text.now found.1) }
{
    match text {
        [b'\\', c, ..] if is_punctuation(*c) => Some((*c as char, 2)),
        _ => front_reference(text),
    }
}
