// Autolinks at the front of a text: how many bytes they take, or none.
ghost use Rattle.std.specs.Prelude.{◌≡◌, ◌≤◌, IfSome, Some, codes, length};
ghost use Rattle.markdown_grammar.specs.Autolinks as grammar;
ghost use Rattle.markdown_grammar.specs.Readers as readers;
ghost use Rattle.markdown_grammar.specs.Readers.{◌then◌};
ghost use Rattle.cm_links.specs.Cuts.{IsLabelled};
ghost use Rattle.site_text.specs.Classes.{is_in};
ghost use Rattle.site_text.specs.declared.classes.Class.TheVariants.{Address, Mailbox};

use crate::tags::word;
use site_text::{Class, class_run, is_alnum, is_letter};

/// How many bytes the autolink with a scheme takes that a text begins with, its pointed brackets
/// included, or none.
pub fn uri(text: &str) -> Option<usize>
    ensures value { result ≡ grammar.pointed grammar.uri text.now }
    ensures cuts { IfSome result (IsLabelled text.now) }
{
    pointed_uri(text.as_bytes())
}

fn pointed_uri(text: &[u8]) -> Option<usize>
    ensures value { result ≡ grammar.pointed grammar.uri text.now }
    ensures within { IfSome result (λ n. n ≤ length text.now) }
{
    let mark = word(text, b"<")?;
    let rest = uri_rest(&text[mark..])?;
    Some(mark + rest)
}

fn uri_rest(text: &[u8]) -> Option<usize>
    ensures value { result ≡ (grammar.uri then readers.exactly (codes ">")) text.now }
    ensures within { IfSome result (λ n. n ≤ length text.now) }
{
    let inside = absolute_uri(text)?;
    let mark = word(&text[inside..], b">")?;
    Some(inside + mark)
}

fn absolute_uri(text: &[u8]) -> Option<usize>
    ensures value { result ≡ grammar.uri text.now }
    ensures within { IfSome result (λ n. n ≤ length text.now) }
{
    let front = scheme(text)?;
    let rest = colon_and_address(&text[front..])?;
    Some(front + rest)
}

fn colon_and_address(text: &[u8]) -> Option<usize>
    ensures value { result ≡ (readers.exactly (codes ":") then readers.at_least 0 (is_in Address)) text.now }
    ensures within { IfSome result (λ n. n ≤ length text.now) }
{
    let mark = word(text, b":")?;
    Some(mark + class_run(Class::Address, &text[mark..]))
}

fn scheme(text: &[u8]) -> Option<usize>
    ensures value { result ≡ grammar.scheme text.now }
    ensures within { IfSome result (λ n. n ≤ length text.now) }
{
    if text.len() == 0 || !is_letter(text[0]) {
        return None;
    }
    let n = class_run(Class::Scheme, &text[1..]);
    if n == 0 || 31 < n { None } else { Some(1 + n) }
}

/// How many bytes the autolink of a mail address takes that a text begins with, its pointed brackets
/// included, or none.
pub fn email(text: &str) -> Option<usize>
    ensures value { result ≡ grammar.pointed grammar.email text.now }
    ensures cuts { IfSome result (IsLabelled text.now) }
{
    pointed_email(text.as_bytes())
}

fn pointed_email(text: &[u8]) -> Option<usize>
    ensures value { result ≡ grammar.pointed grammar.email text.now }
    ensures within { IfSome result (λ n. n ≤ length text.now) }
{
    let mark = word(text, b"<")?;
    let rest = email_rest(&text[mark..])?;
    Some(mark + rest)
}

fn email_rest(text: &[u8]) -> Option<usize>
    ensures value { result ≡ (grammar.email then readers.exactly (codes ">")) text.now }
    ensures within { IfSome result (λ n. n ≤ length text.now) }
{
    let inside = address(text)?;
    let mark = word(&text[inside..], b">")?;
    Some(inside + mark)
}

fn address(text: &[u8]) -> Option<usize>
    ensures value { result ≡ grammar.email text.now }
    ensures within { IfSome result (λ n. n ≤ length text.now) }
{
    let name = mailbox(text)?;
    let rest = at_and_host(&text[name..])?;
    Some(name + rest)
}

fn mailbox(text: &[u8]) -> Option<usize>
    ensures value { result ≡ readers.at_least 1 (is_in Mailbox) text.now }
    ensures within { IfSome result (λ n. n ≤ length text.now) }
{
    let n = class_run(Class::Mailbox, text);
    if n == 0 { None } else { Some(n) }
}

fn at_and_host(text: &[u8]) -> Option<usize>
    ensures value { result ≡ (readers.exactly (codes "@") then grammar.host_part then readers.repeat (readers.exactly (codes ".") then grammar.host_part)) text.now }
    ensures within { IfSome result (λ n. n ≤ length text.now) }
{
    let mark = word(text, b"@")?;
    let rest = host(&text[mark..])?;
    Some(mark + rest)
}

fn host(text: &[u8]) -> Option<usize>
    ensures value { result ≡ (grammar.host_part then readers.repeat (readers.exactly (codes ".") then grammar.host_part)) text.now }
    ensures within { IfSome result (λ n. n ≤ length text.now) }
{
    let first = host_part(text)?;
    Some(first + more_parts(&text[first..]))
}

// Up to 63 letters, digits and hyphens, with none of these at an end.
fn host_part(text: &[u8]) -> Option<usize>
    ensures value { result ≡ grammar.host_part text.now }
    ensures within { IfSome result (λ n. n ≤ length text.now) }
{
    let n = class_run(Class::Hyphenated, text);
    if n == 0 || 63 < n || !is_alnum(text[0]) || !is_alnum(text[n - 1]) {
        return None;
    }
    Some(n)
}

fn point_and_part(text: &[u8]) -> Option<usize>
    ensures value { result ≡ (readers.exactly (codes ".") then grammar.host_part) text.now }
    ensures within { IfSome result (λ n. n ≤ length text.now) }
{
    let mark = word(text, b".")?;
    let rest = host_part(&text[mark..])?;
    Some(mark + rest)
}

// As many as stand there.
fn more_parts(text: &[u8]) -> usize
    ensures value { Some result ≡ readers.repeat (readers.exactly (codes ".") then grammar.host_part) text.now }
    ensures within { result ≤ length text.now }
{
    let mut at = 0;
    while at < text.len() {
        match point_and_part(&text[at..]) {
            Some(n) => at += n,
            None => return at,
        }
    }
    at
}
