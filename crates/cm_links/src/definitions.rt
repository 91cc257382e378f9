// Link reference definitions.
ghost use Rattle.std.specs.Prelude.{◌≡◌, ◌+◌, ◌≤◌, ◌<◌, ◌^◌, IfOk, IfSome, option_map, length, drop};
ghost use Rattle.std.specs.Str.{IsCharBoundary};
ghost use Rattle.markdown_grammar.specs.Definitions as grammar;
ghost use Rattle.cm_links.specs.Answers.{link_part, link_def};
ghost use Rattle.cm_links.specs.Cuts.{IsEnd, IsFront, IsLabelled};

use crate::destinations::destination;
use crate::gaps::{line_rest, white_gap};
use crate::label::link_label;
use crate::parts::LinkPart;
use crate::titles::link_title;
use site_base::{Memory, Text};
use site_text::starts_with_byte;
use std::alloc::Global;

/// A link reference definition: the text of its label, where it goes, its title if it has one, and
/// the place where it ends.
#[derive(Drop)]
pub struct LinkDef {
    pub label: Text,
    pub url: Text,
    pub title: Option<Text>,
    pub end: usize,
}

/// The link reference definition at the front of a paragraph's text, or none where none stands there.
pub fn definition(alloc: Global, text: &str) -> Result<Option<LinkDef>, Memory>
    ensures value { IfOk result (λ found. found ≡ option_map link_def (grammar.front_definition text.now)) }
    ensures cut { IfOk result (λ found. IfSome found (λ definition. IsFront text.now definition.end)) }
{
    match link_label(text) {
        Some(n) => behind_label(alloc, text, n),
        None => Ok(None),
    }
}

// Behind a label of n bytes.
fn behind_label(alloc: Global, text: &str, n: usize) -> Result<Option<LinkDef>, Memory>
    requires { IsLabelled text.now n }
    ensures value { IfOk result (λ found. found ≡ option_map link_def (grammar.behind_label text.now n)) }
    ensures cut { IfOk result (λ found. IfSome found (λ definition. IsFront text.now definition.end)) }
{
    let rest = &text[n..];
    if starts_with_byte(rest, b':') {
        let inside = &text[1..];
        pointing(alloc, &inside[..n - 2], n + 1, &rest[1..])
    } else {
        Ok(None)
    }
}

// Behind the colon, where n bytes stand.
fn pointing(alloc: Global, label: &str, n: usize, text: &str) -> Result<Option<LinkDef>, Memory>
    requires { n + length text.now < 2 ^ 63 }
    ensures value { IfOk result (λ found. found ≡ option_map link_def (grammar.pointing label.now n text.now)) }
    ensures cut { IfOk result (λ found. IfSome found (λ definition. IsEnd n text.now definition.end)) }
{
    let gap = white_gap(text);
    let rest = &text[gap..];
    match destination(alloc, rest)? {
        Some(url) => titled(alloc, label, url.text, n + gap + url.len, &rest[url.len..]),
        None => Ok(None),
    }
}

// Behind the destination, where n bytes stand.
fn titled(
    alloc: Global,
    label: &str,
    url: Text,
    n: usize,
    text: &str,
) -> Result<Option<LinkDef>, Memory>
    requires { n + length text.now < 2 ^ 63 }
    ensures value { IfOk result (λ found. found ≡ option_map link_def (grammar.titled label.now url n text.now)) }
    ensures cut { IfOk result (λ found. IfSome found (λ definition. IsEnd n text.now definition.end)) }
{
    match line_title(alloc, text)? {
        Some(title) => Ok(Some(LinkDef {
            label: Text::copy(alloc, label)?,
            url,
            title: Some(title.text),
            end: n + title.len,
        })),
        None => untitled(alloc, label, url, n, text),
    }
}

// The line ends behind the destination.
fn untitled(
    alloc: Global,
    label: &str,
    url: Text,
    n: usize,
    text: &str,
) -> Result<Option<LinkDef>, Memory>
    requires { n + length text.now < 2 ^ 63 }
    ensures value { IfOk result (λ found. found ≡ option_map link_def (grammar.untitled label.now url n text.now)) }
    ensures cut { IfOk result (λ found. IfSome found (λ definition. IsEnd n text.now definition.end)) }
{
    match line_rest(text) {
        Some(rest) => Ok(Some(LinkDef {
            label: Text::copy(alloc, label)?,
            url,
            title: None,
            end: n + rest,
        })),
        None => Ok(None),
    }
}

// White space and a title that ends its line.
fn line_title(alloc: Global, text: &str) -> Result<Option<LinkPart>, Memory>
    ensures value { IfOk result (λ found. found ≡ option_map link_part (grammar.line_title text.now)) }
    ensures within { IfOk result (λ found. IfSome found (λ title. title.len ≤ length text.now)) }
    ensures cut { IfOk result (λ found. IfSome found (λ title. IsCharBoundary text.now title.len)) }
{
    let gap = white_gap(text);
    if gap == 0 {
        return Ok(None);
    }
    title_behind(alloc, gap, &text[gap..])
}

// Behind white space, a title that ends its line.
fn title_behind(alloc: Global, gap: usize, text: &str) -> Result<Option<LinkPart>, Memory>
    requires { gap + length text.now < 2 ^ 63 }
    ensures value { IfOk result (λ found. found ≡ option_map link_part (grammar.title_behind gap text.now)) }
    ensures within { IfOk result (λ found. IfSome found (λ title. title.len ≤ gap + length text.now)) }
    ensures cut { IfOk result (λ found. IfSome found (λ title. IsEnd gap text.now title.len)) }
{
    match link_title(alloc, text)? {
        Some(title) => Ok(ending_line(gap, title, text)),
        None => Ok(None),
    }
}

fn ending_line(gap: usize, title: LinkPart, text: &str) -> Option<LinkPart>
    requires room { gap + length text.now < 2 ^ 63 }
    requires cut { IsCharBoundary text.now title.len }
    ensures value { result ≡ option_map (λ k. record { text = title.text; len = gap + title.len + k }) (grammar.line_rest (drop title.len text.now)) }
    ensures within { IfSome result (λ ended. ended.len ≤ gap + length text.now) }
    ensures cut { IfSome result (λ ended. IsEnd gap text.now ended.len) }
{
    let rest = line_rest(&text[title.len..])?;
    Some(LinkPart {
        text: title.text,
        len: gap + title.len + rest,
    })
}
