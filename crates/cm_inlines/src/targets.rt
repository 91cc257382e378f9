// Where a link or an image goes whose text has ended.
ghost use Rattle.std.specs.Prelude.{◌≡◌, ◌+◌, ◌<◌, ◌^◌, None, Some, [], IfOk, IfSome, codes, drop, length, option_map};
ghost use Rattle.std.specs.Bool.{OnTrue};
ghost use Rattle.site_text.specs.Fronts.{begins_with};
ghost use Rattle.std.specs.Str.{IsCharBoundary};
ghost use Rattle.markdown_grammar.specs.Links as grammar;
ghost use Rattle.cm_links.specs.Table as table;
ghost use Rattle.cm_inlines.specs.Targets.{behind_paren, reached_pair, target_pair};

use crate::node::Target;
use cm_links::{LinkDef, Links, destination, is_label, link_label, link_title, white_gap};
use site_base::{Memory, Text};
use site_text::byte_at;
use std::alloc::Global;

/// A target, and how many bytes stand for it behind the closing bracket.
#[derive(Drop)]
pub(crate) struct Reached {
    pub target: Target,
    pub len: usize,
}

/// The target of brackets round a name, with a text behind them, or none.
pub(crate) fn target_of(
    alloc: Global,
    links: &Links,
    name: &str,
    text: &str,
) -> Result<Option<Reached>, Memory>
    ensures value { IfOk result (λ found. option_map reached_pair found ≡ grammar.target_of links.now name.now text.now) }
    ensures cut { IfOk result (λ found. IfSome found (λ reached. IsCharBoundary text.now reached.len)) }
{
    match inline_target(alloc, text)? {
        Some(reached) => Ok(Some(reached)),
        None => named_target(alloc, links, name, text),
    }
}

// In parentheses.
fn inline_target(alloc: Global, text: &str) -> Result<Option<Reached>, Memory>
    ensures value { IfOk result (λ found. option_map reached_pair found ≡ grammar.inline_target text.now) }
    ensures cut { IfOk result (λ found. IfSome found (λ reached. IsCharBoundary text.now reached.len)) }
{
    if byte_at(text, 0) != b'(' {
        return Ok(None);
    }
    behind_paren(alloc, text)
}

fn behind_paren(alloc: Global, text: &str) -> Result<Option<Reached>, Memory>
    requires { IsCharBoundary text.now 1 }
    ensures value { IfOk result (λ found. option_map reached_pair found ≡ behind_paren text.now) }
    ensures cut { IfOk result (λ found. IfSome found (λ reached. IsCharBoundary text.now reached.len)) }
{
    let inside = &text[1..];
    let gap = white_gap(inside);
    match destination(alloc, &inside[gap..])? {
        Some(url) => with_title(alloc, url.text, text, 1 + gap + url.len),
        None => Ok(closing_paren(
            Target {
                url: Text::new(alloc),
                title: None,
            },
            text,
            1,
        )),
    }
}

// Behind a destination: perhaps white space and a title.
fn with_title(alloc: Global, url: Text, text: &str, n: usize) -> Result<Option<Reached>, Memory>
    requires { IsCharBoundary text.now n }
    ensures value { IfOk result (λ found. option_map reached_pair found ≡ grammar.with_title url n (drop n text.now)) }
    ensures cut { IfOk result (λ found. IfSome found (λ reached. IsCharBoundary text.now reached.len)) }
{
    let rest = &text[n..];
    let gap = white_gap(rest);
    if gap == 0 {
        return Ok(closing_paren(Target { url, title: None }, text, n));
    }
    match link_title(alloc, &rest[gap..])? {
        Some(title) => Ok(closing_paren(
            Target {
                url,
                title: Some(title.text),
            },
            text,
            n + gap + title.len,
        )),
        None => Ok(closing_paren(Target { url, title: None }, text, n)),
    }
}

// White space and the closing parenthesis.
fn closing_paren(target: Target, text: &str, n: usize) -> Option<Reached>
    requires { IsCharBoundary text.now n }
    ensures value { option_map reached_pair result ≡ grammar.closing_paren (target_pair target) n (drop n text.now) }
    ensures cut { IfSome result (λ reached. IsCharBoundary text.now reached.len) }
{
    let gap = white_gap(&text[n..]);
    if byte_at(text, n + gap) != b')' {
        return None;
    }
    Some(Reached {
        target,
        len: n + gap + 1,
    })
}

// Full, collapsed and shortcut references.
fn named_target(
    alloc: Global,
    links: &Links,
    name: &str,
    text: &str,
) -> Result<Option<Reached>, Memory>
    ensures value { IfOk result (λ found. option_map reached_pair found ≡ grammar.named_target links.now name.now text.now) }
    ensures cut { IfOk result (λ found. IfSome found (λ reached. IsCharBoundary text.now reached.len)) }
{
    match link_label(text) {
        Some(n) => {
            let inside = &text[1..];
            defined(alloc, links, n, &inside[..n - 2])
        }
        None => {
            if is_empty_label(text) {
                defined(alloc, links, 2, name)
            } else {
                defined(alloc, links, 0, name)
            }
        }
    }
}

fn is_empty_label(text: &str) -> bool
    ensures value { result ≡ begins_with (codes "[]") text.now }
    ensures cut { OnTrue result (IsCharBoundary text.now 2) }
{
    if byte_at(text, 0) == b'[' && byte_at(text, 1) == b']' {
        return true;
    }
    false
}

// A label's target, for which n bytes stand.
fn defined(alloc: Global, links: &Links, n: usize, name: &str) -> Result<Option<Reached>, Memory>
    ensures value { IfOk result (λ found. option_map reached_pair found ≡ grammar.defined links.now n name.now) }
    ensures len { IfOk result (λ found. IfSome found (λ reached. reached.len ≡ n)) }
{
    if !is_label(name) {
        return Ok(None);
    }
    match links.find(alloc, name)? {
        Some(definition) => Ok(Some(Reached {
            target: copy_target(alloc, definition)?,
            len: n,
        })),
        None => Ok(None),
    }
}

fn copy_target(alloc: Global, definition: &LinkDef) -> Result<Target, Memory>
    ensures { IfOk result (λ copy. target_pair copy ≡ table.target definition.now) }
{
    let url = Text::copy(alloc, definition.url.as_str())?;
    match &definition.title {
        Some(title) => {
            let title = Text::copy(alloc, title.as_str())?;
            Ok(Target {
                url,
                title: Some(title),
            })
        }
        None => Ok(Target { url, title: None }),
    }
}
