// The links of a page.
ghost use Rattle.std.specs.Prelude.{◌≡◌, ◌≤◌, ◌++◌, IfOk, IfSome, OnOk, [], length, map, option_map};
ghost use Rattle.std.specs.Str.{IsCharBoundary};
ghost use Rattle.link_check.specs.Tags as grammar;
ghost use Rattle.link_check.specs.Links.{after_comment, after_less_than, comment_end, found, leads, links, up_to, value_of, values_of};
ghost use Rattle.link_check.specs.Reads.{attribute_of, count_of, values_in};

use crate::tags::{Attribute, attribute_at, tag_end, tag_name_len};
use site_base::{Memory, Sequence, Text};
use site_text::begins;
use std::alloc::{AllocError, Global};

/// What links lead to, as it is written, in the order in which the links stand.
pub type LinkList = Sequence<Text>;

/// The links of a page: the values of `href` and `src`, in any ASCII capitals, of its open tags. Tags in comments are none, and a
/// tag that does not end gives none. Bytes that are not UTF-8 have no links.
///
/// An open tag is what the HTML standard (WHATWG), section 13.1.2.1, calls a start tag, in the form of CommonMark 0.31.2, section 6.6.
pub fn links(alloc: Global, html: &[u8]) -> Result<LinkList, Memory>
    ensures { IfOk result (λ list. list ≡ links html.now) }
{
    match str::from_utf8(html) {
        Ok(text) => found(alloc, text),
        Err(_) => Ok(LinkList::new(alloc)),
    }
}

fn found(alloc: Global, text: &str) -> Result<LinkList, Memory>
    ensures { IfOk result (λ list. list ≡ found text.now) }
{
    let mut list = LinkList::new(alloc);
    let mut rest = text;
    while let Some((_, behind)) = rest.split_once('<') {
        rest = push_next(alloc, &mut list, behind)?;
    }
    Ok(list)
}

// Adds the links of the tag that a `<` before the text begins; what follows the tag, or the comment, is left.
fn push_next<'a>(alloc: Global, list: &mut LinkList, text: &'a str) -> Result<&'a str, Memory>
    ensures list { IfOk result (λ rest. list.new ++ found rest.now ≡ list.old ++ after_less_than found text.now) }
    ensures shorter { IfOk result (λ rest. length rest.now ≤ length text.now) }
{
    if let Some(comment) = text.strip_prefix("!--") {
        return Ok(after_comment(comment));
    }
    match push_tag(alloc, list, text)? {
        Some(count) => Ok(&text[count..]),
        None => Ok(text),
    }
}

// What follows the end of a comment; nothing where it has none.
fn after_comment<'a>(text: &'a str) -> &'a str
    ensures found { found result.now ≡ after_comment found text.now }
    ensures shorter { length result.now ≤ length text.now }
{
    match comment_len(text) {
        Some(count) => &text[count..],
        None => "",
    }
}

// How many bytes a comment takes up to its end, and with it.
fn comment_len(text: &str) -> Option<usize>
    ensures value { result ≡ up_to comment_end text.now }
    ensures cut { IfSome result (IsCharBoundary text.now) }
{
    up_to(b"-->", text.as_bytes())
}

// Up to the first place of a mark, and with it.
fn up_to(mark: &[u8], text: &[u8]) -> Option<usize>
    ensures { result ≡ up_to mark.now text.now }
{
    let mut i = 0;
    while i < text.len() {
        if begins(&text[i..], mark) {
            return Some(i + mark.len());
        }
        i += 1;
    }
    None
}

// Adds the links of the open tag that a `<` before the text begins; how many bytes the tag takes.
fn push_tag(alloc: Global, list: &mut LinkList, text: &str) -> Result<Option<usize>, Memory>
    ensures list { IfOk result (λ count. list.new ≡ list.old ++ values_in (grammar.open_tag text.now)) }
    ensures count { IfOk result (λ count. count ≡ count_of (grammar.open_tag text.now)) }
    ensures cut { IfOk result (λ count. IfSome count (IsCharBoundary text.now)) }
{
    let mut values = Vec::new(alloc);
    match open_tag(&mut values, text)? {
        Some(count) => {
            push_all(alloc, list, &values)?;
            Ok(Some(count))
        }
        None => Ok(None),
    }
}

fn push_all(alloc: Global, list: &mut LinkList, values: &[&str]) -> Result<(), Memory>
    ensures { OnOk result (list.new ≡ list.old ++ map (λ v. v.now) values.now) }
{
    for value in values {
        list.push(Text::shared(alloc, value)?)?;
    }
    Ok(())
}

// Notes the values that lead somewhere, of the open tag that a `<` before the text begins; how many bytes the tag takes.
fn open_tag<'a>(values: &mut Vec<&'a str>, text: &'a str) -> Result<Option<usize>, AllocError>
    requires { values.old.items ≡ [] }
    ensures count { IfOk result (λ count. count ≡ count_of (grammar.open_tag text.now)) }
    ensures values { IfOk result (λ count. IfSome count (λ n. map (λ v. v.now) values.new.items ≡ values_in (grammar.open_tag text.now))) }
    ensures cut { IfOk result (λ count. IfSome count (IsCharBoundary text.now)) }
{
    let name = tag_name_len(text);
    if name == 0 {
        return Ok(None);
    }
    match tag_rest(values, &text[name..])? {
        Some(rest) => Ok(Some(name + rest)),
        None => Ok(None),
    }
}

// Attributes, and the end of the tag.
fn tag_rest<'a>(values: &mut Vec<&'a str>, text: &'a str) -> Result<Option<usize>, AllocError>
    requires { values.old.items ≡ [] }
    ensures count { IfOk result (λ count. count ≡ count_of (grammar.tag_rest text.now)) }
    ensures values { IfOk result (λ count. IfSome count (λ n. map (λ v. v.now) values.new.items ≡ values_in (grammar.tag_rest text.now))) }
    ensures cut { IfOk result (λ count. IfSome count (IsCharBoundary text.now)) }
{
    let inside = attributes(values, text)?;
    match tag_end(&text[inside..]) {
        Some(end) => Ok(Some(inside + end)),
        None => Ok(None),
    }
}

fn attributes<'a>(values: &mut Vec<&'a str>, text: &'a str) -> Result<usize, AllocError>
    ensures count { IfOk result (λ count. count ≡ (grammar.attributes text.now).count) }
    ensures values { IfOk result (λ count. map (λ v. v.now) values.new.items ≡ map (λ v. v.now) values.old.items ++ values_of (grammar.attributes text.now).value) }
    ensures cut { IfOk result (IsCharBoundary text.now) }
{
    let mut count = 0;
    while let Some(attribute) = attribute_at(&text[count..]) {
        push_value(values, attribute)?;
        count += attribute.count;
    }
    Ok(count)
}

// Adds the value of an attribute that leads somewhere.
fn push_value<'a>(values: &mut Vec<&'a str>, attribute: Attribute<'a>) -> Result<(), AllocError>
    ensures { OnOk result (map (λ v. v.now) values.new.items ≡ map (λ v. v.now) values.old.items ++ value_of (attribute_of attribute.entry.name.now (option_map (λ v. v.now) attribute.entry.value))) }
{
    let Some(value) = attribute.value else {
        return Ok(());
    };
    if !leads(attribute.name) {
        return Ok(());
    }
    values.push(value)?;
    Ok(())
}

// `href` or `src`.
fn leads(name: &str) -> bool
    ensures { result ≡ leads name.now }
{
    name.eq_ignore_ascii_case("href") || name.eq_ignore_ascii_case("src")
}
