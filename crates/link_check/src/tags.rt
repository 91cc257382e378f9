// Open tags and their attributes, at the front of a text.
ghost use Rattle.std.specs.Prelude.{◌≡◌, ◌+◌, ◌<◌, ◌≤◌, ◌∷◌, [], Bool, IfSome, MatchOption, None, Some, drop, length, option_map, take, ℕ};
ghost use Rattle.std.specs.List.{prefix_len};
ghost use Rattle.std.specs.Str.{IsCharBoundary};
ghost use Rattle.site_text.specs.Fronts.{first_byte, run_len};
ghost use Rattle.link_check.specs.Quotes.{IsQuoted};
ghost use Rattle.site_text.specs.Classes.{is_in};
ghost use Rattle.link_check.specs.Tags as grammar;
ghost use Rattle.link_check.specs.Tags.{attribute_read};

use site_text::{Class, byte_at, class_len, is_letter, is_one_of, starts_with_byte};

/// What an attribute is given, and how many bytes that takes with its quotes, or with what stands before it.
#[derive(Clone, Copy)]
struct Value<'a> {
    text: &'a str,
    count: usize,
}

/// How many bytes of white space a text begins with.
fn gap_len(text: &str) -> usize
    ensures value { result ≡ grammar.gap_len text.now }
    ensures cut { IsCharBoundary text.now result }
{
    gap_run(text.as_bytes())
}

fn gap_run(bytes: &[u8]) -> usize
    ensures { result ≡ prefix_len grammar.is_gap bytes.now }
{
    bytes.iter().take_while(|c| is_gap(**c)).count()
}

fn is_gap(c: u8) -> bool
    ensures { result ≡ grammar.is_gap c }
{
    c == b' ' || 9 <= c && c <= 13
}

fn is_unquoted(c: u8) -> bool
    ensures { result ≡ grammar.is_unquoted c }
{
    !(is_gap(c) || is_one_of(b"\"'=<>`", c))
}

fn unquoted_run(bytes: &[u8]) -> usize
    ensures { result ≡ prefix_len grammar.is_unquoted bytes.now }
{
    bytes.iter().take_while(|c| is_unquoted(**c)).count()
}

fn unquoted_len(text: &str) -> usize
    ensures value { result ≡ run_len grammar.is_unquoted text.now }
    ensures cut { IsCharBoundary text.now result }
{
    unquoted_run(text.as_bytes())
}

/// How long the name of a tag is that a text begins with, or 0.
pub(crate) fn tag_name_len(text: &str) -> usize
    ensures value { result ≡ grammar.tag_name_len text.now }
    ensures cut { IsCharBoundary text.now result }
{
    if !is_letter(byte_at(text, 0)) {
        return 0;
    }
    1 + class_len(Class::Hyphenated, &text[1..])
}

/// How long the name of an attribute is that a text begins with, or 0.
fn attribute_name_len(text: &str) -> usize
    ensures value { result ≡ grammar.attribute_name_len text.now }
    ensures cut { IsCharBoundary text.now result }
{
    if !begins_attribute(byte_at(text, 0)) {
        return 0;
    }
    1 + class_len(Class::AttributeName, &text[1..])
}

fn begins_attribute(c: u8) -> bool
    ensures { result ≡ grammar.begins_attribute c }
{
    is_letter(c) || is_one_of(b"_:", c)
}

/// A value, in quotes or without.
fn value_at<'a>(text: &'a str) -> Option<Value<'a>>
    ensures value { MatchOption result (grammar.value_at text.now ≡ None)
        (λ v. grammar.value_at text.now ≡ Some (record { value = v.text.now; count = v.count })) }
    ensures cut { IfSome result (λ v. IsCharBoundary text.now v.count) }
{
    match byte_at(text, 0) {
        b'"' => quoted(Class::NoDoubleQuote, text),
        b'\'' => quoted(Class::NoSingleQuote, text),
        _ => unquoted(text),
    }
}

// What stands between a quote and the next one, where the class is that of all other bytes.
fn quoted<'a>(others: Class, text: &'a str) -> Option<Value<'a>>
    requires { IsQuoted others text.now }
    ensures value { MatchOption result (grammar.after 1 (grammar.quoted (first_byte text.now) (drop 1 text.now)) ≡ None)
        (λ v. grammar.after 1 (grammar.quoted (first_byte text.now) (drop 1 text.now)) ≡ Some (record { value = v.text.now; count = v.count })) }
    ensures cut { IfSome result (λ v. IsCharBoundary text.now v.count) }
{
    let inside = &text[1..];
    let len = class_len(others, inside);
    if len == inside.len() {
        return None;
    }
    Some(Value {
        text: &inside[..len],
        count: len + 2,
    })
}

fn unquoted<'a>(text: &'a str) -> Option<Value<'a>>
    ensures value { MatchOption result (run_len grammar.is_unquoted text.now ≡ 0)
        (λ v. (v.count ≡ run_len grammar.is_unquoted text.now) × (0 < v.count) × (v.text.now ≡ take v.count text.now)) }
    ensures cut { IfSome result (λ v. IsCharBoundary text.now v.count) }
{
    match unquoted_len(text) {
        0 => None,
        count => Some(Value {
            text: &text[..count],
            count,
        }),
    }
}

/// `=` and a value, with white space around the sign.
fn assigned<'a>(text: &'a str) -> Option<Value<'a>>
    ensures value { MatchOption result (grammar.assigned text.now ≡ None)
        (λ v. grammar.assigned text.now ≡ Some (record { value = v.text.now; count = v.count })) }
    ensures cut { IfSome result (λ v. IsCharBoundary text.now v.count) }
{
    let gap = gap_len(text);
    let value = given(&text[gap..])?;
    Some(Value {
        text: value.text,
        count: gap + value.count,
    })
}

// `=` and a value.
fn given<'a>(text: &'a str) -> Option<Value<'a>>
    ensures value { MatchOption result (grammar.given text.now ≡ None)
        (λ v. grammar.given text.now ≡ Some (record { value = v.text.now; count = v.count })) }
    ensures cut { IfSome result (λ v. IsCharBoundary text.now v.count) }
{
    if !starts_with_byte(text, b'=') {
        return None;
    }
    let value = spaced(&text[1..])?;
    Some(Value {
        text: value.text,
        count: 1 + value.count,
    })
}

// A value, with white space before it.
fn spaced<'a>(text: &'a str) -> Option<Value<'a>>
    ensures value { MatchOption result (grammar.spaced text.now ≡ None)
        (λ v. grammar.spaced text.now ≡ Some (record { value = v.text.now; count = v.count })) }
    ensures cut { IfSome result (λ v. IsCharBoundary text.now v.count) }
{
    let gap = gap_len(text);
    let value = value_at(&text[gap..])?;
    Some(Value {
        text: value.text,
        count: gap + value.count,
    })
}

/// An attribute, and how many bytes it takes with the white space before it.
#[derive(Clone, Copy)]
pub(crate) struct Attribute<'a> {
    pub(crate) name: &'a str,
    pub(crate) value: Option<&'a str>,
    pub(crate) count: usize,
}

/// White space, a name, and perhaps a value.
pub(crate) fn attribute_at<'a>(text: &'a str) -> Option<Attribute<'a>>
    ensures value { MatchOption result (grammar.attribute text.now ≡ None)
        (λ a. grammar.attribute text.now ≡ Some (attribute_read a.name.now (option_map (λ v. v.now) a.value) a.count)) }
    ensures cut { IfSome result (λ a. IsCharBoundary text.now a.count) }
{
    let gap = gap_len(text);
    let rest = &text[gap..];
    let len = attribute_name_len(rest);
    if gap == 0 || len == 0 {
        return None;
    }
    let name = &rest[..len];
    Some(match assigned(&rest[len..]) {
        Some(given) => Attribute {
            name,
            value: Some(given.text),
            count: gap + len + given.count,
        },
        None => Attribute {
            name,
            value: None,
            count: gap + len,
        },
    })
}

/// How many bytes the end of a tag takes: white space, perhaps `/`, and `>`.
pub(crate) fn tag_end(text: &str) -> Option<usize>
    ensures value { result ≡ grammar.tag_end text.now }
    ensures cut { IfSome result (λ n. IsCharBoundary text.now n) }
{
    let gap = gap_len(text);
    let count = slashed(&text[gap..])?;
    Some(gap + count)
}

// Perhaps `/`, and `>`.
fn slashed(text: &str) -> Option<usize>
    ensures value { result ≡ grammar.slashed text.now }
    ensures cut { IfSome result (λ n. IsCharBoundary text.now n) }
{
    if !starts_with_byte(text, b'/') {
        return closed(text);
    }
    let count = closed(&text[1..])?;
    Some(1 + count)
}

// `>`.
fn closed(text: &str) -> Option<usize>
    ensures value { result ≡ grammar.closed text.now }
    ensures cut { IfSome result (λ n. IsCharBoundary text.now n) }
{
    if starts_with_byte(text, b'>') {
        return Some(1);
    }
    None
}
