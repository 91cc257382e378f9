// Open and closing tags at the front of a text: how many bytes each part takes, or none.
ghost use Rattle.std.specs.Prelude.{◌≡◌, ◌≤◌, ◌<◌, Some, [], ◌∷◌, IfSome, codes, length};
ghost use Rattle.markdown_grammar.specs.Readers as readers;
ghost use Rattle.markdown_grammar.specs.Readers.{◌or◌, ◌then◌};
ghost use Rattle.markdown_grammar.specs.Fronts.{has};
ghost use Rattle.markdown_grammar.specs.HtmlStarts as starts;
ghost use Rattle.markdown_grammar.specs.Tags as grammar;
ghost use Rattle.site_text.specs.Classes.{is_in};
ghost use Rattle.site_text.specs.declared.classes.Class.TheVariants.{NoDoubleQuote, NoSingleQuote};

use site_text::{Class, class_run, is_letter, is_one_of};

/// One byte.
fn byte(text: &[u8], c: u8) -> Option<usize>
    ensures value { result ≡ readers.exactly (c ∷ []) text.now }
    ensures within { IfSome result (λ n. n ≤ length text.now) }
{
    if text.len() == 0 || text[0] != c {
        return None;
    }
    Some(1)
}

fn tag_name(text: &[u8]) -> Option<usize>
    ensures value { result ≡ grammar.tag_name text.now }
    ensures within { IfSome result (λ n. n ≤ length text.now) }
{
    if text.len() == 0 || !is_letter(text[0]) {
        return None;
    }
    Some(1 + class_run(Class::Hyphenated, &text[1..]))
}

// Spaces and tabs, with up to one line end among them.
fn gap(text: &[u8]) -> usize
    ensures value { Some result ≡ readers.white_gap text.now }
    ensures within { result ≤ length text.now }
{
    let first = class_run(Class::Space, text);
    if first == text.len() || text[first] != b'\n' {
        return first;
    }
    first + 1 + class_run(Class::Space, &text[first + 1..])
}

fn some_gap(text: &[u8]) -> Option<usize>
    ensures value { result ≡ readers.some_white_gap text.now }
    ensures within { IfSome result (λ n. n ≤ length text.now) }
{
    let n = gap(text);
    if n == 0 { None } else { Some(n) }
}

fn attribute_name(text: &[u8]) -> Option<usize>
    ensures value { result ≡ grammar.attribute_name text.now }
    ensures within { IfSome result (λ n. n ≤ length text.now) }
{
    if text.len() == 0 || !(is_letter(text[0]) || is_one_of(b"_:", text[0])) {
        return None;
    }
    Some(1 + class_run(Class::AttributeName, &text[1..]))
}

// A value without quotes.
fn unquoted(text: &[u8]) -> Option<usize>
    ensures value { result ≡ grammar.unquoted text.now }
    ensures within { IfSome result (λ n. n ≤ length text.now) }
{
    let n = class_run(Class::Unquoted, text);
    if n == 0 { None } else { Some(n) }
}

// The rest of a value in single quotes.
fn single_rest(text: &[u8]) -> Option<usize>
    ensures value { result ≡ (readers.at_least 0 (is_in NoSingleQuote) then readers.exactly (39 ∷ [])) text.now }
    ensures within { IfSome result (λ n. n ≤ length text.now) }
{
    let n = class_run(Class::NoSingleQuote, text);
    let close = byte(&text[n..], b'\'')?;
    Some(n + close)
}

fn single_quoted(text: &[u8]) -> Option<usize>
    ensures value { result ≡ grammar.quoted 39 text.now }
    ensures within { IfSome result (λ n. n ≤ length text.now) }
{
    let quote = byte(text, b'\'')?;
    let rest = single_rest(&text[quote..])?;
    Some(quote + rest)
}

// The rest of a value in double quotes.
fn double_rest(text: &[u8]) -> Option<usize>
    ensures value { result ≡ (readers.at_least 0 (is_in NoDoubleQuote) then readers.exactly (34 ∷ [])) text.now }
    ensures within { IfSome result (λ n. n ≤ length text.now) }
{
    let n = class_run(Class::NoDoubleQuote, text);
    let close = byte(&text[n..], b'"')?;
    Some(n + close)
}

fn double_quoted(text: &[u8]) -> Option<usize>
    ensures value { result ≡ grammar.quoted 34 text.now }
    ensures within { IfSome result (λ n. n ≤ length text.now) }
{
    let quote = byte(text, b'"')?;
    let rest = double_rest(&text[quote..])?;
    Some(quote + rest)
}

fn value(text: &[u8]) -> Option<usize>
    ensures value { result ≡ (grammar.unquoted or grammar.quoted 39 or grammar.quoted 34) text.now }
    ensures within { IfSome result (λ n. n ≤ length text.now) }
{
    match unquoted(text) {
        Some(n) => Some(n),
        None => quoted(text),
    }
}

fn quoted(text: &[u8]) -> Option<usize>
    ensures value { result ≡ (grammar.quoted 39 or grammar.quoted 34) text.now }
    ensures within { IfSome result (λ n. n ≤ length text.now) }
{
    match single_quoted(text) {
        Some(n) => Some(n),
        None => double_quoted(text),
    }
}

// Behind `=`.
fn gap_and_value(text: &[u8]) -> Option<usize>
    ensures value { result ≡ (readers.white_gap then (grammar.unquoted or grammar.quoted 39 or grammar.quoted 34)) text.now }
    ensures within { IfSome result (λ n. n ≤ length text.now) }
{
    let white = gap(text);
    let rest = value(&text[white..])?;
    Some(white + rest)
}

fn sign_and_value(text: &[u8]) -> Option<usize>
    ensures value { result ≡ (readers.exactly (61 ∷ []) then readers.white_gap then (grammar.unquoted or grammar.quoted 39 or grammar.quoted 34)) text.now }
    ensures within { IfSome result (λ n. n ≤ length text.now) }
{
    let sign = byte(text, b'=')?;
    let rest = gap_and_value(&text[sign..])?;
    Some(sign + rest)
}

fn value_part(text: &[u8]) -> Option<usize>
    ensures value { result ≡ grammar.value_part text.now }
    ensures within { IfSome result (λ n. n ≤ length text.now) }
{
    let white = gap(text);
    let rest = sign_and_value(&text[white..])?;
    Some(white + rest)
}

fn value_or_none(text: &[u8]) -> usize
    ensures value { Some result ≡ readers.perhaps grammar.value_part text.now }
    ensures within { result ≤ length text.now }
{
    match value_part(text) {
        Some(n) => n,
        None => 0,
    }
}

fn name_and_value(text: &[u8]) -> Option<usize>
    ensures value { result ≡ (grammar.attribute_name then readers.perhaps grammar.value_part) text.now }
    ensures within { IfSome result (λ n. n ≤ length text.now) }
{
    let name = attribute_name(text)?;
    Some(name + value_or_none(&text[name..]))
}

fn attribute(text: &[u8]) -> Option<usize>
    ensures value { result ≡ grammar.attribute text.now }
    ensures within { IfSome result (λ n. n ≤ length text.now) }
{
    let white = some_gap(text)?;
    let rest = name_and_value(&text[white..])?;
    Some(white + rest)
}

// As many attributes as stand there.
fn attributes(text: &[u8]) -> usize
    ensures value { Some result ≡ readers.repeat grammar.attribute text.now }
    ensures within { result ≤ length text.now }
{
    let mut at = 0;
    while at < text.len() {
        match attribute(&text[at..]) {
            Some(n) => at += n,
            None => return at,
        }
    }
    at
}

fn slash_or_none(text: &[u8]) -> usize
    ensures value { Some result ≡ readers.perhaps (readers.exactly (codes "/")) text.now }
    ensures within { result ≤ length text.now }
{
    match byte(text, b'/') {
        Some(n) => n,
        None => 0,
    }
}

fn open_end(text: &[u8]) -> Option<usize>
    ensures value { result ≡ (readers.perhaps (readers.exactly (codes "/")) then readers.exactly (codes ">")) text.now }
    ensures within { IfSome result (λ n. n ≤ length text.now) }
{
    let slash = slash_or_none(text);
    let close = byte(&text[slash..], b'>')?;
    Some(slash + close)
}

fn open_gap(text: &[u8]) -> Option<usize>
    ensures value { result ≡ (readers.white_gap then readers.perhaps (readers.exactly (codes "/")) then readers.exactly (codes ">")) text.now }
    ensures within { IfSome result (λ n. n ≤ length text.now) }
{
    let white = gap(text);
    let rest = open_end(&text[white..])?;
    Some(white + rest)
}

fn open_attributes(text: &[u8]) -> Option<usize>
    ensures value { result ≡ (readers.repeat grammar.attribute then readers.white_gap then readers.perhaps (readers.exactly (codes "/")) then readers.exactly (codes ">")) text.now }
    ensures within { IfSome result (λ n. n ≤ length text.now) }
{
    let all = attributes(text);
    let rest = open_gap(&text[all..])?;
    Some(all + rest)
}

fn open_name(text: &[u8]) -> Option<usize>
    ensures value { result ≡ (grammar.tag_name then readers.repeat grammar.attribute then readers.white_gap then readers.perhaps (readers.exactly (codes "/")) then readers.exactly (codes ">")) text.now }
    ensures within { IfSome result (λ n. n ≤ length text.now) }
{
    let name = tag_name(text)?;
    let rest = open_attributes(&text[name..])?;
    Some(name + rest)
}

/// How many bytes the open tag takes that a text begins with, or none.
pub fn open_tag(text: &[u8]) -> Option<usize>
    ensures value { result ≡ grammar.open_tag text.now }
    ensures within { IfSome result (λ n. n ≤ length text.now) }
{
    let mark = byte(text, b'<')?;
    let rest = open_name(&text[mark..])?;
    Some(mark + rest)
}

fn closing_end(text: &[u8]) -> Option<usize>
    ensures value { result ≡ (readers.white_gap then readers.exactly (codes ">")) text.now }
    ensures within { IfSome result (λ n. n ≤ length text.now) }
{
    let white = gap(text);
    let close = byte(&text[white..], b'>')?;
    Some(white + close)
}

fn closing_name(text: &[u8]) -> Option<usize>
    ensures value { result ≡ (grammar.tag_name then readers.white_gap then readers.exactly (codes ">")) text.now }
    ensures within { IfSome result (λ n. n ≤ length text.now) }
{
    let name = tag_name(text)?;
    let rest = closing_end(&text[name..])?;
    Some(name + rest)
}

fn closing_marks(text: &[u8]) -> Option<usize>
    ensures value { result ≡ readers.exactly (codes "</") text.now }
    ensures within { IfSome result (λ n. n ≤ length text.now) }
{
    match text {
        [b'<', b'/', ..] => Some(2),
        _ => None,
    }
}

/// How many bytes the closing tag takes that a text begins with, or none.
pub fn closing_tag(text: &[u8]) -> Option<usize>
    ensures value { result ≡ grammar.closing_tag text.now }
    ensures within { IfSome result (λ n. n ≤ length text.now) }
{
    let marks = closing_marks(text)?;
    let rest = closing_name(&text[marks..])?;
    Some(marks + rest)
}

// An open or a closing tag.
fn tag(text: &[u8]) -> Option<usize>
    ensures value { result ≡ (grammar.open_tag or grammar.closing_tag) text.now }
    ensures within { IfSome result (λ n. n ≤ length text.now) }
{
    match open_tag(text) {
        Some(n) => Some(n),
        None => closing_tag(text),
    }
}

/// Whether a text is one whole tag, and white space behind it.
pub(crate) fn is_alone(text: &[u8]) -> bool
    ensures { result ≡ has (starts.alone text.now) }
{
    match tag(text) {
        Some(n) => n + class_run(Class::Space, &text[n..]) == text.len(),
        None => false,
    }
}
