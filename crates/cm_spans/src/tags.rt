// Raw HTML at the front of a text: how many bytes it takes, or none.
ghost use Rattle.std.specs.Prelude.{◌≡◌, ◌<◌, ◌≤◌, IfSome, codes, length};
ghost use Rattle.site_text.specs.Bytes as bytes;
ghost use Rattle.markdown_grammar.specs.Readers as readers;
ghost use Rattle.markdown_grammar.specs.Readers.{◌or◌, ◌then◌};
ghost use Rattle.markdown_grammar.specs.Tags as grammar;
ghost use Rattle.cm_spans.specs.Cuts.{Ends};
ghost use Rattle.cm_spans.specs.Missing.{Lacks, LacksWord};

use crate::missing_ends::MissingEnds;
use cm_starts::{closing_tag, open_tag};
use site_text::{begins, is_letter};

/// How many bytes of raw HTML a text begins with: an open or closing tag, a comment, a processing
/// instruction, a declaration or a CDATA section; or none. `missing` are ends that the text is known to lack.
pub fn html_tag(text: &str, missing: &mut MissingEnds) -> Option<usize>
    requires { Lacks missing.old text.now }
    ensures value { result ≡ grammar.html_tag text.now }
    ensures ends { IfSome result (Ends text.now) }
    ensures kept { Lacks missing.new text.now }
{
    tag(text.as_bytes(), missing)
}

fn tag(text: &[u8], missing: &mut MissingEnds) -> Option<usize>
    requires { Lacks missing.old text.now }
    ensures value { result ≡ grammar.html_tag text.now }
    ensures within { IfSome result (λ n. n ≤ length text.now) }
    ensures kept { Lacks missing.new text.now }
{
    match open_tag(text) {
        Some(n) => Some(n),
        None => closing_or_other(text, missing),
    }
}

fn closing_or_other(text: &[u8], missing: &mut MissingEnds) -> Option<usize>
    requires { Lacks missing.old text.now }
    ensures value { result ≡ (grammar.closing_tag or grammar.comment or grammar.instruction or grammar.declaration or grammar.cdata) text.now }
    ensures within { IfSome result (λ n. n ≤ length text.now) }
    ensures kept { Lacks missing.new text.now }
{
    match closing_tag(text) {
        Some(n) => Some(n),
        None => comment_or_other(text, missing),
    }
}

fn comment_or_other(text: &[u8], missing: &mut MissingEnds) -> Option<usize>
    requires { Lacks missing.old text.now }
    ensures value { result ≡ (grammar.comment or grammar.instruction or grammar.declaration or grammar.cdata) text.now }
    ensures within { IfSome result (λ n. n ≤ length text.now) }
    ensures kept { Lacks missing.new text.now }
{
    match comment(text, &mut missing.comment) {
        Some(n) => Some(n),
        None => instruction_or_other(text, missing),
    }
}

fn instruction_or_other(text: &[u8], missing: &mut MissingEnds) -> Option<usize>
    requires { Lacks missing.old text.now }
    ensures value { result ≡ (grammar.instruction or grammar.declaration or grammar.cdata) text.now }
    ensures within { IfSome result (λ n. n ≤ length text.now) }
    ensures kept { Lacks missing.new text.now }
{
    match instruction(text, &mut missing.instruction) {
        Some(n) => Some(n),
        None => declaration_or_cdata(text, missing),
    }
}

fn declaration_or_cdata(text: &[u8], missing: &mut MissingEnds) -> Option<usize>
    requires { Lacks missing.old text.now }
    ensures value { result ≡ (grammar.declaration or grammar.cdata) text.now }
    ensures within { IfSome result (λ n. n ≤ length text.now) }
    ensures kept { Lacks missing.new text.now }
{
    match declaration(text, &mut missing.declaration) {
        Some(n) => Some(n),
        None => cdata(text, &mut missing.cdata),
    }
}

fn comment(text: &[u8], missing: &mut usize) -> Option<usize>
    requires { LacksWord (codes "-->") missing.old text.now }
    ensures value { result ≡ grammar.comment text.now }
    ensures within { IfSome result (λ n. n ≤ length text.now) }
    ensures kept { LacksWord (codes "-->") missing.new text.now }
{
    match word(text, b"<!-->") {
        Some(n) => Some(n),
        None => longer_comment(text, missing),
    }
}

fn longer_comment(text: &[u8], missing: &mut usize) -> Option<usize>
    requires { LacksWord (codes "-->") missing.old text.now }
    ensures value { result ≡ (readers.exactly (codes "<!--->") or (readers.exactly (codes "<!--") then readers.to (codes "-->"))) text.now }
    ensures within { IfSome result (λ n. n ≤ length text.now) }
    ensures kept { LacksWord (codes "-->") missing.new text.now }
{
    match word(text, b"<!--->") {
        Some(n) => Some(n),
        None => between(text, b"<!--", b"-->", missing),
    }
}

fn instruction(text: &[u8], missing: &mut usize) -> Option<usize>
    requires { LacksWord (codes "?>") missing.old text.now }
    ensures value { result ≡ grammar.instruction text.now }
    ensures within { IfSome result (λ n. n ≤ length text.now) }
    ensures kept { LacksWord (codes "?>") missing.new text.now }
{
    between(text, b"<?", b"?>", missing)
}

fn declaration(text: &[u8], missing: &mut usize) -> Option<usize>
    requires { LacksWord (codes ">") missing.old text.now }
    ensures value { result ≡ grammar.declaration text.now }
    ensures within { IfSome result (λ n. n ≤ length text.now) }
    ensures kept { LacksWord (codes ">") missing.new text.now }
{
    let mark = word(text, b"<!")?;
    let rest = letter_to_end(&text[mark..], missing)?;
    Some(mark + rest)
}

// A letter, and up to `>`.
fn letter_to_end(text: &[u8], missing: &mut usize) -> Option<usize>
    requires { LacksWord (codes ">") missing.old text.now }
    ensures value { result ≡ (readers.ahead bytes.is_letter then readers.to (codes ">")) text.now }
    ensures within { IfSome result (λ n. n ≤ length text.now) }
    ensures kept { LacksWord (codes ">") missing.new text.now }
    ensures same { length text.now < missing.new → missing.new ≡ missing.old }
{
    if text.len() == 0 || !is_letter(text[0]) {
        return None;
    }
    next_end(b">", text, missing)
}

fn cdata(text: &[u8], missing: &mut usize) -> Option<usize>
    requires { LacksWord (codes "]]>") missing.old text.now }
    ensures value { result ≡ grammar.cdata text.now }
    ensures within { IfSome result (λ n. n ≤ length text.now) }
    ensures kept { LacksWord (codes "]]>") missing.new text.now }
{
    between(text, b"<![CDATA[", b"]]>", missing)
}

/// A word, and up to another behind it.
fn between(text: &[u8], front: &[u8], end: &[u8], missing: &mut usize) -> Option<usize>
    requires { LacksWord end.now missing.old text.now }
    ensures value { result ≡ (readers.exactly front.now then readers.to end.now) text.now }
    ensures within { IfSome result (λ n. n ≤ length text.now) }
    ensures kept { LacksWord end.now missing.new text.now }
{
    let mark = word(text, front)?;
    let rest = next_end(end, &text[mark..], missing)?;
    Some(mark + rest)
}

/// Just these bytes.
pub(crate) fn word(text: &[u8], word: &[u8]) -> Option<usize>
    ensures value { result ≡ readers.exactly word.now text.now }
    ensures within { IfSome result (λ n. n ≤ length text.now) }
{
    if begins(text, word) {
        Some(word.len())
    } else {
        None
    }
}

// Up to the first place where these bytes stand, and with them. Where they are known to be missing they are not looked for.
fn next_end(word: &[u8], text: &[u8], missing: &mut usize) -> Option<usize>
    requires { LacksWord word.now missing.old text.now }
    ensures value { result ≡ readers.to word.now text.now }
    ensures within { IfSome result (λ n. n ≤ length text.now) }
    ensures kept { LacksWord word.now missing.new text.now }
    ensures same { length text.now < missing.new → missing.new ≡ missing.old }
{
    if text.len() <= *missing {
        return None;
    }
    match up_to(word, text) {
        Some(n) => Some(n),
        None => {
            *missing = text.len();
            None
        }
    }
}

// Up to the first place where these bytes stand, and with them.
fn up_to(word: &[u8], text: &[u8]) -> Option<usize>
    ensures value { result ≡ readers.to word.now text.now }
    ensures within { IfSome result (λ n. n ≤ length text.now) }
{
    let mut i = 0;
    while i < text.len() {
        if begins(&text[i..], word) {
            return Some(i + word.len());
        }
        i += 1;
    }
    None
}
