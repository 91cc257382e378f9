// The lines that end blocks of HTML.
ghost use Rattle.std.specs.Prelude.{◌≡◌, ◌<◌, drop, length};
ghost use Rattle.site_text.specs.Bytes as bytes;
ghost use Rattle.markdown_grammar.specs.Fronts.{has};
ghost use Rattle.site_text.specs.Fronts.{begins_with};
ghost use Rattle.markdown_grammar.specs.HtmlStarts as grammar;
ghost use Rattle.markdown_grammar.specs.declared.html_kind.HtmlKind.TheVariants as kind;
ghost use Rattle.markdown_grammar.specs.Readers.{to};
ghost use Rattle.cm_blocks.specs.HtmlEnds.{seen};

use markdown_grammar::HtmlKind;
use site_text::{begins, begins_in_lower_case};

/// Whether a line ends a block of HTML, of a kind that a line ends. CommonMark 0.31.2, section 4.6.
pub(crate) fn ends_html(kind: HtmlKind, text: &str) -> bool
    ensures { result ≡ grammar.ends_html kind text.now }
{
    let bytes = text.as_bytes();
    match kind {
        HtmlKind::Verbatim => ends_verbatim(bytes),
        HtmlKind::Comment => has_word(bytes, b"-->", false),
        HtmlKind::Instruction => has_word(bytes, b"?>", false),
        HtmlKind::Declaration => has_word(bytes, b">", false),
        HtmlKind::Cdata => has_word(bytes, b"]]>", false),
        HtmlKind::Listed | HtmlKind::Lone => false,
    }
}

// Whether one of the closing tags of verbatim text stands in a line.
fn ends_verbatim(text: &[u8]) -> bool
    ensures { result ≡ grammar.ends_html kind.Verbatim text.now }
{
    has_word(text, b"</script>", true)
        || has_word(text, b"</pre>", true)
        || has_word(text, b"</style>", true)
        || has_word(text, b"</textarea>", true)
}

// Whether a word stands in a line, in any case where this does not count.
fn has_word(text: &[u8], word: &[u8], folds: bool) -> bool
    requires { 0 < length word.now }
    ensures { result ≡ has (to word.now (seen folds text.now)) }
{
    let mut at = 0;
    while at < text.len() {
        if is_here(&text[at..], word, folds) {
            return true;
        }
        at += 1;
    }
    false
}

fn is_here(text: &[u8], word: &[u8], folds: bool) -> bool
    ensures { result ≡ begins_with word.now (seen folds text.now) }
{
    if folds {
        begins_in_lower_case(text, word)
    } else {
        begins(text, word)
    }
}
