// Names that HTML gives to tags.
ghost use Rattle.std.specs.Prelude.{◌≡◌, map};
ghost use Rattle.site_text.specs.Bytes as bytes;
ghost use Rattle.markdown_grammar.specs.Fronts.{same_bytes};
ghost use Rattle.markdown_grammar.specs.HtmlStarts as grammar;

use site_text::lower;

/// Tags whose text is no Markdown.
const VERBATIM_NAMES: [&[u8]; 4] = [b"script", b"pre", b"style", b"textarea"];

/// Tags that start a block wherever they stand.
const BLOCK_NAMES: [&[u8]; 62] = [
    b"address",
    b"article",
    b"aside",
    b"base",
    b"basefont",
    b"blockquote",
    b"body",
    b"caption",
    b"center",
    b"col",
    b"colgroup",
    b"dd",
    b"details",
    b"dialog",
    b"dir",
    b"div",
    b"dl",
    b"dt",
    b"fieldset",
    b"figcaption",
    b"figure",
    b"footer",
    b"form",
    b"frame",
    b"frameset",
    b"h1",
    b"h2",
    b"h3",
    b"h4",
    b"h5",
    b"h6",
    b"head",
    b"header",
    b"hr",
    b"html",
    b"iframe",
    b"legend",
    b"li",
    b"link",
    b"main",
    b"menu",
    b"menuitem",
    b"nav",
    b"noframes",
    b"ol",
    b"optgroup",
    b"option",
    b"p",
    b"param",
    b"search",
    b"section",
    b"summary",
    b"table",
    b"tbody",
    b"td",
    b"tfoot",
    b"th",
    b"thead",
    b"title",
    b"tr",
    b"track",
    b"ul",
];

pub(crate) fn is_verbatim(name: &[u8]) -> bool
    ensures { result ≡ grammar.is_among grammar.verbatim_names (bytes.lowered name.now) }
{
    is_among(&VERBATIM_NAMES, name)
}

pub(crate) fn is_block(name: &[u8]) -> bool
    ensures { result ≡ grammar.is_among grammar.block_names (bytes.lowered name.now) }
{
    is_among(&BLOCK_NAMES, name)
}

fn is_among(mut names: &[&[u8]], name: &[u8]) -> bool
    ensures { result ≡ grammar.is_among (map (λ n. n.now) names.entry.now) (bytes.lowered name.now) }
{
    while let [known, rest @ ..] = names {
        if is_name(known, name) {
            return true;
        }
        names = rest;
    }
    false
}

// Whether a name is the known one, in any case.
fn is_name(known: &[u8], name: &[u8]) -> bool
    ensures { result ≡ same_bytes known.now (bytes.lowered name.now) }
{
    if known.len() != name.len() {
        return false;
    }
    let mut i = 0;
    while i < name.len() {
        if known[i] != lower(name[i]) {
            return false;
        }
        i += 1;
    }
    true
}
