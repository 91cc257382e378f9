// The nodes of leaves, and the definitions in them.
ghost use Rattle.std.specs.Prelude.{◌≡◌, ◌++◌, IfOk, OnOk, option_to_list, if◌then◌else◌, [], ◌∷◌};
ghost use Rattle.markdown_grammar.specs.Definitions as grammar;
ghost use Rattle.markdown_grammar.specs.Fronts.{is_empty};
ghost use Rattle.cm_blocks.specs.LineTexts.{unended};
ghost use Rattle.cm_blocks.specs.Making.{links_in, nodes_in, prose_of, reads_blank, token_links};
ghost use Rattle.cm_blocks.specs.declared.node.Node.TheVariants as node;

use crate::kinds::{Leaf, Token};
use crate::leaf_lines::LeafLines;
use crate::leaf_more::behind_definitions;
use crate::node::Node;
use cm_links::{Links, definition};
use cm_starts::{HeadingLevel, trim};
use site_base::{Memory, Text};
use site_text::{Class, class_len};
use std::alloc::Global;

/// The node of a leaf; none of a paragraph that is definitions alone.
pub(crate) fn leaf_node(alloc: Global, leaf: Leaf) -> Result<Option<Node>, Memory>
    ensures { IfOk result (λ found. option_to_list found ≡ nodes_in leaf) }
{
    match leaf {
        Leaf::Paragraph { text } => paragraph(alloc, text),
        Leaf::Underlined { level, text } => underlined(alloc, level, text),
        Leaf::Heading { level, text } => Ok(Some(Node::Heading { level, text })),
        Leaf::Break => Ok(Some(Node::Break)),
        Leaf::Indented { text, .. } => code(Text::new(alloc), text),
        Leaf::Fenced { info, text, .. } => code(info, text),
        Leaf::Html { text, .. } => html(text),
    }
}

fn underlined(alloc: Global, level: HeadingLevel, lines: LeafLines) -> Result<Option<Node>, Memory>
    ensures { IfOk result (λ found. option_to_list found ≡ node.Heading level (prose_of lines) ∷ []) }
{
    let text = prose(alloc, lines)?;
    Ok(Some(Node::Heading { level, text }))
}

fn code(info: Text, lines: LeafLines) -> Result<Option<Node>, Memory>
    ensures { IfOk result (λ found. option_to_list found ≡ node.Code info lines ∷ []) }
{
    let text = lines.into_text()?;
    Ok(Some(Node::Code { info, text }))
}

fn html(lines: LeafLines) -> Result<Option<Node>, Memory>
    ensures { IfOk result (λ found. option_to_list found ≡ node.Html lines ∷ []) }
{
    let text = lines.into_text()?;
    Ok(Some(Node::Html { text }))
}

fn paragraph(alloc: Global, lines: LeafLines) -> Result<Option<Node>, Memory>
    ensures { IfOk result (λ found. option_to_list found ≡ (if is_empty (prose_of lines) then [] else node.Paragraph (prose_of lines) ∷ [])) }
{
    let text = prose(alloc, lines)?;
    if text.len() == 0 {
        return Ok(None);
    }
    Ok(Some(Node::Paragraph { text }))
}

// The text of a paragraph behind its definitions, without white space at its ends. It is copied only
// where something stands before it.
fn prose(alloc: Global, lines: LeafLines) -> Result<Text, Memory>
    ensures { IfOk result (λ text. text ≡ prose_of lines) }
{
    let all = lines.as_str();
    let rest = behind_definitions(alloc, lines.inside())?;
    let text = trim(rest);
    if rest.len() + 1 == all.len() && class_len(Class::Space, rest) == 0 {
        let count = text.len();
        return lines.into_front(count);
    }
    Text::copy(alloc, text)
}

/// Whether a leaf has read blank lines that are none of its own.
pub(crate) fn reads_blank(leaf: &Leaf) -> bool
    ensures { result ≡ reads_blank leaf.now }
{
    match leaf {
        Leaf::Indented { pending, .. } => pending.len() != 0,
        _ => false,
    }
}

/// The definitions in all leaves, in order.
pub(crate) fn links_of(alloc: Global, tokens: &[Token]) -> Result<Links, Memory>
    ensures { IfOk result (λ links. links ≡ links_in tokens.now) }
{
    let mut links = Links::new(alloc);
    for token in tokens {
        add_token(alloc, &mut links, token)?;
    }
    Ok(links)
}

fn add_token(alloc: Global, links: &mut Links, token: &Token) -> Result<(), Memory>
    ensures { OnOk result (links.new ≡ links.old ++ token_links token.now) }
{
    match token {
        Token::Holds(Leaf::Paragraph { text }) => add_all(alloc, links, text.inside()),
        Token::Holds(Leaf::Underlined { text, .. }) => add_all(alloc, links, text.inside()),
        _ => Ok(()),
    }
}

// The definitions at the front of a text.
fn add_all(alloc: Global, links: &mut Links, text: &str) -> Result<(), Memory>
    ensures { OnOk result (links.new ≡ links.old ++ grammar.definitions text.now) }
{
    let mut rest = text;
    loop {
        match definition(alloc, rest)? {
            Some(found) => {
                let end = found.end;
                links.add(alloc, found)?;
                rest = &rest[end..];
            }
            None => return Ok(()),
        }
    }
}
