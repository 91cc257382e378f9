// The kinds of HTML blocks.

/// The kind of an HTML block, by what starts it. The standard numbers them from 1 to 7, in this order.
/// CommonMark 0.31.2, section 4.6.
#[derive(Clone, Copy, PartialEq, Eq, Debug)]
pub enum HtmlKind {
    /// A tag whose text is no Markdown: `script`, `pre`, `style` or `textarea`.
    Verbatim,
    Comment,
    /// A processing instruction.
    Instruction,
    Declaration,
    /// A CDATA section.
    Cdata,
    /// A tag with one of the listed names.
    Listed,
    /// Any other whole tag, alone on its line.
    Lone,
}
