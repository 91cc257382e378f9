// Where a line stands, and what it starts.
use crate::heading_level::HeadingLevel;
use crate::list_marks::ListMark;
use markdown_grammar::HtmlKind;

/// Where a line stands, as far as what it may start depends on it: after no open paragraph, outside of
/// the containers of an open paragraph, or in a paragraph, which has text beside its definitions of
/// links or not. CommonMark 0.31.2, sections 4 and 5.1.
#[derive(Clone, Copy, PartialEq, Eq, Debug)]
pub enum Place {
    Fresh,
    Beside,
    Paragraph { has_text: bool },
}

/// What a line starts, or text that starts nothing. CommonMark 0.31.2, sections 4 and 5.
#[derive(Clone, Copy, PartialEq, Eq, Debug)]
pub enum Start<'a> {
    Blank,
    Quote,
    /// A heading by `#`: its level and its text.
    Heading {
        level: HeadingLevel,
        text: &'a str,
    },
    /// A code fence: the columns before it, its mark, how many of them, and the info string.
    Fence {
        indent: u128,
        mark: char,
        len: usize,
        info: &'a str,
    },
    Html {
        kind: HtmlKind,
    },
    /// The underline of a heading of level 1 or 2.
    Underline {
        level: HeadingLevel,
    },
    Break,
    /// A list item: its mark, its number (1 for a bullet), and how many digits stand before the mark.
    Item {
        mark: ListMark,
        number: u32,
        digits: usize,
    },
    Indented,
    Text,
}
