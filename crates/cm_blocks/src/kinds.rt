// Leaves as a walk over the lines holds them, and what it makes of them.
use crate::leaf_lines::LeafLines;
use cm_containers::Container;
use cm_starts::HeadingLevel;
use markdown_grammar::HtmlKind;
use site_base::Text;

/// A leaf block with what decides whether it takes one more line. CommonMark 0.31.2, section 4.
#[derive(Drop)]
pub enum Leaf {
    Paragraph {
        text: LeafLines,
    },
    /// A paragraph that an underline has made a heading.
    Underlined {
        level: HeadingLevel,
        text: LeafLines,
    },
    /// A heading by `#`.
    Heading {
        level: HeadingLevel,
        text: Text,
    },
    Break,
    /// Indented code, and blank lines behind it that are code only where more follows.
    Indented {
        text: LeafLines,
        pending: LeafLines,
    },
    Fenced {
        indent: u128,
        mark: char,
        len: usize,
        info: Text,
        text: LeafLines,
        is_closed: bool,
    },
    Html {
        kind: HtmlKind,
        text: LeafLines,
        is_closed: bool,
    },
}

/// What comes next in a text: the start or the end of a container, a leaf, or a blank line that is none
/// of a leaf's.
#[derive(Drop)]
pub enum Token {
    Opens(Container),
    Closes(Container),
    Holds(Leaf),
    Blank,
}
