// The blocks of a text in a flat list.
use cm_links::Links;
use cm_starts::HeadingLevel;
use site_base::Text;

/// A block. Quotes, lists and items have the number of the nodes that are inside of them, which follow
/// them; a list has items alone. CommonMark 0.31.2, sections 4 and 5.
#[derive(Drop)]
pub enum Node {
    Paragraph {
        text: Text,
    },
    Heading {
        level: HeadingLevel,
        text: Text,
    },
    Break,
    /// A code block with its info string, which is empty for indented code.
    Code {
        info: Text,
        text: Text,
    },
    Html {
        text: Text,
    },
    Quote {
        len: usize,
    },
    /// A list: the last character of its items' marks, the number of the first item (1 for bullets), and
    /// whether a blank line separates two of its items or two blocks in an item.
    List {
        mark: char,
        number: u32,
        is_loose: bool,
        len: usize,
    },
    Item {
        len: usize,
    },
}

/// The blocks of a text, and all link reference definitions in it.
#[derive(Drop)]
pub struct Blocks {
    pub nodes: Vec<Node>,
    pub links: Links,
}
