// Containers, and what a line has of them.

/// A container that is open, after CommonMark 0.31.2, sections 5.1 and 5.2.
#[derive(Clone, Copy, PartialEq, Eq, Debug)]
pub enum Container {
    Quote,
    /// A list item: by how many columns its content stands behind the place where it may begin, the
    /// last character of its mark, and its number (1 for a bullet).
    Item {
        indent: u128,
        mark: char,
        start: u32,
    },
}

/// How many of the open containers a line goes on with, and where the rest of the line begins: the
/// byte, and the column. Columns count from 0, and a tab stands for spaces up to the next stop of
/// four. Where the column lies behind that of the byte, the byte is a tab of which a part is taken.
#[derive(Clone, Copy, PartialEq, Eq, Debug)]
pub struct Matched {
    pub kept: u64,
    pub at: usize,
    pub column: u128,
}
