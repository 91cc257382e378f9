// Blocks that stand side by side, as they are printed.

/// What is printed behind the blocks of a level.
#[derive(Clone, Copy, Debug, PartialEq, Eq)]
pub(crate) enum Closing {
    /// Nothing behind the whole text.
    Text,
    Quote,
    /// A list, with the last character of its items' marks.
    List { mark: char },
    Item,
}

/// A level of blocks: the place of the node behind them, whether paragraphs are printed without tags, and what is printed behind
/// the blocks.
#[derive(Clone, Copy, Debug, PartialEq, Eq)]
pub(crate) struct Level {
    /// Wide enough for the sum of any place and any number of nodes.
    pub(crate) end: u128,
    pub(crate) is_tight: bool,
    pub(crate) closing: Closing,
}
