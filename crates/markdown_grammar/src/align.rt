// The alignments of a table's columns.

/// How the cells of a table's column are aligned. GitHub Flavored Markdown 0.29, section 4.10.
#[derive(Clone, Copy, PartialEq, Eq, Debug)]
pub enum Align {
    /// As the page's style has it.
    Plain,
    Left,
    Right,
    Center,
}
