// The pieces of a template's text.

/// What a piece is.
#[derive(Clone, Copy, Debug, PartialEq, Eq)]
pub enum PieceKind {
    Text,
    /// From `{{` to `}}`.
    Output,
    /// From `{%` to `%}`.
    Tag,
}

/// A part of a text, by the places of its bytes.
#[derive(Clone, Copy, Debug, PartialEq, Eq)]
pub struct Span {
    pub start: usize,
    pub end: usize,
}

/// A piece of a template's text.
#[derive(Clone, Copy, Debug, PartialEq, Eq)]
pub struct Piece {
    pub kind: PieceKind,
    /// The whole piece. The spans of a text's pieces follow one another and cover the text.
    pub span: Span,
    /// Of a text what is written, so without the white space that a neighbour's dash strips; of an output or a tag what
    /// stands between its marks and their dashes.
    pub inner: Span,
    /// The line in which the piece starts, counted from 1.
    pub line: u64,
}

/// What stands at the front of a text, with its length in bytes.
#[derive(Clone, Copy, Debug, PartialEq, Eq)]
pub enum Front {
    Text(usize),
    Output(usize),
    Tag(usize),
    /// A tag `raw`, and the text up to its `endraw`.
    Raw(usize, usize),
    /// A tag `comment`, and what is dropped after it.
    Comment(usize, usize),
    /// An output, a tag or raw text without its end.
    Unclosed,
}
