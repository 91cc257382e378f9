// How nodes end.

/// Whether the nodes that follow are evaluated.
#[derive(Clone, Copy, Debug, PartialEq, Eq)]
pub enum Signal {
    /// They are.
    Next,
    /// The innermost loop ends.
    Break,
    /// The innermost loop goes on with its next element.
    Continue,
}
