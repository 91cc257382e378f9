// The marks of expressions and tags.

/// How two operands are compared.
#[derive(Clone, Copy, Debug, PartialEq, Eq)]
pub enum Comparison {
    /// `==`
    Equal,
    /// `!=` and `<>`
    Unequal,
    /// `<`
    Less,
    /// `>`
    Greater,
    /// `<=`
    AtMost,
    /// `>=`
    AtLeast,
    /// `contains`
    Contains,
}

/// How a test is joined to the rest of a condition.
#[derive(Clone, Copy, Debug, PartialEq, Eq)]
pub enum Joint {
    And,
    Or,
}

/// A mark in an expression or a tag.
#[derive(Clone, Copy, Debug, PartialEq, Eq)]
pub enum Mark {
    /// `.`
    Dot,
    /// `..`
    To,
    /// `[`
    OpenBracket,
    /// `]`
    CloseBracket,
    /// `(`
    OpenRange,
    /// `)`
    CloseRange,
    /// `|`
    Bar,
    /// `:`
    Colon,
    /// `,`
    Comma,
    /// `=`
    Assign,
    Compare(Comparison),
}
