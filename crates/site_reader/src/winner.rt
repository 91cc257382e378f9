// Outputs by their places.

/// The output that wins a path.
#[derive(Clone, Copy, Debug, PartialEq, Eq)]
pub enum Winner {
    /// A page, generated ones among them, by its place in the items.
    Page(u64),
    /// A copied file, by its place in the copied files.
    Copy(u64),
    /// A document of a collection, by its place in the items.
    Document(u64),
}

/// Kinds of items, by whose outputs win.
#[derive(Clone, Copy, Debug, PartialEq, Eq)]
pub(crate) enum Kind {
    Pages,
    Documents,
}
