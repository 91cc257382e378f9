// What tags are, by their names.
use crate::BlockName;

/// A tag that holds nothing else, by its name.
#[derive(Clone, Copy, Debug, PartialEq, Eq)]
pub enum LeafName {
    Assign,
    Cycle,
    Increment,
    Decrement,
    Break,
    Continue,
    Include,
    IncludeRelative,
    Link,
    PostUrl,
}

/// A tag that starts the next part of a block, by its name.
#[derive(Clone, Copy, Debug, PartialEq, Eq)]
pub enum PartName {
    Else,
    ElsIf,
    When,
}

/// What a tag is, by its name.
#[derive(Clone, Copy, Debug, PartialEq, Eq)]
pub enum TagKind {
    Opens(BlockName),
    Ends(BlockName),
    Turns(PartName),
    Leaf(LeafName),
}
