// The forms that values of a configuration have, by name.

/// What a value of the table has to be; nil stands for one that is absent.
#[derive(Clone, Copy, PartialEq, Eq)]
pub(crate) enum Form {
    Text,
    Texts,
    Collections,
    Scopes,
    Count,
    PagePath,
    Separator,
    Offset,
    Flag,
    Liquid,
    Archives,
}
