/// What the words of a command line set besides the command.
#[derive(Clone, Copy, Debug, PartialEq, Eq)]
pub struct Settings {
    /// Drafts are built too.
    pub drafts: bool,
    /// Posts of a later moment are built too.
    pub future: bool,
}
