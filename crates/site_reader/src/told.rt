// What tells one configuration from another.
use site_base::SharedBytes;

/// What tells a configuration from others: its bytes, where there are some, and whether drafts are built.
#[derive(Clone, Copy)]
pub(crate) struct Told<'a> {
    pub(crate) bytes: Option<&'a SharedBytes>,
    pub(crate) drafts: bool,
}
