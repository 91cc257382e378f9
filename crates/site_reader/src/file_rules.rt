// What holds for all files of a reading.
use crate::told::Told;
use site_items::Rules;

/// What holds for all files of a reading: the rules for its items, and what tells their configuration.
#[derive(Clone, Copy)]
pub(crate) struct FileRules<'a> {
    pub(crate) rules: Rules<'a>,
    pub(crate) told: Told<'a>,
}
