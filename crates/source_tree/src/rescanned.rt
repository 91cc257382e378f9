// What a scan found.

/// What a scan found, beside what was held before it.
#[derive(Clone, Copy)]
pub struct Rescanned {
    /// How many files the source has.
    pub number: u32,
    /// Whether these are the files that were held before.
    pub is_same: bool,
}
