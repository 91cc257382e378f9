// Limits that several crates cite.

/// The most bytes of a file.
pub const MOST_BYTES: usize = 16_777_216;

/// The last moment, in seconds since 1970: 9999-12-30 23:59:59 UTC, so that a year has four digits at every offset.
pub const LAST_MOMENT: i64 = 253_402_214_399;
