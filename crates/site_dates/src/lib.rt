//! Dates: texts of dates and offsets read, and moments written by a pattern.
#![tactic(auto)]

mod day;
mod digits;
mod directive;
mod format;
mod local;
mod moment;
mod names;
mod offset;
mod shape;

pub use format::{FormatError, format_moment};
pub use moment::{FIRST_MOMENT, if_moment, read_moment};
pub use offset::read_offset;
