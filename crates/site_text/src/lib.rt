//! What every reader of text needs: classes of ASCII bytes, the runs of them that a text begins with,
//! words at its front, extensions of files, the numbers that digits spell, and the bytes that stay in addresses.
#![tactic(auto)]

mod bytes;
mod classes;
mod extensions;
mod fronts;
mod numbers;
mod urls;

pub use bytes::{
    is_alnum, is_letter, is_name_start, is_one_of, is_punctuation, is_space, is_white, lower,
};
pub use classes::{Class, class_len, class_run};
pub use extensions::is_listed;
pub use fronts::{begins, begins_in_lower_case, byte_at, starts_with_byte};
pub use numbers::number;
pub use urls::{hex_digit, push_percent, stands_in_urls};
