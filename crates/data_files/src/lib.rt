//! Data files: the values of their texts.
#![tactic(auto)]

mod data_error;
mod files;
mod format;
mod json_numbers;
mod json_texts;
mod refusal;
mod tables;

pub use data_error::DataError;
pub use files::{is_data, read_data};
pub use format::Format;
pub use json_texts::read_json;
pub use refusal::Refusal;
pub use tables::{read_csv, read_tsv};
