//! The tables of Markdown, in the texts of paragraphs: row by row and cell by cell.
#![tactic(auto)]

mod cells;
mod delimiters;
mod escapes;
mod found;
mod rows;
mod table;
mod white;

pub use cells::Cells;
pub use escapes::{has_pipe, unescaped};
pub use found::{TableText, find_table};
pub use rows::Rows;
pub use table::{Table, read_table};
