//! Markdown as HTML.
#![tactic(auto)]

mod code_html;
mod convert;
mod escape;
mod escaping;
mod inline_html;
mod inline_place;
mod leaf_html;
mod level;
mod list_html;
mod printer;
mod table_html;
mod urls;
mod writer;

pub use convert::CommonMark;
pub use markdown_grammar::{Convert, HtmlError};
pub use printer::to_html;
