// Markdown as CommonMark has it.
use crate::printer::to_html;
use markdown_grammar::{Convert, HtmlError};
use site_base::Text;
use std::alloc::Global;

/// Markdown as CommonMark 0.31.2 has it, by `to_html`.
#[derive(Clone, Copy, Debug, PartialEq, Eq)]
pub struct CommonMark;

impl Convert for CommonMark {
    fn html(&self, alloc: Global, text: &str, most: u64) -> Result<Text, HtmlError> {
        to_html(alloc, text, most)
    }
}
