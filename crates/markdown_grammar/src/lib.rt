//! The meaning of a Markdown text: definitions after CommonMark 0.31.2, with tables after GitHub Flavored Markdown 0.29,
//! their laws, and worked examples.
//!
//! The definitions stand in `specs/`, to be read in the order of `specs/Lib.antt`: the parts of a
//! text, then its blocks, its inlines, its tables, and `html`, the HTML that it means. They say what a text is,
//! by recursion on whole extents and by rewriting. The functions here hold the laws by which a
//! program finds the same from left to right; they do nothing when they run. `HtmlKind` and `Align` are the types that
//! definitions share with programs. `Convert` is what makes the HTML, for those who do not ask how.
#![tactic(auto)]

mod align;
mod convert;
mod html_error;
mod html_kind;
mod inlines;
mod lines;

pub use align::Align;
pub use convert::Convert;
pub use html_error::HtmlError;
pub use html_kind::HtmlKind;
pub use inlines::{emphasis_in_one_pass, texts_from_left_to_right};
pub use lines::{blocks_in_one_walk, lazy_lines_reach_their_paragraph};
