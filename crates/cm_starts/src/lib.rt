//! What a line of Markdown starts, told by where it stands, its indent, and its text behind that: quotes,
//! headings, fenced code, HTML, thematic breaks, list items and indented code.
#![tactic(auto)]

mod breaks;
mod fences;
mod heading_level;
mod headings;
mod html;
mod items;
mod kinds;
mod list_marks;
mod names;
mod starts;
mod tags;
mod texts;

pub use breaks::is_thematic_break;
pub use fences::{closes_fence, fence};
pub use heading_level::HeadingLevel;
pub use headings::{heading, underline};
pub use html::html_block;
pub use items::list_mark;
pub use kinds::{Place, Start};
pub use list_marks::ListMark;
pub use starts::line_start;
pub use tags::{closing_tag, open_tag};
pub use texts::{is_blank, run, trim};
