//! What stands for itself in a line of Markdown: escapes and references, code spans, autolinks, raw
//! HTML, breaks, runs of emphasis marks, open brackets and plain text, each read from its place on.
#![tactic(auto)]

mod autolinks;
mod code;
mod flanking;
mod missing_ends;
mod missing_runs;
mod spans;
mod tags;
mod words;

pub use autolinks::{email, uri};
pub use code::{code_end, code_text};
pub use flanking::{
    Mark, Marks, char_after, char_before, is_unicode_punctuation, is_unicode_white,
};
pub use missing_ends::MissingEnds;
pub use missing_runs::MissingRuns;
pub use spans::{Span, Taken, span_at};
pub use tags::html_tag;
pub use words::words_len;
