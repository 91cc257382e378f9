//! The filters of Liquid on texts: changes, escapes, replacements, pieces, words, and parts, which `slice` takes of lists too.
#![tactic(auto)]

mod changes;
mod characters;
mod marks;
mod replacements;
mod spans;
mod splitting;
mod stretches;
mod texts;
mod url_texts;
mod urls;
mod words;

pub use changes::{TextChange, change_filter, changed};
pub use marks::{Mark, marked};
pub use replacements::{Replacement, replacement_filter};
pub use spans::{Span, span_filter};
pub use splitting::split_filter;
pub use texts::{TextFilter, text_filter};
pub use url_texts::url_decode;
pub use urls::{UrlCode, percent_encoded};
pub use words::words_filter;
