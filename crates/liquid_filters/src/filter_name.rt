// The names of the filters.
ghost use Rattle.std.specs.Prelude.{◌≡◌, option_map};
ghost use Rattle.liquid_filters.specs.Table.{filter_named, meaning_of};

use crate::numbers::NumberFilter;
use filter_base::ListFilter;
use list_filters::{Selection, Sorting};
use text_filters::{Replacement, Span, TextChange, TextFilter};

/// A filter, by the family that it belongs to.
#[derive(Clone, Copy, Debug, PartialEq, Eq)]
pub enum FilterName {
    Change(TextChange),
    Date,
    List(ListFilter),
    Number(NumberFilter),
    Replacement(Replacement),
    Select(Selection),
    Sort(Sorting),
    Span(Span),
    Split,
    Text(TextFilter),
    TruncateWords,
    UrlDecode,
}

// The table.
const ROWS: [(&str, FilterName); 48] = [
    ("abs", FilterName::Number(NumberFilter::Abs)),
    ("append", FilterName::Text(TextFilter::Append)),
    ("at_least", FilterName::Number(NumberFilter::AtLeast)),
    ("at_most", FilterName::Number(NumberFilter::AtMost)),
    ("capitalize", FilterName::Change(TextChange::Capitalize)),
    ("ceil", FilterName::Number(NumberFilter::Ceil)),
    ("compact", FilterName::Select(Selection::Compact)),
    ("concat", FilterName::List(ListFilter::Concat)),
    ("date", FilterName::Date),
    ("default", FilterName::List(ListFilter::Default)),
    ("divided_by", FilterName::Number(NumberFilter::DividedBy)),
    ("downcase", FilterName::Change(TextChange::Downcase)),
    ("escape", FilterName::Change(TextChange::Escape)),
    ("escape_once", FilterName::Change(TextChange::EscapeOnce)),
    ("first", FilterName::List(ListFilter::First)),
    ("floor", FilterName::Number(NumberFilter::Floor)),
    ("join", FilterName::List(ListFilter::Join)),
    ("last", FilterName::List(ListFilter::Last)),
    ("lstrip", FilterName::Change(TextChange::Lstrip)),
    ("map", FilterName::Select(Selection::Map)),
    ("minus", FilterName::Number(NumberFilter::Minus)),
    ("modulo", FilterName::Number(NumberFilter::Modulo)),
    ("newline_to_br", FilterName::Change(TextChange::NewlineToBr)),
    ("plus", FilterName::Number(NumberFilter::Plus)),
    ("prepend", FilterName::Text(TextFilter::Prepend)),
    ("remove", FilterName::Replacement(Replacement::Remove)),
    (
        "remove_first",
        FilterName::Replacement(Replacement::RemoveFirst),
    ),
    ("replace", FilterName::Replacement(Replacement::Replace)),
    (
        "replace_first",
        FilterName::Replacement(Replacement::ReplaceFirst),
    ),
    ("reverse", FilterName::List(ListFilter::Reverse)),
    ("round", FilterName::Number(NumberFilter::Round)),
    ("rstrip", FilterName::Change(TextChange::Rstrip)),
    ("size", FilterName::List(ListFilter::Size)),
    ("slice", FilterName::Span(Span::Slice)),
    ("sort", FilterName::Sort(Sorting::Sort)),
    ("sort_natural", FilterName::Sort(Sorting::SortNatural)),
    ("split", FilterName::Split),
    ("strip", FilterName::Change(TextChange::Strip)),
    ("strip_html", FilterName::Change(TextChange::StripHtml)),
    (
        "strip_newlines",
        FilterName::Change(TextChange::StripNewlines),
    ),
    ("times", FilterName::Number(NumberFilter::Times)),
    ("truncate", FilterName::Span(Span::Truncate)),
    ("truncatewords", FilterName::TruncateWords),
    ("uniq", FilterName::Select(Selection::Uniq)),
    ("upcase", FilterName::Change(TextChange::Upcase)),
    ("url_decode", FilterName::UrlDecode),
    ("url_encode", FilterName::Change(TextChange::UrlEncode)),
    ("where", FilterName::Select(Selection::Where)),
];

impl FilterName {
    /// The filter of this name; `None` exactly where there is none.
    pub fn named(name: &str) -> Option<FilterName>
        ensures { option_map meaning_of result ≡ filter_named name.now }
    {
        match ROWS.iter().find(|row| name == row.0) {
            Some(row) => Some(row.1),
            None => None,
        }
    }
}
