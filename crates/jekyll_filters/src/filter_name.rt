// The names of the filters.
ghost use Rattle.std.specs.Prelude.{◌≡◌, option_map};
ghost use Rattle.jekyll_filters.specs.Table.{filter_named, meaning_of};

use crate::addresses::AddressFilter;
use crate::changes::TextChange;
use crate::dates::DateFilter;
use crate::lists::ListFilter;

/// A filter, by the family that it belongs to.
#[derive(Clone, Copy, Debug, PartialEq, Eq)]
pub enum FilterName {
    Address(AddressFilter),
    Change(TextChange),
    Date(DateFilter),
    GroupBy,
    Jsonify,
    List(ListFilter),
    Markdownify,
    NumberOfWords,
}

// The table.
const ROWS: [(&str, FilterName); 20] = [
    (
        "absolute_url",
        FilterName::Address(AddressFilter::AbsoluteUrl),
    ),
    (
        "array_to_sentence_string",
        FilterName::List(ListFilter::ArrayToSentenceString),
    ),
    ("cgi_escape", FilterName::Change(TextChange::CgiEscape)),
    (
        "date_to_long_string",
        FilterName::Date(DateFilter::DateToLongString),
    ),
    ("date_to_rfc822", FilterName::Date(DateFilter::DateToRfc822)),
    ("date_to_string", FilterName::Date(DateFilter::DateToString)),
    (
        "date_to_xmlschema",
        FilterName::Date(DateFilter::DateToXmlschema),
    ),
    ("group_by", FilterName::GroupBy),
    ("jsonify", FilterName::Jsonify),
    ("markdownify", FilterName::Markdownify),
    (
        "normalize_whitespace",
        FilterName::Change(TextChange::NormalizeWhitespace),
    ),
    ("number_of_words", FilterName::NumberOfWords),
    ("pop", FilterName::List(ListFilter::Pop)),
    ("push", FilterName::List(ListFilter::Push)),
    (
        "relative_url",
        FilterName::Address(AddressFilter::RelativeUrl),
    ),
    ("shift", FilterName::List(ListFilter::Shift)),
    ("slugify", FilterName::Change(TextChange::Slugify)),
    ("unshift", FilterName::List(ListFilter::Unshift)),
    ("uri_escape", FilterName::Change(TextChange::UriEscape)),
    ("xml_escape", FilterName::Change(TextChange::XmlEscape)),
];

impl FilterName {
    /// The filter of this name; `None` exactly where there is none.
    pub fn named(name: &str) -> Option<FilterName>
        ensures { option_map meaning_of result ≡ filter_named name.now }
    {
        match ROWS.iter().find(|row| name == row.0) {
            Some(row) => Some(row.1),
            None => None,
        }
    }
}
