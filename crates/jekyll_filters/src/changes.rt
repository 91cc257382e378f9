// The filters that change a text, without arguments.
ghost use Rattle.std.specs.Prelude.{◌≡◌, map, IfOk};
ghost use Rattle.site_base.specs.View.{plain};
ghost use Rattle.filter_base.specs.Answers.{Makes};
ghost use Rattle.jekyll_filters.specs.Changes.{change_filter, changed};

use filter_base::{Stop, no_more, without_end, without_front};
use permalinks::slugify;
use site_base::{Memory, Text, Value, value_text};
use std::alloc::Global;
use text_filters::{Mark, UrlCode, marked, percent_encoded};

/// A filter that changes a text, without arguments.
#[derive(Clone, Copy, Debug, PartialEq, Eq)]
pub enum TextChange {
    CgiEscape,
    NormalizeWhitespace,
    Slugify,
    UriEscape,
    XmlEscape,
}

/// The text of the input, changed.
pub(crate) fn change_filter(
    alloc: Global,
    change: TextChange,
    input: &Value,
    args: &[Value],
) -> Result<Value, Stop>
    ensures { Makes (change_filter change (plain input.now) (map plain args.now)) result }
{
    no_more(args)?;
    let text = value_text(alloc, input)?;
    Ok(Value::Text(changed(alloc, change, text.as_str())?))
}

fn changed(alloc: Global, change: TextChange, text: &str) -> Result<Text, Memory>
    ensures { IfOk result (λ made. made ≡ changed change text.now) }
{
    match change {
        TextChange::CgiEscape => Text::from_string(percent_encoded(alloc, UrlCode::Query, text)?),
        TextChange::NormalizeWhitespace => {
            let stripped = without_end(without_front(text));
            Text::from_string(marked(alloc, Mark::WhiteSpace, stripped)?)
        }
        TextChange::Slugify => slugify(alloc, text),
        TextChange::UriEscape => Text::from_string(percent_encoded(alloc, UrlCode::Address, text)?),
        TextChange::XmlEscape => Text::from_string(marked(alloc, Mark::EscapeXml, text)?),
    }
}
