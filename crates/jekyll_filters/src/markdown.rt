// Markdown as HTML.
ghost use Rattle.std.specs.Prelude.{Ok, map};
ghost use Rattle.site_base.specs.Plain.{text as plain_text};
ghost use Rattle.site_base.specs.View.{plain};
ghost use Rattle.markdown_grammar.specs.Html.{html};
ghost use Rattle.filter_base.specs.Answers.{Makes};
ghost use Rattle.jekyll_filters.specs.Markdown.{markdownify};

use filter_base::{MOST_TEXT, Stop, no_more};
use markdown_grammar::{Convert, HtmlError};
use site_base::{FaultKind, Value, value_text};
use std::alloc::Global;

/// The HTML of the input's text. OutputTooLong comes where it is longer than a text may be.
pub(crate) fn markdownify<C: Convert>(
    alloc: Global,
    input: &Value,
    args: &[Value],
    convert: &C,
) -> Result<Value, Stop>
    ensures { Makes (markdownify (plain input.now) (map plain args.now)) result }
{
    no_more(args)?;
    let text = value_text(alloc, input)?;
    converted(alloc, text.as_str(), convert)
}

fn converted<C: Convert>(alloc: Global, text: &str, convert: &C) -> Result<Value, Stop>
    ensures { Makes (Ok (plain_text (html text.now))) result }
{
    match convert.html(alloc, text, MOST_TEXT as u64) {
        Ok(html) => Ok(Value::Text(html)),
        Err(HtmlError::TooLong) => Err(Stop::Fault(FaultKind::OutputTooLong)),
        Err(HtmlError::Memory) => Err(Stop::Memory),
    }
}
