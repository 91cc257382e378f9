// The filters that change a text, without arguments.
ghost use Rattle.std.specs.Prelude.{◌≡◌, ◌++◌, map, IfOk, OnOk};
ghost use Rattle.std.specs.String.{string_bytes};
ghost use Rattle.site_base.specs.View.{plain};
ghost use Rattle.filter_base.specs.Answers.{Makes};
ghost use Rattle.text_filters.specs.Changes.{change_filter, capitalized, changed};

use crate::marks::{Mark, marked};
use crate::stretches::stripped;
use crate::urls::{UrlCode, percent_encoded};
use filter_base::{Stop, no_more, without_end, without_front};
use site_base::{Memory, Text, Value, value_text};
use std::alloc::{AllocError, Global};

/// A filter that changes a text, without arguments.
#[derive(Clone, Copy, Debug, PartialEq, Eq)]
pub enum TextChange {
    Capitalize,
    Downcase,
    Escape,
    EscapeOnce,
    Lstrip,
    NewlineToBr,
    Rstrip,
    Strip,
    StripHtml,
    StripNewlines,
    Upcase,
    UrlEncode,
}

/// The text of the input, changed. FilterArgument comes where there is an argument.
pub fn change_filter(
    alloc: Global,
    change: TextChange,
    input: &Value,
    args: &[Value],
) -> Result<Value, Stop>
    ensures { Makes (change_filter change (plain input.now) (map plain args.now)) result }
{
    no_more(args)?;
    let text = value_text(alloc, input)?;
    Ok(Value::Text(changed(alloc, change, text.as_str())?))
}

/// What a change makes of a text.
pub fn changed(alloc: Global, change: TextChange, text: &str) -> Result<Text, Memory>
    ensures { IfOk result (λ made. made ≡ changed change text.now) }
{
    match change {
        TextChange::Capitalize => Text::from_string(capitalized(alloc, text)?),
        TextChange::Downcase => Text::from_string(text.to_ascii_lowercase(alloc)?),
        TextChange::Escape => Text::from_string(marked(alloc, Mark::Escape, text)?),
        TextChange::EscapeOnce => Text::from_string(marked(alloc, Mark::EscapeOnce, text)?),
        TextChange::Lstrip => Text::copy(alloc, without_front(text)),
        TextChange::NewlineToBr => Text::from_string(marked(alloc, Mark::LineBreak, text)?),
        TextChange::Rstrip => Text::copy(alloc, without_end(text)),
        TextChange::Strip => Text::copy(alloc, without_end(without_front(text))),
        TextChange::StripHtml => Text::from_string(stripped(alloc, text)?),
        TextChange::StripNewlines => Text::from_string(marked(alloc, Mark::LineEnd, text)?),
        TextChange::Upcase => Text::from_string(text.to_ascii_uppercase(alloc)?),
        TextChange::UrlEncode => Text::from_string(percent_encoded(alloc, UrlCode::Query, text)?),
    }
}

fn capitalized(alloc: Global, text: &str) -> Result<String, AllocError>
    ensures { IfOk result (λ made. string_bytes made ≡ capitalized text.now) }
{
    let mut made = String::new(alloc);
    push_capitalized(alloc, &mut made, text)?;
    Ok(made)
}

fn push_capitalized(alloc: Global, made: &mut String, text: &str) -> Result<(), AllocError>
    ensures { OnOk result (string_bytes made.new ≡ string_bytes made.old ++ capitalized text.now) }
{
    match text.split_at_checked(1) {
        Some((first, rest)) => {
            made.push_str(first.to_ascii_uppercase(alloc)?.as_str())?;
            made.push_str(rest.to_ascii_lowercase(alloc)?.as_str())
        }
        // It is empty, or begins with a character that is no ASCII one.
        None => made.push_str(text.to_ascii_lowercase(alloc)?.as_str()),
    }
}
