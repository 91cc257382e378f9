// The filters that put a text in place of another.
ghost use Rattle.std.specs.Prelude.{◌≡◌, ◌<◌, Ok, IfOk, length, map};
ghost use Rattle.site_base.specs.Plain.{text};
ghost use Rattle.site_base.specs.Values.{value_text};
ghost use Rattle.site_base.specs.View.{plain};
ghost use Rattle.filter_base.specs.Answers.{Makes};
ghost use Rattle.filter_base.specs.Taken.{MakesText};
ghost use Rattle.text_filters.specs.Replacements.{looked_for, replace, replace_first, replaced, replaced_once, replacement_filter};

use filter_base::{Stop, Writer, one, two};
use site_base::{FaultKind, Memory, Text, Value, value_text};
use std::alloc::Global;

/// A filter that puts a text in place of another.
#[derive(Clone, Copy, Debug, PartialEq, Eq)]
pub enum Replacement {
    Remove,
    RemoveFirst,
    Replace,
    ReplaceFirst,
}

/// The input's text with another one where the text of its first argument stands. FilterArgument comes where it takes another
/// number of arguments, or where what is looked for is empty.
pub fn replacement_filter(
    alloc: Global,
    filter: Replacement,
    input: &Value,
    args: &[Value],
) -> Result<Value, Stop>
    ensures { Makes (replacement_filter filter (plain input.now) (map plain args.now)) result }
{
    match filter {
        Replacement::Remove => replace(alloc, input, one(args)?, ""),
        Replacement::RemoveFirst => replace_first(alloc, input, one(args)?, ""),
        Replacement::Replace => {
            let (mark, instead) = two(args)?;
            let instead = value_text(alloc, instead)?;
            replace(alloc, input, mark, instead.as_str())
        }
        Replacement::ReplaceFirst => {
            let (mark, instead) = two(args)?;
            let instead = value_text(alloc, instead)?;
            replace_first(alloc, input, mark, instead.as_str())
        }
    }
}

fn replace(alloc: Global, input: &Value, mark: &Value, instead: &str) -> Result<Value, Stop>
    ensures { Makes (replace (plain input.now) (plain mark.now) instead.now) result }
{
    let mark = looked_for(alloc, mark)?;
    let whole = value_text(alloc, input)?;
    replaced(alloc, mark.as_str(), instead, whole.as_str())
}

fn replace_first(alloc: Global, input: &Value, mark: &Value, instead: &str) -> Result<Value, Stop>
    ensures { Makes (replace_first (plain input.now) (plain mark.now) instead.now) result }
{
    let mark = looked_for(alloc, mark)?;
    let whole = value_text(alloc, input)?;
    let made = replaced_once(alloc, mark.as_str(), instead, whole.as_str())?;
    Ok(Value::Text(made))
}

// The text that is looked for.
fn looked_for(alloc: Global, value: &Value) -> Result<Text, Stop>
    ensures { MakesText (looked_for (value_text (plain value.now))) result }
{
    let mark = value_text(alloc, value)?;
    if mark.is_empty() {
        return Err(Stop::Fault(FaultKind::FilterArgument));
    }
    Ok(mark)
}

fn replaced(alloc: Global, mark: &str, instead: &str, whole: &str) -> Result<Value, Stop>
    requires { 0 < length mark.now }
    ensures { Makes (Ok (text (replaced mark.now instead.now whole.now))) result }
{
    let mut writer = Writer::new(alloc);
    let mut rest = whole;
    while let Some((before, behind)) = rest.split_once(mark) {
        writer.push_both(before, instead)?;
        rest = behind;
    }
    writer.push(rest)?;
    Ok(Value::Text(writer.finish()?))
}

fn replaced_once(alloc: Global, mark: &str, instead: &str, whole: &str) -> Result<Text, Memory>
    requires { 0 < length mark.now }
    ensures { IfOk result (λ made. made ≡ replaced_once mark.now instead.now whole.now) }
{
    match whole.split_once(mark) {
        Some((before, behind)) => {
            let mut made = Text::copy(alloc, before)?;
            made.push_str(instead)?;
            made.push_str(behind)?;
            Ok(made)
        }
        None => Text::copy(alloc, whole),
    }
}
