// The filters of texts that take arguments.
ghost use Rattle.std.specs.Prelude.{map};
ghost use Rattle.site_base.specs.View.{plain};
ghost use Rattle.filter_base.specs.Answers.{Makes};
ghost use Rattle.text_filters.specs.Texts.{appended, text_filter};

use filter_base::{Stop, one};
use site_base::{Value, value_text};
use std::alloc::Global;

/// A filter of texts that takes arguments.
#[derive(Clone, Copy, Debug, PartialEq, Eq)]
pub enum TextFilter {
    Append,
    Prepend,
}

/// The input's text before or behind that of the one argument. FilterArgument comes where there is not one.
pub fn text_filter(
    alloc: Global,
    filter: TextFilter,
    input: &Value,
    args: &[Value],
) -> Result<Value, Stop>
    ensures { Makes (text_filter filter (plain input.now) (map plain args.now)) result }
{
    match filter {
        TextFilter::Append => appended(alloc, input, one(args)?),
        TextFilter::Prepend => appended(alloc, one(args)?, input),
    }
}

// The text of one value behind that of another.
fn appended(alloc: Global, first: &Value, second: &Value) -> Result<Value, Stop>
    ensures { Makes (appended (plain first.now) (plain second.now)) result }
{
    let mut made = value_text(alloc, first)?;
    let behind = value_text(alloc, second)?;
    made.push_str(behind.as_str())?;
    Ok(Value::Text(made))
}
