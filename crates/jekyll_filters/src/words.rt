// The words of a text.
ghost use Rattle.std.specs.Prelude.{◌≡◌, length, map};
ghost use Rattle.site_base.specs.View.{plain};
ghost use Rattle.filter_base.specs.Answers.{Makes};
ghost use Rattle.text_filters.specs.Words.{words};
ghost use Rattle.jekyll_filters.specs.Words.{number_of_words};

use filter_base::{Stop, fit, is_white, no_more};
use site_base::{Value, value_text};
use std::alloc::Global;

/// How many words the text of the input has.
pub(crate) fn number_of_words(alloc: Global, input: &Value, args: &[Value]) -> Result<Value, Stop>
    ensures { Makes (number_of_words (plain input.now) (map plain args.now)) result }
{
    no_more(args)?;
    let text = value_text(alloc, input)?;
    let count = word_count(text.as_bytes());
    Ok(Value::Int(fit(count as i128)?))
}

fn word_count(text: &[u8]) -> usize
    ensures { result ≡ length (words text.now) }
{
    text.split(|byte| is_white(*byte))
        .filter(|word| !word.is_empty())
        .count()
}
