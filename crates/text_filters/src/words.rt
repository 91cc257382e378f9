// The words of a text, and the filter that keeps some of them.
ghost use Rattle.std.specs.Prelude.{◌≡◌, ◌≤◌, ◌<◌, ◌∷◌, [], not, IfOk, IfSome, MatchOption, length, map};
ghost use Rattle.std.specs.List.{prefix_len};
ghost use Rattle.site_base.specs.View.{plain};
ghost use Rattle.filter_base.specs.Answers.{Makes, given};
ghost use Rattle.filter_base.specs.White.{is_white};
ghost use Rattle.text_filters.specs.Words.{truncate_words, truncated_words, word_limit, words, words_filter};

use crate::spans::{number_or, text_or};
use filter_base::{Stop, is_white, up_to_two, without_front};
use site_base::{Memory, Text, Value, value_text};
use std::alloc::Global;

/// The first words of the input's text, as many as its first argument says, and an ending. FilterArgument comes where there are
/// more than two arguments; a first one that counts as no number has the fault of `num`.
pub fn words_filter(alloc: Global, input: &Value, args: &[Value]) -> Result<Value, Stop>
    ensures { Makes (words_filter (plain input.now) (map plain args.now)) result }
{
    let (number, ending) = up_to_two(args)?;
    truncate_words(alloc, input, number, ending)
}

fn truncate_words(
    alloc: Global,
    input: &Value,
    number: Option<&Value>,
    ending: Option<&Value>,
) -> Result<Value, Stop>
    ensures { Makes (truncate_words (plain input.now) (given number.entry, given ending.entry)) result }
{
    let number = number_or(15, number)?;
    let ending = text_or(alloc, "...", ending)?;
    let whole = value_text(alloc, input)?;
    let limit = word_limit(number);
    let made = truncated_words(alloc, limit, ending.as_str(), whole.as_str())?;
    Ok(Value::Text(made))
}

fn word_limit(number: i64) -> u64
    ensures { result ≡ word_limit number }
{
    if number < 0 {
        1
    } else {
        number.unsigned_abs().max(1)
    }
}

fn truncated_words(alloc: Global, limit: u64, ending: &str, whole: &str) -> Result<Text, Memory>
    ensures { IfOk result (λ made. made ≡ truncated_words limit ending.now whole.now) }
{
    let mut made = Text::new(alloc);
    let mut before = "";
    let mut rest = whole;
    let mut left = limit;
    while left > 0 {
        match cut_word(rest) {
            Some((word, behind)) => {
                made.push_str(before)?;
                made.push_str(word)?;
                before = " ";
                rest = behind;
                left -= 1;
            }
            None => return Text::copy(alloc, whole),
        }
    }
    made.push_str(ending)?;
    Ok(made)
}

/// The first word of a text, and what follows it; `None` where there is none.
pub(crate) fn cut_word(text: &str) -> Option<(&str, &str)>
    ensures words { MatchOption result (words text.now ≡ []) (λ cut. words text.now ≡ cut.0.now ∷ words cut.1.now) }
    ensures shorter { IfSome result (λ cut. length cut.1.now < length text.now) }
{
    let begun = without_front(text);
    if begun.is_empty() {
        return None;
    }
    let len = word_len(begun.as_bytes());
    Some((&begun[..len], &begun[len..]))
}

fn word_len(text: &[u8]) -> usize
    ensures value { result ≡ prefix_len (λ byte. not (is_white byte)) text.now }
    ensures within { result ≤ length text.now }
{
    text.iter().take_while(|byte| !is_white(**byte)).count()
}
