// The words of a command line, read.
ghost use Rattle.std.specs.Prelude.{◌≡◌, IfOk, drop, map, nat_eq, codes};
ghost use Rattle.std.specs.List.{list_any, starts_with};
ghost use Rattle.site_words.specs.Words.{Answers, command_order, make_order, numbers_order, words_order};

use crate::faults::{UsageKind, WordsError};
use crate::numbers::number_in;
use crate::options::{Takes, read_options};
use crate::orders::Order;
use site_base::Words;
use std::alloc::{AllocError, Global};

const LARGEST_COUNT: u64 = 1000;

/// What the words of a command line order.
///
/// The error is `Usage` with the first kind of what is wrong with the words, or `Memory` where there
/// is no memory to read them.
pub fn read_words(alloc: Global, words: &Words) -> Result<Order, WordsError>
    ensures { Answers (words_order words.now) result }
{
    if words.is_empty() {
        return Err(WordsError::Usage(UsageKind::Missing));
    }
    match words_after_first(alloc, words) {
        Ok(rest) => read_command(alloc, words.at(0), rest.as_slice()),
        Err(_) => Err(WordsError::Memory),
    }
}

fn words_after_first(alloc: Global, words: &Words) -> Result<Vec<&str>, AllocError>
    ensures { IfOk result (λ rest. map (λ word. word.now) rest.items ≡ drop 1 words.now) }
{
    let mut rest = Vec::new(alloc);
    for place in 1..words.len() {
        rest.push(words.at(place))?;
    }
    Ok(rest)
}

// What a command and the words after it order.
fn read_command<'a>(alloc: Global, name: &str, words: &'a [&'a str]) -> Result<Order, WordsError>
    ensures { Answers (command_order name.now (map (λ word. word.now) words.entry.now)) result }
{
    if name == "build" {
        Ok(Order::Build(read_options(alloc, words, Takes::Jobs)?))
    } else if name == "session" {
        Ok(Order::Session(read_options(alloc, words, Takes::Jobs)?))
    } else if name == "once" {
        Ok(Order::Once(read_options(alloc, words, Takes::Settings)?.settings))
    } else if name == "check" {
        Ok(Order::Check(read_options(alloc, words, Takes::Settings)?.settings))
    } else if name == "make" {
        read_make(words)
    } else {
        Err(WordsError::Usage(UsageKind::Command))
    }
}

// The words after `make`.
fn read_make(words: &[&str]) -> Result<Order, WordsError>
    ensures { Answers (make_order (map (λ word. word.now) words.entry.now)) result }
{
    if has_hyphen(words) {
        return Err(WordsError::Usage(UsageKind::Option));
    }
    read_numbers(words)
}

// Whether a word looks like an option.
fn has_hyphen(words: &[&str]) -> bool
    ensures { result ≡ list_any (λ word. starts_with nat_eq word (codes "-")) (map (λ word. word.now) words.entry.now) }
{
    words.iter().any(|word| begins_with_hyphen(word))
}

fn begins_with_hyphen(word: &str) -> bool
    ensures { result ≡ starts_with nat_eq word.now (codes "-") }
{
    word.as_bytes().starts_with(b"-")
}

fn read_numbers(words: &[&str]) -> Result<Order, WordsError>
    ensures { Answers (numbers_order (map (λ word. word.now) words.entry.now)) result }
{
    let [number, count] = words else {
        return Err(WordsError::Usage(UsageKind::Number));
    };
    match (
        number_in(number, 0, u64::MAX),
        number_in(count, 1, LARGEST_COUNT),
    ) {
        (Some(number), Some(count)) => Ok(Order::Make(number, count as u32)),
        _ => Err(WordsError::Usage(UsageKind::Number)),
    }
}
