// The filter that cuts a text into a list.
ghost use Rattle.std.specs.Prelude.{◌≡◌, ◌<◌, ◌≤◌, ◌+◌, ◌^◌, ◌++◌, ◌∷◌, [], ℕ, IfOk, IfSome, MatchOption, OnOk, length, map};
ghost use Rattle.std.specs.Char.{encode_utf8};
ghost use Rattle.std.specs.Str.{chars};
ghost use Rattle.site_base.specs.Plain.{item, no_items, onto, text};
ghost use Rattle.site_base.specs.Values.{value_text};
ghost use Rattle.site_base.specs.View.{plain};
ghost use Rattle.filter_base.specs.Answers.{Makes};
ghost use Rattle.text_filters.specs.Parts.{parts};
ghost use Rattle.text_filters.specs.Splitting.{Texts, characters, empties, pieces, split_filter, text_items, without_empty_end};
ghost use Rattle.text_filters.specs.Words.{words};

use crate::words::cut_word;
use filter_base::{Stop, one};
use site_base::{List, Memory, Text, Value, value_text};
use std::alloc::Global;

/// The pieces of the input's text around the text of the one argument. FilterArgument comes where there is not one.
pub fn split_filter(alloc: Global, input: &Value, args: &[Value]) -> Result<Value, Stop>
    ensures { Makes (split_filter (plain input.now) (map plain args.now)) result }
{
    let mark = one(args)?;
    Ok(Value::List(split(alloc, mark, input)?))
}

fn split(alloc: Global, mark: &Value, input: &Value) -> Result<List, Memory>
    ensures { IfOk result (λ list. list ≡ text_items (pieces (value_text (plain mark.now)) (value_text (plain input.now)))) }
{
    let mark = value_text(alloc, mark)?;
    let whole = value_text(alloc, input)?;
    pieces(alloc, mark.as_str(), whole.as_str())
}

fn pieces(alloc: Global, mark: &str, whole: &str) -> Result<List, Memory>
    ensures { IfOk result (λ list. list ≡ text_items (pieces mark.now whole.now)) }
{
    if mark == " " {
        return words(alloc, whole);
    }
    if mark.is_empty() {
        return characters(alloc, whole);
    }
    between(alloc, mark, whole)
}

fn words(alloc: Global, whole: &str) -> Result<List, Memory>
    ensures { IfOk result (λ list. list ≡ text_items (words whole.now)) }
{
    let mut list = List::new(alloc);
    let mut rest = whole;
    while let Some((word, behind)) = cut_word(rest) {
        push_text(alloc, &mut list, word)?;
        rest = behind;
    }
    Ok(list)
}

fn push_text(alloc: Global, list: &mut List, piece: &str) -> Result<(), Memory>
    ensures { OnOk result (list.new ≡ onto list.old (item (text piece.now) no_items)) }
{
    list.push(Value::Text(Text::copy(alloc, piece)?))
}

fn characters(alloc: Global, whole: &str) -> Result<List, Memory>
    ensures { IfOk result (λ list. list ≡ text_items (characters whole.now)) }
{
    let mut list = List::new(alloc);
    let mut rest = whole;
    while let Some((first, behind)) = cut_char(rest) {
        list.push(Value::Text(char_text(alloc, first)?))?;
        rest = behind;
    }
    Ok(list)
}

// The first character of a text, and what follows it.
fn cut_char(text: &str) -> Option<(char, &str)>
    ensures characters { MatchOption result (chars text.now ≡ []) (λ cut. chars text.now ≡ cut.0 ∷ chars cut.1.now) }
    ensures shorter { IfSome result (λ cut. length cut.1.now < length text.now) }
{
    let mut characters = text.chars();
    let first = characters.next()?;
    Some((first, characters.as_str()))
}

fn char_text(alloc: Global, character: char) -> Result<Text, Memory>
    ensures { IfOk result (λ made. made ≡ encode_utf8 character) }
{
    let mut made = String::new(alloc);
    made.push(character)?;
    Text::from_string(made)
}

fn between(alloc: Global, mark: &str, whole: &str) -> Result<List, Memory>
    requires { 0 < length mark.now }
    ensures { IfOk result (λ list. list ≡ text_items (without_empty_end (parts mark.now whole.now))) }
{
    let mut list = List::new(alloc);
    let mut rest = whole;
    let mut waiting = 0;
    while let Some((part, behind)) = rest.split_once(mark) {
        waiting = push_part(alloc, &mut list, waiting, part)?;
        rest = behind;
    }
    push_last(alloc, &mut list, waiting, rest)?;
    Ok(list)
}

// Adds a part behind the empty ones that wait for it, or has it wait with them. How many wait then.
fn push_part(alloc: Global, list: &mut List, waiting: u64, part: &str) -> Result<u64, Memory>
    requires { waiting + 1 < 2 ^ 64 }
    ensures parts { IfOk result (λ more. (others : Texts) → onto list.new (text_items (without_empty_end (empties more ++ others))) ≡ onto list.old (text_items (without_empty_end (empties waiting ++ part.now ∷ others)))) }
    ensures few { IfOk result (λ more. more ≤ waiting + 1) }
{
    if part.is_empty() {
        return Ok(waiting + 1);
    }
    push_behind_empty(alloc, list, waiting, part)?;
    Ok(0)
}

fn push_last(alloc: Global, list: &mut List, waiting: u64, part: &str) -> Result<(), Memory>
    ensures { OnOk result (list.new ≡ onto list.old (text_items (without_empty_end (empties waiting ++ part.now ∷ [])))) }
{
    if part.is_empty() {
        return Ok(());
    }
    push_behind_empty(alloc, list, waiting, part)
}

fn push_behind_empty(alloc: Global, list: &mut List, waiting: u64, part: &str) -> Result<(), Memory>
    ensures { OnOk result (list.new ≡ onto list.old (text_items (empties waiting ++ part.now ∷ []))) }
{
    let mut left = waiting;
    while left > 0 {
        push_text(alloc, list, "")?;
        left -= 1;
    }
    push_text(alloc, list, part)
}
