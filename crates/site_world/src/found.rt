// What a look-up finds.
ghost use Rattle.std.specs.Prelude.{◌≡◌, IfOk, IfSome, Some};
ghost use Rattle.read_record.specs.Answers.{IsCodeOf, IsReply};
ghost use Rattle.read_record.specs.Queries.{Known};
ghost use Rattle.read_record.specs.Records.{agreement_of};
ghost use Rattle.site_base.specs.Plain.{text};
ghost use Rattle.site_base.specs.View.{plain};
ghost use Rattle.site_world.specs.Finds.{reply_of};
ghost use Rattle.site_world.specs.Sights.{file_text};

use crate::coded::Coded;
use crate::text_code::is_text_code;
use read_record::{Agreement, Answer};
use site_base::{Memory, SharedBytes, Text, Value, copy, same_code};
use std::alloc::Global;
use std::str;

/// What is found where a key is looked up, before a value is made of it.
#[derive(Drop)]
pub(crate) enum Found<'w> {
    Nothing,
    Words(&'w Text),
    Given(&'w Value),
    /// A value that many share.
    Kept(&'w Coded),
    /// The bytes of a held file, of which nobody knows yet whether they are a text.
    File(&'w SharedBytes),
    Number(i64),
    /// This item has to be done first.
    Needs(u32),
}

impl<'w> Found<'w> {
    /// The value that was found. What can be shared is not copied.
    pub(crate) fn answer(&self, alloc: Global) -> Answer
        ensures { IsReply (reply_of self.now) result }
    {
        match self {
            Found::Nothing => Answer::Seen(Value::Nil),
            Found::Words(words) => words_answer(alloc, words),
            Found::Given(value) => value_answer(alloc, value),
            Found::Kept(value) => value_answer(alloc, value.value()),
            Found::File(bytes) => file_answer(alloc, bytes),
            Found::Number(number) => Answer::Seen(Value::Int(*number)),
            Found::Needs(place) => Answer::Needs(*place),
        }
    }

    /// Whether it is the value with this code. It takes no memory.
    pub(crate) fn agrees(&self, seen: &[u8]) -> Agreement
        ensures { result ≡ agreement_of (reply_of self.now) seen.now }
    {
        match self {
            Found::Nothing => value_agrees(&Value::Nil, seen),
            Found::Words(words) => words_agree(words.as_bytes(), seen),
            Found::Given(value) => value_agrees(value, seen),
            Found::Kept(value) => kept_agrees(value, seen),
            Found::File(bytes) => file_agrees(bytes, seen),
            Found::Number(number) => value_agrees(&Value::Int(*number), seen),
            Found::Needs(place) => Agreement::Needs(*place),
        }
    }

    /// The code of a value that many share.
    pub(crate) fn shared_code(&self) -> Result<Option<SharedBytes>, Memory>
        ensures { IfOk result (λ kept. IfSome kept (λ bytes. IsCodeOf (reply_of self.now) bytes)) }
    {
        match self {
            Found::Kept(value) => Ok(Some(value.code().share()?)),
            _ => Ok(None),
        }
    }
}

fn words_answer(alloc: Global, words: &Text) -> Answer
    ensures { IsReply (Known (text words.now)) result }
{
    match words.share(alloc) {
        Ok(words) => Answer::Seen(Value::Text(words)),
        Err(_) => Answer::Memory,
    }
}

fn value_answer(alloc: Global, value: &Value) -> Answer
    ensures { IsReply (Known (plain value.now)) result }
{
    match copy(alloc, value) {
        Ok(value) => Answer::Seen(value),
        Err(_) => Answer::Memory,
    }
}

fn file_answer(alloc: Global, bytes: &SharedBytes) -> Answer
    ensures { IsReply (Known (file_text (Some bytes.now))) result }
{
    match str::from_utf8(bytes.as_slice()) {
        Ok(words) => words_of(alloc, bytes, words),
        Err(_) => Answer::Seen(Value::Nil),
    }
}

// The text shares the bytes of its file.
fn words_of(alloc: Global, bytes: &SharedBytes, words: &str) -> Answer
    requires { bytes.now ≡ words.now }
    ensures { IsReply (Known (text words.now)) result }
{
    match Text::end_of(alloc, bytes, 0, words) {
        Ok(words) => Answer::Seen(Value::Text(words)),
        Err(_) => Answer::Memory,
    }
}

fn value_agrees(value: &Value, seen: &[u8]) -> Agreement
    ensures { result ≡ agreement_of (Known (plain value.now)) seen.now }
{
    if same_code(value, seen) {
        Agreement::Same
    } else {
        Agreement::Other
    }
}

fn words_agree(words: &[u8], seen: &[u8]) -> Agreement
    ensures { result ≡ agreement_of (Known (text words.now)) seen.now }
{
    if is_text_code(words, seen) {
        Agreement::Same
    } else {
        Agreement::Other
    }
}

fn kept_agrees(value: &Coded, seen: &[u8]) -> Agreement
    ensures { result ≡ agreement_of (Known value.now) seen.now }
{
    if seen == value.code().as_slice() {
        Agreement::Same
    } else {
        Agreement::Other
    }
}

fn file_agrees(bytes: &SharedBytes, seen: &[u8]) -> Agreement
    ensures { result ≡ agreement_of (Known (file_text (Some bytes.now))) seen.now }
{
    match str::from_utf8(bytes.as_slice()) {
        Ok(words) => words_agree(words.as_bytes(), seen),
        Err(_) => value_agrees(&Value::Nil, seen),
    }
}
