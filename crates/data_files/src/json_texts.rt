// JSON texts.
ghost use Rattle.std.specs.Prelude.{◌≡◌, ◌<◌, [], length, Some, None, Err, MatchResult, IfOk, OnOk, option_map};
ghost use Rattle.std.specs.BTreeMap.{insert_entry};
ghost use Rattle.std.specs.Cmp.Lexicographic.{slice_cmp};
ghost use Rattle.std.specs.Ordering.{nat_cmp};
ghost use Rattle.json.specs.Json.{read_key, value, items, members};
ghost use Rattle.serde_json.specs.Read.{converted};
ghost use Rattle.site_base.specs.Plain.{int, list};
ghost use Rattle.site_base.specs.View.{plain};
ghost use Rattle.data_files.specs.Json.{json, IsRefused};
ghost use Rattle.data_files.specs.Readings.{reading, items_reading, members_reading, seen, object_of, with_last};
ghost use Rattle.data_files.specs.declared.refusal.Refusal.TheVariants as refusal;

use crate::json_numbers::number_of;
use crate::refusal::Refusal;
use json::{Reader, Scratch, Token};
use site_base::{Hash, List, Memory, Text, Value};
use std::alloc::Global;
use std::collections::BTreeMap;

// How deep arrays and objects may nest.
const MAX_DEPTH: usize = 127;

/// The value of a JSON text, as RFC 8259 has it: its numbers become `Int`, the keys of an object stand in byte
/// order, and the last of two equal ones counts.
///
/// `Refused` comes exactly where the text is no JSON text whose arrays and objects nest at most 127 deep, or holds
/// a number that is not whole or does not fit an `i64`.
pub fn read_json(alloc: Global, text: &str) -> Result<Value, Refusal>
    ensures { MatchResult result
        (λ value. json text.now ≡ Some (plain value))
        (λ error. IsRefused error (json text.now)) }
{
    let mut scratch = Scratch::new(alloc);
    read_all(alloc, text, &mut scratch)
}

fn read_all(alloc: Global, text: &str, scratch: &mut Scratch) -> Result<Value, Refusal>
    ensures { MatchResult result
        (λ value. json text.now ≡ Some (plain value))
        (λ error. IsRefused error (json text.now)) }
{
    let Ok(mut reader) = Reader::new(text, scratch) else {
        return Err(Refusal::Memory);
    };
    let read = read_value(alloc, &mut reader, MAX_DEPTH)?;
    if reader.next().is_some() {
        return Err(Refusal::Refused);
    }
    match read {
        Some(value) => Ok(value),
        None => Err(Refusal::Refused),
    }
}

// The next value. `None` is one that holds a number which no value has: it still counts for nothing where its key
// comes again.
#[cycle(read)]
#[inline(always)]
fn read_value(
    alloc: Global,
    reader: &mut Reader<'_>,
    depth: usize,
) -> Result<Option<Value>, Refusal>
    ensures ok { IfOk result
        (λ read. converted reading (value depth reader.old) ≡ Some (option_map plain read, reader.new)) }
    ensures shorter { OnOk result (length reader.new < length reader.old) }
    ensures err { result ≡ Err refusal.Refused → converted reading (value depth reader.old) ≡ None }
{
    let token = reader.next().ok_or(Refusal::Refused)?;
    match token {
        Token::String(text) => Ok(Some(Value::Text(Text::copy(alloc, text)?))),
        Token::Number(text) => match number_of(text) {
            Some(number) => Ok(number_value(number)),
            None => Err(Refusal::Refused),
        },
        Token::Bool(is_set) => Ok(Some(Value::Bool(is_set))),
        Token::Null => Ok(Some(Value::Nil)),
        Token::EndObject | Token::EndArray | Token::Key(_) | Token::Bad => Err(Refusal::Refused),
        Token::BeginArray => {
            if depth == 0 {
                return Err(Refusal::Refused);
            }
            Ok(list_value(read_items(alloc, reader, depth - 1)?))
        }
        Token::BeginObject => {
            if depth == 0 {
                return Err(Refusal::Refused);
            }
            let members = read_members(alloc, reader, depth - 1)?;
            Ok(hash_of(alloc, members)?)
        }
    }
}

fn number_value(number: Option<i64>) -> Option<Value>
    ensures { option_map plain result ≡ option_map int number }
{
    match number {
        Some(number) => Some(Value::Int(number)),
        None => None,
    }
}

fn list_value(items: Option<List>) -> Option<Value>
    ensures { option_map plain result ≡ option_map list items }
{
    match items {
        Some(items) => Some(Value::List(items)),
        None => None,
    }
}

// The items up to the end of an array.
#[cycle(read)]
#[inline(never)]
fn read_items(alloc: Global, reader: &mut Reader<'_>, depth: usize) -> Result<Option<List>, Refusal>
    ensures ok { IfOk result
        (λ list. converted items_reading (items (value depth) (length reader.old) reader.old) ≡ Some (list, reader.new)) }
    ensures shorter { OnOk result (length reader.new < length reader.old) }
    ensures err { result ≡ Err refusal.Refused
        → converted items_reading (items (value depth) (length reader.old) reader.old) ≡ None }
{
    let mut list = Some(List::new(alloc));
    'items: while !reader.take_end_array() {
        let item = read_value(alloc, reader, depth)?;
        list = with_item(list, item)?;
    }
    Ok(list)
}

// A list with one more item, where both have a value.
#[inline(always)]
fn with_item(list: Option<List>, item: Option<Value>) -> Result<Option<List>, Memory>
    ensures { IfOk result (λ made. made ≡ with_last list (option_map plain item)) }
{
    match (list, item) {
        (Some(mut list), Some(item)) => {
            list.push(item)?;
            Ok(Some(list))
        }
        _ => Ok(None),
    }
}

// The members up to the end of an object, the last of each key.
#[cycle(read)]
#[inline(never)]
fn read_members<'a>(
    alloc: Global,
    reader: &mut Reader<'a>,
    depth: usize,
) -> Result<BTreeMap<&'a str, Option<Value>>, Refusal>
    ensures ok { IfOk result
        (λ found. converted (members_reading []) (members (value depth) (length reader.old) reader.old)
        ≡ Some (seen found.entries, reader.new)) }
    ensures shorter { OnOk result (length reader.new < length reader.old) }
    ensures err { result ≡ Err refusal.Refused
        → converted (members_reading []) (members (value depth) (length reader.old) reader.old) ≡ None }
{
    let mut found = BTreeMap::new(alloc);
    'members: while let Some(key) = next_key(reader)? {
        let member = read_value(alloc, reader, depth)?;
        put(&mut found, key, member)?;
    }
    Ok(found)
}

// Gives the key this member in place of one that it has.
#[inline(always)]
fn put<'a>(
    found: &mut BTreeMap<&'a str, Option<Value>>,
    key: &'a str,
    member: Option<Value>,
) -> Result<(), Memory>
    ensures { OnOk result (seen found.new.entries
        ≡ insert_entry (slice_cmp nat_cmp) (seen found.old.entries) key.now (option_map plain member)) }
{
    match found.insert(key, member) {
        Ok(_) => Ok(()),
        Err(_) => Err(Memory),
    }
}

// The hash of the members, where each has a value.
fn hash_of(alloc: Global, members: BTreeMap<&str, Option<Value>>) -> Result<Option<Value>, Memory>
    ensures { IfOk result (λ made. option_map plain made ≡ object_of (seen members.entry.entries)) }
{
    let mut pairs = Hash::with_capacity(alloc, members.len())?;
    for (key, member) in members {
        match member {
            Some(value) => pairs.push(Text::copy(alloc, key)?, value)?,
            None => return Ok(None),
        }
    }
    Ok(Some(Value::Hash(pairs)))
}

#[inline(always)]
fn next_key<'a>(reader: &mut Reader<'a>) -> Result<Option<&'a str>, Refusal>
    ensures value { MatchResult result
        (λ key. read_key reader.old ≡ Some (option_map (λ s. s.now) key, reader.new))
        (λ error. (read_key reader.old ≡ None) × (error ≡ refusal.Refused)) }
{
    match reader.next_key() {
        Ok(key) => Ok(key),
        Err(_) => Err(Refusal::Refused),
    }
}
