// Values as texts in JSON.
#![tactic(auto, using(filter_base::proofs::CallLaws::binds))]

ghost use Rattle.std.specs.Prelude.{◌≡◌, [], false, IfOk, OnOk, map};
ghost use Rattle.site_base.specs.Plain.{site_item};
ghost use Rattle.site_base.specs.Values.{value_text};
ghost use Rattle.site_base.specs.View.{plain, items_of, pairs_of};
ghost use Rattle.serde_json.specs.Data.{no_members, put, string};
ghost use Rattle.serde_json.specs.View.{view, items_view, members_view};
ghost use Rattle.serde_json.specs.Written.{compact_text, has_float, items_have_float, members_have_float};
ghost use Rattle.read_record.specs.Queries.{run};
ghost use Rattle.filter_base.specs.Answers.{Finds, Gives};
ghost use Rattle.jekyll_filters.specs.JsonTexts.{data_of, items_data, pairs_data, json_text, jsonify};
ghost use Rattle.jekyll_filters.specs.JsonFound.{in_data, in_list, in_members};

use filter_base::{Stop, no_more};
use read_record::{Key, Look, ask};
use serde_json::{Map, Number, Value as Json};
use site_base::{ItemName, Memory, Pair, Text, Value, value_text};
use std::alloc::Global;

/// The input as a text in JSON; items are looked up in the order in which the input holds them.
pub(crate) fn jsonify<L: Look>(
    alloc: Global,
    input: &Value,
    args: &[Value],
    look: &mut L,
) -> Result<Value, Stop>
    ensures same { L.view look.new ≡ L.view look.old }
    ensures gives { Gives (L.view look.old) (L.trace look.old) (jsonify (plain input.now) (map plain args.now)) result (L.trace look.new) }
{
    no_more(args)?;
    json_text(alloc, input, look)
}

fn json_text<L: Look>(alloc: Global, input: &Value, look: &mut L) -> Result<Value, Stop>
    ensures same { L.view look.new ≡ L.view look.old }
    ensures gives { Gives (L.view look.old) (L.trace look.old) (json_text (plain input.now)) result (L.trace look.new) }
{
    let json = data_of(alloc, input, look)?;
    Ok(Value::Text(compact_text(alloc, json)?))
}

fn compact_text(alloc: Global, json: Json) -> Result<Text, Memory>
    requires { has_float (view json) ≡ false }
    ensures { IfOk result (λ made. made ≡ compact_text (view json)) }
{
    Text::from_string(json.to_string(alloc)?)
}

#[cycle(tree)]
fn data_of<L: Look>(alloc: Global, value: &Value, look: &mut L) -> Result<Json, Stop>
    ensures same { L.view look.new ≡ L.view look.old }
    ensures gives { Finds (run (L.view look.old) (L.trace look.old) (data_of (plain value.now))) (in_data result) (L.trace look.new) }
    ensures whole { IfOk result (λ made. has_float (view made) ≡ false) }
{
    match value {
        Value::Nil => Ok(Json::Null),
        Value::Bool(is_set) => Ok(Json::Bool(*is_set)),
        Value::Int(number) => Ok(Json::Number(Number::from(*number))),
        Value::Text(text) => Ok(text_data(alloc, text.as_str())?),
        Value::List(list) => Ok(Json::Array(items_data(alloc, list.as_slice(), look)?)),
        Value::Hash(hash) => Ok(Json::Object(pairs_data(alloc, hash.as_slice(), look)?)),
        Value::Item(name) => url_data(alloc, name, look),
        Value::Range(_, _) => Ok(value_data(alloc, value)?),
    }
}

#[cycle(tree)]
fn items_data<L: Look>(alloc: Global, values: &[Value], look: &mut L) -> Result<Vec<Json>, Stop>
    ensures same { L.view look.new ≡ L.view look.old }
    ensures gives { Finds (run (L.view look.old) (L.trace look.old) (items_data (items_of values.now) [])) (in_list result) (L.trace look.new) }
    ensures whole { IfOk result (λ made. items_have_float (items_view made.items) ≡ false) }
{
    let mut made = Vec::with_capacity(alloc, values.len())?;
    for value in values {
        made.push(data_of(alloc, value, look)?)?;
    }
    Ok(made)
}

#[cycle(tree)]
fn pairs_data<L: Look>(
    alloc: Global,
    pairs: &[Pair],
    look: &mut L,
) -> Result<Map<String, Json>, Stop>
    ensures same { L.view look.new ≡ L.view look.old }
    ensures gives { Finds (run (L.view look.old) (L.trace look.old) (pairs_data (pairs_of pairs.now) no_members)) (in_members result) (L.trace look.new) }
    ensures whole { IfOk result (λ made. members_have_float (members_view made.entries) ≡ false) }
{
    let mut made = Map::new(alloc);
    for pair in pairs {
        let value = data_of(alloc, &pair.value, look)?;
        put(alloc, &mut made, pair.key.as_str(), value)?;
    }
    Ok(made)
}

fn put(
    alloc: Global,
    members: &mut Map<String, Json>,
    name: &str,
    value: Json,
) -> Result<(), Memory>
    ensures { OnOk result (members_view members.new.entries ≡ put name.now (view value) (members_view members.old.entries)) }
{
    let name = String::from_str(alloc, name)?;
    match members.insert(name, value) {
        Ok(_) => Ok(()),
        Err(_) => Err(Memory),
    }
}

fn text_data(alloc: Global, text: &str) -> Result<Json, Memory>
    ensures { IfOk result (λ made. view made ≡ string text.now) }
{
    Ok(Json::String(String::from_str(alloc, text)?))
}

// The text of a value, as data.
fn value_data(alloc: Global, value: &Value) -> Result<Json, Memory>
    ensures { IfOk result (λ made. view made ≡ string (value_text (plain value.now))) }
{
    let text = value_text(alloc, value)?;
    text_data(alloc, text.as_str())
}

// The address of an item.
fn url_data<L: Look>(alloc: Global, name: &ItemName, look: &mut L) -> Result<Json, Stop>
    ensures same { L.view look.new ≡ L.view look.old }
    ensures gives { Finds (run (L.view look.old) (L.trace look.old) (data_of (site_item name.now.path name.now.part))) (in_data result) (L.trace look.new) }
    ensures whole { IfOk result (λ made. has_float (view made) ≡ false) }
{
    let key = Key::Var(name.copy(alloc)?, Text::copy(alloc, "url")?);
    let url = ask(alloc, &key, look)?;
    Ok(value_data(alloc, &url)?)
}
