// A site in memory that answers look-ups.
ghost use Rattle.std.specs.Prelude.{◌≡◌, IfOk, codes};
ghost use Rattle.std.specs.Option.{option_copied, option_map};
ghost use Rattle.site_base.specs.View.{items_of, plain};
ghost use Rattle.filter_base.specs.Properties.{or_nil};
ghost use Rattle.text_tests.specs.Shelves as definitions;

use crate::site::SITE;
use front_yaml::read_mapping;
use read_record::{Answer, Key, Look};
use site_base::{Hash, ItemName, List, Memory, SitePath, Text, Value, copy};
use std::alloc::{AllocError, Global};

// The first moment of 2024.
const MOMENT: i64 = 1_704_067_200;

/// The site, which keeps what it was asked.
#[derive(Drop)]
pub(crate) struct Shelf {
    held: Hash,
    /// The keys as texts, each once, in the order first asked.
    asked: Vec<String>,
}

impl Shelf {
    pub(crate) fn new(alloc: Global) -> Result<Shelf, Memory> {
        Ok(Shelf {
            held: site(alloc)?,
            asked: Vec::new(alloc),
        })
    }

    /// What was asked, as rows have it.
    pub(crate) fn asked(&self, alloc: Global) -> Result<String, Memory> {
        let mut all = String::new(alloc);
        for (place, key) in self.asked.iter().enumerate() {
            if place > 0 {
                all.push_str(", ")?;
            }
            all.push_str(key.as_str())?;
        }
        Ok(all)
    }
}

impl Look for Shelf {
    ghost use Rattle.std.specs.Prelude.{None};
    ghost use Rattle.text_tests.specs.Shelves.{shelf_view, shelf-formed};

    ghost view = { λ s. shelf_view s.held };

    ghost trace = { λ _. None };

    ghost formed = { λ s. shelf-formed s.held };

    fn look(&mut self, alloc: Global, key: &Key) -> Answer {
        if note(alloc, &mut self.asked, key).is_err() {
            return Answer::Memory;
        }
        match answer(alloc, &self.held, key) {
            Ok(value) => Answer::Seen(value),
            Err(_) => Answer::Memory,
        }
    }
}

fn site(alloc: Global) -> Result<Hash, Memory> {
    let mut held = match read_mapping(alloc, SITE) {
        Ok(held) => held,
        Err(_) => return Err(Memory),
    };
    if let Some(Value::Hash(lists)) = held.take("items")? {
        held.set(Text::copy(alloc, "items")?, lists_of_items(alloc, &lists)?)?;
    }
    if let Some(Value::Hash(mut paginator)) = held.take("paginator")? {
        if let Some(Value::List(paths)) = paginator.take("posts")? {
            paginator.set(Text::copy(alloc, "posts")?, items(alloc, &paths)?)?;
        }
        held.set(Text::copy(alloc, "paginator")?, Value::Hash(paginator))?;
    }
    Ok(held)
}

fn lists_of_items(alloc: Global, lists: &Hash) -> Result<Value, Memory> {
    let mut made = Hash::new(alloc);
    for pair in lists.as_slice() {
        if let Value::List(paths) = &pair.value {
            made.push(Text::copy(alloc, pair.key.as_str())?, items(alloc, paths)?)?;
        }
    }
    Ok(Value::Hash(made))
}

fn items(alloc: Global, paths: &List) -> Result<Value, Memory> {
    let mut made = List::new(alloc);
    for path in paths.as_slice() {
        if let Value::Text(path) = path {
            made.push(Value::Item(item(alloc, path.as_str())?))?;
        }
    }
    Ok(Value::List(made))
}

/// The item that is made of a whole file.
pub(crate) fn item(alloc: Global, path: &str) -> Result<ItemName, Memory> {
    match SitePath::read(alloc, path) {
        Ok(path) => Ok(ItemName { path, part: 0 }),
        Err(_) => Err(Memory),
    }
}

// What a key gives.
fn answer(alloc: Global, held: &Hash, key: &Key) -> Result<Value, Memory>
    ensures { IfOk result (λ value. plain value ≡ definitions.answer held.now key.now) }
{
    match key {
        Key::Source(item) => words(alloc, held, "source", item.path.text()),
        Key::Content(item) => words(alloc, held, "content", item.path.text()),
        Key::Output(item) => words(alloc, held, "output", item.path.text()),
        Key::Var(item, name) => variable(alloc, held, item.path.text(), name.as_str()),
        Key::Paginator(item) => paginator(alloc, held, item.path.text()),
        Key::SiteVar(name) => site_variable(alloc, held, name.as_str()),
        Key::Data(keys) => copied(alloc, under(keys.as_slice(), held.get("data"))),
        Key::Layout(_) => Ok(Value::Nil),
        Key::Include(name) => words(alloc, held, "include", name.as_str()),
        Key::File(path) => words(alloc, held, "file", path.text()),
        Key::Link(path) => words(alloc, held, "link", path.text()),
        Key::Post(name) => words(alloc, held, "post", name.as_str()),
        Key::Moment => Ok(Value::Int(MOMENT)),
    }
}

// A member of what is held of one sort.
fn member<'a>(held: &'a Hash, sort: &str, name: &str) -> Option<&'a Value>
    ensures { option_map plain (option_copied result) ≡ definitions.member sort.now name.now held.now }
{
    member_of(held.get(sort), name)
}

fn member_of<'a>(value: Option<&'a Value>, name: &str) -> Option<&'a Value>
    ensures { option_map plain (option_copied result) ≡ definitions.member_of name.now (option_map plain (option_copied value.entry)) }
{
    match value {
        Some(Value::Hash(members)) => members.get(name),
        _ => None,
    }
}

// What stands under keys, one below the other.
fn under<'a>(keys: &[Value], value: Option<&'a Value>) -> Option<&'a Value>
    ensures { option_map plain (option_copied result) ≡ definitions.under (items_of keys.now) (option_map plain (option_copied value.entry)) }
{
    match keys {
        [] => value,
        [key, rest @ ..] => under(rest, keyed(key, value)),
    }
}

// What a key of data finds.
fn keyed<'a>(key: &Value, value: Option<&'a Value>) -> Option<&'a Value>
    ensures { option_map plain (option_copied result) ≡ definitions.keyed (plain key.now) (option_map plain (option_copied value.entry)) }
{
    match key {
        Value::Text(name) => member_of(value, name.as_str()),
        _ => None,
    }
}

fn copied(alloc: Global, value: Option<&Value>) -> Result<Value, Memory>
    ensures { IfOk result (λ copy. plain copy ≡ or_nil (option_map plain (option_copied value.entry))) }
{
    match value {
        Some(value) => copy(alloc, value),
        None => Ok(Value::Nil),
    }
}

fn words(alloc: Global, held: &Hash, sort: &str, name: &str) -> Result<Value, Memory>
    ensures { IfOk result (λ value. plain value ≡ definitions.words (definitions.member sort.now name.now held.now)) }
{
    match member(held, sort, name) {
        Some(Value::Text(text)) => Ok(Value::Text(Text::copy(alloc, text.as_str())?)),
        _ => Ok(Value::Nil),
    }
}

fn variable(alloc: Global, held: &Hash, path: &str, name: &str) -> Result<Value, Memory>
    ensures { IfOk result (λ value. plain value ≡ or_nil (definitions.member_of name.now (definitions.member (codes "var") path.now held.now))) }
{
    match member(held, "var", path) {
        Some(Value::Hash(variables)) => copied(alloc, variables.get(name)),
        _ => Ok(Value::Nil),
    }
}

fn paginator(alloc: Global, held: &Hash, path: &str) -> Result<Value, Memory>
    ensures { IfOk result (λ value. plain value ≡ definitions.paginator path.now held.now) }
{
    if path != "p.html" {
        return Ok(Value::Nil);
    }
    match held.get("paginator") {
        Some(Value::Hash(fields)) => Ok(Value::Hash(fields.share(alloc)?)),
        _ => Ok(Value::Nil),
    }
}

fn site_variable(alloc: Global, held: &Hash, name: &str) -> Result<Value, Memory>
    ensures { IfOk result (λ value. plain value ≡ definitions.site_variable name.now held.now) }
{
    match member(held, "items", name) {
        Some(items) => copy(alloc, items),
        None => copied(alloc, member(held, "site", name)),
    }
}

fn note(alloc: Global, asked: &mut Vec<String>, key: &Key) -> Result<(), AllocError> {
    let text = key_text(alloc, key)?;
    if asked.iter().any(|other| other.as_str() == text.as_str()) {
        return Ok(());
    }
    asked.push(text)?;
    Ok(())
}

fn key_text(alloc: Global, key: &Key) -> Result<String, AllocError> {
    match key {
        Key::Source(item) => joined(alloc, "source", item.path.text()),
        Key::Content(item) => joined(alloc, "content", item.path.text()),
        Key::Output(item) => joined(alloc, "output", item.path.text()),
        Key::Var(item, name) => {
            let item = joined(alloc, "var", item.path.text())?;
            joined(alloc, item.as_str(), name.as_str())
        }
        Key::Paginator(item) => joined(alloc, "paginator", item.path.text()),
        Key::SiteVar(name) => joined(alloc, "site", name.as_str()),
        Key::Data(keys) => data_text(alloc, keys.as_slice()),
        Key::Layout(name) => joined(alloc, "layout", name.as_str()),
        Key::Include(name) => joined(alloc, "include", name.as_str()),
        Key::File(path) => joined(alloc, "file", path.text()),
        Key::Link(path) => joined(alloc, "link", path.text()),
        Key::Post(name) => joined(alloc, "post", name.as_str()),
        Key::Moment => "moment".to_string(alloc),
    }
}

// The keys of data, with dots between them.
fn data_text(alloc: Global, keys: &[Value]) -> Result<String, AllocError> {
    let mut made = "data".to_string(alloc)?;
    for (place, key) in keys.iter().enumerate() {
        made.push(if place == 0 { ' ' } else { '.' })?;
        if let Value::Text(key) = key {
            made.push_str(key.as_str())?;
        }
    }
    Ok(made)
}

fn joined(alloc: Global, sort: &str, name: &str) -> Result<String, AllocError> {
    format!(in alloc; "{sort} {name}")
}
