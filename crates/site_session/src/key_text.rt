// What keys are called where reasons are told.
ghost use Rattle.std.specs.Prelude.{◌≡◌, ◌++◌, IfOk, OnOk, codes};
ghost use Rattle.std.specs.String.{string_bytes};
ghost use Rattle.site_base.specs.View.{items_of, plain};
ghost use Rattle.site_session.specs.KeyTexts.{data_text, dotted, item_text, key_text, key_words};

use read_record::Key;
use site_base::{ItemName, Value};
use std::alloc::{AllocError, Global};

/// The path of an item, with `#` and its part where that is not 0.
pub(crate) fn item_text(alloc: Global, name: &ItemName) -> Result<String, AllocError>
    ensures { IfOk result (λ text. string_bytes text ≡ item_text name.now) }
{
    let path = name.path.text();
    let part = name.part;
    if part == 0 {
        String::from_str(alloc, path)
    } else {
        format!(in alloc; "{path}#{part}")
    }
}

/// A key by its kind, and what it asks for.
pub(crate) fn key_text(alloc: Global, key: &Key) -> Result<String, AllocError>
    ensures { IfOk result (λ text. string_bytes text ≡ key_text key.now) }
{
    match key {
        Key::Source(name) => of_item(alloc, "source", name),
        Key::Content(name) => of_item(alloc, "content", name),
        Key::Output(name) => of_item(alloc, "output", name),
        Key::Var(name, variable) => variable_text(alloc, name, variable.as_str()),
        Key::Paginator(name) => of_item(alloc, "paginator", name),
        Key::SiteVar(variable) => of_words(alloc, "site", variable.as_str()),
        Key::Data(keys) => data_text(alloc, keys.as_slice()),
        Key::Layout(name) => of_words(alloc, "layout", name.as_str()),
        Key::Include(name) => of_words(alloc, "include", name.as_str()),
        Key::File(path) => of_words(alloc, "file", path.text()),
        Key::Link(path) => of_words(alloc, "link", path.text()),
        Key::Post(name) => of_words(alloc, "post", name.as_str()),
        Key::Moment => String::from_str(alloc, "moment"),
    }
}

fn of_item(alloc: Global, kind: &str, name: &ItemName) -> Result<String, AllocError>
    ensures { IfOk result (λ text. string_bytes text ≡ kind.now ++ (codes " " ++ item_text name.now)) }
{
    let name = item_text(alloc, name)?;
    format!(in alloc; "{kind} {name}")
}

fn of_words(alloc: Global, kind: &str, words: &str) -> Result<String, AllocError>
    ensures { IfOk result (λ text. string_bytes text ≡ kind.now ++ (codes " " ++ words.now)) }
{
    format!(in alloc; "{kind} {words}")
}

fn variable_text(alloc: Global, name: &ItemName, variable: &str) -> Result<String, AllocError>
    ensures { IfOk result (λ text. string_bytes text ≡ codes "var " ++ (item_text name.now ++ (codes " " ++ variable.now))) }
{
    let name = item_text(alloc, name)?;
    format!(in alloc; "var {name} {variable}")
}

// The keys of data, with dots between them.
fn data_text(alloc: Global, keys: &[Value]) -> Result<String, AllocError>
    ensures { IfOk result (λ text. string_bytes text ≡ codes "data" ++ data_text (items_of keys.now)) }
{
    let mut text = String::from_str(alloc, "data")?;
    if let Some((first, others)) = keys.split_first() {
        text.push(' ')?;
        text.push_str(key_words(first))?;
        push_dotted(&mut text, others)?;
    }
    Ok(text)
}

fn push_dotted(text: &mut String, keys: &[Value]) -> Result<(), AllocError>
    ensures { OnOk result (string_bytes text.new ≡ string_bytes text.old ++ dotted (items_of keys.now)) }
{
    for key in keys {
        text.push('.')?;
        text.push_str(key_words(key))?;
    }
    Ok(())
}

// A key of data is a text.
fn key_words(key: &Value) -> &str
    ensures { result.now ≡ key_words (plain key.now) }
{
    match key {
        Value::Text(text) => text.as_str(),
        _ => "",
    }
}
