// The forms that values of a configuration have.
ghost use Rattle.std.specs.Prelude.{◌≡◌};
ghost use Rattle.site_base.specs.View.{plain};
ghost use Rattle.site_config.specs.Forms.{given, fits, is_text, are_texts, is_name, are_names, is_collection, are_collections, names, is_kind, is_kind_text, is_name_text, has_text, is_hash, is_scope, are_scopes, holds_number, is_flag, is_optional_text, are_optional_texts, is_named_collection, is_sorted, is_liquid, is_archive, are_archives};

use crate::form::Form;
use crate::settings::setting;
use site_base::{Hash, List, Value};
use site_dates::read_offset;
use site_text::{Class, class_run};

/// Whether a value has a form, where `collections` has its own. An absent one and nil have any.
pub(crate) fn fits(collections: Option<&Value>, form: Form, value: Option<&Value>) -> bool
    ensures { result ≡ fits (given collections.entry) form (given value.entry) }
{
    match (form, value) {
        (_, None | Some(Value::Nil)) => true,
        (Form::Text, Some(Value::Text(_))) => true,
        (Form::Texts, Some(Value::List(list))) => are_texts(list),
        (Form::Collections, Some(Value::List(list))) => are_names(list),
        (Form::Collections, Some(Value::Hash(hash))) => are_collections(hash),
        (Form::Scopes, Some(Value::List(list))) => are_scopes(collections, list),
        (Form::Count, Some(Value::Int(number))) => *number >= 1,
        (Form::PagePath, Some(Value::Text(text))) => holds_number(text.as_str().as_bytes()),
        (Form::Separator, Some(Value::Text(text))) => !text.is_empty(),
        (Form::Offset, Some(Value::Text(text))) => read_offset(text.as_str()).is_some(),
        (Form::Flag, Some(Value::Bool(_))) => true,
        (Form::Liquid, Some(Value::Hash(hash))) => is_liquid(hash),
        (Form::Archives, Some(Value::List(list))) => are_archives(list),
        _ => false,
    }
}

fn are_texts(list: &List) -> bool
    ensures { result ≡ are_texts list.now }
{
    list.as_slice()
        .iter()
        .all(|value| matches!(value, Value::Text(_)))
}

fn are_names(list: &List) -> bool
    ensures { result ≡ are_names list.now }
{
    list.as_slice().iter().all(is_name_text)
}

fn is_name_text(value: &Value) -> bool
    ensures { result ≡ is_name_text (plain value.now) }
{
    match value {
        Value::Text(text) => is_name(text.as_str()),
        _ => false,
    }
}

fn is_name(text: &str) -> bool
    ensures { result ≡ is_name text.now }
{
    !text.is_empty() && class_run(Class::Name, text.as_bytes()) == text.len()
}

fn are_collections(hash: &Hash) -> bool
    ensures { result ≡ are_collections hash.now }
{
    hash.as_slice()
        .iter()
        .all(|pair| is_named_collection(pair.key.as_str(), &pair.value))
}

fn is_named_collection(name: &str, value: &Value) -> bool
    ensures { result ≡ is_named_collection (name.now, plain value.now) }
{
    is_name(name) && is_collection(value) && (name == "posts" || is_sorted(value))
}

fn is_collection(value: &Value) -> bool
    ensures { result ≡ is_collection (plain value.now) }
{
    match value {
        Value::Nil => true,
        Value::Hash(hash) => is_flag(hash.get("output")) && is_optional_text(hash.get("permalink")),
        _ => false,
    }
}

// Whether `order` and `sort_by` have their forms.
fn is_sorted(value: &Value) -> bool
    ensures { result ≡ is_sorted (plain value.now) }
{
    are_optional_texts(setting("order", Some(value)))
        && is_optional_text(setting("sort_by", Some(value)))
}

// Whether both options are bools, where they are there.
fn is_liquid(hash: &Hash) -> bool
    ensures { result ≡ is_liquid hash.now }
{
    is_flag(hash.get("strict_variables")) && is_flag(hash.get("strict_filters"))
}

fn are_archives(list: &List) -> bool
    ensures { result ≡ are_archives list.now }
{
    list.as_slice().iter().all(is_archive)
}

// Whether a value names one of the lists of a post's labels.
fn is_archive(value: &Value) -> bool
    ensures { result ≡ is_archive (plain value.now) }
{
    match value {
        Value::Text(text) => text.as_str() == "tags" || text.as_str() == "categories",
        _ => false,
    }
}

fn is_flag(value: Option<&Value>) -> bool
    ensures { result ≡ is_flag (given value.entry) }
{
    matches!(value, None | Some(Value::Nil | Value::Bool(_)))
}

fn is_optional_text(value: Option<&Value>) -> bool
    ensures { result ≡ is_optional_text (given value.entry) }
{
    matches!(value, None | Some(Value::Nil | Value::Text(_)))
}

fn are_optional_texts(value: Option<&Value>) -> bool
    ensures { result ≡ are_optional_texts (given value.entry) }
{
    match value {
        None | Some(Value::Nil) => true,
        Some(Value::List(list)) => are_texts(list),
        _ => false,
    }
}

fn is_text(value: Option<&Value>) -> bool
    ensures { result ≡ is_text (given value.entry) }
{
    matches!(value, Some(Value::Text(_)))
}

fn is_hash(value: Option<&Value>) -> bool
    ensures { result ≡ is_hash (given value.entry) }
{
    matches!(value, Some(Value::Hash(_)))
}

fn are_scopes(collections: Option<&Value>, list: &List) -> bool
    ensures { result ≡ are_scopes (given collections.entry) list.now }
{
    list.as_slice()
        .iter()
        .all(|value| is_scope(collections, value))
}

fn is_scope(collections: Option<&Value>, value: &Value) -> bool
    ensures { result ≡ is_scope (given collections.entry) (plain value.now) }
{
    let scope = setting("scope", Some(value));
    is_text(setting("path", scope))
        && is_kind(collections, setting("type", scope))
        && is_hash(setting("values", Some(value)))
}

// Whether a scope may have this as its type.
fn is_kind(collections: Option<&Value>, value: Option<&Value>) -> bool
    ensures { result ≡ is_kind (given collections.entry) (given value.entry) }
{
    match value {
        None | Some(Value::Nil) => true,
        Some(Value::Text(text)) => is_kind_text(collections, text.as_str()),
        _ => false,
    }
}

fn is_kind_text(collections: Option<&Value>, text: &str) -> bool
    ensures { result ≡ is_kind_text (given collections.entry) text.now }
{
    text == "posts" || text == "drafts" || text == "pages" || names(text, collections)
}

// Whether `collections` names this collection.
fn names(name: &str, collections: Option<&Value>) -> bool
    ensures { result ≡ names name.now (given collections.entry) }
{
    match collections {
        Some(Value::List(list)) => has_text(name, list),
        Some(Value::Hash(hash)) => hash.get(name).is_some(),
        _ => false,
    }
}

fn has_text(text: &str, list: &List) -> bool
    ensures { result ≡ has_text text.now list.now }
{
    list.as_slice().iter().any(
        |value| matches!(value, Value::Text(other) if other.as_str() == text),
    )
}

// Whether a text holds `:num`.
fn holds_number(text: &[u8]) -> bool
    ensures { result ≡ holds_number text.now }
{
    let mut rest = text;
    while let [_, behind @ ..] = rest {
        if rest.starts_with(b":num".as_slice()) {
            return true;
        }
        rest = behind;
    }
    false
}
