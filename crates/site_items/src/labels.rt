// Names of categories and tags.
ghost use Rattle.std.specs.Prelude.{◌≡◌, OnOk, IfOk, fold, map};
ghost use Rattle.std.specs.List.{slice_split};
ghost use Rattle.site_base.specs.Plain.{item_list, key_list};
ghost use Rattle.site_base.specs.Values.{value_text};
ghost use Rattle.site_base.specs.View.{plain};
ghost use Rattle.site_config.specs.Forms.{given};
ghost use Rattle.site_items.specs.Labels.{add_name, is_white, names_of_many, names_of_one, text_items};

use crate::cuts::cut_word;
use site_base::{Hash, List, Memory, Text, Value, value_text};
use std::alloc::Global;

/// Adds the names that a value is: a text is one name, a list has its values' texts, nothing is no name, and any other value
/// is its text.
pub(crate) fn add_one(alloc: Global, names: &mut Hash, value: Option<&Value>) -> Result<(), Memory>
    ensures { OnOk result (names.new ≡ fold add_name names.old (names_of_one (given value.entry))) }
{
    match value {
        None | Some(Value::Nil) => Ok(()),
        Some(Value::List(list)) => add_texts(alloc, names, list),
        Some(value) => add_text(alloc, names, value),
    }
}

/// Adds the names that a value is, where a text is its words.
pub(crate) fn add_many(alloc: Global, names: &mut Hash, value: Option<&Value>) -> Result<(), Memory>
    ensures { OnOk result (names.new ≡ fold add_name names.old (names_of_many (given value.entry))) }
{
    match value {
        Some(Value::Text(text)) => add_words(alloc, names, text.as_str()),
        _ => add_one(alloc, names, value),
    }
}

fn add_texts(alloc: Global, names: &mut Hash, list: &List) -> Result<(), Memory>
    ensures { OnOk result (names.new ≡ fold add_name names.old (map value_text (item_list list.now))) }
{
    for value in list.as_slice() {
        add_text(alloc, names, value)?;
    }
    Ok(())
}

fn add_text(alloc: Global, names: &mut Hash, value: &Value) -> Result<(), Memory>
    ensures { OnOk result (names.new ≡ add_name names.old (value_text (plain value.now))) }
{
    add_name(names, value_text(alloc, value)?)
}

// The words of a text.
fn add_words(alloc: Global, names: &mut Hash, text: &str) -> Result<(), Memory>
    ensures { OnOk result (names.new ≡ fold add_name names.old (slice_split is_white text.now)) }
{
    let mut rest = text;
    while let Some((word, behind)) = cut_word(rest) {
        add_name(names, Text::copy(alloc, word)?)?;
        rest = behind;
    }
    add_name(names, Text::copy(alloc, rest)?)
}

/// Adds a name that is not empty, once.
pub(crate) fn add_name(names: &mut Hash, name: Text) -> Result<(), Memory>
    ensures { OnOk result (names.new ≡ add_name names.old name) }
{
    if name.is_empty() {
        return Ok(());
    }
    names.set(name, Value::Nil)
}

/// The names as a list of texts.
pub(crate) fn name_list(alloc: Global, names: &Hash) -> Result<List, Memory>
    ensures { IfOk result (λ list. list ≡ text_items (key_list names.now)) }
{
    let mut list = List::with_capacity(alloc, names.as_slice().len())?;
    for pair in names.as_slice() {
        list.push(Value::Text(Text::copy(alloc, pair.key.as_str())?))?;
    }
    Ok(list)
}
