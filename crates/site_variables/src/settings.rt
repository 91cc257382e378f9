// The settings of a configuration, with their defaults.
ghost use Rattle.std.specs.Prelude.{◌≡◌, IfOk, OnOk, codes};
ghost use Rattle.site_base.specs.Plain.{list, no_items, set, text, bool};
ghost use Rattle.site_base.specs.View.{plain};
ghost use Rattle.site_items.specs.Defaults.{set_all};
ghost use Rattle.site_items.specs.Labels.{text_items};
ghost use Rattle.site_variables.specs.Settings.{as_given, flags, given_or, lenient, lists, settings, texts};

use site_base::{Hash, List, Memory, Text, TextList, Value, copy};
use site_config::Config;
use std::alloc::Global;

/// Sets the keys that have a meaning, each to its value or its default.
pub(crate) fn set_settings(alloc: Global, made: &mut Hash, config: &Config) -> Result<(), Memory>
    ensures { OnOk result (made.new ≡ set_all (settings config.now) made.old) }
{
    set_texts(alloc, made, config)?;
    set_lists(alloc, made, config)?;
    set_flags(alloc, made, config)?;
    set_given(alloc, made, config)
}

fn set_texts(alloc: Global, made: &mut Hash, config: &Config) -> Result<(), Memory>
    ensures { OnOk result (made.new ≡ set_all (texts config.now) made.old) }
{
    set_text(alloc, made, "baseurl", &config.baseurl)?;
    set_text(alloc, made, "url", &config.url)?;
    set_text(alloc, made, "permalink", &config.permalink)?;
    set_text(alloc, made, "markdown_ext", &config.markdown_ext)?;
    set_text(alloc, made, "paginate_path", &config.paginate_path)?;
    set_text(alloc, made, "excerpt_separator", &config.excerpt_separator)
}

fn set_lists(alloc: Global, made: &mut Hash, config: &Config) -> Result<(), Memory>
    ensures { OnOk result (made.new ≡ set_all (lists config.now) made.old) }
{
    set_list(alloc, made, "include", &config.include)?;
    set_list(alloc, made, "exclude", &config.exclude)?;
    set_list(alloc, made, "keep_files", &config.keep_files)
}

fn set_flags(alloc: Global, made: &mut Hash, config: &Config) -> Result<(), Memory>
    ensures { OnOk result (made.new ≡ set_all (flags config.now) made.old) }
{
    set(alloc, made, "future", Value::Bool(config.future))?;
    set(alloc, made, "unpublished", Value::Bool(config.unpublished))?;
    set(alloc, made, "show_drafts", Value::Bool(config.show_drafts))?;
    set(alloc, made, "make_feed", Value::Bool(config.make_feed))?;
    set(
        alloc,
        made,
        "make_sitemap",
        Value::Bool(config.make_sitemap),
    )
}

// What stands in the configuration's own mapping.
fn set_given(alloc: Global, made: &mut Hash, config: &Config) -> Result<(), Memory>
    ensures { OnOk result (made.new ≡ set_all (as_given config.now) made.old) }
{
    let defaults = Value::List(List::new(alloc));
    set_or(alloc, made, config, "defaults", defaults)?;
    set_or(alloc, made, config, "paginate", Value::Nil)?;
    let timezone = Value::Text(Text::copy(alloc, "UTC")?);
    set_or(alloc, made, config, "timezone", timezone)?;
    let liquid = Value::Hash(lenient(alloc)?);
    set_or(alloc, made, config, "liquid", liquid)?;
    let archives = Value::List(List::new(alloc));
    set_or(alloc, made, config, "make_archives", archives)?;
    set_or(alloc, made, config, "archive_layout", Value::Nil)
}

// Sets a key to its value, or to another where it is absent or nil.
fn set_or(
    alloc: Global,
    made: &mut Hash,
    config: &Config,
    key: &str,
    other: Value,
) -> Result<(), Memory>
    ensures { OnOk result (made.new ≡ set key.now (given_or (plain other) config.now key.now) made.old) }
{
    let value = given_or(alloc, other, config, key)?;
    set(alloc, made, key, value)
}

// The options of Liquid where the configuration has none.
fn lenient(alloc: Global) -> Result<Hash, Memory>
    ensures { IfOk result (λ made. made ≡ lenient) }
{
    let mut made = Hash::new(alloc);
    set(alloc, &mut made, "strict_variables", Value::Bool(false))?;
    set(alloc, &mut made, "strict_filters", Value::Bool(false))?;
    Ok(made)
}

// The value of a key, or another where it is absent or nil.
fn given_or(alloc: Global, other: Value, config: &Config, key: &str) -> Result<Value, Memory>
    ensures { IfOk result (λ value. plain value ≡ given_or (plain other) config.now key.now) }
{
    match config.all.get(key) {
        None | Some(Value::Nil) => Ok(other),
        Some(value) => copy(alloc, value),
    }
}

fn set_text(alloc: Global, made: &mut Hash, name: &str, value: &Text) -> Result<(), Memory>
    ensures { OnOk result (made.new ≡ set name.now (text value.now) made.old) }
{
    set(alloc, made, name, Value::Text(value.share(alloc)?))
}

fn set_list(alloc: Global, made: &mut Hash, name: &str, texts: &TextList) -> Result<(), Memory>
    ensures { OnOk result (made.new ≡ set name.now (list (text_items texts.now)) made.old) }
{
    let list = list_of(alloc, texts.as_slice())?;
    set(alloc, made, name, Value::List(list))
}

fn list_of(alloc: Global, texts: &[Text]) -> Result<List, Memory>
    ensures { IfOk result (λ made. made ≡ text_items texts.now) }
{
    let mut list = List::with_capacity(alloc, texts.len())?;
    for text in texts {
        list.push(Value::Text(text.share(alloc)?))?;
    }
    Ok(list)
}

/// Sets the value of a name.
pub(crate) fn set(alloc: Global, made: &mut Hash, name: &str, value: Value) -> Result<(), Memory>
    ensures { OnOk result (made.new ≡ set name.now (plain value) made.old) }
{
    made.set(Text::copy(alloc, name)?, value)
}
