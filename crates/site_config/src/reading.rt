// The fields of a configuration, read from its mapping.
ghost use Rattle.std.specs.Prelude.{◌≡◌, ◌++◌, [], map, IfOk};
ghost use Rattle.site_base.specs.View.{plain};
ghost use Rattle.site_dates.specs.Offset.{IsOffset};
ghost use Rattle.site_config.specs.Forms.{given};
ghost use Rattle.site_config.specs.Config.{config, text_or, optional_text, texts_or, flag, count_of, offset_of, pairs_in, excluded};

use crate::config::Config;
use crate::names::{names_of, with_texts};
use crate::parts::{Addresses, Breaks, Choices, Documents, Generated};
use crate::settings::setting;
use site_base::{Hash, Memory, Text, TextList, Value};
use site_dates::read_offset;
use std::alloc::Global;

pub(crate) const INCLUDED: [&str; 1] = [".htaccess"];

pub(crate) const KEPT: [&str; 2] = [".git", ".svn"];

// Bundler's files, and folders that tools keep.
const EXCLUDED: [&str; 10] = [
    "Gemfile",
    "Gemfile.lock",
    "node_modules",
    "vendor/bundle",
    "vendor/cache",
    "vendor/gems",
    "vendor/ruby",
    ".sass-cache",
    ".jekyll-cache",
    "gemfiles",
];

/// The configuration that a mapping is, whose values have their forms.
pub(crate) fn read(alloc: Global, value: Value) -> Result<Config, Memory>
    ensures made { IfOk result (λ made. made ≡ config (plain value)) }
    ensures offset { IfOk result (λ made. IsOffset made.timezone) }
{
    let all = Some(&value);
    let addresses = Addresses::read(alloc, all)?;
    let choices = Choices::read(alloc, all)?;
    let documents = Documents::read(alloc, all)?;
    let breaks = Breaks::read(alloc, all)?;
    let generated = Generated::read(alloc, all)?;
    Ok(Config {
        baseurl: addresses.baseurl,
        url: addresses.url,
        permalink: addresses.permalink,
        markdown_ext: addresses.markdown_ext,
        include: choices.include,
        exclude: choices.exclude,
        keep_files: choices.keep_files,
        collections: documents.collections,
        defaults: documents.defaults,
        paginate: count_of(setting("paginate", all)),
        paginate_path: breaks.paginate_path,
        excerpt_separator: breaks.excerpt_separator,
        timezone: offset_of(setting("timezone", all)),
        future: flag(setting("future", all)),
        unpublished: flag(setting("unpublished", all)),
        show_drafts: flag(setting("show_drafts", all)),
        make_archives: generated.make_archives,
        archive_layout: generated.archive_layout,
        make_feed: generated.make_feed,
        make_sitemap: generated.make_sitemap,
        all: into_hash(alloc, value),
    })
}

pub(crate) fn text_or(alloc: Global, other: &str, value: Option<&Value>) -> Result<Text, Memory>
    ensures { IfOk result (λ text. text ≡ text_or other.now (given value.entry)) }
{
    match value {
        Some(Value::Text(text)) => Text::copy(alloc, text.as_str()),
        _ => Text::copy(alloc, other),
    }
}

pub(crate) fn optional_text(alloc: Global, value: Option<&Value>) -> Result<Option<Text>, Memory>
    ensures { IfOk result (λ text. text ≡ optional_text (given value.entry)) }
{
    match value {
        Some(Value::Text(text)) => Ok(Some(Text::copy(alloc, text.as_str())?)),
        _ => Ok(None),
    }
}

pub(crate) fn texts_or(
    alloc: Global,
    others: &[&str],
    value: Option<&Value>,
) -> Result<TextList, Memory>
    ensures { IfOk result (λ names. names ≡ texts_or (map (λ t. t.now) others.now) (given value.entry)) }
{
    match value {
        Some(Value::List(list)) => with_texts(alloc, TextList::new(alloc), list),
        _ => names_of(alloc, others),
    }
}

// Paths that never are source files, and those that are given.
pub(crate) fn excluded(alloc: Global, value: Option<&Value>) -> Result<TextList, Memory>
    ensures { IfOk result (λ names. names ≡ excluded ++ texts_or [] (given value.entry)) }
{
    let names = names_of(alloc, &EXCLUDED)?;
    match value {
        Some(Value::List(list)) => with_texts(alloc, names, list),
        _ => Ok(names),
    }
}

pub(crate) fn flag(value: Option<&Value>) -> bool
    ensures { result ≡ flag (given value.entry) }
{
    matches!(value, Some(Value::Bool(true)))
}

fn count_of(value: Option<&Value>) -> Option<u64>
    ensures { result ≡ count_of (given value.entry) }
{
    match value {
        Some(Value::Int(number)) if *number >= 1 => Some(number.unsigned_abs()),
        _ => None,
    }
}

fn offset_of(value: Option<&Value>) -> i32
    ensures is { result ≡ offset_of (given value.entry) }
    ensures range { IsOffset result }
{
    match value {
        Some(Value::Text(text)) => read_offset(text.as_str()).unwrap_or(0),
        _ => 0,
    }
}

pub(crate) fn into_hash(alloc: Global, value: Value) -> Hash
    ensures { result ≡ pairs_in (plain value) }
{
    match value {
        Value::Hash(hash) => hash,
        _ => Hash::new(alloc),
    }
}

/// A copy of a hash, and of anything else no pairs.
pub(crate) fn copy_hash(alloc: Global, value: Option<&Value>) -> Result<Hash, Memory>
    ensures { IfOk result (λ hash. hash ≡ pairs_in (given value.entry)) }
{
    match value {
        Some(Value::Hash(hash)) => hash.share(alloc),
        _ => Ok(Hash::new(alloc)),
    }
}
