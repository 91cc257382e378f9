// Collections and copied files as hashes.
ghost use Rattle.std.specs.Prelude.{◌≡◌, ◌∷◌, IfOk, OnOk, length};
ghost use Rattle.site_base.specs.Plain.{list, no_pairs, onto_pairs, pair, text};
ghost use Rattle.site_base.specs.View.{plain};
ghost use Rattle.site_items.specs.Defaults.{set_all};
ghost use Rattle.site_variables.specs.Choosing.{ArePlaced};
ghost use Rattle.site_variables.specs.Hashes.{collection_with, collections_from, copied, documents_from};
ghost use Rattle.site_variables.specs.Lists.{each};

use site_base::{Hash, List, Memory, Text, Value};
use site_config::Collection;
use site_files::{extension, file_name, stem};
use site_items::StaticFile;
use site_reader::Site;
use std::alloc::Global;

/// The files that are copied, as hashes.
pub(crate) fn static_files(alloc: Global, files: &[StaticFile]) -> Result<List, Memory>
    ensures { IfOk result (λ made. made ≡ each copied files.now) }
{
    let mut list = List::with_capacity(alloc, files.len())?;
    for file in files {
        list.push(copied(alloc, file)?)?;
    }
    Ok(list)
}

fn copied(alloc: Global, file: &StaticFile) -> Result<Value, Memory>
    ensures { IfOk result (λ made. plain made ≡ copied file.now) }
{
    let name = file_name(file.path.text());
    let mut hash = Hash::with_capacity(alloc, 4)?;
    push(
        alloc,
        &mut hash,
        "path",
        Value::Text(file.url.share(alloc)?),
    )?;
    push_text(alloc, &mut hash, "name", name)?;
    push_text(alloc, &mut hash, "basename", stem(name))?;
    push_text(alloc, &mut hash, "extname", extension(name))?;
    Ok(Value::Hash(hash))
}

/// The collections of a site as hashes, where these are their documents.
pub(crate) fn collections(alloc: Global, site: &Site, documents: &[List]) -> Result<List, Memory>
    requires { ArePlaced site.now.items (length site.now.config.collections) documents.now }
    ensures { IfOk result (λ made. made ≡ collections_from site.now.items 0 site.now.config.collections) }
{
    let collections = site.config.collections.as_slice();
    let mut list = List::with_capacity(alloc, collections.len())?;
    for (place, collection) in collections.iter().enumerate() {
        list.push(collection_with(alloc, collection, &documents[place])?)?;
    }
    Ok(list)
}

fn collection_with(
    alloc: Global,
    collection: &Collection,
    documents: &List,
) -> Result<Value, Memory>
    ensures { IfOk result (λ made. plain made ≡ collection_with (list documents.now) collection.now) }
{
    let mut hash = Hash::with_capacity(alloc, 3)?;
    push_text(alloc, &mut hash, "label", collection.name.as_str())?;
    push(alloc, &mut hash, "output", Value::Bool(collection.output))?;
    push(
        alloc,
        &mut hash,
        "docs",
        Value::List(documents.share(alloc)?),
    )?;
    Ok(Value::Hash(hash))
}

/// Sets the names of collections, each to its documents.
pub(crate) fn set_documents(
    alloc: Global,
    made: &mut Hash,
    site: &Site,
    documents: &[List],
) -> Result<(), Memory>
    requires { ArePlaced site.now.items (length site.now.config.collections) documents.now }
    ensures { OnOk result (made.new ≡ set_all (documents_from site.now.items 0 site.now.config.collections) made.old) }
{
    let collections = site.config.collections.as_slice();
    for (place, collection) in collections.iter().enumerate() {
        let list = documents[place].share(alloc)?;
        made.set(collection.name.share(alloc)?, Value::List(list))?;
    }
    Ok(())
}

fn push_text(alloc: Global, hash: &mut Hash, key: &str, shown: &str) -> Result<(), Memory>
    ensures { OnOk result (hash.new ≡ onto_pairs hash.old (pair key.now (text shown.now) no_pairs)) }
{
    push(alloc, hash, key, Value::Text(Text::copy(alloc, shown)?))
}

fn push(alloc: Global, hash: &mut Hash, key: &str, value: Value) -> Result<(), Memory>
    ensures { OnOk result (hash.new ≡ onto_pairs hash.old (pair key.now (plain value) no_pairs)) }
{
    hash.push(Text::copy(alloc, key)?, value)
}
