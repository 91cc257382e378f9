// The data tree.
ghost use Rattle.std.specs.Prelude.{◌≡◌, IfErr, IfOk, MatchResult, Ok, OnOk, map};
ghost use Rattle.std.specs.Option.{option_map};
ghost use Rattle.site_base.specs.Path.{segments};
ghost use Rattle.site_base.specs.Plain.{get, set, taken};
ghost use Rattle.site_base.specs.View.{plain};
ghost use Rattle.site_reader.specs.Data.{add_data, add_file, data_names, data_tree, data_value, pairs_or_none, text_answer, with_found, with_value};
ghost use Rattle.site_reader.specs.Found.{IsFirst, in_file};
ghost use Rattle.site_reader.specs.Placing.{seen};

use crate::placed_file::PlacedFile;
use crate::site_error::{SiteError, fault_at};
use crate::texts::as_text;
use data_files::{DataError, is_data, read_data};
use site_base::{FaultKind, Hash, Memory, SitePath, Text, Value};
use site_files::Place;
use site_items::{behind, cut_at, without_extension};
use std::alloc::Global;

/// The values of the data files, under their folders and names.
pub(crate) fn data_tree(alloc: Global, files: &[PlacedFile]) -> Result<Hash, SiteError>
    ensures { let found = data_tree (map seen files.entry.now) in
        MatchResult result (λ tree. found ≡ Ok tree) (IsFirst found) }
{
    let mut tree = Hash::new(alloc);
    for file in files {
        add_data(alloc, file, &mut tree)?;
    }
    Ok(tree)
}

fn add_data(alloc: Global, file: &PlacedFile, tree: &mut Hash) -> Result<(), SiteError>
    ensures { let found = add_data (seen file.entry.now) tree.old in
        MatchResult result (λ _. found ≡ Ok tree.new) (IsFirst found) }
{
    match file.place {
        Place::Data => add_file(alloc, file.path, file.content.bytes().as_slice(), tree),
        _ => Ok(()),
    }
}

fn add_file(alloc: Global, path: &SitePath, bytes: &[u8], tree: &mut Hash) -> Result<(), SiteError>
    ensures { let found = add_file (path.now, bytes.now) tree.old in
        MatchResult result (λ _. found ≡ Ok tree.new) (IsFirst found) }
{
    match read_file(alloc, path, bytes) {
        Ok(Some(value)) => {
            put_value(
                alloc,
                tree,
                without_extension(behind("_data/", path.text())),
                value,
            )?;
            Ok(())
        }
        Ok(None) => Ok(()),
        Err(error) => Err(error),
    }
}

// The value of a data file; nothing for other files.
fn read_file(alloc: Global, path: &SitePath, bytes: &[u8]) -> Result<Option<Value>, SiteError>
    ensures { let found = data_value path.now bytes.now in
        MatchResult result (λ made. found ≡ Ok (option_map plain made)) (IsFirst (in_file path.now found)) }
{
    if !is_data(path) {
        return Ok(None);
    }
    match as_text(bytes) {
        Some(text) => read_data_text(alloc, path, text),
        None => Err(fault_at(alloc, path, 0, FaultKind::NotUtf8)),
    }
}

fn read_data_text(alloc: Global, path: &SitePath, text: &str) -> Result<Option<Value>, SiteError>
    ensures { let found = text_answer path.now text.now in
        MatchResult result (λ made. found ≡ Ok (option_map plain made)) (IsFirst (in_file path.now found)) }
{
    match read_data(alloc, path, text) {
        Ok(value) => Ok(value),
        Err(DataError::Yaml(fault)) => {
            Err(fault_at(alloc, path, fault.line, FaultKind::Yaml(fault.kind)))
        }
        Err(DataError::Refused) => Err(fault_at(alloc, path, 0, FaultKind::Data)),
        Err(DataError::Memory) => Err(SiteError::Memory),
    }
}

// Puts a value under names, `/` between them.
fn put_value(alloc: Global, tree: &mut Hash, names: &str, value: Value) -> Result<(), Memory>
    ensures { OnOk result (tree.new ≡ with_value (segments names.now) (plain value) tree.old) }
{
    match cut_at(names, '/') {
        None => set(alloc, tree, names, value),
        Some((folder, rest)) => {
            let mut inside = take_hash(alloc, tree, folder)?;
            put_value(alloc, &mut inside, rest, value)?;
            set(alloc, tree, folder, Value::Hash(inside))
        }
    }
}

fn set(alloc: Global, tree: &mut Hash, key: &str, value: Value) -> Result<(), Memory>
    ensures { OnOk result (tree.new ≡ set key.now (plain value) tree.old) }
{
    tree.set(Text::copy(alloc, key)?, value)
}

// Takes the hash at a key out, so that it is not copied; an empty one where another value or none is.
fn take_hash(alloc: Global, tree: &mut Hash, key: &str) -> Result<Hash, Memory>
    ensures taken { IfOk result (λ inside. inside ≡ pairs_or_none (get key.now tree.old)) }
    ensures left { OnOk result (tree.new ≡ taken key.now tree.old) }
{
    match tree.take(key)? {
        Some(Value::Hash(inside)) => Ok(inside),
        _ => Ok(Hash::new(alloc)),
    }
}
