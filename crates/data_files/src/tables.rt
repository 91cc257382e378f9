// Texts of records.
ghost use Rattle.std.specs.Prelude.{◌≡◌, [], IfOk, IsOkAnd, OnOk, MatchResult, Some, length, slice_get};
ghost use Rattle.std.specs.Option.{option_copied};
ghost use Rattle.csv.specs.Records.{fields_of};
ghost use Rattle.site_base.specs.View.{plain};
ghost use Rattle.data_files.specs.Readings.{with_last};
ghost use Rattle.data_files.specs.Tables.{FoundNone, IsNoTable, IsTable, table_of};
ghost use Rattle.data_files.specs.Columns.{seen, placed, place_set, picked, with_field, row_of, text_or_nil, GoesOn};

use crate::refusal::Refusal;
use csv::{ReaderBuilder, StringRecord};
use indexmap::IndexMap;
use site_base::{Hash, List, Memory, Text, Value};
use std::alloc::Global;

/// The value of a text of comma-separated records, as RFC 4180 has them: a list with a hash for each record behind
/// the first, from the names that the first has to the record's texts. The later of two equal names counts.
///
/// `Refused` comes exactly where a record has another number of fields than the first.
pub fn read_csv(alloc: Global, text: &str) -> Result<Value, Refusal>
    ensures { MatchResult result
        (λ value. table_of 44 text.now ≡ Some (plain value))
        (λ error. IsNoTable error 44 text.now) }
{
    read_table(alloc, text.as_bytes(), b',')
}

/// The same of records with tabs between their fields.
pub fn read_tsv(alloc: Global, text: &str) -> Result<Value, Refusal>
    ensures { MatchResult result
        (λ value. table_of 9 text.now ≡ Some (plain value))
        (λ error. IsNoTable error 9 text.now) }
{
    read_table(alloc, text.as_bytes(), b'\t')
}

fn read_table(alloc: Global, text: &[u8], separator: u8) -> Result<Value, Refusal>
    ensures { MatchResult result
        (λ value. table_of separator text.now ≡ Some (plain value))
        (λ error. IsNoTable error separator text.now) }
{
    match read_records(alloc, text, separator) {
        Ok(value) => Ok(value),
        Err(error) => Err(error),
    }
}

fn read_records(alloc: Global, text: &[u8], separator: u8) -> Result<Value, Refusal>
    ensures { MatchResult result
        (λ value. IsTable separator text.now (Some (plain value)))
        (λ error. FoundNone error separator text.now) }
{
    let rdr = ReaderBuilder::new()
        .has_headers(false)
        .flexible(true)
        .delimiter(separator)
        .from_reader(alloc, text);
    let mut table = Table::Empty;
    for row in rdr.into_records() {
        table = with_read(alloc, table, row)?;
    }
    match table {
        Table::Empty => Ok(Value::List(List::new(alloc))),
        Table::Rows(_, rows) => match rows {
            Some(rows) => Ok(Value::List(rows)),
            None => Err(Refusal::Refused),
        },
    }
}

/// What the records of a text make, up to a place.
#[derive(Drop)]
enum Table {
    Empty,
    /// The first record's columns, and the hashes of those behind it; none where one had another number of fields.
    Rows(Columns, Option<List>),
}

/// The columns of a table.
#[derive(Drop)]
struct Columns {
    /// How many fields the first record has.
    count: usize,
    /// The place of the field that counts, by the column's name.
    places: IndexMap<String, usize>,
}

// The table with what a reader found next.
fn with_read(
    alloc: Global,
    table: Table,
    row: Result<StringRecord, csv::Error>,
) -> Result<Table, Memory>
    ensures { IfOk result (λ made. IsOkAnd row (λ found. GoesOn table (fields_of found) made)) }
{
    match row {
        Ok(row) => with_record(alloc, table, &row),
        // The bytes are text and lie in memory, and records may differ in length here.
        Err(_) => Err(Memory),
    }
}

// The table with one more record.
fn with_record(alloc: Global, table: Table, row: &StringRecord) -> Result<Table, Memory>
    ensures { IfOk result (GoesOn table (fields_of row.now)) }
{
    match table {
        Table::Empty => Ok(Table::Rows(columns_of(alloc, row)?, Some(List::new(alloc)))),
        Table::Rows(columns, list) => {
            let list = with_row(alloc, &columns, list, row)?;
            Ok(Table::Rows(columns, list))
        }
    }
}

fn columns_of(alloc: Global, names: &StringRecord) -> Result<Columns, Memory>
    ensures count { IfOk result (λ columns. columns.count ≡ length (fields_of names.now)) }
    ensures places { IfOk result (λ columns. seen columns.places.entries ≡ placed (fields_of names.now) 0 []) }
{
    let mut places = IndexMap::new(alloc);
    for place in 0..names.len() {
        set_place(alloc, &mut places, names.get(place), place)?;
    }
    Ok(Columns {
        count: names.len(),
        places,
    })
}

// Gives a name this place in place of one that it has.
fn set_place(
    alloc: Global,
    places: &mut IndexMap<String, usize>,
    name: Option<&str>,
    place: usize,
) -> Result<(), Memory>
    ensures { OnOk result (seen places.new.entries ≡ place_set (option_copied name.entry) place (seen places.old.entries)) }
{
    if let Some(name) = name {
        places.insert(String::from_str(alloc, name)?, place)?;
    }
    Ok(())
}

// The rows with one more, where each has as many fields as there are columns.
fn with_row(
    alloc: Global,
    columns: &Columns,
    list: Option<List>,
    row: &StringRecord,
) -> Result<Option<List>, Memory>
    ensures { IfOk result (λ made. made ≡ with_last list (row_of columns.now.count (seen columns.now.places.entries) (fields_of row.now))) }
{
    match list {
        Some(mut list) if row.len() == columns.count => {
            list.push(Value::Hash(hash_of(alloc, &columns.places, row)?))?;
            Ok(Some(list))
        }
        _ => Ok(None),
    }
}

// The hash from the names to the fields of a row.
fn hash_of(
    alloc: Global,
    places: &IndexMap<String, usize>,
    row: &StringRecord,
) -> Result<Hash, Memory>
    ensures { IfOk result (λ hash. hash ≡ picked (fields_of row.now) (seen places.now.entries)) }
{
    let mut hash = Hash::with_capacity(alloc, places.len())?;
    for column in 0..places.len() {
        push_field(alloc, &mut hash, places, column, row)?;
    }
    Ok(hash)
}

// Adds the field of a column to a hash.
fn push_field(
    alloc: Global,
    hash: &mut Hash,
    places: &IndexMap<String, usize>,
    column: usize,
    row: &StringRecord,
) -> Result<(), Memory>
    ensures { OnOk result (hash.new ≡ with_field (fields_of row.now) (slice_get (seen places.now.entries) column) hash.old) }
{
    if let Some((name, place)) = places.get_index(column) {
        let field = text_of(alloc, row.get(*place))?;
        hash.push(Text::copy(alloc, name.as_str())?, field)?;
    }
    Ok(())
}

fn text_of(alloc: Global, field: Option<&str>) -> Result<Value, Memory>
    ensures { IfOk result (λ text. plain text ≡ text_or_nil (option_copied field.entry)) }
{
    match field {
        Some(field) => Ok(Value::Text(Text::copy(alloc, field)?)),
        None => Ok(Value::Nil),
    }
}
