// Data files.
ghost use Rattle.std.specs.Prelude.{◌≡◌, is_some};
ghost use Rattle.data_files.specs.Formats.{as_data, format, Reads, ReadsFile};
ghost use Rattle.data_files.specs.declared.format.Format.TheVariants as form;

use crate::data_error::DataError;
use crate::format::Format;
use crate::json_texts::read_json;
use crate::refusal::Refusal;
use crate::tables::{read_csv, read_tsv};
use front_yaml::{YamlError, read_yaml};
use site_base::{SitePath, Value};
use std::alloc::Global;

/// The value of a data file: YAML where its path ends in `.yml` or `.yaml`, and JSON, CSV or TSV where it ends in
/// `.json`, `.csv` or `.tsv`. `None` comes exactly for another path.
///
/// `Yaml` comes exactly where a YAML text has no value, with its first fault, and `Refused` exactly where another
/// text has none: `read_json`, `read_csv` and `read_tsv` say when.
pub fn read_data(alloc: Global, path: &SitePath, text: &str) -> Result<Option<Value>, DataError>
    ensures { ReadsFile (format path.now) text.now result }
{
    match format_of(path.as_bytes()) {
        Some(format) => Ok(Some(read_as(alloc, format, text)?)),
        None => Ok(None),
    }
}

/// Whether a path is one of a data file, by its end.
pub fn is_data(path: &SitePath) -> bool
    ensures { result ≡ is_some (format path.now) }
{
    format_of(path.as_bytes()).is_some()
}

fn format_of(path: &[u8]) -> Option<Format>
    ensures { result ≡ format path.now }
{
    if path.ends_with(b".yml".as_slice()) || path.ends_with(b".yaml".as_slice()) {
        Some(Format::Yaml)
    } else if path.ends_with(b".json".as_slice()) {
        Some(Format::Json)
    } else if path.ends_with(b".csv".as_slice()) {
        Some(Format::Csv)
    } else if path.ends_with(b".tsv".as_slice()) {
        Some(Format::Tsv)
    } else {
        None
    }
}

fn read_as(alloc: Global, format: Format, text: &str) -> Result<Value, DataError>
    ensures { Reads format text.now result }
{
    match format {
        Format::Yaml => read_yaml_file(alloc, text),
        Format::Json => refused(read_json(alloc, text)),
        Format::Csv => refused(read_csv(alloc, text)),
        Format::Tsv => refused(read_tsv(alloc, text)),
    }
}

fn read_yaml_file(alloc: Global, text: &str) -> Result<Value, DataError>
    ensures { Reads form.Yaml text.now result }
{
    match read_yaml(alloc, text) {
        Ok(value) => Ok(value),
        Err(YamlError::Fault(fault)) => Err(DataError::Yaml(fault)),
        Err(YamlError::Memory) => Err(DataError::Memory),
    }
}

fn refused(read: Result<Value, Refusal>) -> Result<Value, DataError>
    ensures { result ≡ as_data read }
{
    match read {
        Ok(value) => Ok(value),
        Err(Refusal::Refused) => Err(DataError::Refused),
        Err(Refusal::Memory) => Err(DataError::Memory),
    }
}
