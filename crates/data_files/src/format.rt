// The formats of data files, by name.

/// How the text of a data file is written.
#[derive(Clone, Copy, PartialEq, Eq)]
pub enum Format {
    Yaml,
    Json,
    Csv,
    Tsv,
}
