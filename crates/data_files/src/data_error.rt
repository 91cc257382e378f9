// Why a data file has no value.
use front_yaml::YamlFault;

/// Why a data file has no value.
#[derive(Clone, Copy, PartialEq, Eq)]
pub enum DataError {
    /// The text of a YAML file has no value; this is its first fault.
    Yaml(YamlFault),
    /// The text of a JSON, CSV or TSV file has no value.
    Refused,
    /// Memory was wanting.
    Memory,
}
