// Why a text is no configuration.
use front_yaml::YamlFault;
use site_base::Text;

/// Why a text is no configuration.
#[derive(Drop)]
pub enum ConfigError {
    /// The text is no mapping in the YAML subset; this is its first fault.
    Yaml(YamlFault),
    /// The first key, in the table's order, whose value has another form than the table asks.
    Key(Text),
    /// Memory was wanting.
    Memory,
}
