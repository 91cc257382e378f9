// Configurations out of texts.
ghost use Rattle.std.specs.Prelude.{◌≡◌, IfOk};
ghost use Rattle.std.specs.Option.{option_copied};
ghost use Rattle.front_yaml.specs.Given.{ReadsLines};
ghost use Rattle.site_dates.specs.Offset.{IsOffset};
ghost use Rattle.site_config.specs.Texts.{mapping, Configures, IsConfigured};

use crate::config::Config;
use crate::config_error::ConfigError;
use crate::value_error::ValueError;
use crate::values::config_of;
use front_yaml::{YamlError, read_mapping};
use site_base::{Hash, Value};
use std::alloc::Global;

/// The configuration of a text, or of no text the defaults.
///
/// `Yaml` comes exactly where the text is no mapping in the YAML subset, with its first fault. `Key` comes exactly
/// where a key of the table has a value of another form, with the first such key in the table's order.
pub fn read_config(alloc: Global, text: Option<&str>) -> Result<Config, ConfigError>
    ensures read { Configures (option_copied text.entry) result }
    ensures offset { IfOk result (λ config. IsOffset config.timezone) }
{
    match mapping_of(alloc, text) {
        Ok(all) => config_in(alloc, all),
        Err(YamlError::Fault(fault)) => Err(ConfigError::Yaml(fault)),
        Err(YamlError::Memory) => Err(ConfigError::Memory),
    }
}

fn mapping_of(alloc: Global, text: Option<&str>) -> Result<Hash, YamlError>
    ensures { ReadsLines result (mapping (option_copied text.entry)) }
{
    match text {
        Some(text) => read_mapping(alloc, text),
        None => Ok(Hash::new(alloc)),
    }
}

fn config_in(alloc: Global, all: Hash) -> Result<Config, ConfigError>
    ensures read { IsConfigured all result }
    ensures offset { IfOk result (λ config. IsOffset config.timezone) }
{
    match config_of(alloc, Value::Hash(all)) {
        Ok(config) => Ok(config),
        Err(ValueError::Key(key)) => Err(ConfigError::Key(key)),
        Err(ValueError::NotMapping) => unreachable!(),
        Err(ValueError::Memory) => Err(ConfigError::Memory),
    }
}
