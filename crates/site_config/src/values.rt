// Configurations out of values.
ghost use Rattle.std.specs.Prelude.{◌≡◌, IfOk, MatchResult};
ghost use Rattle.site_base.specs.View.{plain};
ghost use Rattle.site_dates.specs.Offset.{IsOffset};
ghost use Rattle.site_config.specs.Answers.{IsConfig, IsWrong};
ghost use Rattle.site_config.specs.Config.{is_mapping};

use crate::config::Config;
use crate::reading::read;
use crate::table::wrong_key;
use crate::value_error::ValueError;
use site_base::Value;
use std::alloc::Global;

/// The configuration that a value is: a mapping, or nil for an empty one.
///
/// A key of the table that is absent or nil has its default; any other value has to have its form. The first key
/// of the table whose value has not is the answer then.
pub fn config_of(alloc: Global, value: Value) -> Result<Config, ValueError>
    ensures read { MatchResult result (λ config. IsConfig config (plain value)) (λ error. IsWrong error (plain value)) }
    ensures offset { IfOk result (λ config. IsOffset config.timezone) }
{
    if !is_mapping(&value) {
        return Err(ValueError::NotMapping);
    }
    if let Some(key) = wrong_key(Some(&value)) {
        return Err(ValueError::key(alloc, key));
    }
    Ok(read(alloc, value)?)
}

fn is_mapping(value: &Value) -> bool
    ensures { result ≡ is_mapping (plain value.now) }
{
    matches!(value, Value::Nil | Value::Hash(_))
}
