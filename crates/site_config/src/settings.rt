// The values of keys.
ghost use Rattle.std.specs.Prelude.{◌≡◌};
ghost use Rattle.site_config.specs.Forms.{given, setting};

use site_base::Value;

/// The value of a key in a hash, where it has one.
pub(crate) fn setting<'v>(key: &str, value: Option<&'v Value>) -> Option<&'v Value>
    ensures { given result ≡ setting key.now (given value.entry) }
{
    match value {
        Some(Value::Hash(hash)) => hash.get(key),
        _ => None,
    }
}
