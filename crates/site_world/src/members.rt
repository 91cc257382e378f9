// What stands below a value.
ghost use Rattle.std.specs.Prelude.{◌≡◌};
ghost use Rattle.site_base.specs.View.{items_of, plain};
ghost use Rattle.site_config.specs.Forms.{given, setting};
ghost use Rattle.site_world.specs.Sights.{member_of, under};

use site_base::Value;

/// The value below a value, under these keys one below the other.
pub(crate) fn under<'v>(keys: &[Value], value: Option<&'v Value>) -> Option<&'v Value>
    ensures { given result ≡ under (items_of keys.now) (given value.entry) }
{
    match keys {
        [] => value,
        [key, rest @ ..] => under(rest, member(key, value)),
    }
}

fn member<'v>(key: &Value, value: Option<&'v Value>) -> Option<&'v Value>
    ensures { given result ≡ member_of (plain key.now) (given value.entry) }
{
    match key {
        Value::Text(key) => setting(key.as_str(), value),
        _ => None,
    }
}

/// The member of a hash with this key.
pub(crate) fn setting<'v>(key: &str, value: Option<&'v Value>) -> Option<&'v Value>
    ensures { given result ≡ setting key.now (given value.entry) }
{
    match value {
        Some(Value::Hash(hash)) => hash.get(key),
        _ => None,
    }
}
