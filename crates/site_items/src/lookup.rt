// Variables by their names.
ghost use Rattle.std.specs.Prelude.{◌≡◌};
ghost use Rattle.site_config.specs.Forms.{given};
ghost use Rattle.site_items.specs.Defaults.{variable};

use site_base::{Hash, Value};

/// The value of a variable, where it has one.
pub fn variable<'v>(vars: &'v Hash, name: &str) -> Option<&'v Value>
    ensures { given result ≡ variable name.now vars.entry.now }
{
    vars.get(name)
}
