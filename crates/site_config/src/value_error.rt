// Why a value is no configuration.
ghost use Rattle.std.specs.Prelude.{◌≡◌, ◌⊎◌};
ghost use Rattle.site_config.specs.declared.value_error.ValueError.TheVariants as value_error;

use site_base::{Memory, Text};
use std::alloc::Global;

/// Why a value is no configuration.
#[derive(Drop)]
pub enum ValueError {
    /// It is neither a mapping nor nil.
    NotMapping,
    /// The first key, in the table's order, whose value has another form than the table asks.
    Key(Text),
    /// Memory was wanting.
    Memory,
}

impl From<Memory> for ValueError {
    ghost use Rattle.std.specs.Prelude.{◌≡◌};
    ghost use Rattle.site_config.specs.declared.value_error.ValueError.TheVariants as value_error;

    ghost from_gives = { λ _ error. error ≡ value_error.Memory };

    fn from(_: Memory) -> ValueError {
        ValueError::Memory
    }
}

impl ValueError {
    pub(crate) fn key(alloc: Global, key: &str) -> ValueError
        ensures { (result ≡ value_error.Memory) ⊎ (result ≡ value_error.Key key.now) }
    {
        match Text::copy(alloc, key) {
            Ok(key) => ValueError::Key(key),
            Err(Memory) => ValueError::Memory,
        }
    }
}
