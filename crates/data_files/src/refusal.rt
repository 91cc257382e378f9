// Why a text has no value.
use site_base::Memory;

/// Why the text of a data file has no value.
#[derive(Clone, Copy, PartialEq, Eq)]
pub enum Refusal {
    /// The text has no reading, or one that no value has.
    Refused,
    /// Memory was wanting.
    Memory,
}

impl From<Memory> for Refusal {
    ghost use Rattle.std.specs.Prelude.{◌≡◌};
    ghost use Rattle.data_files.specs.declared.refusal.Refusal.TheVariants as refusal;

    ghost from_gives = { λ _ error. error ≡ refusal.Memory };

    fn from(_: Memory) -> Refusal {
        Refusal::Memory
    }
}
