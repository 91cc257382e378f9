// What rounds answer.
ghost use Rattle.std.specs.Prelude.{◌≡◌};
ghost use Rattle.render_workers.specs.declared.answers.RoundError.TheVariants as error;

use read_record::{Key, Outcome};
use site_base::{ItemName, Memory, Sequence, SiteFault};

/// An item that was rendered anew.
#[derive(Drop)]
pub struct Why {
    pub name: ItemName,
    /// The first key that was not seen as before, or `None` where nothing was kept of the item.
    pub key: Option<Key>,
}

pub type Whys = Sequence<Why>;

pub type Outcomes = Sequence<Outcome>;

/// A round without a fault.
#[derive(Drop)]
pub struct Round {
    /// What each item came to, in render order.
    pub outs: Outcomes,
    /// How many items were not rendered anew.
    pub reused: u32,
    /// The others, in render order.
    pub why: Whys,
}

/// Why a round was not finished.
#[derive(Drop)]
pub enum RoundError {
    /// The first fault of rendering one item after another.
    Fault(SiteFault),
    Memory,
}

impl From<Memory> for RoundError {
    ghost from_gives = { λ _ made. made ≡ error.Memory };

    fn from(_: Memory) -> RoundError {
        RoundError::Memory
    }
}
