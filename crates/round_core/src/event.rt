// The events of a round.

/// One step of one worker. The first number is the worker, the second the item.
#[derive(Clone, Copy, Debug, PartialEq, Eq)]
pub enum Event {
    /// The worker claims the item.
    Claim(u32, u32),
    /// The worker takes note of what the item's cell holds.
    Take(u32, u32),
    /// The worker sets the item's cell to what is kept of it.
    Keep(u32, u32),
    /// The worker renders the item, and sets its cell to the new entry.
    Finish(u32, u32),
}
