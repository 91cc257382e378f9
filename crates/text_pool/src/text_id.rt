// What names a text of a pool.
ghost use Rattle.std.specs.Prelude.{◌≡◌};

use std::marker::Model;

/// What names a text of a pool. Clauses see its number.
///
/// A pool counts the ids that it gave out, and keeps a text until the last of its ids is given back. An id that is only dropped
/// stays counted.
#[derive(Drop)]
pub struct TextId {
    number: usize,
}

impl Model for TextId {
    ghost use Rattle.std.specs.Prelude.{ℕ};

    ghost Value = { ℕ };

    ghost view = { λ id. id.number };
}

impl TextId {
    pub(crate) fn of(number: usize) -> TextId
        ensures { result ≡ number }
    {
        TextId { number }
    }

    /// The number of the text in its pool.
    pub fn number(&self) -> usize
        ensures { result ≡ self.now }
    {
        self.number
    }
}
