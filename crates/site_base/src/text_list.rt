// Texts in an order.
ghost use Rattle.std.specs.Prelude.{◌≡◌, ◌↔◌, IsTrue, ◌++◌, ◌∷◌, [], ◌<◌, OnOk, OnErr, length, slice_get, Some};

use crate::{Memory, Sequence, Text};
use std::alloc::Global;
use std::marker::Model;

/// Texts in an order: a `Sequence` that copies what is added.
#[derive(Drop)]
pub struct TextList {
    texts: Sequence<Text>,
}

impl Model for TextList {
    ghost use Rattle.std.specs.Prelude.{List, ℕ};

    ghost Value = { List (List ℕ) };

    ghost view = { λ list. list.texts };
}

impl TextList {
    /// No texts; it takes no memory.
    pub fn new(alloc: Global) -> TextList
        ensures { result ≡ [] }
    {
        TextList {
            texts: Sequence::new(alloc),
        }
    }

    /// Adds a copy of a text at the end.
    pub fn push(&mut self, alloc: Global, text: &str) -> Result<(), Memory>
        ensures ok { OnOk result (self.new ≡ self.old ++ text.now ∷ []) }
        ensures err { OnErr result (self.new ≡ self.old) }
    {
        self.texts.push(Text::copy(alloc, text)?)
    }

    pub fn len(&self) -> u64
        ensures { result ≡ length self.now }
    {
        self.texts.len()
    }

    pub fn is_empty(&self) -> bool
        ensures { IsTrue result ↔ (length self.now ≡ 0) }
    {
        self.texts.is_empty()
    }

    /// The text at a place, counted from 0.
    pub fn at(&self, place: u64) -> &str
        requires { place < length self.now }
        ensures { slice_get self.now place ≡ Some result.now }
    {
        self.texts.at(place).as_str()
    }

    /// The texts in their order.
    pub fn as_slice(&self) -> &[Text]
        ensures { result.now ≡ self.now }
    {
        self.texts.as_slice()
    }
}
