// The first places of texts.
ghost use Rattle.std.specs.Prelude.{◌≡◌, ℕ, List, IfOk, OnOk, Some, if◌then◌else◌};
ghost use Rattle.std.specs.Str.{bytes_eq};
ghost use Rattle.site_reader.specs.FirstPlaces.{first_place, place_in};

use indexmap::IndexMap;
use site_base::{Memory, TextList};
use std::alloc::Global;
use std::marker::Model;

/// A list of texts whose first places are found by a hash. No text is copied.
#[derive(Drop)]
pub(crate) struct FirstPlaces<'a> {
    texts: &'a TextList,
    places: IndexMap<&'a str, u64>,
}

impl<'a> Model for FirstPlaces<'a> {
    ghost use Rattle.std.specs.Prelude.{◌≡◌, ℕ, List};
    ghost use Rattle.std.specs.List.{position_from};
    ghost use Rattle.std.specs.Str.{bytes_eq};
    ghost use Rattle.site_reader.specs.FirstPlaces.{place_in};

    ghost Value = { List (List ℕ) };

    ghost view = { λ f. f.texts.now };

    ghost invariant = { λ f. (x : List ℕ) → place_in f.places x ≡ position_from (λ t. bytes_eq t x) 0 f.texts.now };
}

impl<'a> FirstPlaces<'a> {
    pub(crate) fn of(alloc: Global, texts: &'a TextList) -> Result<FirstPlaces<'a>, Memory>
        ensures { IfOk result (λ made. made ≡ texts.now) }
    {
        let mut places = IndexMap::with_capacity(alloc, texts.len() as usize)?;
        // Backwards, so that of equal texts the first stays.
        for place in (0..texts.len()).rev() {
            put(&mut places, texts.at(place), place)?;
        }
        Ok(FirstPlaces { texts, places })
    }

    /// The first place of a text, or behind all places where it is not in the list.
    pub(crate) fn find(&self, text: &str) -> u64
        ensures { result ≡ first_place self.now text.now }
    {
        match self.places.get(text) {
            Some(place) => *place,
            None => self.texts.len(),
        }
    }
}

// Puts a place under a text, in place of what stands there.
fn put<'a>(places: &mut IndexMap<&'a str, u64>, text: &'a str, place: u64) -> Result<(), Memory>
    ensures { OnOk result ((x : List ℕ) → place_in places.new x ≡ (if bytes_eq text.now x then Some place else place_in places.old x)) }
{
    match places.insert(text, place) {
        Ok(_) => Ok(()),
        Err(_) => Err(Memory),
    }
}
