// What stands in lists and hashes.
ghost use Rattle.std.specs.Prelude.{◌≡◌, ◌↔◌, ◌<◌, IsTrue, Some, slice_get};
ghost use Rattle.std.specs.Option.{option_copied, option_map};
ghost use Rattle.site_base.specs.Plain.{count, count_pairs, get, item_list};
ghost use Rattle.site_base.specs.View.{plain, items_of, pairs_of};

use crate::value::{HashPlace, ListPlace};
use crate::{Hash, List, Pair, Value};

impl List {
    #[tactic(auto, using(crate::proofs::ValueLaws::count_length))]
    pub fn len(&self) -> u64
        ensures { result ≡ count self.now }
    {
        self.as_slice().len() as u64
    }

    #[tactic(auto, using(crate::proofs::ValueLaws::count_length))]
    pub fn is_empty(&self) -> bool
        ensures { IsTrue result ↔ (count self.now ≡ 0) }
    {
        self.as_slice().is_empty()
    }

    /// The value at a place, counted from 0.
    #[tactic(auto, using(crate::proofs::ValueLaws::count_length, crate::proofs::ValueLaws::item_at))]
    pub fn at(&self, place: u64) -> &Value
        requires { place < count self.now }
        ensures { slice_get (item_list self.now) place ≡ Some (plain result.now) }
    {
        &self.as_slice()[place as usize]
    }

    /// The values in their order.
    pub fn as_slice(&self) -> &[Value]
        ensures { items_of result.now ≡ self.now }
    {
        match &self.place {
            ListPlace::Nowhere => &[],
            ListPlace::Own(items) => items.as_slice(),
            ListPlace::Shared(items) => items.as_slice(),
        }
    }
}

impl Hash {
    #[tactic(auto, using(crate::proofs::ValueLaws::count_pairs_length))]
    pub fn len(&self) -> u64
        ensures { result ≡ count_pairs self.now }
    {
        self.as_slice().len() as u64
    }

    #[tactic(auto, using(crate::proofs::ValueLaws::count_pairs_length))]
    pub fn is_empty(&self) -> bool
        ensures { IsTrue result ↔ (count_pairs self.now ≡ 0) }
    {
        self.as_slice().is_empty()
    }

    /// The pairs in their order.
    pub fn as_slice(&self) -> &[Pair]
        ensures { pairs_of result.now ≡ self.now }
    {
        match &self.place {
            HashPlace::Nowhere => &[],
            HashPlace::Own(body) => body.as_slice(),
            HashPlace::Shared(body) => body.as_slice(),
        }
    }

    /// The value of the first pair with the key; `None` exactly where no pair has it.
    pub fn get(&self, key: &str) -> Option<&Value>
        ensures { option_map plain (option_copied result) ≡ get key.now self.now }
    {
        match &self.place {
            HashPlace::Nowhere => None,
            HashPlace::Own(body) => body.get(key),
            HashPlace::Shared(body) => body.get(key),
        }
    }
}
