// Values, as front matter, data and templates have them.
mod body;
mod coding;
mod equality;
mod growth;
mod index;
mod lookups;
mod matching;
mod room;
mod sharing;
mod writing;

use crate::{ItemName, Text};
pub use coding::code;
pub use equality::{Unlike, compare, equals, is_true};
pub use matching::same_code;
pub use sharing::copy;
use std::alloc::Global;
use std::collections::BTreeMap;
use std::marker::Model;
use std::sync::Arc;
pub use writing::value_text;

/// A value. Contracts see it as its plain tree.
#[derive(Drop)]
#[cycle(value)]
pub enum Value {
    Nil,
    Bool(bool),
    Int(i64),
    Text(Text),
    List(List),
    Hash(Hash),
    /// An item of the site, by its name.
    Item(ItemName),
    /// The whole numbers from the first end to the last.
    Range(i64, i64),
}

/// A list of values. Of one that was made by `into_shared` further holders take little more.
#[cycle(value)]
pub struct List {
    place: ListPlace,
    alloc: Global,
}

// Where the values of a list stand.
#[derive(Drop)]
#[cycle(value)]
enum ListPlace {
    Nowhere,
    Own(Box<Vec<Value>>),
    // With other holders, perhaps.
    Shared(Arc<Vec<Value>>),
}

/// A key of a hash, with its value.
#[derive(Drop)]
#[cycle(value)]
pub struct Pair {
    pub key: Text,
    pub value: Value,
}

/// Values by key, in an order. Where there are many that were set one by one, a look-up takes hardly longer than where there are
/// few, as long as few keys share a fingerprint. Of a hash that was made by `into_shared` further holders take little more.
#[cycle(value)]
pub struct Hash {
    place: HashPlace,
    alloc: Global,
}

// Where the pairs of a hash stand.
#[derive(Drop)]
#[cycle(value)]
enum HashPlace {
    Nowhere,
    Own(Box<HashBody>),
    // With other holders, perhaps.
    Shared(Arc<HashBody>),
}

// The pairs of a hash, and what finds one where many were set.
#[derive(Drop)]
#[cycle(value)]
pub(crate) struct HashBody {
    pairs: Vec<Pair>,
    // Nothing, or the place of the first pair with each fingerprint of a key.
    places: BTreeMap<u64, usize>,
}

const _: () = prove!(size_of::<List>() == 16 && size_of::<Hash>() == 16);

const _: () = prove!(size_of::<Value>() == 24);

const _: () = prove!(size_of::<Pair>() == 40);

// A call of its own, so that no proof goes by cases where a list is dropped.
impl Drop for List {
    #[cycle(value)]
    fn drop(self) {
        let List { place: _, alloc: _ } = self;
    }
}

// The same of a hash.
impl Drop for Hash {
    #[cycle(value)]
    fn drop(self) {
        let Hash { place: _, alloc: _ } = self;
    }
}

impl Model for List {
    ghost use Rattle.site_base.specs.Plain.{Items};
    ghost use Rattle.site_base.specs.Flat.{flat_items};

    ghost Value = { Items };

    ghost coded = { flat_items };

    ghost use Rattle.site_base.specs.View.{items_at};

    ghost view = { λ l. items_at l.place };

    ghost use Rattle.site_base.specs.Plain.{list_size};

    ghost size = { list_size };

    ghost use Rattle.site_base.specs.Sizes.{list_falls};

    ghost size_decreases = { λ a h. list_falls a.place };
}

impl Model for HashBody {
    ghost use Rattle.site_base.specs.Plain.{Pairs};
    ghost use Rattle.site_base.specs.Flat.{flat_pairs};

    ghost Value = { Pairs };

    ghost coded = { flat_pairs };

    ghost use Rattle.site_base.specs.View.{pairs_of};
    ghost use Rattle.site_base.specs.Fingerprints.{IsIndexed};

    ghost view = { λ b. pairs_of b.pairs.items };

    ghost invariant = { λ b. IsIndexed b.pairs.items b.places };

    ghost use Rattle.site_base.specs.Plain.{body_size};

    ghost size = { body_size };

    ghost use Rattle.site_base.specs.Sizes.{body_falls};

    ghost size_decreases = { λ a h. body_falls a.pairs.items };
}

impl Model for Hash {
    ghost use Rattle.site_base.specs.Plain.{Pairs};
    ghost use Rattle.site_base.specs.Flat.{flat_pairs};

    ghost Value = { Pairs };

    ghost coded = { flat_pairs };

    ghost use Rattle.site_base.specs.View.{pairs_at};

    ghost view = { λ h. pairs_at h.place };

    ghost use Rattle.site_base.specs.Plain.{hash_size};

    ghost size = { hash_size };

    ghost use Rattle.site_base.specs.Sizes.{hash_falls};

    ghost size_decreases = { λ a h. hash_falls a.place };
}
