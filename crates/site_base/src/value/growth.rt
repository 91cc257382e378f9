// Lists and hashes that grow.
ghost use Rattle.std.specs.Prelude.{◌≡◌, IfOk, OnOk, OnErr};
ghost use Rattle.std.specs.Option.{option_map};
ghost use Rattle.site_base.specs.Plain.{no_items, item, onto, no_pairs, pair, onto_pairs, get, set, taken};
ghost use Rattle.site_base.specs.View.{plain, items_of};

use crate::value::room::add;
use crate::value::{HashBody, HashPlace, ListPlace};
use crate::{Hash, List, Memory, Text, Value};
use std::alloc::Global;
use std::mem;

impl List {
    /// The empty list; it takes no memory.
    pub fn new(alloc: Global) -> List
        ensures { result ≡ no_items }
    {
        List {
            place: ListPlace::Nowhere,
            alloc,
        }
    }

    /// The empty list, with room for so many values: it takes no more memory until there are more.
    pub fn with_capacity(alloc: Global, values: usize) -> Result<List, Memory>
        ensures { IfOk result (λ list. list ≡ no_items) }
    {
        let items = Box::new(alloc, Vec::with_capacity(alloc, values)?)?;
        Ok(List {
            place: ListPlace::Own(items),
            alloc,
        })
    }

    /// Adds a value at the end. Other holders of the list keep theirs.
    #[tactic(auto, using(crate::proofs::ValueLaws::items_append))]
    pub fn push(&mut self, value: Value) -> Result<(), Memory>
        ensures ok { OnOk result (self.new ≡ onto self.old (item (plain value) no_items)) }
        ensures err { OnErr result (self.new ≡ self.old) }
    {
        let mut items = self.take_items()?;
        let added = add(&mut items, value);
        self.place = ListPlace::Own(items);
        added
    }

    // The values, to be changed and put back.
    fn take_items(&mut self) -> Result<Box<Vec<Value>>, Memory>
        ensures ok { IfOk result (λ items. items_of items.value.items ≡ self.old) }
        ensures err { OnErr result (self.new ≡ self.old) }
    {
        match mem::replace(&mut self.place, ListPlace::Nowhere) {
            ListPlace::Own(items) => Ok(items),
            place => {
                self.place = place;
                self.copied(self.alloc)
            }
        }
    }
}

impl Hash {
    /// The empty hash; it takes no memory.
    pub fn new(alloc: Global) -> Hash
        ensures { result ≡ no_pairs }
    {
        Hash {
            place: HashPlace::Nowhere,
            alloc,
        }
    }

    /// The empty hash, with room for so many pairs: they take no more memory, but for what finds them where they are many.
    pub fn with_capacity(alloc: Global, pairs: usize) -> Result<Hash, Memory>
        ensures { IfOk result (λ hash. hash ≡ no_pairs) }
    {
        let body = Box::new(alloc, HashBody::with_capacity(alloc, pairs)?)?;
        Ok(Hash {
            place: HashPlace::Own(body),
            alloc,
        })
    }

    /// Leaves room for so many more pairs and for no others, where what holds them can give room back: for hashes that are
    /// kept, since one that grows has room for up to twice its pairs. No clause tells of room; `bench/reader` measures it.
    pub fn fit(&mut self, more: usize) -> Result<(), Memory>
        ensures { self.new ≡ self.old }
    {
        let mut body = self.take_body()?;
        let fitted = body.fit(more);
        self.place = HashPlace::Own(body);
        fitted
    }

    /// Adds a pair at the end, and looks at no other: for keys that are known to differ. Other holders of the hash keep theirs.
    pub fn push(&mut self, key: Text, value: Value) -> Result<(), Memory>
        ensures ok { OnOk result (self.new ≡ onto_pairs self.old (pair key (plain value) no_pairs)) }
        ensures err { OnErr result (self.new ≡ self.old) }
    {
        let mut body = self.take_body()?;
        let added = body.push(key, value);
        self.place = HashPlace::Own(body);
        added
    }

    /// Gives the first pair with the key this value, or adds a pair at the end where there is none. Other holders of the hash
    /// keep theirs.
    pub fn set(&mut self, key: Text, value: Value) -> Result<(), Memory>
        ensures ok { OnOk result (self.new ≡ set key (plain value) self.old) }
        ensures err { OnErr result (self.new ≡ self.old) }
    {
        let mut body = self.take_body()?;
        let done = body.set(key, value);
        self.place = HashPlace::Own(body);
        done
    }

    /// Takes the value of the first pair with the key out, and leaves nil in its place; `None` exactly where no pair has the key.
    /// Other holders of the hash keep theirs: only where there may be some, memory may be wanting.
    pub fn take(&mut self, key: &str) -> Result<Option<Value>, Memory>
        ensures value { IfOk result (λ found. option_map plain found ≡ get key.now self.old) }
        ensures rest { OnOk result (self.new ≡ taken key.now self.old) }
        ensures err { OnErr result (self.new ≡ self.old) }
    {
        let mut body = self.take_body()?;
        let found = body.take(key);
        self.place = HashPlace::Own(body);
        Ok(found)
    }

    // The body, to be changed and put back.
    fn take_body(&mut self) -> Result<Box<HashBody>, Memory>
        ensures ok { IfOk result (λ body. body.value ≡ self.old) }
        ensures err { OnErr result (self.new ≡ self.old) }
    {
        match mem::replace(&mut self.place, HashPlace::Nowhere) {
            HashPlace::Own(body) => Ok(body),
            place => {
                self.place = place;
                self.copied(self.alloc)
            }
        }
    }
}
