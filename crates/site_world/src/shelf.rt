// Values that are made once, by their names.
ghost use Rattle.std.specs.Prelude.{◌≡◌, ℕ, List, OnOk, Some, None, if◌then◌else◌};
ghost use Rattle.std.specs.Option.{option_copied, option_or};
ghost use Rattle.std.specs.Str.{bytes_eq};

use crate::coded::Coded;
use site_base::Memory;
use std::alloc::Global;
use std::collections::BTreeMap;

/// Values by their names, each with its code.
#[derive(Drop)]
pub(crate) struct Shelf {
    values: BTreeMap<String, Coded>,
}

impl Shelf {
    ghost use Rattle.site_world.specs.Shelves.{shelved};

    pub(crate) fn new(alloc: Global) -> Shelf
        ensures { (x : List ℕ) → shelved result x ≡ None }
    {
        Shelf {
            values: BTreeMap::new(alloc),
        }
    }

    /// The value under a name.
    pub(crate) fn find(&self, name: &str) -> Option<&Coded>
        ensures { option_copied result ≡ shelved self.now name.now }
    {
        self.values.get(name)
    }

    /// Puts a value under a name where none stands there.
    pub(crate) fn add(&mut self, alloc: Global, name: &str, value: Coded) -> Result<(), Memory>
        ensures { OnOk result ((x : List ℕ) → shelved self.new x ≡ option_or (shelved self.old x) (if bytes_eq name.now x then Some value else None)) }
    {
        match self.find(name) {
            Some(_first) => Ok(()),
            None => self.put(alloc, name, value),
        }
    }

    fn put(&mut self, alloc: Global, name: &str, value: Coded) -> Result<(), Memory>
        ensures { OnOk result ((x : List ℕ) → shelved self.new x ≡ (if bytes_eq name.now x then Some value else shelved self.old x)) }
    {
        let name = String::from_str(alloc, name)?;
        match self.values.insert(name, value) {
            Ok(_) => Ok(()),
            Err(_) => Err(Memory),
        }
    }
}
