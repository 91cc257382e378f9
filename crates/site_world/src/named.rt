// Things by their names.
ghost use Rattle.std.specs.Prelude.{◌≡◌, ℕ, List, Option, IfOk, OnOk, Some, None, if◌then◌else◌};
ghost use Rattle.std.specs.Option.{option_copied, option_or};
ghost use Rattle.std.specs.Str.{bytes_eq};

use indexmap::IndexMap;
use site_base::Memory;
use std::alloc::Global;

/// Things by their names, each found by a hash. None is copied.
#[derive(Drop)]
pub(crate) struct Named<'a, T> {
    values: IndexMap<&'a str, &'a T>,
}

impl<'a, T> Named<'a, T> {
    ghost use Rattle.site_world.specs.Named.{named};

    /// With room for so many things, of which none is there yet.
    pub(crate) fn with_room(alloc: Global, count: usize) -> Result<Named<'a, T>, Memory>
        ensures { IfOk result (λ made. (x : List ℕ) → named made x ≡ None) }
    {
        Ok(Named {
            values: IndexMap::with_capacity(alloc, count)?,
        })
    }

    /// What stands under a name.
    pub(crate) fn find(&self, name: &str) -> Option<&'a T>
        ensures { option_copied result ≡ named self.now name.now }
    {
        match self.values.get(name) {
            Some(value) => Some(*value),
            None => None,
        }
    }

    /// Puts a thing under a name, in place of what stands there.
    pub(crate) fn put(&mut self, name: &'a str, value: &'a T) -> Result<(), Memory>
        ensures { OnOk result ((x : List ℕ) → named self.new x ≡ (if bytes_eq name.now x then Some value.now else named self.old x)) }
    {
        match self.values.insert(name, value) {
            Ok(_) => Ok(()),
            Err(_) => Err(Memory),
        }
    }

    /// Puts a thing under a name where nothing stands there.
    pub(crate) fn add(&mut self, name: &'a str, value: &'a T) -> Result<(), Memory>
        ensures { OnOk result ((x : List ℕ) → named self.new x ≡ option_or (named self.old x) (if bytes_eq name.now x then Some value.now else None)) }
    {
        match self.find(name) {
            Some(_first) => Ok(()),
            None => self.put(name, value),
        }
    }
}
