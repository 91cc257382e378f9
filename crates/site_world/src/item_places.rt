// Where items stand, by their names.
ghost use Rattle.std.specs.Prelude.{◌≡◌, ◌<◌, ◌^◌, IfOk, OnOk, Some, None, length, if◌then◌else◌};
ghost use Rattle.std.specs.List.{position};
ghost use Rattle.std.specs.Option.{option_or};
ghost use Rattle.site_base.specs.declared.item_name.ItemName.{ItemName as Name};
ghost use Rattle.memo_table.specs.Names.{same_name};

use indexmap::IndexMap;
use site_base::{ItemName, Memory, SitePath};
use site_reader::SiteItem;
use std::alloc::Global;

/// The places of items, by their names, each found by a hash.
#[derive(Drop)]
pub(crate) struct ItemPlaces<'a> {
    places: IndexMap<NameKey<'a>, u32>,
}

// The name of an item, as the key of a map.
#[derive(PartialEq, Eq, Hash, Drop)]
struct NameKey<'a> {
    path: &'a str,
    part: u32,
}

impl<'a> ItemPlaces<'a> {
    ghost use Rattle.site_world.specs.Indices.{place_in};

    /// The places of these items, the first of each name.
    pub(crate) fn of(alloc: Global, items: &'a [SiteItem]) -> Result<ItemPlaces<'a>, Memory>
        requires { length items.now < 2 ^ 32 }
        ensures { IfOk result (λ made. (name : Name) → place_in made name ≡ position (λ item. same_name item.name name) items.now) }
    {
        let mut made = ItemPlaces {
            places: IndexMap::with_capacity(alloc, items.len())?,
        };
        for (place, item) in items.iter().enumerate() {
            made.add(&item.name, place as u32)?;
        }
        Ok(made)
    }

    /// The place of the item with a name.
    pub(crate) fn find(&self, name: &ItemName) -> Option<u32>
        ensures { result ≡ place_in self.now name.now }
    {
        self.find_part(name.path.text(), name.part)
    }

    /// The place of the item that the file at a path is itself, and no further page made of it.
    pub(crate) fn find_file(&self, path: &SitePath) -> Option<u32>
        ensures { result ≡ place_in self.now (record { path = path.now; part = 0 }) }
    {
        self.find_part(path.text(), 0)
    }

    fn find_part(&self, path: &str, part: u32) -> Option<u32>
        ensures { result ≡ place_in self.now (record { path = path.now; part = part }) }
    {
        match self.places.get(&NameKey { path, part }) {
            Some(place) => Some(*place),
            None => None,
        }
    }

    // Notes a place where the name has none.
    fn add(&mut self, name: &'a ItemName, place: u32) -> Result<(), Memory>
        ensures { OnOk result ((q : Name) → place_in self.new q ≡ option_or (place_in self.old q) (if same_name name.now q then Some place else None)) }
    {
        match self.find(name) {
            Some(_first) => Ok(()),
            None => self.put(name, place),
        }
    }

    fn put(&mut self, name: &'a ItemName, place: u32) -> Result<(), Memory>
        ensures { OnOk result ((q : Name) → place_in self.new q ≡ (if same_name name.now q then Some place else place_in self.old q)) }
    {
        let key = NameKey {
            path: name.path.text(),
            part: name.part,
        };
        match self.places.insert(key, place) {
            Ok(_) => Ok(()),
            Err(_) => Err(Memory),
        }
    }
}
