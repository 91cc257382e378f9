// The names of the items that were rendered.
ghost use Rattle.std.specs.Prelude.{◌≡◌, [], ◌++◌, ◌∷◌, is_ok, if◌then◌else◌};

use site_base::{ItemName, Memory};
use std::alloc::Global;
use std::marker::Model;

/// The names of the items that were rendered, which clauses see as a list.
#[derive(Drop)]
pub struct Tally {
    names: Vec<ItemName>,
}

impl Model for Tally {
    ghost use Rattle.std.specs.Prelude.{List};
    ghost use Rattle.site_base.specs.declared.item_name.ItemName.{ItemName};

    ghost Value = { List ItemName };

    ghost view = { λ tally. tally.names.items };
}

impl Tally {
    /// The empty tally; it takes no memory.
    pub fn new(alloc: Global) -> Tally
        ensures { result ≡ [] }
    {
        Tally {
            names: Vec::new(alloc),
        }
    }

    pub fn rendered(&self) -> &[ItemName]
        ensures { result.now ≡ self.now }
    {
        self.names.as_slice()
    }

    /// Adds a name at the end, for a renderer. After `Memory` the tally is as before.
    pub fn add(&mut self, alloc: Global, name: &ItemName) -> Result<(), Memory>
        ensures { self.new ≡ (if is_ok result then self.old ++ name.now ∷ [] else self.old) }
    {
        let name = name.copy(alloc)?;
        self.names.push(name)?;
        Ok(())
    }

    /// Adds the names of a part at the end. After `Memory` the tally is as before.
    pub fn join(&mut self, part: Tally) -> Result<(), Memory>
        ensures { self.new ≡ (if is_ok result then self.old ++ part else self.old) }
    {
        let Tally { names: mut part } = part;
        self.names.append(&mut part)?;
        Ok(())
    }
}
