// The items that a worker knows.
ghost use Rattle.std.specs.Prelude.{◌≡◌, [], ◌++◌, ◌∷◌, IfOk, OnOk};
ghost use Rattle.round_core.specs.States.{has};

use site_base::Memory;
use std::alloc::Global;
use std::marker::Model;

/// A worker with the items that it knows, in the order taken. Clauses see a pair.
#[derive(Drop)]
pub struct Known {
    worker: u32,
    items: Vec<u32>,
}

impl Model for Known {
    ghost use Rattle.std.specs.Prelude.{ℕ, List};

    ghost Value = { ℕ × List ℕ };

    ghost view = { λ k. (k.worker, k.items.items) };
}

impl Known {
    /// A worker that knows one item.
    pub(crate) fn of(alloc: Global, worker: u32, item: u32) -> Result<Known, Memory>
        ensures { IfOk result (λ known. known ≡ (worker, item ∷ [])) }
    {
        let mut items = Vec::new(alloc);
        items.push(item)?;
        Ok(Known { worker, items })
    }

    pub fn worker(&self) -> u32
        ensures { result ≡ self.now.0 }
    {
        self.worker
    }

    pub fn items(&self) -> &[u32]
        ensures { result.now ≡ self.now.1 }
    {
        self.items.as_slice()
    }

    pub(crate) fn has(&self, item: u32) -> bool
        ensures { result ≡ has item self.now.1 }
    {
        self.items.contains(&item)
    }

    pub(crate) fn add(&mut self, item: u32) -> Result<(), Memory>
        ensures { OnOk result (self.new ≡ (self.old.0, self.old.1 ++ item ∷ [])) }
    {
        self.items.push(item)?;
        Ok(())
    }
}
