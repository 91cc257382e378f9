// Renders that several hold.
ghost use Rattle.std.specs.Prelude.{◌≡◌, IfOk};

use crate::{Entry, ItemMeaning};
use site_base::Memory;
use std::alloc::Global;
use std::marker::Model;
use std::sync::Arc;

/// A render that is kept, which several holders share without a copy, also among threads. It keeps that it is certified. Clauses see
/// the entry.
#[derive(Drop)]
pub struct SharedEntry<M: ItemMeaning> {
    entry: Arc<Entry<M>>,
}

impl<M: ItemMeaning> Model for SharedEntry<M> {
    ghost use Rattle.std.specs.Arc.{arc_value};
    ghost use Rattle.std.specs.Coded.{coded×, coded_list, coded_ℕ};
    ghost use Rattle.site_base.specs.contracts.item_name.ItemName as the_name;
    ghost use Rattle.read_record.specs.contracts.key.Key as the_key;
    ghost use Rattle.read_record.specs.contracts.outcome.Outcome as the_outcome;
    ghost use Rattle.read_record.specs.Records.{Certifies};
    ghost use Rattle.read_record.specs.Outcomes.{met_of};
    ghost use Rattle.read_record.specs.Entries.{Kept, kept_code};

    ghost Value = { Kept };

    ghost coded = { kept_code the_name.the_row.coded (coded_list (coded× the_key.the_row.coded (coded_list coded_ℕ))) the_outcome.the_row.coded };

    ghost view = { λ shared. arc_value shared.entry };

    ghost invariant = { λ shared. let entry = arc_value shared.entry in Certifies entry.reads (M.item entry.name) (met_of entry.outcome) };
}

impl<M: ItemMeaning> SharedEntry<M> {
    /// The entry, with one holder. The one error is want of memory.
    pub fn new(alloc: Global, entry: Entry<M>) -> Result<SharedEntry<M>, Memory>
        ensures { IfOk result (λ shared. shared ≡ entry) }
    {
        // The name tells that the entry is certified.
        let _name = entry.name();
        match Arc::new(alloc, entry) {
            Ok(entry) => Ok(SharedEntry { entry }),
            Err(_) => Err(Memory),
        }
    }

    /// A further holder of the same entry. The one error is want of memory.
    pub fn share(&self) -> Result<SharedEntry<M>, Memory>
        ensures { IfOk result (λ shared. shared ≡ self.now) }
    {
        match self.entry.clone() {
            Ok(entry) => Ok(SharedEntry { entry }),
            Err(_) => Err(Memory),
        }
    }

    pub fn as_entry(&self) -> &Entry<M>
        ensures { result.now ≡ self.now }
    {
        self.entry.as_ref()
    }
}
