// Entries that go, and give their reads back.
ghost use Rattle.std.specs.Prelude.{◌≡◌, [], drop, take};
ghost use Rattle.std.specs.Map.{values_of};
ghost use Rattle.read_record.specs.Stores.{Has, HasMore};
ghost use Rattle.memo_table.specs.Stored.{all_reads};

use crate::by_name::ByName;
use read_record::{ItemMeaning, NumberedEntry, ReadStore};

/// Lets the entries behind the first ones go. It takes no memory.
pub(crate) fn release_behind<M: ItemMeaning>(
    entries: &mut ByName<NumberedEntry<M>>,
    store: &mut ReadStore,
    first: usize,
)
    requires { Has store.old (all_reads (values_of (drop first entries.old.entries))) }
    ensures front { entries.new.entries ≡ take first entries.old.entries }
    ensures given { HasMore store.new store.old (all_reads (values_of (drop first entries.old.entries))) }
{
    while entries.len() > first {
        match entries.pop() {
            Some((_name, entry)) => entry.release(store),
            None => unreachable!(),
        }
    }
}

/// Lets all these entries go. It takes no memory.
pub(crate) fn release_all<M: ItemMeaning>(
    entries: &mut Vec<NumberedEntry<M>>,
    store: &mut ReadStore,
)
    requires { Has store.old (all_reads entries.old.items) }
    ensures none { entries.new.items ≡ [] }
    ensures given { HasMore store.new store.old (all_reads entries.old.items) }
{
    while let Some(entry) = entries.pop() {
        entry.release(store);
    }
}
