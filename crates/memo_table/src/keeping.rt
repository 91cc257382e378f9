// Entries that are kept from here on.
ghost use Rattle.std.specs.Prelude.{◌≡◌, OnOk, OnErr};
ghost use Rattle.memo_table.specs.Entries.{with_entry};
ghost use Rattle.memo_table.specs.Stored.{as_entries, Grew, IsSound};

use crate::by_name::{ByName, put};
use read_record::{ItemMeaning, NumberedEntry, ReadStore, SharedEntry};
use site_base::Memory;
use std::alloc::Global;

/// Keeps an entry, in place of the one of its name, which joins those that were replaced: so no number is given out again. The
/// one error is want of memory, after which the entries are as before.
pub(crate) fn keep<M: ItemMeaning>(
    alloc: Global,
    entries: &mut ByName<NumberedEntry<M>>,
    store: &mut ReadStore,
    replaced: &mut Vec<NumberedEntry<M>>,
    entry: &SharedEntry<M>,
) -> Result<(), Memory>
    requires { IsSound M.item store.old entries.old.entries replaced.old.items }
    ensures sound { IsSound M.item store.new entries.new.entries replaced.new.items }
    ensures grew { Grew store.old store.new }
    ensures ok { OnOk result (as_entries store.new entries.new.entries ≡ with_entry entry.now (as_entries store.old entries.old.entries)) }
    ensures err { OnErr result (as_entries store.new entries.new.entries ≡ as_entries store.old entries.old.entries) }
{
    let name = entry.as_entry().name().copy(alloc)?;
    entries.reserve(1)?;
    replaced.reserve(1)?;
    let entry = entry.number(alloc, store)?;
    match put(entries, name, entry) {
        Some(old) => {
            replaced.push_reserved(old);
            Ok(())
        }
        None => Ok(()),
    }
}
