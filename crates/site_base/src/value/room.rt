// Room for what is added.
ghost use Rattle.std.specs.Prelude.{◌≡◌, ◌++◌, ◌∷◌, [], OnOk, OnErr};

use crate::Memory;

/// From how many on a `Vec` grows in its own way; it gives its first item room for four.
const MANY: usize = 4;

/// Adds an item at the end, with room for twice as many where there is none: most lists and hashes are short.
pub(crate) fn add<T: Drop>(items: &mut Vec<T>, item: T) -> Result<(), Memory>
    ensures ok { OnOk result (items.new.items ≡ items.old.items ++ item ∷ []) }
    ensures err { OnErr result (items.new.items ≡ items.old.items) }
{
    let len = items.len();
    if len < MANY && len == items.capacity() {
        items.reserve_exact(len.max(1))?;
    }
    items.push(item)?;
    Ok(())
}
