// The values of a map.
ghost use Rattle.std.specs.Prelude.{◌≡◌, IfOk};
ghost use Rattle.std.specs.Map.{values_of};

use site_base::{Memory, Sequence};
use std::alloc::Global;
use std::collections::BTreeMap;

/// The values of a map, in the order of its keys.
pub(crate) fn values<K: Ord + Drop, V: Drop>(
    alloc: Global,
    map: BTreeMap<K, V>,
) -> Result<Sequence<V>, Memory>
    ensures { IfOk result (λ made. made ≡ values_of map.entries) }
{
    let mut list = Vec::with_capacity(alloc, map.len())?;
    for value in map.into_values() {
        list.push(value)?;
    }
    Ok(Sequence::from_vec(list))
}
