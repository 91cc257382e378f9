// Values by their names, each found by a hash.
ghost use Rattle.std.specs.Prelude.{◌≡◌, ◌<◌, Some, None, MatchOption, cond, take};
ghost use Rattle.std.specs.Map.{lookup};
ghost use Rattle.std.specs.FinMap as map;
ghost use Rattle.std.specs.List.Sorted.{IsPermutation};
ghost use Rattle.memo_table.specs.Entries.{of_names};
ghost use Rattle.indexmap.specs.IndexMap.{insert_entry, spare};
ghost use Rattle.memo_table.specs.declared.name_key.NameKey.{NameKey};
ghost use Rattle.memo_table.specs.NameKeys.{as_map, same_key, StandsAt};

use crate::name_key::NameKey;
use indexmap::IndexMap;
use read_record::World;
use site_base::ItemName;

pub(crate) type ByName<V> = IndexMap<NameKey<'static>, V>;

/// Where the value of a name stands.
pub(crate) fn place_of<V>(values: &ByName<V>, name: &ItemName) -> Option<usize>
    ensures { MatchOption result (map.get (as_map values.now.entries) name.now ≡ None) (StandsAt name.now values.now.entries) }
{
    values.get_index_of(&NameKey::Asked(name))
}

/// Moves the values of the world's items to the front, and tells how many they are.
pub(crate) fn gather<V, W: World>(values: &mut ByName<V>, world: &W) -> usize
    ensures same { as_map values.new.entries ≡ as_map values.old.entries }
    ensures front { as_map (take result values.new.entries) ≡ of_names (W.names world.now) (as_map values.old.entries) }
    ensures moved { IsPermutation values.old.entries values.new.entries }
{
    let mut gathered = 0;
    for item in 0..world.items() {
        match place_of(values, world.name(item)) {
            // No two items have one name, so the place is behind the front.
            Some(place) => {
                values.swap_indices(gathered, place);
                gathered += 1;
            }
            None => {}
        }
    }
    gathered
}

/// Puts a value under a name, where there is room for one more, and tells which it replaces.
pub(crate) fn put<V: Drop>(values: &mut ByName<V>, name: ItemName, value: V) -> Option<V>
    requires room { 0 < spare values.old }
    ensures replaced { result ≡ lookup (same_key (NameKey.Kept name)) values.old.entries }
    ensures entries { values.new.entries ≡ insert_entry same_key values.old.entries (NameKey.Kept name) value }
    ensures finds { (asked : NameKey) → lookup (same_key asked) values.new.entries ≡ cond (same_key (NameKey.Kept name) asked) (Some value) (lookup (same_key asked) values.old.entries) }
{
    match values.insert(NameKey::Kept(name), value) {
        Ok(replaced) => replaced,
        Err(_) => unreachable!(),
    }
}
