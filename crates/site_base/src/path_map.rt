// A map from paths to values: a sorted `Vec`.
ghost use Rattle.std.specs.Prelude.{◌≡◌, ◌+◌, ◌≤◌, ◌<◌, length, IfOk, OnOk, OnErr, MatchResult, vec_len, slice_index_or, IsTrue, is_some, ◌==◌, MatchOption, ◌↔◌, ◌++◌, ◌∷◌, [], IsNone};
ghost use Rattle.std.specs.Option.{option_copied};
ghost use Rattle.std.specs.Ordering.{is_lt, is_gt};
ghost use Rattle.site_base.specs.Clash.{is_below, begins_before_slash, has_below, has_folder, first_folder, HasNoClash};
ghost use Rattle.std.specs.FinMap as map;
ghost use Rattle.site_base.specs.Places.{path_cmp, paths_of, count_below, PathsRise, IsThere, IsAbsent, AllDiffer};

use crate::{Memory, SitePath};
use std::alloc::Global;

/// A map from paths to values, in byte order.
#[derive(Drop)]
pub struct PathMap<V> {
    entries: Vec<(SitePath, V)>,
    ghost rises: { PathsRise entries.items },
}

impl<V: Drop> PathMap<V> {
    ghost use Rattle.site_base.specs.PathMap.{as_map, room};

    pub fn new(alloc: Global) -> PathMap<V>
        ensures { as_map result ≡ map.empty }
    {
        PathMap {
            entries: Vec::new(alloc),
        }
    }

    /// The map of entries whose paths rise.
    pub fn from_rising(entries: Vec<(SitePath, V)>) -> PathMap<V>
        requires { PathsRise entries.items }
        ensures { as_map result ≡ map.from_sorted entries.items }
    {
        PathMap { entries }
    }

    /// The map of entries in any order, or `None` where two of them have one path. It takes no memory.
    pub fn from_entries(mut entries: Vec<(SitePath, V)>) -> Option<PathMap<V>>
        ensures { MatchOption result
            (AllDiffer (paths_of entries.items) → ⊥)
            (λ made. AllDiffer (paths_of entries.items) × (as_map made ≡ map.from_entries entries.items)) }
    {
        entries.sort_unstable_by(|one, other| one.0.cmp(&other.0));
        if rises(&entries) {
            Some(PathMap { entries })
        } else {
            None
        }
    }

    pub fn len(&self) -> usize
        ensures { result ≡ map.len (as_map self.now) }
    {
        self.entries.len()
    }

    pub fn is_empty(&self) -> bool
        ensures { IsTrue result ↔ (map.len (as_map self.now) ≡ 0) }
    {
        self.len() == 0
    }

    fn place(&self, path: &[u8]) -> usize
        ensures bound { result ≤ vec_len self.now.entries }
        ensures is { result ≡ count_below path.now self.now.entries.items }
    {
        self.entries
            .partition_point(|entry| is_above(path, &entry.0))
    }

    // The path's place, or the place where it would stand.
    fn find(&self, path: &SitePath) -> Result<usize, usize>
        ensures { MatchResult result
            (IsThere path.now self.now.entries.items)
            (IsAbsent path.now self.now.entries.items) }
    {
        let place = self.place(path.as_bytes());
        if place < self.entries.len() && self.entries[place].0 == *path {
            Ok(place)
        } else {
            Err(place)
        }
    }

    /// The entry at a place of the byte order.
    pub fn at(&self, place: usize) -> (&SitePath, &V)
        requires { place < map.len (as_map self.now) }
        ensures { (result.0.now, result.1.now) ≡ slice_index_or (map.entries (as_map self.now)) place (result.0.now, result.1.now) }
    {
        let entry = &self.entries[place];
        (&entry.0, &entry.1)
    }

    pub fn get(&self, path: &SitePath) -> Option<&V>
        ensures { option_copied result ≡ map.get (as_map self.now) path.now }
    {
        match self.find(path) {
            Ok(place) => Some(&self.entries[place].1),
            Err(_) => None,
        }
    }

    /// Makes room for so many more entries.
    pub fn reserve(&mut self, more: usize) -> Result<(), Memory>
        ensures same { as_map self.new ≡ as_map self.old }
        ensures room { OnOk result (more ≤ room self.new) }
    {
        match self.entries.reserve(more) {
            Ok(()) => Ok(()),
            Err(_) => Err(Memory),
        }
    }

    /// Adds or replaces, where there is room.
    pub fn put_in_room(&mut self, path: SitePath, value: V)
        requires { 0 < room self.old }
        ensures map { as_map self.new ≡ map.insert (as_map self.old) path value }
        ensures room { room self.old ≤ room self.new + 1 }
    {
        match self.find(&path) {
            Ok(place) => self.entries[place] = (path, value),
            Err(place) => self.entries.insert(place, (path, value)).unwrap(),
        }
    }

    /// Adds or replaces.
    pub fn put(&mut self, path: SitePath, value: V) -> Result<(), Memory>
        ensures ok { OnOk result (as_map self.new ≡ map.insert (as_map self.old) path value) }
        ensures err { OnErr result (as_map self.new ≡ as_map self.old) }
    {
        self.reserve(1)?;
        self.put_in_room(path, value);
        Ok(())
    }

    /// Removes, and says whether the path was there.
    pub fn remove(&mut self, path: &SitePath) -> bool
        ensures map { as_map self.new ≡ map.remove (as_map self.old) path.now }
        ensures was { result ≡ map.contains_key (as_map self.old) path.now }
        ensures room { room self.old ≤ room self.new }
    {
        match self.find(path) {
            Ok(place) => {
                let _ = self.entries.remove(place);
                true
            }
            Err(_) => false,
        }
    }

    /// Whether a path of the map lies below this one as below a folder.
    pub fn has_below(&self, folder: &SitePath) -> bool
        ensures { result ≡ has_below folder.now (map.keys (as_map self.now)) }
    {
        let place = self.place_inside(folder.as_bytes());
        place < self.entries.len() && is_below(&self.entries[place].0, folder)
    }

    // Where the paths below a folder stand, or would stand.
    fn place_inside(&self, folder: &[u8]) -> usize
        ensures bound { result ≤ vec_len self.now.entries }
        ensures is { result ≡ count_below (folder.now ++ 47 ∷ []) self.now.entries.items }
    {
        self.entries
            .partition_point(|entry| is_before_inside(folder, &entry.0))
    }

    /// Whether a path of the map is a folder of this one.
    pub fn has_folder(&self, path: &SitePath) -> bool
        ensures { result ≡ has_folder path.now (map.keys (as_map self.now)) }
    {
        let bytes = path.as_bytes();
        for end in 0..bytes.len() {
            if bytes[end] == b'/' && self.holds(&bytes[..end]) {
                return true;
            }
        }
        false
    }

    fn holds(&self, path: &[u8]) -> bool
        ensures { result ≡ map.contains_key (as_map self.now) path.now }
    {
        let place = self.place(path);
        place < self.entries.len() && self.entries[place].0.as_bytes() == path
    }

    /// The first path that is a folder of another, or `None` where no two paths clash.
    pub fn find_clash(&self) -> Option<&SitePath>
        ensures first { option_copied result ≡ first_folder (map.keys (as_map self.now)) }
        ensures clash_free { IsNone result → HasNoClash (as_map self.now) }
    {
        for entry in &self.entries {
            if self.has_below(&entry.0) {
                return Some(&entry.0);
            }
        }
        None
    }

    /// The paths, in byte order.
    pub fn paths(&self, alloc: Global) -> Result<Vec<SitePath>, Memory>
        ensures paths { IfOk result (λ paths. paths.items ≡ map.keys (as_map self.now)) }
        ensures differ { IfOk result (λ paths. AllDiffer paths.items) }
    {
        let mut paths = Vec::new(alloc);
        for place in 0..self.len() {
            let (path, _) = self.at(place);
            let path = path.copy(alloc)?;
            if paths.push(path).is_err() {
                return Err(Memory);
            }
        }
        Ok(paths)
    }

    /// Moves the entries into the memory of `spare`, which has none.
    pub fn move_to(&mut self, spare: PathMap<V>)
        requires empty { as_map spare ≡ map.empty }
        requires fits { map.len (as_map self.old) ≤ room spare }
        ensures map { as_map self.new ≡ as_map self.old }
        ensures room { room spare ≤ room self.new + map.len (as_map self.old) }
    {
        let mut entries = spare.entries;
        entries.append(&mut self.entries).unwrap();
        self.entries = entries;
    }
}

// Whether each path is below the next.
fn rises<V>(entries: &[(SitePath, V)]) -> bool
    ensures { IsTrue result ↔ PathsRise entries.now }
{
    for place in 1..entries.len() {
        if !is_less(&entries[place - 1].0, &entries[place].0) {
            return false;
        }
    }
    true
}

fn is_less(one: &SitePath, other: &SitePath) -> bool
    ensures { result ≡ is_lt (path_cmp one.now other.now) }
{
    one.cmp(other).is_lt()
}

fn is_above(path: &[u8], other: &SitePath) -> bool
    ensures { result ≡ is_gt (path_cmp path.now other.now) }
{
    path.cmp(other.as_bytes()).is_gt()
}

// Whether a path stands before all paths that begin with the folder and `/`.
fn is_before_inside(folder: &[u8], path: &SitePath) -> bool
    ensures { result ≡ is_gt (path_cmp (folder.now ++ 47 ∷ []) path.now) }
{
    let path = path.as_bytes();
    if path.starts_with(folder) {
        begins_before_slash(&path[folder.len()..])
    } else {
        folder.cmp(path).is_gt()
    }
}

// Whether a text is empty or begins with a byte below `/`.
fn begins_before_slash(text: &[u8]) -> bool
    ensures { result ≡ begins_before_slash text.now }
{
    match text {
        [] => true,
        [first, ..] => *first < b'/',
    }
}

fn is_below(path: &SitePath, folder: &SitePath) -> bool
    ensures { result ≡ is_below path.now folder.now }
{
    let path = path.as_bytes();
    let folder = folder.as_bytes();
    path.starts_with(folder) && begins_with_slash(&path[folder.len()..])
}

fn begins_with_slash(text: &[u8]) -> bool
    ensures { result ≡ is_below text.now [] }
{
    match text {
        [] => false,
        [first, ..] => *first == b'/',
    }
}
