// The files that an output is to have.
ghost use Rattle.std.specs.Prelude.{◌≡◌, ◌<◌, ◌==◌, OnOk, OnErr, slice_index_or};
ghost use Rattle.std.specs.FinMap as map;
ghost use Rattle.std.specs.Option.{option_copied};

use site_base::{Memory, PathMap, SharedBytes, SitePath};
use std::alloc::Global;
use std::marker::Model;

/// The files that an output is to have: a map from paths to bytes.
#[derive(Drop)]
pub struct Tree {
    files: PathMap<SharedBytes>,
}

impl Model for Tree {
    ghost use Rattle.std.specs.FinMap as map;
    ghost use Rattle.std.specs.Prelude.{List, ℕ};
    ghost use Rattle.std.specs.Coded.{coded_ℕ, coded_list};
    ghost use Rattle.site_base.specs.Places.{path_cmp};
    ghost use Rattle.site_base.specs.PathMap.{as_map};

    ghost Value = { map.FinMap path_cmp (List ℕ) };

    ghost coded = { map.code (coded_list coded_ℕ) (coded_list coded_ℕ) };

    ghost view = { λ tree. as_map tree.files };
}

impl Tree {
    /// The tree without files; it takes no memory.
    pub fn new(alloc: Global) -> Tree
        ensures { result ≡ map.empty }
    {
        Tree {
            files: PathMap::new(alloc),
        }
    }

    /// Adds or replaces a file. Putting rising paths takes no scan.
    pub fn put(&mut self, alloc: Global, path: SitePath, bytes: Vec<u8>) -> Result<(), Memory>
        ensures ok { OnOk result (self.new ≡ map.insert self.old path bytes.items) }
        ensures err { OnErr result (self.new ≡ self.old) }
    {
        let bytes = SharedBytes::from_vec(alloc, bytes)?;
        self.put_shared(path, bytes)
    }

    /// Adds or replaces a file whose bytes have other holders.
    pub fn put_shared(&mut self, path: SitePath, bytes: SharedBytes) -> Result<(), Memory>
        ensures ok { OnOk result (self.new ≡ map.insert self.old path bytes) }
        ensures err { OnErr result (self.new ≡ self.old) }
    {
        self.files.put(path, bytes)
    }

    pub fn len(&self) -> usize
        ensures { result ≡ map.len self.now }
    {
        self.files.len()
    }

    pub fn is_empty(&self) -> bool
        ensures { result ≡ (map.len self.now == 0) }
    {
        self.files.len() == 0
    }

    /// The file at a place of the byte order, counted from 0.
    pub fn at(&self, place: usize) -> (&SitePath, &[u8])
        requires { place < map.len self.now }
        ensures { (result.0.now, result.1.now) ≡ slice_index_or (map.entries self.now) place (result.0.now, result.1.now) }
    {
        let (path, bytes) = self.files.at(place);
        (path, bytes.as_slice())
    }

    /// The bytes of a file.
    pub fn get(&self, path: &SitePath) -> Option<&[u8]>
        ensures { option_copied result ≡ map.get self.now path.now }
    {
        match self.files.get(path) {
            Some(bytes) => Some(bytes.as_slice()),
            None => None,
        }
    }

    // The file at a place, with the holder of its bytes.
    pub(crate) fn shared_at(&self, place: usize) -> (&SitePath, &SharedBytes)
        requires { place < map.len self.now }
        ensures { (result.0.now, result.1.now) ≡ slice_index_or (map.entries self.now) place (result.0.now, result.1.now) }
    {
        self.files.at(place)
    }
}
