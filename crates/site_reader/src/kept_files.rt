// The files of a reading, as they are kept.
ghost use Rattle.std.specs.Prelude.{◌≡◌, ◌↔◌, IfOk, IfSome, IsTrue, map};
ghost use Rattle.std.specs.FinMap as finite;
ghost use Rattle.std.specs.Option.{option_copied, option_map};
ghost use Rattle.site_base.specs.PathMap.{as_map};
ghost use Rattle.site_base.specs.Places.{PathsRise};
ghost use Rattle.site_reader.specs.Placements.{AreUnder, IsPlaced, IsSound, bytes_in, as_kept};

use crate::placed_file::PlacedFile;
use crate::site_file::SiteFile;
use crate::told::Told;
use site_base::{Memory, PathMap, SharedBytes, SitePath};
use std::alloc::Global;

/// Files that are kept, each with what it is under one configuration, of which they keep what tells it: its bytes, where
/// there are some, and whether drafts are built.
#[derive(Drop)]
pub(crate) struct KeptFiles {
    pub(crate) told: Option<SharedBytes>,
    pub(crate) drafts: bool,
    pub(crate) files: PathMap<SiteFile>,
}

impl KeptFiles {
    /// No files; it takes no memory.
    pub(crate) fn new(alloc: Global) -> KeptFiles
        ensures files { bytes_in result.files ≡ finite.empty }
        ensures sound { IsSound result }
    {
        KeptFiles {
            told: None,
            drafts: false,
            files: PathMap::new(alloc),
        }
    }

    /// These files, which are in the order of their paths, with what tells their configuration.
    pub(crate) fn of(told: &Told, files: Vec<(SitePath, SiteFile)>) -> Result<KeptFiles, Memory>
        requires { PathsRise files.items }
        ensures files { IfOk result (λ made. finite.entries (as_map made.files) ≡ files.items) }
        ensures under { IfOk result (AreUnder told.entry.now) }
    {
        Ok(KeptFiles {
            told: shared(&told.bytes)?,
            drafts: told.drafts,
            files: PathMap::from_rising(files),
        })
    }

    /// Whether the configuration is this one.
    pub(crate) fn are_under(&self, told: &Told) -> bool
        ensures { IsTrue result ↔ AreUnder told.entry.now self.now }
    {
        same_bytes(&self.told, &told.bytes) && self.drafts == told.drafts
    }

    /// The file at a path.
    pub(crate) fn get(&self, path: &SitePath) -> Option<&SiteFile>
        requires { IsSound self.now }
        ensures is { option_map (λ file. file.file) (option_copied result) ≡ finite.get (bytes_in self.now.files) path.now }
        ensures placed { IfSome result (λ file. IsPlaced self.now.told self.now.drafts path.now file.now) }
    {
        self.files.get(path)
    }

    /// The files in the order of their paths, each with its place.
    pub(crate) fn placed(&self, alloc: Global) -> Result<Vec<PlacedFile<'_>>, Memory>
        ensures { IfOk result (λ files. map as_kept files.items ≡ finite.entries (as_map self.now.files)) }
    {
        let mut files = Vec::with_capacity(alloc, self.files.len())?;
        for number in 0..self.files.len() {
            let (path, file) = self.files.at(number);
            files.push(file.placed_at(path))?;
        }
        Ok(files)
    }
}

fn shared(bytes: &Option<&SharedBytes>) -> Result<Option<SharedBytes>, Memory>
    ensures { IfOk result (λ shared. shared ≡ option_copied bytes.entry.now) }
{
    match bytes {
        Some(bytes) => Ok(Some(bytes.share()?)),
        None => Ok(None),
    }
}

fn same_bytes(one: &Option<SharedBytes>, other: &Option<&SharedBytes>) -> bool
    ensures { IsTrue result ↔ (one.now ≡ option_copied other.entry.now) }
{
    match (one, other) {
        (Some(one), Some(other)) => one.as_slice() == other.as_slice(),
        (None, None) => true,
        _ => false,
    }
}
