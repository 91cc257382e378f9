// An output that is a folder. It tells nothing.
ghost use Rattle.std.specs.Prelude.{◌≡◌, ◌≤◌, None, IfOk};
ghost use Rattle.site_base.specs.Ends.{Rose};
ghost use Rattle.site_base.specs.Places.{AllDiffer};

use crate::OutTree;
use crate::disk_files::{DESTINATION, LEFT, remove_file, write_file};
use folder_walk::{Obstacle, Reason, Skips, WalkError, list_folder};
use site_base::{Failed, ListError, Memory, PathMap, SitePath};
use std::alloc::{AllocError, Global};
use std::fs;
use std::fs::{File, TryLockError};
use std::io::ErrorKind;
use std::rt::Files;

// Everything that is no folder counts as a file. What Git keeps in a folder that is published by it is no part of the output.
const SKIPS: Skips<'static> = Skips {
    folders: &[],
    folders_at_top: &[],
    names_at_top: &[".git"],
    special: false,
    hidden: false,
    excluded: &[],
};

// The longest place of a file: the destination, a `/`, and the longest path of a site.
const LONGEST_PLACE: usize = 5 + 1 + 1024;

/// The files below the folder `_site` of the current folder.
///
/// A write makes the folders that it needs, and a removal takes away those that it leaves empty. Neither goes through a symbolic link. While it is there, no
/// other run lists the same folder.
#[derive(Drop)]
pub struct DiskOut<R: Files<File = File> + AllocGlobal + Clone + Drop> {
    rt: R,
    failures: u64,
    // The place of the file that is written or removed; its room is taken when the output is listed, so that no write wants memory.
    place: String,
    // The folder, locked for as long as this is there.
    held: Option<File>,
    obstacle: Option<Obstacle>,
}

impl<R: Files<File = File> + AllocGlobal + Clone + Drop> DiskOut<R> {
    pub fn new(rt: R) -> DiskOut<R> {
        DiskOut {
            place: String::new(rt.alloc()),
            rt,
            failures: 0,
            held: None,
            obstacle: None,
        }
    }

    /// What its first failure could not get past, as far as that is known.
    pub fn obstacle(&self) -> Option<&Obstacle> {
        self.obstacle.as_ref()
    }

    // Counts a failure.
    fn fail(&mut self, obstacle: Option<Obstacle>)
        ensures later { self.old.failures ≤ self.new.failures }
        ensures rose { Rose self.old.failures self.new.failures }
    {
        self.failures = self.failures.saturating_add(1);
        if self.obstacle.is_none() {
            self.obstacle = obstacle;
        }
    }

    // Counts the failure of a write or a removal at the place.
    fn fail_at_place(&mut self, reason: Reason)
        ensures later { self.old.failures ≤ self.new.failures }
        ensures rose { Rose self.old.failures self.new.failures }
    {
        let obstacle = Obstacle::at(self.rt.alloc(), self.place.as_str(), reason).ok();
        self.fail(obstacle);
    }

    fn list_files(&mut self, alloc: Global) -> Result<Vec<SitePath>, WalkError>
        ensures differ { IfOk result (λ paths. AllDiffer paths.items) }
        ensures steady { self.new.failures ≡ self.old.failures }
    {
        self.place.clear();
        self.place.reserve(LONGEST_PLACE)?;
        let held = hold(&self.rt, alloc, self.held.is_some())?;
        if held.is_some() {
            self.held = held;
        }
        // What a write left that was cut off.
        let _ = fs::remove_file(&self.rt, LEFT);
        let found = match list_folder(&self.rt, alloc, DESTINATION, SKIPS)? {
            Some(found) => found,
            None => PathMap::new(alloc),
        };
        match found.paths(alloc) {
            Ok(paths) => Ok(paths),
            Err(Memory) => Err(WalkError::Memory),
        }
    }

    fn set_place(&mut self, path: &str) -> Result<(), AllocError>
        ensures { self.new.failures ≡ self.old.failures }
    {
        self.place.clear();
        self.place.push_str(DESTINATION)?;
        self.place.push('/')?;
        self.place.push_str(path)
    }

    fn write_at_place(&mut self, path: &str, bytes: &[u8]) -> Result<(), Reason>
        ensures { self.new.failures ≡ self.old.failures }
    {
        self.set_place(path)?;
        write_file(&self.rt, self.rt.alloc(), self.place.as_str(), bytes)
    }

    fn remove_at_place(&mut self, path: &str) -> Result<(), Reason>
        ensures { self.new.failures ≡ self.old.failures }
    {
        self.set_place(path)?;
        remove_file(&self.rt, self.place.as_str())
    }
}

impl<R: Files<File = File> + AllocGlobal + Clone + Drop> OutTree for DiskOut<R> {
    ghost contents = { λ out. None };

    ghost calls = { λ out. None };

    ghost failures = { λ out. out.failures };

    fn list(&mut self, alloc: Global) -> Result<Vec<SitePath>, ListError> {
        match self.list_files(alloc) {
            Ok(paths) => Ok(paths),
            Err(WalkError::Memory) => Err(ListError::Memory),
            Err(WalkError::Failed(obstacle)) => {
                self.fail(Some(obstacle));
                Err(ListError::Failed)
            }
        }
    }

    fn write(&mut self, path: &SitePath, bytes: &[u8]) -> Result<(), Failed> {
        if let Err(reason) = self.write_at_place(path.text(), bytes) {
            self.fail_at_place(reason);
            return Err(Failed);
        }
        Ok(())
    }

    fn remove(&mut self, path: &SitePath) -> Result<(), Failed> {
        if let Err(reason) = self.remove_at_place(path.text()) {
            self.fail_at_place(reason);
            return Err(Failed);
        }
        Ok(())
    }
}

// Makes sure that the destination is a folder of no other run, and makes it when it is not there. `Some` is the lock on it, where there was none. Where the
// folder cannot be made, each write will fail; where the file system has no locks, there is none.
fn hold<R: Files<File = File>>(
    rt: &R,
    alloc: Global,
    is_held: bool,
) -> Result<Option<File>, WalkError> {
    if is_missing(rt)
        && let Err(error) = fs::create_dir(rt, DESTINATION)
        && error.kind() != ErrorKind::AlreadyExists
    {
        return Ok(None);
    }
    match fs::symlink_metadata(rt, DESTINATION) {
        Ok(there) if there.is_dir() => {}
        Ok(there) if there.is_symlink() => return Err(failed(alloc, Reason::Link)),
        Ok(_) => return Err(failed(alloc, Reason::NoFolder)),
        Err(_) => return Err(failed(alloc, Reason::Unreadable)),
    }
    if is_held {
        return Ok(None);
    }
    let Ok(folder) = fs::open(rt, DESTINATION) else {
        return Err(failed(alloc, Reason::Unreadable));
    };
    match folder.try_lock() {
        Ok(()) => Ok(Some(folder)),
        Err(TryLockError::WouldBlock) => Err(failed(alloc, Reason::Busy)),
        Err(TryLockError::Error(_)) => Ok(None),
    }
}

fn is_missing<R: Files>(rt: &R) -> bool {
    match fs::symlink_metadata(rt, DESTINATION) {
        Ok(_) => false,
        Err(error) => error.kind() == ErrorKind::NotFound,
    }
}

fn failed(alloc: Global, reason: Reason) -> WalkError {
    match Obstacle::at(alloc, DESTINATION, reason) {
        Ok(obstacle) => WalkError::Failed(obstacle),
        Err(_) => WalkError::Memory,
    }
}
