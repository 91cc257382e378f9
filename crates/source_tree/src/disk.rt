// A source that is the current folder. It tells nothing.
ghost use Rattle.std.specs.Prelude.{◌≤◌, None, IfOk};
ghost use Rattle.site_base.specs.Clash.{ClashFree};
ghost use Rattle.site_base.specs.Ends.{Rose};
ghost use Rattle.site_base.specs.Places.{AllDiffer};

use crate::SourceTree;
use crate::memory::MOST_READ;
use folder_walk::{Obstacle, Reason, Skips, WalkError, list_folder};
use site_base::{ListError, Memory, ReadError, SitePath};
use std::alloc::Global;
use std::fs;
use std::fs::OpenFile;
use std::io::{Error, ErrorKind, Read};
use std::rt::Files;

const SKIPS: Skips<'static> = Skips {
    folders: &[
        ".git",
        ".svn",
        ".hg",
        ".jekyll-cache",
        ".sass-cache",
        "node_modules",
    ],
    folders_at_top: &["_site"],
    names_at_top: &[],
    special: true,
    hidden: true,
    // The folders of Ruby that a site excludes always. They hold the files of others, with any names.
    excluded: &[
        "gemfiles/",
        "vendor/bundle/",
        "vendor/cache/",
        "vendor/gems/",
        "vendor/ruby/",
    ],
};

/// The files below the current folder, but for the folder `_site` there and the folders of some tools.
#[derive(Drop)]
pub struct DiskSource<R: Files + AllocGlobal + Clone + Drop> {
    rt: R,
    failures: u64,
    obstacle: Option<Obstacle>,
}

impl<R: Files + AllocGlobal + Clone + Drop> DiskSource<R> {
    pub fn new(rt: R) -> DiskSource<R> {
        DiskSource {
            rt,
            failures: 0,
            obstacle: None,
        }
    }

    /// What its last failure could not get past.
    pub fn obstacle(&self) -> Option<&Obstacle> {
        self.obstacle.as_ref()
    }

    fn fail(&mut self, obstacle: Obstacle)
        ensures later { self.old.failures ≤ self.new.failures }
        ensures rose { Rose self.old.failures self.new.failures }
    {
        self.failures = self.failures.saturating_add(1);
        self.obstacle = Some(obstacle);
    }
}

impl<R: Files + AllocGlobal + Clone + Drop> SourceTree for DiskSource<R> {
    ghost files = { λ source. None };

    ghost failures = { λ source. source.failures };

    fn list(&mut self, alloc: Global) -> Result<Vec<SitePath>, ListError> {
        match list_site(&self.rt, alloc) {
            Ok(paths) => Ok(paths),
            Err(WalkError::Memory) => Err(ListError::Memory),
            Err(WalkError::Failed(obstacle)) => {
                self.fail(obstacle);
                Err(ListError::Failed)
            }
        }
    }

    fn read(&mut self, alloc: Global, path: &SitePath) -> Result<Vec<u8>, ReadError> {
        match read_file(&self.rt, alloc, path.text()) {
            Ok(bytes) => Ok(bytes),
            Err(WalkError::Memory) => Err(ReadError::Memory),
            Err(WalkError::Failed(obstacle)) => {
                self.fail(obstacle);
                Err(ReadError::Failed)
            }
        }
    }

    fn measure(&mut self, alloc: Global, path: &SitePath) -> Result<usize, ReadError> {
        match measure_file(&self.rt, alloc, path.text()) {
            Ok(length) => Ok(length),
            Err(WalkError::Memory) => Err(ReadError::Memory),
            Err(WalkError::Failed(obstacle)) => {
                self.fail(obstacle);
                Err(ReadError::Failed)
            }
        }
    }
}

fn list_site<R: Files + AllocGlobal + Clone + Drop>(
    rt: &R,
    alloc: Global,
) -> Result<Vec<SitePath>, WalkError>
    ensures differ { IfOk result (λ paths. AllDiffer paths.items) }
    ensures clash_free { IfOk result (λ paths. ClashFree paths.items) }
{
    let Some(found) = list_folder(rt, alloc, ".", SKIPS)? else {
        return Err(failed(alloc, ".", Reason::Unreadable));
    };
    if found.find_clash().is_some() {
        return Err(failed(alloc, ".", Reason::Unreadable));
    }
    match found.paths(alloc) {
        Ok(paths) => Ok(paths),
        Err(Memory) => Err(WalkError::Memory),
    }
}

fn failed(alloc: Global, place: &str, reason: Reason) -> WalkError {
    match Obstacle::at(alloc, place, reason) {
        Ok(obstacle) => WalkError::Failed(obstacle),
        Err(_) => WalkError::Memory,
    }
}

fn unread(alloc: Global, path: &str, error: &Error) -> WalkError {
    match error.kind() {
        ErrorKind::OutOfMemory => WalkError::Memory,
        _ => failed(alloc, path, Reason::of_reading(error)),
    }
}

fn read_file<R: Files + AllocGlobal>(
    rt: &R,
    alloc: Global,
    path: &str,
) -> Result<Vec<u8>, WalkError> {
    let mut file = match fs::open(rt, path) {
        Ok(file) => file,
        Err(error) => return Err(unread(alloc, path, &error)),
    };
    let mut bytes = Vec::new(alloc);
    let mut buffer = [0u8; 65536];
    for _ in 0..u64::MAX {
        let count = match file.read(&mut buffer) {
            Ok(count) => count.min(MOST_READ.saturating_sub(bytes.len())),
            Err(error) => return Err(unread(alloc, path, &error)),
        };
        if count == 0 {
            return Ok(bytes);
        }
        bytes.extend_from_slice(&buffer[..count])?;
    }
    Err(failed(alloc, path, Reason::Unreadable))
}

// A file whose size is known is opened, since it has to be one that can be read, and not read.
fn measure_file<R: Files>(rt: &R, alloc: Global, path: &str) -> Result<usize, WalkError> {
    match fs::open(rt, path) {
        Ok(file) => match file.metadata() {
            Ok(there) => Ok(
                usize::try_from(there.len())
                    .unwrap_or(MOST_READ)
                    .min(MOST_READ),
            ),
            Err(error) => Err(unread(alloc, path, &error)),
        },
        Err(error) => Err(unread(alloc, path, &error)),
    }
}
