// A walk over the files below a real folder.
ghost use Rattle.std.specs.Prelude.{◌≡◌, ◌==◌, false, length, IfOk, IfSome};
ghost use Rattle.std.specs.Str.{bytes_eq};
ghost use Rattle.std.specs.String.{string_bytes};
ghost use Rattle.folder_walk.specs.Skips.{holds, holds_in_any_case, is_skipped_folder, is_skipped_name, lower};

use crate::{Obstacle, Reason};
use site_base::{PathError, PathMap, SitePath};
use std::alloc::{AllocError, AllocFailed, Global};
use std::fs;
use std::io::{Error, ErrorKind};
use std::rt::Files;

// A walk that meets more names than this is given up.
const MOST_NAMES: u32 = 1_000_000;

// Each turn of a walk visits a folder, or is done with one.
const MOST_TURNS: u32 = 2 * MOST_NAMES + 2;

// The bytes of the longest path of a site.
const LONGEST_PATH: usize = 1024;

/// What a walk over a folder passes over.
#[derive(Clone, Copy, Debug)]
pub struct Skips<'a> {
    /// Folders of these names, however deep they are.
    pub folders: &'a [&'a str],
    /// Folders of these names directly in the folder that is listed.
    pub folders_at_top: &'a [&'a str],
    /// Whatever has one of these names, in capital letters or not, directly in the folder that is listed.
    pub names_at_top: &'a [&'a str],
    /// What is neither a file nor a folder, as a symbolic link.
    pub special: bool,
    /// Files whose names make no path of a site, when they would be no part of the site by another name either: a part of the path is hidden, or the path
    /// begins with one of `excluded`.
    pub hidden: bool,
    pub excluded: &'a [&'a str],
}

impl Skips<'_> {
    fn skips_folder(&self, name: &str, is_top: bool) -> bool
        ensures { result ≡ is_skipped_folder self.now.folders.now self.now.folders_at_top.now is_top name.now }
    {
        holds(self.folders, name) || is_top && holds(self.folders_at_top, name)
    }

    // Whether a path that is none of a site is passed over.
    fn skips_path(&self, path: &str) -> bool {
        self.hidden
            && (is_hidden(path) || self.excluded.iter().any(|front| path.starts_with(*front)))
    }

    fn skips_name(&self, name: &str, is_top: bool) -> bool
        ensures { result ≡ is_skipped_name self.now.names_at_top.now is_top name.now }
    {
        is_top && holds_in_any_case(self.names_at_top, name)
    }
}

fn holds(names: &[&str], name: &str) -> bool
    ensures { result ≡ holds names.now name.now }
{
    names.iter().any(|other| *other == name)
}

fn holds_in_any_case(names: &[&str], name: &str) -> bool
    ensures { result ≡ holds_in_any_case names.now name.now }
{
    names.iter().any(|other| is_same_in_any_case(name, other))
}

fn is_same_in_any_case(name: &str, other: &str) -> bool
    ensures { result ≡ bytes_eq (lower name.now) (lower other.now) }
{
    name.eq_ignore_ascii_case(other)
}

/// Why a walk ended without a list.
#[derive(Debug, Drop)]
pub enum WalkError {
    Memory,
    Failed(Obstacle),
}

impl From<AllocError> for WalkError {
    fn from(_: AllocError) -> WalkError {
        WalkError::Memory
    }
}

impl<T: Drop> From<AllocFailed<T>> for WalkError {
    fn from(_: AllocFailed<T>) -> WalkError {
        WalkError::Memory
    }
}

fn failed(alloc: Global, place: &str, reason: Reason) -> WalkError {
    match Obstacle::at(alloc, place, reason) {
        Ok(obstacle) => WalkError::Failed(obstacle),
        Err(_) => WalkError::Memory,
    }
}

fn unreadable(alloc: Global, place: &str, error: &Error) -> WalkError {
    match error.kind() {
        ErrorKind::OutOfMemory => WalkError::Memory,
        _ => failed(alloc, place, Reason::of_reading(error)),
    }
}

// Whether what was just listed is there no more: it, or a folder around it, vanished.
fn is_absence(error: &Error) -> bool {
    matches!(error.kind(), ErrorKind::NotFound | ErrorKind::NotADirectory)
}

// A folder that was visited: what the paths below it begin with, and the names of the folders in it that are still to be visited. A walk keeps one for
// each folder around the one that it visits, so its memory grows with the names, and not with how deep they are.
#[derive(Drop)]
struct Level {
    prefix: String,
    folders: Vec<String>,
}

#[derive(Drop)]
struct Walk {
    paths: Vec<(SitePath, ())>,
    names: u32,
}

/// The paths of the files below a folder, relative to it. `None` when there is no such folder. What vanishes during the walk counts as not there.
///
/// It fails when a folder cannot be read, when a name makes no path of a site, and past 1,000,000 names. Folders too deep for any path are not entered.
pub fn list_folder<R: Files + AllocGlobal + Clone + Drop>(
    rt: &R,
    alloc: Global,
    folder: &str,
    skips: Skips<'_>,
) -> Result<Option<PathMap<()>>, WalkError> {
    let mut walk = Walk {
        paths: Vec::new(alloc),
        names: 0,
    };
    let Some(top) = walk.visit(rt, alloc, folder, String::new(alloc), skips)? else {
        return Ok(None);
    };
    let mut levels = Vec::new(alloc);
    levels.push(top)?;
    for _ in 0..MOST_TURNS {
        let Some(mut level) = levels.pop() else {
            return match PathMap::from_entries(walk.paths) {
                Some(paths) => Ok(Some(paths)),
                None => Err(failed(alloc, folder, Reason::Unreadable)),
            };
        };
        let Some(name) = level.folders.pop() else {
            continue;
        };
        let prefix = below(alloc, level.prefix.as_str(), name.as_str())?;
        levels.push(level)?;
        if let Some(inner) = walk.visit(rt, alloc, folder, prefix, skips)? {
            levels.push(inner)?;
        }
    }
    Err(failed(alloc, folder, Reason::Crowd))
}

fn below(alloc: Global, prefix: &str, name: &str) -> Result<String, AllocError> {
    format!(in alloc; "{prefix}{name}/")
}

impl Walk {
    // Notes the files that are directly in a folder; `None` when it is not there.
    fn visit<R: Files + AllocGlobal + Clone + Drop>(
        &mut self,
        rt: &R,
        alloc: Global,
        root: &str,
        prefix: String,
        skips: Skips<'_>,
    ) -> Result<Option<Level>, WalkError> {
        let place = place_of(alloc, root, prefix.as_str(), "")?;
        let entries = match fs::read_dir(rt, place.as_str()) {
            Ok(entries) => entries,
            Err(error) => {
                return if is_absence(&error)
                    && !(prefix.is_empty() && error.kind() == ErrorKind::NotADirectory)
                {
                    Ok(None)
                } else {
                    Err(unreadable(alloc, place.as_str(), &error))
                };
            }
        };
        let mut folders = Vec::new(alloc);
        for entry in entries {
            match entry {
                Ok(entry) => {
                    if let Some(name) = self.note(alloc, root, prefix.as_str(), skips, entry)? {
                        folders.push(name)?;
                    }
                }
                Err(error) => self.pass(alloc, place.as_str(), prefix.as_str(), skips, &error)?,
            }
        }
        Ok(Some(Level { prefix, folders }))
    }

    // Notes what has a name of a folder: a file by its path, while the name of a folder to be visited is the answer.
    fn note<R: Files + Drop>(
        &mut self,
        alloc: Global,
        root: &str,
        prefix: &str,
        skips: Skips<'_>,
        entry: fs::DirEntry<R>,
    ) -> Result<Option<String>, WalkError>
        // A folder that is passed over is not visited.
        ensures { IfOk result (λ found. IfSome found (λ folder.
            (is_skipped_name skips.entry.names_at_top.now (length prefix.now == 0) (string_bytes folder) ≡ false)
            × (is_skipped_folder skips.entry.folders.now skips.entry.folders_at_top.now (length prefix.now == 0) (string_bytes folder) ≡ false))) }
    {
        self.count(alloc, root)?;
        let name = entry.file_name();
        if skips.skips_name(name, prefix.is_empty()) {
            return Ok(None);
        }
        let kind = match entry.file_type() {
            Ok(kind) => kind,
            Err(error) if is_absence(&error) => return Ok(None),
            Err(error) => {
                let place = place_of(alloc, root, prefix, name)?;
                return Err(unreadable(alloc, place.as_str(), &error));
            }
        };
        if kind.is_dir() {
            // A path below it has a `/` and one more byte at least.
            if skips.skips_folder(name, prefix.is_empty())
                || prefix.len().saturating_add(name.len()) > LONGEST_PATH - 2
            {
                return Ok(None);
            }
            return Ok(Some(String::from_str(alloc, name)?));
        }
        if kind.is_file() || !skips.special {
            self.add_file(alloc, root, prefix, name, skips)?;
        }
        Ok(None)
    }

    fn count(&mut self, alloc: Global, root: &str) -> Result<(), WalkError> {
        if self.names >= MOST_NAMES {
            return Err(failed(alloc, root, Reason::Crowd));
        }
        self.names = self.names.saturating_add(1);
        Ok(())
    }

    fn add_file(
        &mut self,
        alloc: Global,
        root: &str,
        prefix: &str,
        name: &str,
        skips: Skips<'_>,
    ) -> Result<(), WalkError> {
        let path = format!(in alloc; "{prefix}{name}")?;
        match SitePath::read(alloc, path.as_str()) {
            Ok(path) => self.paths.push((path, ()))?,
            Err(PathError::Memory) => return Err(WalkError::Memory),
            Err(_) => {
                if !skips.skips_path(path.as_str()) {
                    let place = place_of(alloc, root, prefix, name)?;
                    return Err(failed(alloc, place.as_str(), Reason::Name));
                }
            }
        }
        Ok(())
    }

    // An entry that has no name here: it is not UTF-8, unless the folder itself fails.
    fn pass(
        &mut self,
        alloc: Global,
        place: &str,
        prefix: &str,
        skips: Skips<'_>,
        error: &Error,
    ) -> Result<(), WalkError> {
        self.count(alloc, place)?;
        if error.kind() != ErrorKind::InvalidFilename {
            return Err(unreadable(alloc, place, error));
        }
        if skips.skips_path(prefix) {
            return Ok(());
        }
        Err(failed(alloc, place, Reason::NotUtf8))
    }
}

// Where a name below a prefix is; of the current folder, the path alone says it.
fn place_of(alloc: Global, root: &str, prefix: &str, name: &str) -> Result<String, AllocError> {
    if root != "." {
        format!(in alloc; "{root}/{prefix}{name}")
    } else if prefix.is_empty() && name.is_empty() {
        String::from_str(alloc, root)
    } else {
        format!(in alloc; "{prefix}{name}")
    }
}

// Whether a part of the path makes a file below it no part of a site, whatever the configuration says of other files. A folder whose name begins with `_` may
// be a collection, unless the name has a control character.
fn is_hidden(path: &str) -> bool {
    let mut parts = path.split('/');
    let last = parts.next_back().unwrap_or("");
    last.starts_with('_')
        || has_mark(last)
        || parts.any(|part| has_mark(part) || part.starts_with('_') && has_control(part))
}

fn has_mark(part: &str) -> bool {
    part.starts_with('.') || part.starts_with('#') || part.starts_with('~') || part.ends_with('~')
}

fn has_control(part: &str) -> bool {
    part.bytes().any(|byte| byte < 32 || byte == 127)
}
