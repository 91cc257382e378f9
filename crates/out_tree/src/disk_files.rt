// Writing and removing single files of an output that is a folder: nothing outside of it is touched, and a file that is good is not lost for one that cannot
// be written.
use folder_walk::Reason;
use std::alloc::Global;
use std::fs;
use std::fs::{File, Metadata, OpenOptions, Permissions};
use std::io::{Error, ErrorKind, Read, Write};
use std::os::unix::fs::{MetadataExt, OpenOptionsExt, PermissionsExt, lchown};
use std::rt::Files;

/// The folder that holds the output, in the current folder.
pub(crate) const DESTINATION: &str = "_site";

/// Where a file is written beside the one that it replaces. With its control character it is no path of a site; this one is allowed in names on FAT too.
pub(crate) const LEFT: &str = "_site/\u{7f}sitebuild";

// A path has fewer parts than this.
const MOST_PARTS: u32 = 1024;

// A folder that is in the way is given up when it has more folders than this.
const MOST_FOLDERS: usize = 100_000;

// The bits of a mode that let whoever may read, write and run a file do so, and those that let a program run with another's rights (POSIX, chmod).
const RIGHTS_BITS: u32 = 0o777;

const SPECIAL_BITS: u32 = 0o6000;

// A file of up to so many bytes is written in one call.
const ONE_CALL: usize = 65_536;

// Whether all folders around a place are there.
#[derive(Clone, Copy)]
enum Way {
    Whole,
    Broken,
}

/// Gives the file at a place these bytes. A file that has them already is left alone.
///
/// It fails for a place that is Git's, when a folder around the place is a symbolic link or a file, and when a file is below the place.
pub(crate) fn write_file<R: Files<File = File> + AllocGlobal + Clone + Drop>(
    rt: &R,
    alloc: Global,
    place: &str,
    bytes: &[u8],
) -> Result<(), Reason> {
    if place.split('/').any(is_git) {
        return Err(Reason::Git);
    }
    if matches!(way_to(rt, place)?, Way::Broken) {
        make_folders(rt, place)?;
        return write_new(rt, place, bytes);
    }
    let there = match fs::symlink_metadata(rt, place) {
        Ok(there) => there,
        Err(error) if error.kind() == ErrorKind::NotFound => return write_new(rt, place, bytes),
        Err(error) => return Err(Reason::from(error)),
    };
    if there.is_file() {
        return replace(rt, place, &there, bytes);
    }
    if there.is_dir() {
        remove_empty_folder(rt, alloc, place)?;
    } else {
        // A write would follow a link, and wait at a pipe.
        fs::remove_file(rt, place)?;
    }
    write_new(rt, place, bytes)
}

/// Takes the file at a place away, with the folders that this leaves empty. What is not there, what is below a link or a file, and what is Git's, is no file
/// of the output.
pub(crate) fn remove_file<R: Files>(rt: &R, place: &str) -> Result<(), Reason> {
    if is_of_git_at_top(place) {
        return Ok(());
    }
    match way_to(rt, place) {
        Ok(Way::Whole) => {}
        Ok(Way::Broken) | Err(Reason::Link | Reason::NoFolder) => return Ok(()),
        Err(reason) => return Err(reason),
    }
    if let Err(error) = fs::remove_file(rt, place)
        && !is_absence(&error)
    {
        return Err(Reason::from(error));
    }
    remove_empty_folders(rt, place);
    Ok(())
}

// On some file systems `.GIT` names the same folder.
fn is_git(part: &str) -> bool {
    part.eq_ignore_ascii_case(".git")
}

fn is_of_git_at_top(place: &str) -> bool {
    place.split('/').nth(1).is_some_and(is_git)
}

// Whether what was asked for is not there: its folder is not, or is a file.
fn is_absence(error: &Error) -> bool {
    matches!(error.kind(), ErrorKind::NotFound | ErrorKind::NotADirectory)
}

// Looks at each folder around a place, the destination too. None of them may be a link or a file.
fn way_to<R: Files>(rt: &R, place: &str) -> Result<Way, Reason> {
    let mut inner = place;
    let mut way = Way::Whole;
    for _ in 0..MOST_PARTS {
        let Some((folder, _)) = inner.rsplit_once('/') else {
            return Ok(way);
        };
        match fs::symlink_metadata(rt, folder) {
            Ok(there) if there.is_dir() => {}
            Ok(there) if there.is_symlink() => return Err(Reason::Link),
            Ok(_) => return Err(Reason::NoFolder),
            Err(error) if is_absence(&error) => way = Way::Broken,
            Err(error) => return Err(Reason::from(error)),
        }
        inner = folder;
    }
    Err(Reason::LongName)
}

fn make_folders<R: Files>(rt: &R, place: &str) -> Result<(), Reason> {
    if let Some((folder, _)) = place.rsplit_once('/') {
        fs::create_dir_all(rt, folder)?;
    }
    Ok(())
}

// Writes a file where there is none. One that could not be written whole is taken away again.
fn write_new<R: Files<File = File>>(rt: &R, place: &str, bytes: &[u8]) -> Result<(), Reason> {
    let mut file = create(rt, place)?;
    if let Err(error) = file.write_all(bytes) {
        let _ = fs::remove_file(rt, place);
        return Err(Reason::from(error));
    }
    Ok(())
}

// The rights that `umask` leaves of those that are asked for when a file is made (POSIX, open).
const NEW_RIGHTS: u32 = 0o666;

fn create<R: Files<File = File>>(rt: &R, place: &str) -> Result<File, Error> {
    create_with(rt, place, NEW_RIGHTS)
}

fn create_with<R: Files<File = File>>(rt: &R, place: &str, rights: u32) -> Result<File, Error> {
    OpenOptions::new()
        .write(true)
        .create_new(true)
        .mode(rights)
        .open(rt, place)
}

// Gives a file that is there these bytes, in the gentlest way: it is left alone when it has them, written over when they fit into its blocks, and else a
// new one takes its place.
fn replace<R: Files<File = File>>(
    rt: &R,
    place: &str,
    there: &Metadata,
    bytes: &[u8],
) -> Result<(), Reason> {
    if there.len() == bytes.len() as u64 && holds(rt, place, bytes) {
        return Ok(());
    }
    if fits_into(there, bytes.len())
        && let Ok(file) = OpenOptions::new().write(true).open(rt, place)
    {
        return write_over(file, there, bytes);
    }
    write_beside(rt, place, there, bytes)
}

// Whether the file has these bytes.
fn holds<R: Files>(rt: &R, place: &str, bytes: &[u8]) -> bool {
    let Ok(mut file) = fs::open(rt, place) else {
        return false;
    };
    let mut left = bytes;
    let mut buffer = [0u8; ONE_CALL];
    for _ in 0..u64::MAX {
        let Ok(count) = file.read(&mut buffer) else {
            return false;
        };
        if count == 0 {
            return left.is_empty();
        }
        match left.strip_prefix(&buffer[..count]) {
            Some(rest) => left = rest,
            None => return false,
        }
    }
    false
}

// Whether so many bytes can be written over the file in one call, without a further block of the disk.
fn fits_into(there: &Metadata, len: usize) -> bool {
    is_ours_alone(there) && len <= ONE_CALL && len as u64 <= there.blocks().saturating_mul(512)
}

// Whether the file may be written over: one with several names may be the copy that somebody keeps, and a page is never a program that runs with the rights of
// its owner.
fn is_ours_alone(there: &Metadata) -> bool {
    there.nlink() == 1 && there.mode() & SPECIAL_BITS == 0
}

fn write_over(mut file: File, there: &Metadata, bytes: &[u8]) -> Result<(), Reason> {
    // What was opened is what was looked at: no link took its place in between.
    let opened = file.metadata()?;
    if opened.ino() != there.ino() || opened.dev() != there.dev() {
        return Err(Reason::Link);
    }
    file.write_all(bytes)?;
    if there.len() > bytes.len() as u64 {
        file.set_len(bytes.len() as u64)?;
    }
    Ok(())
}

// Writes the bytes into a new file, which takes the place of the old one when it is whole.
fn write_beside<R: Files<File = File>>(
    rt: &R,
    place: &str,
    there: &Metadata,
    bytes: &[u8],
) -> Result<(), Reason> {
    if let Err(reason) = fill_beside(rt, there, bytes) {
        let _ = fs::remove_file(rt, LEFT);
        return Err(reason);
    }
    let Err(error) = fs::rename(rt, LEFT, place) else {
        return Ok(());
    };
    let _ = fs::remove_file(rt, LEFT);
    if error.kind() == ErrorKind::CrossesDevices {
        return write_across(rt, place, there, bytes);
    }
    Err(Reason::from(error))
}

// The folder of the page is on another disk, onto which nothing can be moved: the page is written over, or written anew where its file has other names.
fn write_across<R: Files<File = File>>(
    rt: &R,
    place: &str,
    there: &Metadata,
    bytes: &[u8],
) -> Result<(), Reason> {
    if is_ours_alone(there) {
        let file = OpenOptions::new().write(true).open(rt, place)?;
        return write_over(file, there, bytes);
    }
    fs::remove_file(rt, place)?;
    write_new(rt, place, bytes)
}

fn fill_beside<R: Files<File = File>>(
    rt: &R,
    there: &Metadata,
    bytes: &[u8],
) -> Result<(), Reason> {
    let rights = there.mode() & RIGHTS_BITS;
    let mut file = match create_with(rt, LEFT, rights) {
        Ok(file) => file,
        Err(error) if error.kind() == ErrorKind::AlreadyExists => {
            fs::remove_file(rt, LEFT)?;
            create_with(rt, LEFT, rights)?
        }
        Err(error) => return Err(Reason::from(error)),
    };
    file.write_all(bytes)?;
    // The owner and the rights that somebody gave the page stay. Where the owner cannot, nobody gets more rights than the page had.
    if lchown(rt, LEFT, Some(there.uid()), Some(there.gid())).is_ok() {
        let _ = file.set_permissions(Permissions::from_mode(rights));
    }
    Ok(())
}

// Takes away a folder, and the folders in it, if all of them are without a file.
fn remove_empty_folder<R: Files + AllocGlobal + Clone + Drop>(
    rt: &R,
    alloc: Global,
    place: &str,
) -> Result<(), Reason> {
    if fs::remove_dir(rt, place).is_ok() {
        return Ok(());
    }
    let mut folders = Vec::new(alloc);
    folders.push(String::from_str(alloc, place)?)?;
    let mut next = 0;
    for _ in 0..MOST_FOLDERS {
        let Some(folder) = folders.get(next) else {
            break;
        };
        for inner in folders_in(rt, alloc, folder.as_str())? {
            folders.push(inner)?;
        }
        next += 1;
    }
    // Those inside of others were found after them.
    for folder in folders.iter().rev() {
        fs::remove_dir(rt, folder.as_str())?;
    }
    Ok(())
}

// The places of the folders in a folder that has nothing else.
fn folders_in<R: Files + AllocGlobal + Clone + Drop>(
    rt: &R,
    alloc: Global,
    folder: &str,
) -> Result<Vec<String>, Reason> {
    let mut folders = Vec::new(alloc);
    for entry in fs::read_dir(rt, folder)? {
        let entry = entry?;
        if !entry.file_type()?.is_dir() {
            return Err(Reason::Unwritable);
        }
        let name = entry.file_name();
        folders.push(format!(in alloc; "{folder}/{name}")?)?;
    }
    Ok(folders)
}

// Takes away the folders around a place that are empty now, but not the destination itself.
fn remove_empty_folders<R: Files>(rt: &R, place: &str) {
    let mut inner = place;
    for _ in 0..MOST_PARTS {
        let Some((folder, _)) = inner.rsplit_once('/') else {
            return;
        };
        if folder == DESTINATION || fs::remove_dir(rt, folder).is_err() {
            return;
        }
        inner = folder;
    }
}
