// What a call on a real folder cannot get past.
ghost use Rattle.std.specs.Prelude.{◌≡◌, IfOk};
ghost use Rattle.std.specs.String.{string_bytes};
ghost use Rattle.folder_walk.specs.Reasons.{reading, writing};

use std::alloc::{AllocError, AllocFailed, Global};
use std::io::{Error, ErrorKind};

/// Why a call on a folder failed, as far as a person can do something about it.
#[derive(Clone, Copy, Debug, PartialEq, Eq)]
pub enum Reason {
    /// The rights, or a fault of the disk, do not let it be read.
    Unreadable,
    /// It cannot be written or removed: its rights, or those of its folder.
    Unwritable,
    /// Its name makes no path of a site.
    Name,
    /// A name in it is not UTF-8.
    NotUtf8,
    /// There are too many names below it.
    Crowd,
    /// It is a symbolic link where a folder has to be.
    Link,
    /// It is no folder where one has to be.
    NoFolder,
    /// Another run works on it.
    Busy,
    /// It belongs to Git.
    Git,
    /// It has a name that is longer than the file system allows.
    LongName,
    /// The disk is full, or the file is larger than it may be.
    NoRoom,
}

impl Reason {
    /// Why a read, or a list, came to this error.
    pub fn of_reading(error: &Error) -> Reason
        ensures { result ≡ reading error.now }
    {
        match error.kind() {
            ErrorKind::NotADirectory => Reason::NoFolder,
            _ => Reason::Unreadable,
        }
    }
}

/// Why a write, or a removal, came to this error.
impl From<Error> for Reason {
    ghost from_gives = { λ error reason. reason ≡ writing error };

    fn from(error: Error) -> Reason {
        match error.kind() {
            ErrorKind::InvalidFilename => Reason::LongName,
            ErrorKind::StorageFull | ErrorKind::QuotaExceeded | ErrorKind::FileTooLarge => {
                Reason::NoRoom
            }
            ErrorKind::NotADirectory => Reason::NoFolder,
            _ => Reason::Unwritable,
        }
    }
}

impl From<AllocError> for Reason {
    fn from(_: AllocError) -> Reason {
        Reason::Unwritable
    }
}

impl<T: Drop> From<AllocFailed<T>> for Reason {
    fn from(_: AllocFailed<T>) -> Reason {
        Reason::Unwritable
    }
}

/// A place of a folder at which a call failed, and why.
#[derive(Debug, Drop)]
pub struct Obstacle {
    reason: Reason,
    place: String,
}

impl Obstacle {
    /// The obstacle at a place, which is a path relative to the current folder.
    pub fn at(alloc: Global, place: &str, reason: Reason) -> Result<Obstacle, AllocError>
        ensures { IfOk result (λ obstacle. (obstacle.reason ≡ reason) × (string_bytes obstacle.place ≡ place.now)) }
    {
        Ok(Obstacle {
            reason,
            place: String::from_str(alloc, place)?,
        })
    }

    pub fn reason(&self) -> Reason
        ensures { result ≡ self.now.reason }
    {
        self.reason
    }

    pub fn place(&self) -> &str
        ensures { result.now ≡ string_bytes self.now.place }
    {
        self.place.as_str()
    }
}
