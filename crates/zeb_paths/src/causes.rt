//! Why a path isn't read, and why a register's store fails, as far as the system tells.

ghost use Rattle.std.specs.Prelude.{◌≡◌};
ghost use Rattle.std.specs.IoError.{error_kind};
ghost use Rattle.zeb_paths.specs.Causes.{path_cause_of, sqlite_cause_of, store_cause_of};
ghost use Rattle.zeb_paths.specs.declared.causes.PathCause.TheVariants.{Memory as Starved};

use sqlite::{Error, ErrorCode};
use std::alloc::{AllocError, AllocFailed};
use std::{fmt, io};

/// Why a path isn't read.
#[derive(Clone, Copy, Debug, PartialEq, Eq)]
pub enum PathCause {
    /// Nothing stands there.
    Absent,
    /// This process has no right to read it, or to go through its folders.
    Forbidden,
    /// Neither a file nor a folder stands there.
    Neither,
    /// A folder stands there that can be read, and a file is asked for.
    Folder,
    /// A folder stands there that can be read, but none so deep is.
    TooDeep,
    /// A file stands there that can be read, and has more bytes than one may have.
    TooLong,
    /// A file stands there that can be read, and is no text.
    NoText,
    /// A file stands there that can be read, and begins with no record.
    NoRecord,
    /// A name in the folder isn't UTF-8, or the path has a name that is too long.
    Name,
    /// The system failed a call, for no cause of these.
    Failed,
    Memory,
}

impl fmt::Display for PathCause {
    ghost use Rattle.std.specs.Prelude.{Some};
    ghost use Rattle.zeb_paths.specs.Causes.{path_cause_text};

    ghost output = { λ cause. Some (path_cause_text cause) };

    fn fmt<W: fmt::Write>(&self, f: &mut fmt::Formatter<W>) -> fmt::Result {
        f.write_str(match self {
            PathCause::Absent => "nothing stands there",
            PathCause::Forbidden => "no right to read it",
            PathCause::Neither => "neither a file nor a folder",
            PathCause::Folder => "a folder, where a file is asked for",
            PathCause::TooDeep => "a folder below the 32nd level",
            PathCause::TooLong => "too long",
            PathCause::NoText => "no UTF-8",
            PathCause::NoRecord => {
                "no ISO 2709: yaz-marcdump makes it of MARCXML, gunzip unpacks a file"
            }
            PathCause::Name => "a name that isn't UTF-8 or is too long",
            PathCause::Failed => "the system failed a call",
            PathCause::Memory => "out of memory",
        })
    }
}

impl From<AllocError> for PathCause {
    ghost from_gives = { λ _ cause. cause ≡ Starved };

    fn from(_error: AllocError) -> PathCause {
        PathCause::Memory
    }
}

impl<T: Drop> From<AllocFailed<T>> for PathCause {
    ghost from_gives = { λ _ cause. cause ≡ Starved };

    fn from(_error: AllocFailed<T>) -> PathCause {
        PathCause::Memory
    }
}

impl From<io::Error> for PathCause {
    ghost from_gives = { λ error cause. cause ≡ path_cause_of (error_kind error) };

    fn from(error: io::Error) -> PathCause {
        match error.kind() {
            io::ErrorKind::NotFound | io::ErrorKind::NotADirectory => PathCause::Absent,
            io::ErrorKind::PermissionDenied => PathCause::Forbidden,
            io::ErrorKind::InvalidFilename => PathCause::Name,
            io::ErrorKind::OutOfMemory => PathCause::Memory,
            _ => PathCause::Failed,
        }
    }
}

/// Why a register's store fails.
#[derive(Clone, Copy, Debug, PartialEq, Eq)]
pub enum StoreCause {
    /// Another program has it open.
    Held,
    /// The folder that it is to stand in isn't there.
    NoFolder,
    /// This process may not read and write it, or make a file in its folder.
    Forbidden,
    /// Something else than a file stands there, or in its log's place.
    NoFile,
    /// A link stands there that leads nowhere.
    LostLink,
    /// The path has another meaning for SQLite than a file's.
    Name,
    /// The file has a second name.
    TwoNames,
    /// A journal stands beside it, which only SQLite can play back.
    Journal,
    /// It is no file of SQLite, or one with other tables than a register's.
    Foreign,
    /// There is no room on the disk.
    Full,
    /// A page isn't as it was written.
    Damaged,
    /// The system failed a call, for no cause of these.
    Failed,
    Memory,
}

impl fmt::Display for StoreCause {
    ghost use Rattle.std.specs.Prelude.{Some};
    ghost use Rattle.zeb_paths.specs.Causes.{store_cause_text};

    ghost output = { λ cause. Some (store_cause_text cause) };

    fn fmt<W: fmt::Write>(&self, f: &mut fmt::Formatter<W>) -> fmt::Result {
        f.write_str(match self {
            StoreCause::Held => "held by another program",
            StoreCause::NoFolder => "no such folder",
            StoreCause::Forbidden => "no right to write the file, or in its folder",
            StoreCause::NoFile => "no file stands there",
            StoreCause::LostLink => "a link that leads nowhere",
            StoreCause::Name => "a name that SQLite takes for no file's",
            StoreCause::TwoNames => "a file with a second name",
            StoreCause::Journal => "a journal of SQLite stands beside it",
            StoreCause::Foreign => "no register of this program",
            StoreCause::Full => "disk full",
            StoreCause::Damaged => "damaged page",
            StoreCause::Failed => "the system failed a call",
            StoreCause::Memory => "out of memory",
        })
    }
}

impl From<Error> for StoreCause {
    ghost from_gives = { λ error cause. cause ≡ sqlite_cause_of error };

    /// What SQLite's kit tells; of a file that can't be opened it tells no more than that.
    fn from(error: Error) -> StoreCause {
        match error {
            Error::SqliteFailure(ErrorCode::DatabaseBusy) => StoreCause::Held,
            Error::SqliteFailure(ErrorCode::NotADatabase) => StoreCause::Foreign,
            Error::SqliteFailure(ErrorCode::DatabaseCorrupt) => StoreCause::Damaged,
            Error::SqliteFailure(ErrorCode::DiskFull) => StoreCause::Full,
            Error::SqliteFailure(ErrorCode::OutOfMemory) => StoreCause::Memory,
            _ => StoreCause::Failed,
        }
    }
}

impl From<io::Error> for StoreCause {
    ghost from_gives = { λ error cause. cause ≡ store_cause_of (error_kind error) };

    fn from(error: io::Error) -> StoreCause {
        match error.kind() {
            io::ErrorKind::NotADirectory => StoreCause::NoFolder,
            io::ErrorKind::PermissionDenied | io::ErrorKind::ReadOnlyFilesystem => {
                StoreCause::Forbidden
            }
            io::ErrorKind::StorageFull | io::ErrorKind::QuotaExceeded => StoreCause::Full,
            io::ErrorKind::OutOfMemory => StoreCause::Memory,
            _ => StoreCause::Failed,
        }
    }
}

/// How a store was closed.
#[derive(Clone, Copy, Debug, PartialEq, Eq)]
pub struct Closed {
    /// Whether all that was committed stands in the one file. Else a part of it stands in the log beside it, as a crash leaves it.
    pub is_whole: bool,
    /// What the store met since it was opened, where that is told.
    pub cause: Option<StoreCause>,
}

impl Closed {
    /// It stands in one file, and nothing failed.
    pub const WHOLE: Closed = Closed {
        is_whole: true,
        cause: None,
    };
}
