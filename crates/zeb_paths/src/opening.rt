//! Opening the store at a path, with room in memory for the pages of its file.

ghost use Rattle.std.specs.Prelude.{◌≡◌, ◌≤◌, ◌↔◌, false, IfOk, IsTrue};
ghost use Rattle.sqlite.specs.Files.{file_state};
ghost use Rattle.sqlite.specs.State.{HasCleanDisk};
ghost use Rattle.sqlite_std_file.specs.File.{file_is_usable};
ghost use Rattle.zeb_paths.specs.Opened.{IsPlainPath, IsWellOpened};
ghost use Rattle.zeb_paths.specs.PrivateOpenings.{sqlite_error_of};

use sqlite::{
    Connection, Error, ErrorCode, File, FileFrom, FileStore, Files, Options, Start, Unknown,
};
use sqlite_std_file::OpenError;
use std::hash::{BuildHasher, RandomState};
use std::{fs, io};

const CANNOT_OPEN: Error = Error::SqliteFailure(ErrorCode::CannotOpen);

const NO_MEMORY: Error = Error::SqliteFailure(ErrorCode::OutOfMemory);

/// The bytes of a page of a register's file.
const PAGE_BYTES: u64 = 4096;

/// How many pages that were read are kept in memory at least, as many as the kit keeps by itself.
const LEAST_PAGES: u64 = 2_000;

/// How many are kept at most, 16 MB of them: more take as much memory as the register's file, and save little.
const MOST_PAGES: u64 = 4_000;

/// Opens the store at a path as the kit does by itself, but for how many of its pages it keeps in memory. It is made where nothing stands
/// there.
pub(crate) fn open_store(rt: &HostRuntime, path: &str) -> Result<Connection<FileStore<File>>, Error>
    ensures idle { IfOk result (λ connection. connection.in_transaction ≡ false) }
    ensures given { IfOk result (λ connection. HasCleanDisk (file_state connection)
        → IsWellOpened (file_state connection)) }
    ensures plain { IfOk result (λ _. IsPlainPath path.now) }
{
    let options = options_for(rt, path)?;
    let files = open_files(rt, path, Unknown)?;
    match Connection::open_files(rt.alloc(), files, options) {
        Ok(connection) => Ok(connection),
        Err(refused) => Err(refused.0),
    }
}

/// Whether SQLite gives a path no other meaning than a file's.
pub(crate) fn is_plain(path: &str) -> bool
    ensures { IsTrue result ↔ IsPlainPath path.now }
{
    path != ":memory:" && !path.starts_with("file:")
}

/// Opens the file at a path and its log. A path that has another meaning for SQLite isn't opened.
fn open_files<S: Start>(rt: &HostRuntime, path: &str, start: S) -> Result<Files<FileFrom<S>>, Error>
    ensures log { IfOk result (λ files. IsTrue (file_is_usable S.Start files.log)) }
    ensures db { IfOk result (λ files. IsTrue (file_is_usable S.Start files.db)) }
    ensures plain { IfOk result (λ _. IsPlainPath path.now) }
{
    if !is_plain(path) {
        return Err(CANNOT_OPEN);
    }
    match sqlite_std_file::open(rt, path, start) {
        Ok(files) => Ok(files),
        Err(error) => Err(error_of(error)),
    }
}

/// What the kit says of a store whose files aren't opened for this cause.
fn error_of(error: OpenError) -> Error
    ensures { result ≡ sqlite_error_of error }
{
    match error {
        OpenError::Busy => Error::SqliteFailure(ErrorCode::DatabaseBusy),
        OpenError::OutOfMemory => NO_MEMORY,
        OpenError::Io(error) if error.kind() == io::ErrorKind::OutOfMemory => NO_MEMORY,
        OpenError::Io(_) | OpenError::HotJournal => CANNOT_OPEN,
    }
}

/// How the store at a path is opened.
fn options_for(rt: &HostRuntime, path: &str) -> Result<Options, Error> {
    let Ok(random) = RandomState::new(rt) else {
        return Err(CANNOT_OPEN);
    };
    // A number drawn by lot salts the log, so that frames which an earlier process left aren't taken for new ones.
    let mut options = Options::new(random.hash_one(&0u8));
    options.cache_pages = pages_kept(rt, path);
    Ok(options)
}

/// How many pages of the store at a path are kept in memory: all that its file has, where it has neither few nor many. An opening looks
/// each row up in its indexes, so it reads a page again each time that it isn't kept any more.
fn pages_kept(rt: &HostRuntime, path: &str) -> usize
    ensures { (2000 ≤ result) × (result ≤ 4000) }
{
    let bytes = match fs::metadata(rt, path) {
        Ok(found) => found.len(),
        Err(_) => 0,
    };
    (bytes / PAGE_BYTES).clamp(LEAST_PAGES, MOST_PAGES) as usize
}
