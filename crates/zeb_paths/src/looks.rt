//! Looks at what stands at a path once more, to tell why it wasn't read or opened. Between the two others may have changed it.

ghost use Rattle.std.specs.Prelude.{◌≡◌, ◌≢◌, ◌↔◌, IfErr, IfOk, IsOk, IsTrue, Err, false, true};
ghost use Rattle.std.specs.Result.{IsOkAnd};
ghost use Rattle.sqlite.specs.declared.error.Error.TheVariants.{SqliteFailure};
ghost use Rattle.sqlite.specs.declared.error.ErrorCode.TheVariants.{CannotOpen};
ghost use Rattle.std.specs.Fs.{IsDir, IsFile, file_type};
ghost use Rattle.std.specs.IoError.{error_kind};
ghost use Rattle.std.specs.declared.io.ErrorKind.TheVariants as system;
ghost use Rattle.zeb_paths.specs.Causes.{sqlite_cause_of};
ghost use Rattle.zeb_paths.specs.Opened.{IsPlainPath};
ghost use Rattle.zeb_paths.specs.Unread as spec;
ghost use Rattle.zeb_paths.specs.Unread.{IsUnreadBy};
ghost use Rattle.zeb_paths.specs.PrivateCauses.{IsFree, IsLookedUp, IsMissed, IsUnmade, is_looked_up, log_cause_of, read_cause, told_by_look};

use crate::causes::{PathCause, StoreCause};
use crate::opening::is_plain;
use crate::paths::Asked;
use sqlite::{Error, ErrorCode};
use std::fs::{self, Metadata, OpenOptions};
use std::io::{self, Read};
use std::os::unix::fs::MetadataExt;

/// How many bytes a text may have that is read from a file.
const GREATEST_TEXT: u64 = 1_048_576;

/// How many bytes a file may have that is read whole.
const GREATEST_WHOLE: u64 = 16_777_216;

/// Why the path isn't read that was asked for so.
pub fn why_unread(rt: &HostRuntime, path: &str, asked: Asked) -> PathCause
    ensures { (found : _) × IsUnreadBy asked found result }
{
    match read_anew(rt, path, asked) {
        Ok(cause) => cause,
        Err(error) => PathCause::from(error),
    }
}

/// Looks at a path, and reads what stands there: what it can be, where nothing fails.
fn read_anew(rt: &HostRuntime, path: &str, asked: Asked) -> io::Result<PathCause>
    ensures { (found : _) × IsUnreadBy asked found (read_cause result) }
{
    let found = fs::metadata(rt, path)?;
    if found.is_dir() {
        read_folder(rt, path)?;
        return Ok(readable_folder(asked));
    }
    if !found.is_file() {
        return Ok(PathCause::Neither);
    }
    let mut file = fs::open(rt, path)?;
    let _count = file.read(&mut [0u8])?;
    Ok(readable_file(asked, found.len()))
}

/// Lists a folder.
fn read_folder(rt: &HostRuntime, path: &str) -> io::Result<()> {
    for entry in fs::read_dir(rt, path)? {
        if let Err(error) = entry {
            return Err(error);
        }
    }
    Ok(())
}

/// Why a folder isn't read that can be.
fn readable_folder(asked: Asked) -> PathCause
    ensures { result ≡ spec.readable_folder asked }
{
    match asked {
        Asked::Step => PathCause::TooDeep,
        Asked::Text | Asked::Bytes => PathCause::Folder,
    }
}

/// Why a file of so many bytes isn't read that can be.
fn readable_file(asked: Asked, bytes: u64) -> PathCause
    ensures { result ≡ spec.readable_file asked bytes }
{
    match asked {
        Asked::Text if bytes > GREATEST_TEXT => PathCause::TooLong,
        Asked::Text => PathCause::NoText,
        Asked::Step if bytes > GREATEST_WHOLE => PathCause::TooLong,
        // It could not be read before.
        Asked::Step | Asked::Bytes => PathCause::Failed,
    }
}

/// The folder that a path stands in.
fn folder_of(path: &str) -> &str {
    match path.rsplit_once('/') {
        Some(("", _)) => "/",
        Some((folder, _)) => folder,
        None => ".",
    }
}

/// Whether the system says that nothing stands there, and no other thing.
fn is_missing(error: io::Error) -> bool
    ensures { IsTrue result ↔ (error_kind error ≡ system.NotFound) }
{
    error.kind() == io::ErrorKind::NotFound
}

/// Whether a folder is found.
fn is_folder(found: io::Result<Metadata>) -> bool
    ensures { IsTrue result ↔ IsOkAnd found (λ metadata. IsDir (file_type metadata)) }
{
    match found {
        Ok(found) => found.is_dir(),
        Err(_) => false,
    }
}

/// Whether a store may stand at a path where this is found, and that where its folder is looked at, and whether nothing stands beside it.
fn may_stand(found: io::Result<Metadata>, folder: io::Result<Metadata>, is_alone: bool) -> bool
    ensures { (result ≡ false) ↔ IsFree found folder is_alone }
{
    match found {
        Ok(found) => !(found.is_file() && found.len() == 0 && is_alone),
        Err(error) => !is_missing(error) || !is_folder(folder),
    }
}

/// Whether a store may stand at a path: not where nothing does, in a folder that is there, nor where a file of no bytes stands alone. Beside
/// such a file a log may hold all of a register that was begun, and not closed.
pub fn may_have_store(rt: &HostRuntime, path: &str) -> bool
    ensures { (found : _) × (folder : _) × (alone : _)
        × ((result ≡ false) ↔ IsFree found folder alone) }
{
    let found = fs::metadata(rt, path);
    let is_alone = matches!(stands_alone(rt, path), Ok(true));
    may_stand(found, fs::metadata(rt, folder_of(path)), is_alone)
}

/// Whether neither a journal nor a log stands beside the file that a path leads to.
fn stands_alone(rt: &HostRuntime, path: &str) -> io::Result<bool> {
    // A link is followed to the file itself: its journal and its log stand beside that.
    let real = fs::canonicalize(rt, path)?;
    Ok(!is_beside(rt, real.as_str(), "-journal")? && !is_beside(rt, real.as_str(), "-wal")?)
}

/// Whether something stands beside a file, at its path with this behind it.
fn is_beside(rt: &HostRuntime, path: &str, behind: &str) -> io::Result<bool> {
    is_there(rt, beside(rt, path, behind)?.as_str())
}

/// A file's path with this behind it.
fn beside(rt: &HostRuntime, path: &str, behind: &str) -> io::Result<String> {
    Ok(format!(in rt.alloc(); "{path}{behind}")?)
}

/// Why the store at a path isn't opened, where this is what SQLite's kit says of it.
pub fn why_unopened(rt: &HostRuntime, path: &str, error: Error) -> StoreCause
    ensures said { error ≢ SqliteFailure CannotOpen → result ≡ sqlite_cause_of error }
    ensures named { error ≡ SqliteFailure CannotOpen → ¬ IsPlainPath path.now
        → result ≡ StoreCause.Name }
    ensures looked { error ≡ SqliteFailure CannotOpen → IsPlainPath path.now → (found : _)
        × IsLookedUp found result × (is_looked_up result ≡ true) }
{
    if error != Error::SqliteFailure(ErrorCode::CannotOpen) {
        return StoreCause::from(error);
    }
    if !is_plain(path) {
        return StoreCause::Name;
    }
    match open_anew(rt, path) {
        Ok(()) => StoreCause::Failed,
        Err(cause) => cause,
    }
}

/// Looks at what a store needs, in the kit's order, and makes nothing.
fn open_anew(rt: &HostRuntime, path: &str) -> Result<(), StoreCause>
    ensures looked { IfErr result (λ cause. is_looked_up cause ≡ true) }
    ensures found { (found : _) × IsLookedUp found (told_by_look result) }
{
    match fs::metadata(rt, path) {
        Ok(found) => use_file(rt, path, found),
        Err(error) if is_missing(error) => Err(why_missed(rt, path)),
        Err(error) => Err(StoreCause::from(error)),
    }
}

/// Why no store stands at a path, and none can be made there.
fn why_missed(rt: &HostRuntime, path: &str) -> StoreCause
    ensures missed { (link : _) × IsMissed link result }
    ensures looked { is_looked_up result ≡ true }
{
    match fs::symlink_metadata(rt, path) {
        Ok(_) => StoreCause::LostLink,
        Err(_) => why_unmade(fs::metadata(rt, folder_of(path))),
    }
}

/// Why no file can be made in a folder of which this is found.
fn why_unmade(folder: io::Result<Metadata>) -> StoreCause
    ensures unmade { IsUnmade folder result }
    ensures looked { is_looked_up result ≡ true }
{
    match folder {
        Ok(found) if found.is_dir() => StoreCause::Forbidden,
        Ok(_) => StoreCause::NoFolder,
        Err(error) if is_missing(error) => StoreCause::NoFolder,
        Err(error) => StoreCause::from(error),
    }
}

/// Looks at what a store needs whose file is there.
fn use_file(rt: &HostRuntime, path: &str, found: Metadata) -> Result<(), StoreCause>
    ensures other { (¬ IsFile (file_type found)) → result ≡ Err StoreCause.NoFile }
    ensures looked { IfErr result (λ cause. is_looked_up cause ≡ true) }
{
    if !found.is_file() {
        return Err(StoreCause::NoFile);
    }
    if found.nlink() != 1 {
        return Err(StoreCause::TwoNames);
    }
    open_to_write(rt, path)?;
    // A link is followed to the file itself: its journal and its log stand beside that.
    let real = fs::canonicalize(rt, path)?;
    use_beside(rt, real.as_str())
}

/// Looks at what stands beside a store's file.
fn use_beside(rt: &HostRuntime, path: &str) -> Result<(), StoreCause>
    ensures looked { IfErr result (λ cause. is_looked_up cause ≡ true) }
{
    if is_beside(rt, path, "-journal")? {
        return Err(StoreCause::Journal);
    }
    let log = beside(rt, path, "-wal")?;
    match fs::symlink_metadata(rt, log.as_str()) {
        Ok(found) if !found.is_file() => Err(StoreCause::NoFile),
        _ => use_log(open_to_write(rt, log.as_str())),
    }
}

/// Why a store whose file is there isn't opened, where its log was opened so.
fn use_log(opened: io::Result<()>) -> Result<(), StoreCause>
    ensures fault { IfErr opened (λ error. result ≡ Err (log_cause_of (error_kind error))) }
    ensures there { IfOk opened (λ _. IsOk result) }
    ensures looked { IfErr result (λ cause. is_looked_up cause ≡ true) }
{
    match opened {
        Err(error) if is_missing(error) => Err(StoreCause::Forbidden),
        Err(error) => Err(StoreCause::from(error)),
        Ok(()) => Ok(()),
    }
}

/// Whether something stands at a path, a link too that leads nowhere.
fn is_there(rt: &HostRuntime, path: &str) -> io::Result<bool> {
    match fs::symlink_metadata(rt, path) {
        Ok(_) => Ok(true),
        Err(error) if is_missing(error) => Ok(false),
        Err(error) => Err(error),
    }
}

/// Opens a file that is there for reading and writing, and closes it.
fn open_to_write(rt: &HostRuntime, path: &str) -> io::Result<()> {
    let _file = OpenOptions::new().read(true).write(true).open(rt, path)?;
    Ok(())
}
