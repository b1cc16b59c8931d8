//! The paths of the file system.

ghost use Rattle.std.specs.Prelude.{◌≡◌, ◌≢◌, ◌↔◌, ⊤, [], Err, None, Ok, Some, IfErr, IfOk, IsSome, IsSomeAnd, true};
ghost use Rattle.std.specs.Fs.{IsDir, IsFile, file_type};
ghost use Rattle.std.specs.IoError.{error_kind};
ghost use Rattle.std.specs.Io.{ReadsAtMost};
ghost use Rattle.sqlite.specs.Files.{file_state};
ghost use Rattle.sqlite.specs.State.{HasCleanDisk};
ghost use Rattle.sqlite_store.specs.FileStore.{faults, is_shielded, recovers, tally, view};
ghost use Rattle.sqlite_trees.specs.View.{IsQuiet};
ghost use Rattle.zeb_paths.specs.Causes.{path_cause_of};
ghost use Rattle.zeb_paths.specs.Closing.{HasReason, IsCauseMet, IsLeft};
ghost use Rattle.zeb_paths.specs.Opened.{IsPlainPath, IsWellOpened};
ghost use Rattle.zeb_paths.specs.PrivateClosings.{IsClosedBy};
ghost use Rattle.zeb_paths.specs.PrivateReads.{AsksOpen};
ghost use Rattle.zeb_paths.specs.Unread.{IsUnreadBy};
ghost use Rattle.zeb_paths.specs.declared.disk.Progress.TheVariants.{Ended};

use crate::causes::{Closed, PathCause, StoreCause};
use crate::looks::{may_have_store, why_unopened, why_unread};
use crate::opening::open_store;
use crate::paths::{Asked, OpenFailed, PathKind, Paths, push_name};
use crate::tally::Tally;
use sqlite::{Connection, File, FileStore};
use sqlite_disk::{Disk as Medium, Tally as Met};
use sqlite_trees::error::StoreError;
use sqlite_trees::store::Store;
use std::alloc::Global;
use std::fs::{self, Metadata};
use std::io::{self, BufReader};
use zeb_marc::{Ask, ReadFailed, Source};

/// The file system, with paths relative to the working folder.
#[derive(Clone, Copy)]
pub struct Disk<'a> {
    rt: &'a HostRuntime,
    tally: Option<&'a Tally<'a>>,
}

impl<'a> Disk<'a> {
    /// The file system of this process.
    pub fn new(rt: &'a HostRuntime) -> Disk<'a>
        ensures { (result.rt ≡ rt.entry) × (result.tally ≡ None) }
    {
        Disk { rt, tally: None }
    }

    /// The same, where a tally counts the records that are read. It begins anew where a reader is dropped. Those of a change are
    /// dropped together, so it counts through all its files; those of an analysis one by one, so it counts each file's.
    pub fn counted(rt: &'a HostRuntime, tally: &'a Tally<'a>) -> Disk<'a>
        ensures { (result.rt ≡ rt.entry) × (result.tally ≡ Some tally.entry) }
    {
        let tally = Some(tally);
        Disk { rt, tally }
    }
}

/// What stands where these metadata are found, or why neither a file nor a folder is.
fn kind_of(found: io::Result<Metadata>) -> Result<PathKind, PathCause>
    ensures folder { IfOk found (λ metadata. IsDir (file_type metadata) ↔
        (result ≡ Ok PathKind.Folder)) }
    ensures file { IfOk found (λ metadata. IsFile (file_type metadata) ↔
        (result ≡ Ok PathKind.File)) }
    ensures other { IfOk found (λ metadata. ¬ IsDir (file_type metadata) → ¬ IsFile
        (file_type metadata)
        → result ≡ Err PathCause.Neither) }
    ensures fault { IfErr found (λ error. result ≡ Err (path_cause_of (error_kind error))) }
{
    let found = found?;
    if found.is_dir() {
        Ok(PathKind::Folder)
    } else if found.is_file() {
        Ok(PathKind::File)
    } else {
        Err(PathCause::Neither)
    }
}

/// Ends a store: its log is copied into its one file, where that doesn't fail.
fn close_store<D: Medium + Drop>(store: FileStore<D>) -> Closed
    ensures { (left : _) × IsLeft result left
        × IsQuiet view faults recovers is_shielded store left
        × HasReason view faults store left result }
{
    let mut store = store;
    // No transaction is open, so nothing is undone. It is called for its clause: no page of an open transaction is in the log then.
    store.rollback();
    let copied = store.checkpoint();
    closed_by(copied, met_by(store))
}

/// Ends a store to which nothing more is done, and tells what it has met.
fn met_by<D: Medium + Drop>(store: FileStore<D>) -> Met
    ensures { result ≡ tally store }
{
    let met = store.tally();
    let _files = store.close();
    met
}

/// How a store is closed whose log was copied so, and that has met this.
fn closed_by(copied: Result<(), StoreError>, met: Met) -> Closed
    ensures { IsClosedBy copied met result }
{
    match copied {
        Ok(()) => Closed {
            is_whole: true,
            cause: cause_of(met),
        },
        Err(StoreError::OutOfMemory) => Closed {
            is_whole: false,
            cause: Some(StoreCause::Memory),
        },
        Err(_) => Closed {
            is_whole: false,
            cause: cause_of(met),
        },
    }
}

/// Why a store may have failed that has met this.
fn cause_of(met: Met) -> Option<StoreCause>
    ensures { IsCauseMet met result }
{
    if met.caught > 0 {
        return Some(StoreCause::Damaged);
    }
    (met.refused > 0).then_some(StoreCause::Full)
}

impl<'a> Paths for Disk<'a> {
    type Reader = FileReader<'a>;

    type Store = FileStore<File>;

    ghost tells = { λ _ _. None };

    ghost stands = { λ _ _. None };

    ghost lists = { λ _ _. None };

    ghost explains = { λ _ _ asked cause.
        IsSomeAnd cause (λ why. (found : _) × IsUnreadBy asked found why) };

    ghost opens = { λ _ _ path store. IsPlainPath path
        × (HasCleanDisk (file_state store) → IsWellOpened (file_state store)) };

    ghost refuses = { λ _ _ _ cause. IsSome cause };

    ghost lacks = { λ _ _. ⊤ };

    ghost has = { λ _ _. ⊤ };

    ghost lets_go = { λ _ met store. IsCauseMet (tally store) met };

    ghost leaves = { λ _ closed left. IsLeft closed left };

    fn kind(&self, path: &str) -> Result<PathKind, PathCause> {
        kind_of(fs::metadata(self.rt, path))
    }

    fn names(&self, alloc: Global, path: &str) -> Result<Vec<String>, PathCause> {
        let mut names = Vec::new(alloc);
        for entry in fs::read_dir(self.rt, path)? {
            push_name(alloc, &mut names, entry?.file_name())?;
        }
        Ok(names)
    }

    fn reader(&self, path: String) -> FileReader<'a> {
        FileReader {
            rt: self.rt,
            tally: self.tally,
            path,
            progress: Progress::Unopened,
            failed: false,
        }
    }

    fn why_unread(&self, path: &str, asked: Asked) -> Option<PathCause> {
        Some(why_unread(self.rt, path, asked))
    }

    fn has_store(&self, path: &str) -> bool {
        may_have_store(self.rt, path)
    }

    fn store(&mut self, path: &str) -> Result<Connection<FileStore<File>>, OpenFailed> {
        match open_store(self.rt, path) {
            Ok(connection) => Ok(connection),
            Err(error) => {
                let cause = Some(why_unopened(self.rt, path, error));
                Err(OpenFailed { cause })
            }
        }
    }

    fn close(&self, store: FileStore<File>) -> Closed {
        close_store(store)
    }

    fn let_go(&self, store: FileStore<File>) -> Option<StoreCause> {
        cause_of(met_by(store))
    }
}

/// How far a file has been read, and by what where it is open.
#[derive(Drop)]
enum Progress<R> {
    Unopened,
    Open(R),
    Ended,
}

/// A file that is to be read from its beginning. Where it can't be opened it stays unopened, and its read fails.
fn opened(rt: &HostRuntime, path: &str) -> Progress<BufReader<fs::File>>
    ensures { result ≢ Ended }
{
    let Ok(file) = fs::open(rt, path) else {
        return Progress::Unopened;
    };
    match BufReader::new(rt.alloc(), file) {
        Ok(reader) => Progress::Open(reader),
        Err(_) => Progress::Unopened,
    }
}

/// Asks what is open for bytes once, and passes on what it answers: an error of it is a failed read, and no file's end.
fn read_in<R: Ask>(progress: &mut Progress<R>, buffer: &mut [u8]) -> Result<usize, ReadFailed>
    ensures bound { ReadsAtMost result buffer.new }
    ensures asked { AsksOpen R.asks progress.old result buffer.new progress.new }
{
    match progress {
        Progress::Unopened => Err(ReadFailed),
        Progress::Open(reader) => reader.ask(buffer),
        Progress::Ended => Ok(0),
    }
}

/// The bytes of a file, which is opened at the first read and closed at its end or where a read fails. The line of its tally ends where
/// it is dropped, which is before its command is answered.
pub struct FileReader<'a> {
    rt: &'a HostRuntime,
    tally: Option<&'a Tally<'a>>,
    path: String,
    progress: Progress<BufReader<fs::File>>,
    failed: bool,
}

impl Drop for FileReader<'_> {
    fn drop(self) {
        let FileReader {
            rt: _,
            tally,
            path: _,
            progress: _,
            failed: _,
        } = self;
        if let Some(tally) = tally {
            tally.end();
        }
    }
}

impl FileReader<'_> {
    /// Reads into the buffer, from the file's beginning at the first call. Behind its end the file isn't opened anew: no byte of it is
    /// given twice.
    fn read_on(&mut self, buffer: &mut [u8]) -> Result<usize, ReadFailed>
        ensures bound { ReadsAtMost result buffer.new }
        ensures failed { self.new.failed ≡ self.old.failed }
        ensures end { result ≡ Ok 0 → buffer.new ≢ [] → self.new.progress ≡ Ended }
        ensures ended { self.old.progress ≡ Ended → (result ≡ Ok 0) × (self.new ≡ self.old) }
    {
        if let Progress::Unopened = self.progress {
            self.progress = opened(self.rt, self.path.as_str());
        }
        let count = read_in(&mut self.progress, buffer)?;
        if count == 0 && !buffer.is_empty() {
            self.progress = Progress::Ended;
        }
        Ok(count)
    }
}

impl Source for FileReader<'_> {
    ghost remaining = { λ _. None };

    ghost has_failed = { λ s. s.failed };

    ghost may_fail = { λ _. true };

    fn read(&mut self, buffer: &mut [u8]) -> Result<usize, ReadFailed> {
        if self.failed {
            return Err(ReadFailed);
        }
        match self.read_on(buffer) {
            Ok(count) => {
                if let Some(tally) = self.tally {
                    tally.pass(&buffer[..count]);
                }
                Ok(count)
            }
            Err(failure) => {
                self.progress = Progress::Ended;
                self.failed = true;
                Err(failure)
            }
        }
    }

    fn has_failed(&self) -> bool {
        self.failed
    }
}
