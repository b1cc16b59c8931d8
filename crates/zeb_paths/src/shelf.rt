//! Paths in memory, for tests.

ghost use Rattle.std.specs.Prelude.{◌≡◌, ◌⊎◌, ◌||◌, ⊤, [], None, Some, IfErr, IfOk, IfSome, map, string_bytes, true};
ghost use Rattle.std.specs.List.{before_first, list_any};
ghost use Rattle.std.specs.Option.{is_none, is_some, option_map};
ghost use Rattle.std.specs.Str.{bytes_eq};
ghost use Rattle.zeb_paths.specs.PrivateNames.{Adds, AddsAny};
ghost use Rattle.zeb_paths.specs.Told.{below, first_at, is_slash, name_below, names_in, stands_at, told_at};
ghost use Rattle.zeb_paths.specs.declared.causes.PathCause.TheVariants.{Memory as Starved};

use crate::causes::{Closed, PathCause, StoreCause};
use crate::paths::{Asked, OpenFailed, PathKind, Paths, push_name};
use sqlite::{Alter, Connection};
use std::alloc::{AllocError, Global};
use zeb_marc::{ReadFailed, Slice, Source};

/// A file in memory. A path that ends in `/` makes a folder that can't be listed.
#[derive(Clone, Copy, Debug)]
pub struct Shelved<'a> {
    pub path: &'a str,
    /// `None` where each read fails.
    pub bytes: Option<&'a [u8]>,
}

/// Files in memory: a folder stands at each path that the path of a file goes through, unless a file stands there. Contracts are
/// told the bytes of each file, that of the first where several have one path.
#[derive(Drop)]
pub struct Shelf<'a, S: Alter + Drop> {
    files: &'a [Shelved<'a>],
    store: Option<Connection<S>>,
}

impl<'a, S: Alter + Drop> Shelf<'a, S> {
    /// A shelf with these files. Its one store has every path; it can be opened once, and only where no transaction
    /// is open in it.
    pub fn new(files: &'a [Shelved<'a>], store: Option<Connection<S>>) -> Shelf<'a, S>
        ensures { (result.files ≡ files.entry) × (result.store ≡ store) }
    {
        Shelf { files, store }
    }
}

impl<'a> Shelved<'a> {
    /// What stands behind a folder's path and a slash in this file's path.
    fn below(&self, folder: &str) -> Option<&'a str>
        ensures { option_map (λ rest. rest.now) result ≡ below folder.now self.now.path.now }
    {
        self.path.strip_prefix(folder)?.strip_prefix('/')
    }

    /// The name in a folder that this file's path goes through or ends in.
    fn name_below(&self, folder: &str) -> Option<&'a str>
        ensures { option_map (λ name. name.now) result ≡ name_below folder.now self.now.path.now }
    {
        self.below(folder).map(first_name)
    }
}

/// What stands before the first slash.
fn first_name(path: &str) -> &str
    ensures { result.now ≡ before_first is_slash path.now }
{
    match path.split_once('/') {
        Some((name, _)) => name,
        None => path,
    }
}

/// The first file at a path.
fn file_at<'a>(files: &'a [Shelved<'a>], path: &str) -> Option<&'a Shelved<'a>>
    ensures { option_map (λ file. file.now) result ≡ first_at files.now path.now }
{
    files.iter().find(|file| file.path == path)
}

/// Whether a file stands below a folder.
fn has_below(files: &[Shelved<'_>], folder: &str) -> bool
    ensures { result ≡ list_any (λ file. is_some (below folder.now file.path.now)) files.now }
{
    files.iter().any(|file| file.below(folder).is_some())
}

/// Whether a name is among these.
fn is_known(names: &[String], name: &str) -> bool
    ensures { result ≡ list_any (λ known. bytes_eq (string_bytes known) name.now) names.now }
{
    names.iter().any(|known| known.as_str() == name)
}

/// Adds a name, unless it is there.
fn add_name(alloc: Global, names: &mut Vec<String>, name: &str) -> Result<(), AllocError>
    ensures { IfOk result (λ _. Adds name.now (map string_bytes names.old.items)
        (map string_bytes names.new.items)) }
{
    if !is_known(names, name) {
        push_name(alloc, names, name)?;
    }
    Ok(())
}

/// Adds the name in a folder that a file's path has, where it has one.
fn add_name_of(
    alloc: Global,
    names: &mut Vec<String>,
    file: &Shelved<'_>,
    folder: &str,
) -> Result<(), PathCause>
    ensures added { IfOk result (λ _. AddsAny (name_below folder.now file.now.path.now)
        (map string_bytes names.old.items) (map string_bytes names.new.items)) }
    ensures refused { IfErr result (λ cause. (cause ≡ Starved) ⊎
        (name_below folder.now file.now.path.now ≡ Some [])) }
{
    match file.name_below(folder) {
        Some(name) if name.is_empty() => Err(PathCause::Forbidden),
        Some(name) => Ok(add_name(alloc, names, name)?),
        None => Ok(()),
    }
}

impl<'a, S: Alter + Drop> Paths for Shelf<'a, S> {
    type Reader = ShelfReader<'a>;

    type Store = S;

    ghost tells = { λ shelf path. told_at shelf.files.now path };

    ghost stands = { λ shelf path. Some (stands_at shelf.files.now path) };

    ghost lists = { λ shelf path. Some (names_in shelf.files.now path) };

    ghost explains = { λ _ _ _ cause. cause ≡ None };

    ghost opens = { λ shelf _ _ connection. shelf.store ≡ Some connection };

    ghost refuses = { λ shelf _ _ cause. (cause ≡ None)
        × IfSome shelf.store (λ connection. connection.in_transaction ≡ true) };

    ghost lacks = { λ _ _. ⊥ };

    ghost has = { λ _ _. ⊤ };

    ghost lets_go = { λ _ met _. met ≡ None };

    ghost leaves = { λ _ closed _. closed.is_whole ≡ true };

    fn kind(&self, path: &str) -> Result<PathKind, PathCause> {
        if file_at(self.files, path).is_some() {
            Ok(PathKind::File)
        } else if has_below(self.files, path) {
            Ok(PathKind::Folder)
        } else {
            Err(PathCause::Absent)
        }
    }

    fn names(&self, alloc: Global, path: &str) -> Result<Vec<String>, PathCause> {
        let mut names = Vec::new(alloc);
        for file in self.files {
            add_name_of(alloc, &mut names, file, path)?;
        }
        Ok(names)
    }

    fn reader(&self, path: String) -> ShelfReader<'a> {
        let bytes = match file_at(self.files, path.as_str()) {
            Some(file) => file.bytes.map(Slice::new),
            None => None,
        };
        ShelfReader {
            bytes,
            failed: false,
        }
    }

    fn why_unread(&self, _path: &str, _asked: Asked) -> Option<PathCause> {
        None
    }

    fn has_store(&self, _path: &str) -> bool {
        true
    }

    fn store(&mut self, _path: &str) -> Result<Connection<S>, OpenFailed> {
        match self.store.take() {
            Some(connection) if connection.is_autocommit() => Ok(connection),
            _ => Err(OpenFailed { cause: None }),
        }
    }

    fn close(&self, _store: S) -> Closed {
        Closed::WHOLE
    }

    fn let_go(&self, _store: S) -> Option<StoreCause> {
        None
    }
}

/// The bytes of a file in memory; each read fails where there is no such file.
#[derive(Drop)]
pub struct ShelfReader<'a> {
    bytes: Option<Slice<'a>>,
    failed: bool,
}

impl Source for ShelfReader<'_> {
    ghost remaining = { λ s. s.bytes };

    ghost has_failed = { λ s. s.failed };

    ghost may_fail = { λ s. is_none s.bytes || s.failed };

    fn read(&mut self, buffer: &mut [u8]) -> Result<usize, ReadFailed> {
        match &mut self.bytes {
            Some(bytes) if !self.failed => bytes.read(buffer),
            _ => {
                self.failed = true;
                Err(ReadFailed)
            }
        }
    }

    fn has_failed(&self) -> bool {
        self.failed
    }
}
