//! What a program asks of paths.

ghost use Rattle.std.specs.Prelude.{◌≡◌, ◌⊎◌, ◌++◌, ◌∷◌, [], ℕ, Contains, List, Option, Some, Ok, Result, false, true, map, string_bytes};
ghost use Rattle.std.specs.Prelude.{IfErr, IfOk, IfSome};
ghost use Rattle.sqlite.specs.Held.{Held};
ghost use Rattle.sqlite_trees.specs.View.{IsQuiet};
ghost use Rattle.zeb_paths.specs.Closing.{HasReason};
ghost use Rattle.zeb_paths.specs.Told.{AreNames};
ghost use Rattle.zeb_paths.specs.declared.causes.Closed.{Closed};
ghost use Rattle.zeb_paths.specs.declared.causes.PathCause.{PathCause};
ghost use Rattle.zeb_paths.specs.declared.causes.PathCause.TheVariants.{Memory as Starved};
ghost use Rattle.zeb_paths.specs.declared.causes.StoreCause.{StoreCause};
ghost use Rattle.zeb_paths.specs.declared.paths.Asked.{Asked};
ghost use Rattle.zeb_paths.specs.declared.paths.PathKind.{PathKind};

use crate::causes::{Closed, PathCause, StoreCause};
use sqlite::{Alter, Connection};
use std::alloc::{AllocError, Global};
use zeb_marc::Source;

/// What stands at a path.
#[derive(Clone, Copy, Debug, PartialEq, Eq)]
pub enum PathKind {
    File,
    Folder,
}

/// What a path was asked for that isn't read.
#[derive(Clone, Copy, Debug, PartialEq, Eq)]
pub enum Asked {
    /// The text of a file: it has at most 1,048,576 bytes.
    Text,
    /// What a walk comes to: a folder, or a file that is read whole, of at most 16,777,216 bytes.
    Step,
    /// The bytes of a file, of which a read failed.
    Bytes,
}

/// A store couldn't be opened.
#[derive(Clone, Copy, Debug, PartialEq, Eq)]
pub struct OpenFailed {
    /// Why, where that is told.
    pub cause: Option<StoreCause>,
}

/// Paths, each of which may lead to a file, to a folder, or nowhere.
pub trait Paths {
    /// What a file's bytes are read by.
    type Reader: Source + Drop;

    /// What a register is kept in.
    type Store: Alter + Drop;

    /// The bytes of the file at a path, where the paths tell them.
    ghost tells: { Self → List ℕ → Option (List ℕ) };

    /// What stands at a path, or why neither a file nor a folder is found there, where the paths tell it.
    ghost stands: { Self → List ℕ → Option (Result PathKind PathCause) };

    /// The names in the folder at a path, where the paths tell them: in any order, a name perhaps twice. One that is empty can't be given.
    ghost lists: { Self → List ℕ → Option (List (List ℕ)) };

    /// What may be told of why the path isn't read that was asked for so.
    ghost explains: { Self → List ℕ → Asked → Option PathCause → Type 0 };

    /// Which connections the store at a path may be opened by, and what the paths are then: the first are those before it.
    ghost opens: { Self → Self → List ℕ → Held Self.Store → Type 0 };

    /// At which paths no store may be opened, for which cause, and what the paths are then, as far as is told: the first are those
    /// before it.
    ghost refuses: { Self → Self → List ℕ → Option StoreCause → Type 0 };

    /// At which paths no store may stand, as far as is told.
    ghost lacks: { Self → List ℕ → Type 0 };

    /// At which paths a store may stand, as far as is told.
    ghost has: { Self → List ℕ → Type 0 };

    /// Which stores may be let go of which this is told: what they have met since they were opened.
    ghost lets_go: { Self → Option StoreCause → Self.Store → Type 0 };

    /// How a store may be left at its path that was closed so.
    ghost leaves: { Self → Closed → Self.Store → Type 0 };

    /// What stands at a path, or why neither a file nor a folder is found there. Links are followed. Where the paths tell the bytes
    /// of a file, it is a file.
    fn kind(&self, path: &str) -> Result<PathKind, PathCause>
        ensures file { (bytes : List ℕ) → tells self.now path.now ≡ Some bytes
            → result ≡ Ok PathKind.File }
        ensures stands { IfSome (stands self.now path.now) (λ told. result ≡ told) };

    /// The names in a folder, in any order and each once, or why they aren't given: also where one of them isn't UTF-8.
    fn names(&self, alloc: Global, path: &str) -> Result<Vec<String>, PathCause>
        ensures given { IfOk result (λ names. IfSome (lists self.now path.now)
            (λ told. AreNames told (map string_bytes names.items))) }
        ensures refused { IfErr result (λ cause. IfSome (lists self.now path.now) (λ told.
            (cause ≡ Starved) ⊎ Contains told [])) };

    /// The bytes of the file at a path. The file is opened at the first read and closed at its end; where it
    /// can't be opened, that read fails. Where the paths tell the bytes, no read fails.
    fn reader(&self, path: String) -> Self::Reader
        ensures bytes { Self.Reader.remaining result ≡ tells self.now (string_bytes path) }
        ensures sound { Self.Reader.has_failed result ≡ false }
        ensures able { (bytes : List ℕ) → tells self.now (string_bytes path) ≡ Some bytes
            → Self.Reader.may_fail result ≡ false };

    /// Why the path isn't read, where the paths tell that: what is met where it is looked at anew.
    fn why_unread(&self, path: &str, asked: Asked) -> Option<PathCause>
        ensures { explains self.now path.now asked result };

    /// Whether a store may stand at a path: not where nothing stands there, in a folder where one could be made, nor where a file of no bytes
    /// stands alone.
    fn has_store(&self, path: &str) -> bool
        ensures lacking { result ≡ false → lacks self.now path.now }
        ensures having { result ≡ true → has self.now path.now };

    /// Opens the store at a path, which is made where nothing stands there.
    fn store(&mut self, path: &str) -> Result<Connection<Self::Store>, OpenFailed>
        ensures idle { IfOk result (λ connection. connection.in_transaction ≡ false) }
        ensures given { IfOk result (opens self.old self.new path.now) }
        ensures refused { IfErr result (λ failed. refuses self.old self.new path.now failed.cause) }
        ensures told { (text : List ℕ) → tells self.new text ≡ tells self.old text };

    /// Ends a store: what was committed in it, and stands in its log, is put into its one file. Where that fails, the log keeps it.
    fn close(&self, store: Self::Store) -> Closed
        // Whether it fails or not, and also where it is cut short: a crash finds only what it could find before.
        // And where it isn't whole, something has kept it from that.
        ensures left { (left : Self.Store) × leaves self.now result left
            × IsQuiet Self.Store.Store.view Self.Store.Store.faults Self.Store.Store.recovers
            Self.Store.Store.is_shielded store left
            × HasReason Self.Store.Store.view Self.Store.Store.faults store left result };

    /// Ends a store that isn't used: nothing more is done to it. Answers what it has met since it was opened, where that is told.
    fn let_go(&self, store: Self::Store) -> Option<StoreCause>
        ensures { lets_go self.now result store };
}

/// Puts a name behind the others.
pub(crate) fn push_name(
    alloc: Global,
    names: &mut Vec<String>,
    name: &str,
) -> Result<(), AllocError>
    ensures { IfOk result (λ _. map string_bytes names.new.items
        ≡ map string_bytes names.old.items ++ name.now ∷ []) }
{
    names.push(String::from_str(alloc, name)?)?;
    Ok(())
}
