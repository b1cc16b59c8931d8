//! The faults of a profile, their printed names, and how want of memory becomes one.

ghost use Rattle.zeb_profile.specs.declared.faults.ProfileFaultKind.TheVariants.{Memory};
ghost use Rattle.std.specs.Prelude.{◌≡◌, ◌≢◌, Some};
ghost use Rattle.zeb_profile.specs.Faults.{fault_name, fault_text};

use std::alloc::{AllocError, AllocFailed};
use std::error::Error;
use std::fmt;

/// What is wrong with a line of a profile, or with the profile as a whole.
#[derive(Clone, Copy, Debug, PartialEq, Eq)]
pub enum ProfileFaultKind {
    /// The first word is no directive, the number of words is wrong, or a use attribute's number isn't 1 to 9 digits above 0.
    Directive,
    /// An index name isn't a letter followed by letters, digits, `-` and `_`, or is above 64 bytes.
    Name,
    /// What follows the first `:` of a target isn't `w`, `p` or `n`.
    Register,
    /// What stands for a pattern is neither a tag nor a tag, `$` and a code.
    Pattern,
    /// One line names a pair of index and register twice.
    DuplicateTarget,
    /// A use number is tied a second time.
    DuplicateUse,
    /// A use number is tied to an index that no line has as a target.
    UnknownIndex,
    /// No line has the identifier's pattern.
    NoIdentifier,
    /// A second `identifier` line.
    TwoIdentifiers,
    /// A second `all` line.
    TwoAlls,
    /// A second `store` line.
    TwoStores,
    /// No line names the store.
    NoStore,
    /// The targets name more than 4,294,967,295 indexes.
    TooManyIndexes,
    /// Memory ran out.
    Memory,
}

impl fmt::Display for ProfileFaultKind {
    ghost output = { λ kind. Some (fault_name kind) };

    fn fmt<W: fmt::Write>(&self, f: &mut fmt::Formatter<W>) -> fmt::Result {
        f.write_str(match self {
            ProfileFaultKind::Directive => "Directive",
            ProfileFaultKind::Name => "Name",
            ProfileFaultKind::Register => "Register",
            ProfileFaultKind::Pattern => "Pattern",
            ProfileFaultKind::DuplicateTarget => "DuplicateTarget",
            ProfileFaultKind::DuplicateUse => "DuplicateUse",
            ProfileFaultKind::UnknownIndex => "UnknownIndex",
            ProfileFaultKind::NoIdentifier => "NoIdentifier",
            ProfileFaultKind::TwoIdentifiers => "TwoIdentifiers",
            ProfileFaultKind::TwoAlls => "TwoAlls",
            ProfileFaultKind::TwoStores => "TwoStores",
            ProfileFaultKind::NoStore => "NoStore",
            ProfileFaultKind::TooManyIndexes => "TooManyIndexes",
            ProfileFaultKind::Memory => "Memory",
        })
    }
}

/// The fault for which a profile's text is refused, with its line.
#[derive(Clone, Copy, Debug, PartialEq, Eq)]
pub struct ProfileFault {
    /// The line, counted from 1; 0 for `NoIdentifier`, `NoStore`, `TooManyIndexes` and `Memory`, which stand on no line.
    pub line: u64,
    pub kind: ProfileFaultKind,
}

impl ProfileFault {
    /// Want of memory, which stands on no line.
    pub(crate) const MEMORY: ProfileFault = ProfileFault {
        line: 0,
        kind: ProfileFaultKind::Memory,
    };

    /// The fault of a line; want of memory stands on no line.
    pub(crate) fn at_line(line: u64, kind: ProfileFaultKind) -> ProfileFault
        ensures kind { result.kind ≡ kind }
        ensures memory { kind ≡ Memory → result.line ≡ 0 }
        ensures other { kind ≢ Memory → result.line ≡ line }
    {
        match kind {
            ProfileFaultKind::Memory => ProfileFault::MEMORY,
            _ => ProfileFault { line, kind },
        }
    }
}

impl fmt::Display for ProfileFault {
    ghost output = { λ fault. Some (fault_text fault) };

    fn fmt<W: fmt::Write>(&self, f: &mut fmt::Formatter<W>) -> fmt::Result {
        let line = self.line;
        let kind = self.kind;
        write!(f, "line {line}: {kind}")
    }
}

impl Error for ProfileFault {}

impl From<AllocError> for ProfileFaultKind {
    ghost from_gives = { λ _ kind. kind ≡ Memory };

    fn from(_error: AllocError) -> ProfileFaultKind {
        ProfileFaultKind::Memory
    }
}

impl<T: Drop> From<AllocFailed<T>> for ProfileFaultKind {
    ghost from_gives = { λ _ kind. kind ≡ Memory };

    fn from(_error: AllocFailed<T>) -> ProfileFaultKind {
        ProfileFaultKind::Memory
    }
}

impl From<AllocError> for ProfileFault {
    ghost from_gives = { λ _ fault. fault ≡ record { line = 0; kind = Memory } };

    fn from(_error: AllocError) -> ProfileFault {
        ProfileFault::MEMORY
    }
}

impl<T: Drop> From<AllocFailed<T>> for ProfileFault {
    ghost from_gives = { λ _ fault. fault ≡ record { line = 0; kind = Memory } };

    fn from(_error: AllocFailed<T>) -> ProfileFault {
        ProfileFault::MEMORY
    }
}
