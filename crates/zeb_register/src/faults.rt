//! Why a call on the tables is refused, and why rows tell nothing.

use sqlite::{Error, ErrorCode};
use std::alloc::{AllocError, AllocFailed};
use std::fmt;

/// Why a call on the tables is refused.
#[derive(Clone, Copy, Debug, PartialEq, Eq)]
pub enum RegFault {
    /// A row holds what no call writes, or a register doesn't hold what it should.
    Damaged,
    /// The store failed or refused a statement.
    Store,
    /// Memory was refused.
    Memory,
}

impl fmt::Display for RegFault {
    ghost use Rattle.std.specs.Prelude.{Some};
    ghost use Rattle.zeb_register.specs.Faults.{fault_name};

    ghost output = { λ fault. Some (fault_name fault) };

    fn fmt<W: fmt::Write>(&self, f: &mut fmt::Formatter<W>) -> fmt::Result {
        let name = match self {
            RegFault::Damaged => "Damaged",
            RegFault::Store => "Store",
            RegFault::Memory => "Memory",
        };
        write!(f, "{name}")
    }
}

impl std::error::Error for RegFault {}

impl From<Error> for RegFault {
    ghost use Rattle.std.specs.Prelude.{◌≡◌};
    ghost use Rattle.zeb_register.specs.Faults.{fault_of};

    ghost from_gives = { λ error fault. fault ≡ fault_of error };

    fn from(error: Error) -> RegFault {
        match error {
            Error::SqliteFailure(ErrorCode::OutOfMemory) => RegFault::Memory,
            _ => RegFault::Store,
        }
    }
}

impl From<AllocError> for RegFault {
    ghost use Rattle.std.specs.Prelude.{◌≡◌};
    ghost use Rattle.zeb_register.specs.declared.faults.RegFault.TheVariants.{Memory};

    ghost from_gives = { λ _ fault. fault ≡ Memory };

    fn from(_: AllocError) -> RegFault {
        RegFault::Memory
    }
}

impl<T: Drop> From<AllocFailed<T>> for RegFault {
    ghost use Rattle.std.specs.Prelude.{◌≡◌};
    ghost use Rattle.zeb_register.specs.declared.faults.RegFault.TheVariants.{Memory};

    ghost from_gives = { λ _ fault. fault ≡ Memory };

    fn from(_: AllocFailed<T>) -> RegFault {
        RegFault::Memory
    }
}

/// Why rows that were read tell nothing.
#[derive(Clone, Copy, Debug, PartialEq, Eq)]
pub enum RowFault {
    /// A row holds what no call writes, or rows don't hold what they should.
    Damaged,
    /// Memory was refused.
    Memory,
}

impl From<AllocError> for RowFault {
    ghost use Rattle.std.specs.Prelude.{◌≡◌};
    ghost use Rattle.zeb_register.specs.declared.faults.RowFault.TheVariants.{Memory};

    ghost from_gives = { λ _ fault. fault ≡ Memory };

    fn from(_: AllocError) -> RowFault {
        RowFault::Memory
    }
}

impl<T: Drop> From<AllocFailed<T>> for RowFault {
    ghost use Rattle.std.specs.Prelude.{◌≡◌};
    ghost use Rattle.zeb_register.specs.declared.faults.RowFault.TheVariants.{Memory};

    ghost from_gives = { λ _ fault. fault ≡ Memory };

    fn from(_: AllocFailed<T>) -> RowFault {
        RowFault::Memory
    }
}

impl From<RowFault> for RegFault {
    ghost use Rattle.std.specs.Prelude.{◌≡◌};
    ghost use Rattle.zeb_register.specs.Faults.{fault_of_rows};

    ghost from_gives = { λ rows fault. fault ≡ fault_of_rows rows };

    fn from(fault: RowFault) -> RegFault {
        match fault {
            RowFault::Damaged => RegFault::Damaged,
            RowFault::Memory => RegFault::Memory,
        }
    }
}
