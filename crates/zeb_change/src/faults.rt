//! What is wrong with a record.

ghost use Rattle.std.specs.Prelude.{◌≡◌, ◌≢◌, ℕ};

use std::fmt;
use zeb_marc::MarcFault;

/// Why a record is refused. `NoIdentifier`: the profile finds none in it. `BadIdentifier`: what it finds can't be one. The others are the faults of
/// the same names in `zeb_marc::MarcFault`, which says of each what it is (ISO 2709).
#[derive(Clone, Copy, Debug, PartialEq, Eq)]
pub enum RecordFault {
    LengthDigits,
    LengthRange,
    Truncated,
    NoTerminator,
    LeaderCounts,
    BaseAddress,
    DirectoryLength,
    EntryDigits,
    EntryTag,
    EntryRange,
    FieldEnd,
    TooManySeparators,
    NoIdentifier,
    BadIdentifier,
}

impl RecordFault {
    ghost use Rattle.zeb_change.specs.Faults.{fault_name};
    ghost use Rattle.zeb_change.specs.Outcomes.{marc_refusal};
    ghost use Rattle.zeb_change.specs.declared.refusals.Refusal.TheVariants.{Record};

    /// What is wrong with a record whose bytes are at fault, or with what stands in its place. That a reader failed is none of it.
    pub(crate) fn of_marc(fault: MarcFault) -> RecordFault
        requires { fault ≢ MarcFault.ReadFault }
        ensures { (file nth : ℕ) → marc_refusal file nth fault ≡ Record file nth result }
    {
        match fault {
            MarcFault::LengthDigits => RecordFault::LengthDigits,
            MarcFault::LengthRange => RecordFault::LengthRange,
            MarcFault::Truncated => RecordFault::Truncated,
            MarcFault::NoTerminator => RecordFault::NoTerminator,
            MarcFault::LeaderCounts => RecordFault::LeaderCounts,
            MarcFault::BaseAddress => RecordFault::BaseAddress,
            MarcFault::DirectoryLength => RecordFault::DirectoryLength,
            MarcFault::EntryDigits => RecordFault::EntryDigits,
            MarcFault::EntryTag => RecordFault::EntryTag,
            MarcFault::EntryRange => RecordFault::EntryRange,
            MarcFault::FieldEnd => RecordFault::FieldEnd,
            MarcFault::TooManySeparators => RecordFault::TooManySeparators,
            MarcFault::ReadFault => unreachable!(),
        }
    }

    /// The fault's name, as it is printed.
    pub fn name(self) -> &'static str
        ensures { result.now ≡ fault_name self }
    {
        match self {
            RecordFault::LengthDigits => "LengthDigits",
            RecordFault::LengthRange => "LengthRange",
            RecordFault::Truncated => "Truncated",
            RecordFault::NoTerminator => "NoTerminator",
            RecordFault::LeaderCounts => "LeaderCounts",
            RecordFault::BaseAddress => "BaseAddress",
            RecordFault::DirectoryLength => "DirectoryLength",
            RecordFault::EntryDigits => "EntryDigits",
            RecordFault::EntryTag => "EntryTag",
            RecordFault::EntryRange => "EntryRange",
            RecordFault::FieldEnd => "FieldEnd",
            RecordFault::TooManySeparators => "TooManySeparators",
            RecordFault::NoIdentifier => "NoIdentifier",
            RecordFault::BadIdentifier => "BadIdentifier",
        }
    }
}

impl fmt::Display for RecordFault {
    ghost use Rattle.std.specs.Prelude.{Some};
    ghost use Rattle.zeb_change.specs.Faults.{fault_name};

    ghost output = { λ fault. Some (fault_name fault) };

    fn fmt<W: fmt::Write>(&self, f: &mut fmt::Formatter<W>) -> fmt::Result {
        let name = self.name();
        write!(f, "{name}")
    }
}
