//! The faults of records and streams, and their printed names.

use std::error::Error;
use std::fmt;

/// Why bytes are no record, and what else can go wrong in reading records from a stream. Positions count from 0 (ISO 2709;
/// MARC 21 Specifications for Record Structure). The checks of a record are made in the order of the faults below, the four
/// of an entry one entry after the other; but fewer than five bytes are `Truncated` before their digits are looked at, and bytes
/// beyond the length are looked for just before the record terminator.
#[derive(Clone, Copy, Debug, PartialEq, Eq)]
pub enum MarcFault {
    /// Leader 00-04, the record's length, aren't five ASCII digits.
    LengthDigits,
    /// The length is below 26, or more bytes are there than it says.
    LengthRange,
    /// Fewer bytes are there than the length says, or fewer than five.
    Truncated,
    /// The last byte isn't the record terminator, 0x1D.
    NoTerminator,
    /// Leader 10, 11, 20, 21 or 22 is a digit other than `2`, `2`, `4`, `5`, `0`.
    LeaderCounts,
    /// Leader 12-16, the base address of data, aren't five digits, or it doesn't stand behind the leader and a field
    /// terminator, 0x1E, and within the record.
    BaseAddress,
    /// The directory isn't made of entries of twelve bytes.
    DirectoryLength,
    /// The length or the start in a directory entry isn't made of digits.
    EntryDigits,
    /// A tag isn't three ASCII letters or digits.
    EntryTag,
    /// An entry's length is 0, which has no room for the terminator, or its field doesn't end within the data area.
    EntryRange,
    /// The last byte of a field isn't the field terminator.
    FieldEnd,
    /// 65,536 separators stand in a row in a stream.
    TooManySeparators,
    /// A read failed.
    ReadFault,
}

impl fmt::Display for MarcFault {
    ghost use Rattle.std.specs.Prelude.{Some};
    ghost use Rattle.zeb_marc.specs.Names.{fault_name};

    ghost output = { λ fault. Some (fault_name fault) };

    fn fmt<W: fmt::Write>(&self, f: &mut fmt::Formatter<W>) -> fmt::Result {
        f.write_str(match self {
            MarcFault::LengthDigits => "LengthDigits",
            MarcFault::LengthRange => "LengthRange",
            MarcFault::Truncated => "Truncated",
            MarcFault::NoTerminator => "NoTerminator",
            MarcFault::LeaderCounts => "LeaderCounts",
            MarcFault::BaseAddress => "BaseAddress",
            MarcFault::DirectoryLength => "DirectoryLength",
            MarcFault::EntryDigits => "EntryDigits",
            MarcFault::EntryTag => "EntryTag",
            MarcFault::EntryRange => "EntryRange",
            MarcFault::FieldEnd => "FieldEnd",
            MarcFault::TooManySeparators => "TooManySeparators",
            MarcFault::ReadFault => "ReadFault",
        })
    }
}

impl Error for MarcFault {}
