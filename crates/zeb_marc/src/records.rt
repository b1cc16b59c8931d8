//! A record: ISO 2709, "Structure of a record".
ghost use Rattle.std.specs.Prelude.{◌≡◌, ◌≤◌, length, None, MatchResult};
ghost use Rattle.zeb_marc.specs.Leader.{first_failing};
ghost use Rattle.zeb_marc.specs.Directory.{directory_checks, fields_in};
ghost use Rattle.zeb_marc.specs.Records.{first_fault, IsRecord};
ghost use Rattle.zeb_marc.specs.Contents.{units_of};

use crate::directory::{Fields, check_directory};
use crate::faults::MarcFault;
use crate::leader::{LEADER_LEN, announced_length, checked_base_address};
use crate::units::Units;
use std::marker::Model;

/// A record that was read: contracts see the list of its fields.
#[derive(Debug, Drop)]
pub struct Marc<'a> {
    directory: &'a [u8],
    area: &'a [u8],
}

impl<'a> Model for Marc<'a> {
    ghost use Rattle.std.specs.Prelude.{◌≡◌, ◌≤◌, List, length, None};
    ghost use Rattle.zeb_marc.specs.Leader.{first_failing};
    ghost use Rattle.zeb_marc.specs.Directory.{FieldText, directory_checks, fields_in};

    ghost Value = { List FieldText };

    ghost view = { λ m. fields_in m.area.now m.directory.now };

    ghost invariant = { λ m. (first_failing (directory_checks m.area.now m.directory.now) ≡ None)
        × (length m.directory.now ≤ 99999) × (length m.area.now ≤ 99999) };
}

impl<'a> Marc<'a> {
    /// Reads a record, which has to be all of the bytes.
    ///
    /// Leader 10, 11 and 20 to 22 are read as `2`, `2`, `4`, `5`, `0` where they are no digits; entries of the
    /// directory may come in any order, overlap and leave gaps. An error is that of the first check that fails, in the
    /// order that [`MarcFault`] says. It is never `TooManySeparators` nor `ReadFault`.
    pub fn read(bytes: &'a [u8]) -> Result<Marc<'a>, MarcFault>
        ensures { MatchResult result (λ marc. IsRecord bytes.now marc)
            (λ fault. first_fault bytes.now ≡ Some fault) }
    {
        let length = announced_length(bytes)?;
        if bytes.len() < length {
            return Err(MarcFault::Truncated);
        }
        if bytes.len() > length {
            return Err(MarcFault::LengthRange);
        }
        let base = checked_base_address(bytes)?;
        let directory = &bytes[LEADER_LEN..base - 1];
        let area = &bytes[base..length - 1];
        check_directory(directory, area)?;
        Ok(Marc { directory, area })
    }

    /// The fields of the record, in the order of its directory.
    pub fn fields(&self) -> Fields<'a>
        ensures { result ≡ self.now }
    {
        Fields::new(self.directory, self.area)
    }

    /// The units of the record: its control fields and the subfields of its data fields, numbered from 1.
    pub fn units(&self) -> Units<'a>
        ensures { result ≡ units_of self.now }
    {
        Units::new(Fields::new(self.directory, self.area))
    }
}
