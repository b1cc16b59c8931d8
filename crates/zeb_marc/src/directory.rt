//! The directory of a record, and the fields that it names: ISO 2709, "Directory".
ghost use Rattle.std.specs.Prelude.{◌≡◌, true, false, length, None, MatchOption};
ghost use Rattle.zeb_marc.specs.Leader.{first_failing, number_of};
ghost use Rattle.zeb_marc.specs.PrivateLeader.{Answers};
ghost use Rattle.zeb_marc.specs.Directory.{directory_checks, end_of, entry_checks, field_of, fields_in, has_digits};
ghost use Rattle.zeb_marc.specs.PrivateDirectory.{entry_of};
ghost use Rattle.zeb_marc.specs.Fields.{field_text};
ghost use Rattle.std.specs.Iterator.{YieldsFirstBy, item_count};

use crate::digits::read_number;
use crate::faults::MarcFault;
use crate::leader::{ENTRY_LEN, FIELD_TERMINATOR};
use crate::tags::is_tag;
use std::marker::Model;

/// A field of a record.
#[derive(Clone, Copy, Debug, PartialEq, Eq)]
pub struct Field<'a> {
    /// Three bytes: ASCII letters or digits in a field of a record that was read.
    pub tag: [u8; 3],
    /// The field's bytes, with its indicators and delimiters and without its field terminator.
    pub bytes: &'a [u8],
}

/// Where the field of a directory entry begins and ends in the data area, its field terminator with it.
#[tactic(auto, unfolding(crate::specs::Directory::has_digits))]
fn extent_of(entry: &[u8]) -> Option<(usize, usize)>
    requires { length entry.now ≡ 12 }
    ensures { MatchOption result (has_digits (entry_of entry.now) ≡ false)
        (λ extent. (has_digits (entry_of entry.now) ≡ true)
        × (extent.0 ≡ number_of (entry_of entry.now).start)
        × (extent.1 ≡ end_of (entry_of entry.now))) }
{
    let size = read_number(&entry[3..7])?;
    let start = read_number(&entry[7..12])?;
    Some((start, start + size))
}

#[tactic(auto, unfolding(crate::specs::Directory::is_in_area))]
fn check_entry(entry: &[u8], area: &[u8]) -> Result<(), MarcFault>
    requires { length entry.now ≡ 12 }
    ensures { Answers (entry_checks area.now (entry_of entry.now)) result }
{
    let Some((start, end)) = extent_of(entry) else {
        return Err(MarcFault::EntryDigits);
    };
    if !is_tag(&entry[..3]) {
        return Err(MarcFault::EntryTag);
    }
    if start >= end || end > area.len() {
        return Err(MarcFault::EntryRange);
    }
    if area[end - 1] != FIELD_TERMINATOR {
        return Err(MarcFault::FieldEnd);
    }
    Ok(())
}

/// Checks the entries of a directory, one after the other.
pub(crate) fn check_directory(directory: &[u8], area: &[u8]) -> Result<(), MarcFault>
    ensures { Answers (directory_checks area.now directory.now) result }
{
    let mut rest = directory;
    while rest.len() >= ENTRY_LEN {
        let (entry, others) = rest.split_at(ENTRY_LEN);
        check_entry(entry, area)?;
        rest = others;
    }
    Ok(())
}

/// The field that a sound directory entry names.
fn field_at<'a>(entry: &[u8], area: &'a [u8]) -> Field<'a>
    requires twelve { length entry.now ≡ 12 }
    requires sound { first_failing (entry_checks area.now (entry_of entry.now)) ≡ None }
    ensures { field_text result ≡ field_of area.now (entry_of entry.now) }
{
    let tag = [entry[0], entry[1], entry[2]];
    let Some((start, end)) = extent_of(entry) else {
        unreachable!()
    };
    let bytes = &area[start..end - 1];
    Field { tag, bytes }
}

/// The fields of a record that are left, in the order of its directory: contracts see their list.
#[derive(Debug, Drop)]
pub struct Fields<'a> {
    directory: &'a [u8],
    area: &'a [u8],
}

impl<'a> Model for Fields<'a> {
    ghost use Rattle.std.specs.Prelude.{◌≡◌, List, None};
    ghost use Rattle.zeb_marc.specs.Leader.{first_failing};
    ghost use Rattle.zeb_marc.specs.Directory.{FieldText, directory_checks, fields_in};

    ghost Value = { List FieldText };

    ghost view = { λ f. fields_in f.area.now f.directory.now };

    ghost invariant = { λ f. first_failing (directory_checks f.area.now f.directory.now) ≡ None };
}

impl<'a> Fields<'a> {
    /// The fields that a sound directory names in a data area.
    pub(crate) fn new(directory: &'a [u8], area: &'a [u8]) -> Fields<'a>
        requires { first_failing (directory_checks area.now directory.now) ≡ None }
        ensures { result ≡ fields_in area.now directory.now }
    {
        Fields { directory, area }
    }
}

impl<'a> Iterator for Fields<'a> {
    type Item = Field<'a>;

    ghost next_gives = { YieldsFirstBy field_text (λ s. s) };

    ghost remaining = { item_count (λ s. s) };

    fn next(&mut self) -> Option<Field<'a>> {
        if self.directory.len() < ENTRY_LEN {
            return None;
        }
        let (entry, others) = self.directory.split_at(ENTRY_LEN);
        let field = field_at(entry, self.area);
        self.directory = others;
        Some(field)
    }
}
