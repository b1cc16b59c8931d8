//! What an analysis warns of: records that don't say in their leader that they are in Unicode, for all are read as UTF-8.

ghost use Rattle.std.specs.Prelude.{◌≡◌, ◌<◌, ◌∷◌, ◌++◌, [], false, true, length, string_bytes, IfOk, OnOk};
ghost use Rattle.std.specs.Option.{option_map};
ghost use Rattle.zeb_marc.specs.Splits.{split_of};
ghost use Rattle.zeb_program.specs.Warnings as spec;

use std::alloc::{AllocError, Global};
use zeb_analysis::Place;
use zeb_marc::{RecordBuf, Slice, next_record};

/// Whether position 9 of a record's leader says that it is in Unicode.
fn says_unicode(bytes: &[u8]) -> bool
    ensures { result ≡ spec.says_unicode bytes.now }
{
    matches!(bytes.get(9), Some(b'a'))
}

/// Reads the next record of a file into the buffer, and says whether there is one. A fault stands behind the last record.
fn read_record(left: &mut Slice<'_>, buffer: &mut RecordBuf) -> bool
    ensures none { result ≡ false → (split_of left.old).slices ≡ [] }
    ensures one { result ≡ true → (split_of left.old).slices ≡ buffer.new ∷ (split_of
        left.new).slices }
    ensures shorter { result ≡ true → length left.new < length left.old }
{
    match next_record(left, buffer) {
        Ok(found) => found.is_some(),
        Err(_) => false,
    }
}

/// Puts the places of a file's records that don't say that they are in Unicode behind the others.
pub fn note_unmarked(
    unmarked: &mut Vec<Place>,
    buffer: &mut RecordBuf,
    file: u64,
    bytes: &[u8],
) -> Result<(), AllocError>
    ensures { OnOk result (unmarked.new.items ≡ unmarked.old.items ++ spec.unmarked_from file 1
        (split_of bytes.now).slices) }
{
    let mut left = Slice::new(bytes);
    let mut nth = 1;
    while read_record(&mut left, buffer) {
        if !says_unicode(buffer.bytes()) {
            unmarked.push(Place { file, nth })?;
        }
        nth += 1;
    }
    Ok(())
}

/// The line that warns of so many of all records, of which this one is the first.
fn warning_line(
    alloc: Global,
    unmarked: usize,
    records: u64,
    first: Place,
) -> Result<String, AllocError>
    ensures { IfOk result (λ line. string_bytes line ≡ spec.warning_line unmarked records first) }
{
    let Place { file, nth } = first;
    format!(in alloc;
        "zebraidx: warning: read as UTF-8 without 'a' in position 9 of the leader: {unmarked} of {records} records, the first at file {file} record {nth}\n"
    )
}

/// The line that warns of records in these places, among so many that are analysed; none where there is no place.
pub fn warning(
    alloc: Global,
    unmarked: &[Place],
    records: u64,
) -> Result<Option<String>, AllocError>
    ensures { IfOk result (λ line. option_map string_bytes line ≡ spec.warning_of unmarked.now
        records) }
{
    let Some(first) = unmarked.first() else {
        return Ok(None);
    };
    let line = warning_line(alloc, unmarked.len(), records, *first)?;
    Ok(Some(line))
}
