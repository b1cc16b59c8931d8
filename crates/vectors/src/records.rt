//! Records of ISO 2709: their fields, and faults of their lengths.

use crate::rows::{bytes_of, rows_hold, rows_hold_at_each_beginning, text_of};
use std::alloc::{AllocError, Global};
use std::process::Abort;
use std::test::Fail;
use worked_samples::record;
use zeb_marc::{Field, Marc};

/// The parts of a record. The answer is its fields, or its fault: here are those that a stream tells of before, and of two faults the one of the
/// earlier check. Units and the other faults stand in `crates/rows`.
static ROWS: &str = "\
moby -> 001 a1%0a245 10\x1faMoby Dick :\x1fbor, the whale /%0a260 \x20\x20\x1fcc1851.%0a
0010x+5..109 of moby -> LengthDigits
00025+5..109 of moby -> LengthRange
00110+5..109 of moby -> Truncated
00108+5..109 of moby -> LengthRange
108 of moby+\x1e -> NoTerminator
0002x+5..108 of moby+\x1e -> LengthDigits
00110+5..108 of moby+\x1e -> Truncated
00108+5..108 of moby+\x1e -> LengthRange
10 of moby+3+11..108 of moby+\x1e -> NoTerminator
# A few bytes are no record.
\x1a -> Truncated
xxxx -> Truncated
xxxxx -> LengthDigits
00025 -> LengthRange
";

fn fields_of(alloc: Global, marc: &Marc<'_>) -> Result<String, AllocError> {
    let mut fields = String::new(alloc);
    for field in marc.fields() {
        let tag = text_of(&field.tag);
        let bytes = text_of(field.bytes);
        writeln!(fields, "{tag} {bytes}")?;
    }
    Ok(fields)
}

fn answer(alloc: Global, text: &str) -> Result<String, AllocError> {
    match Marc::read(&bytes_of(alloc, text)?) {
        Ok(marc) => fields_of(alloc, &marc),
        Err(fault) => fault.to_string(alloc),
    }
}

#[test]
fn records_are_read(rt: HostRuntime) -> Result<(), Fail> {
    rows_hold(rt.alloc(), ROWS, answer)
}

#[test]
fn a_beginning_is_no_record(rt: HostRuntime) -> Result<(), Fail> {
    rows_hold_at_each_beginning(rt.alloc(), "moby", "N of moby -> Truncated\n", answer)
}

fn count_units(rt: &impl Abort, bytes: &[u8]) -> usize {
    let marc = Marc::read(bytes).expect(rt, "a record");
    marc.units().count()
}

fn count_fields(alloc: Global, marc: &Marc<'_>) -> Result<usize, AllocError> {
    let fields: Vec<Field> = marc.fields().collect(alloc)?;
    Ok(fields.len())
}

/// The number and the code of the unit at a place, or zeros.
fn unit_at(marc: &Marc<'_>, place: usize) -> (u64, u8) {
    match marc.units().nth(place) {
        Some(unit) => (unit.seq, unit.code.unwrap_or(0)),
        None => (0, 0),
    }
}

#[test]
fn fields_and_units_may_be_taken_singly_or_together(rt: HostRuntime) -> Result<(), Fail> {
    let marc = Marc::read(record("moby"))?;
    let counts = (
        count_fields(rt.alloc(), &marc)?,
        count_units(&rt, record("moby")),
    );
    if counts == (3, 4) && unit_at(&marc, 2) == (3, b'b') && marc.units().nth(4).is_none() {
        return Ok(());
    }
    Err(Fail::new("other fields or units"))
}
