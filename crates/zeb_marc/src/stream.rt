//! A stream of records: ISO 2709, where each record begins with its length.
ghost use Rattle.std.specs.Prelude.{◌≡◌, ◌≤◌, ◌∷◌, ◌↔◌, [], ℕ, List, length, take, vec_len, Some, false, true, IfOk, IfErr, IsErrOf, MatchResult};
ghost use Rattle.zeb_marc.specs.Splits.{is_separator, next_of, Gives, IsSlice};
ghost use Rattle.zeb_marc.specs.Reading.{IsStreamFault, Keeps, StaysAble};
ghost use Rattle.zeb_marc.specs.PrivateReading.{ByteGives, FailsIf, FillGives, IsFillFault, IsSkipFault, SkipGives, SliceGives};
ghost use Rattle.zeb_marc.specs.Unread.{LeavesUnread};

use crate::faults::MarcFault;
use crate::leader::announced_length;
use crate::sources::{ReadFailed, Source};
use std::alloc::{AllocError, Global};
use std::marker::Model;

/// The greatest length that five digits say.
const GREATEST_LENGTH: usize = 99_999;

/// The digits of a record's length.
const LENGTH_DIGITS: usize = 5;

/// So many separators in a run are a fault.
const TOO_MANY_SEPARATORS: u32 = 65_536;

/// Room for one record: contracts see the bytes of the record that was read last.
#[derive(Debug, Drop)]
pub struct RecordBuf {
    room: Vec<u8>,
    len: usize,
}

impl Model for RecordBuf {
    ghost use Rattle.std.specs.Prelude.{◌≡◌, ◌≤◌, List, ℕ, take, vec_len};

    ghost Value = { List ℕ };

    ghost view = { λ b. take b.len b.room.items };

    ghost invariant = { λ b. (vec_len b.room ≡ 99999) × (b.len ≤ 99999) };
}

impl RecordBuf {
    /// Makes room for the longest record, of 99,999 bytes. `AllocError` says that memory for it was refused; no other call of this crate takes any.
    pub fn new(alloc: Global) -> Result<RecordBuf, AllocError>
        ensures { IfOk result (λ buffer. buffer ≡ []) }
    {
        let room = vec![in alloc; 0; GREATEST_LENGTH]?;
        Ok(RecordBuf { room, len: 0 })
    }

    /// The bytes of the record that was read last: none after a fault, or at the end.
    pub fn bytes(&self) -> &[u8]
        ensures { result.now ≡ self.now }
    {
        &self.room[..self.len]
    }
}

/// Whether a byte may stand between records: CR, LF or a space.
fn may_separate(byte: u8) -> bool
    ensures { result ≡ is_separator byte }
{
    byte == b'\r' || byte == b'\n' || byte == b' '
}

/// Reads one byte, or `None` at the end.
fn read_byte<R: Source>(source: &mut R) -> Result<Option<u8>, MarcFault>
    ensures fails { FailsIf result (R.has_failed source.old) (R.has_failed source.new) }
    ensures able { StaysAble R.may_fail R.has_failed source.old source.new }
    ensures told { (text : List ℕ) → R.remaining source.old ≡ Some text
        → ByteGives text result (R.remaining source.new) }
    ensures fault { IfErr result (λ fault. fault ≡ MarcFault.ReadFault) }
{
    let mut byte = [0u8; 1];
    match source.read(&mut byte) {
        Ok(0) => Ok(None),
        Ok(_) => Ok(Some(byte[0])),
        Err(ReadFailed) => Err(MarcFault::ReadFault),
    }
}

/// Skips separators, and gives the first byte behind them, or `None` at the end.
fn skip_separators<R: Source>(source: &mut R) -> Result<Option<u8>, MarcFault>
    ensures fails { FailsIf result (R.has_failed source.old) (R.has_failed source.new) }
    ensures able { StaysAble R.may_fail R.has_failed source.old source.new }
    ensures told { (text : List ℕ) → R.remaining source.old ≡ Some text
        → SkipGives text result (R.remaining source.new) }
    ensures fault { IfErr result IsSkipFault }
{
    for _ in 0..TOO_MANY_SEPARATORS {
        let Some(byte) = read_byte(source)? else {
            return Ok(None);
        };
        if !may_separate(byte) {
            return Ok(Some(byte));
        }
    }
    Err(MarcFault::TooManySeparators)
}

/// Fills a part of a record.
fn fill<R: Source>(source: &mut R, part: &mut [u8]) -> Result<(), MarcFault>
    ensures fails { FailsIf result (R.has_failed source.old) (R.has_failed source.new) }
    ensures able { StaysAble R.may_fail R.has_failed source.old source.new }
    ensures told { (text : List ℕ) → R.remaining source.old ≡ Some text
        → FillGives text result part.new (R.remaining source.new) }
    ensures fault { IfErr result IsFillFault }
{
    let mut filled = 0;
    while filled < part.len() {
        match source.read(&mut part[filled..]) {
            Ok(0) => return Err(MarcFault::Truncated),
            Ok(count) => filled += count,
            Err(ReadFailed) => return Err(MarcFault::ReadFault),
        }
    }
    Ok(())
}

/// Reads the bytes of a record that begins with this byte, and gives its length.
fn read_slice<R: Source>(source: &mut R, room: &mut [u8], first: u8) -> Result<usize, MarcFault>
    requires { length room.old ≡ 99999 }
    ensures fails { FailsIf result (R.has_failed source.old) (R.has_failed source.new) }
    ensures able { StaysAble R.may_fail R.has_failed source.old source.new }
    ensures told { (text : List ℕ) → R.remaining source.old ≡ Some text
        → SliceGives (first ∷ text) result room.new (R.remaining source.new) }
    ensures sound { MatchResult result
        (λ n. (n ≤ 99999) × IsSlice (take n room.new)) IsStreamFault }
{
    room[0] = first;
    fill(source, &mut room[1..LENGTH_DIGITS])?;
    let length = announced_length(&room[..LENGTH_DIGITS])?;
    fill(source, &mut room[LENGTH_DIGITS..length])?;
    Ok(length)
}

/// Reads the next record of a stream into the buffer, and says how long it is; `None` at the end of the stream.
///
/// CR, LF and spaces before a record and before the end are skipped, at most 65,535 in a run: one more is
/// `TooManySeparators`, whatever follows it. Of the record only the length is checked (`LengthDigits`, `LengthRange`
/// where it is below 26, `Truncated` where the stream ends before it, or within its first five bytes). `ReadFault` comes
/// exactly where the source has failed. After a fault the buffer is empty.
///
/// Of a source that tells its bytes no more are taken than show the answer, and what follows is left: behind a record, behind 65,536
/// separators, behind the five bytes of a bad length. So a record or a fault that stands before a failing read is answered, and not
/// the failure.
pub fn next_record<R: Source>(
    reader: &mut R,
    buffer: &mut RecordBuf,
) -> Result<Option<usize>, MarcFault>
    requires { R.has_failed reader.old ≡ false }
    // What stands next in what the source tells, unless the source fails.
    ensures told { (text : List ℕ) → R.remaining reader.old ≡ Some text
        → R.has_failed reader.new ≡ false
        → Gives (next_of text) result buffer.new (R.remaining reader.new) }
    // What is taken off it and what is left, whatever is answered.
    ensures unread { (text : List ℕ) → R.remaining reader.old ≡ Some text
        → LeavesUnread text result (R.remaining reader.new) }
    ensures failed { IsErrOf result MarcFault.ReadFault ↔ (R.has_failed reader.new ≡ true) }
    ensures able { StaysAble R.may_fail R.has_failed reader.old reader.new }
    // What the buffer keeps, and which faults there are, whatever the source is.
    ensures kept { Keeps result buffer.new }
{
    buffer.len = 0;
    let Some(first) = skip_separators(reader)? else {
        return Ok(None);
    };
    let length = read_slice(reader, &mut buffer.room, first)?;
    buffer.len = length;
    Ok(Some(length))
}
