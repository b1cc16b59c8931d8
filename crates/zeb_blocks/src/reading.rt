//! Reading a block: its postings, one after the other, out of its bytes.
ghost use Rattle.std.specs.Prelude.{◌≡◌, ◌≢◌, ◌++◌, ◌^◌, ◌<◌, ℕ, List, IfOk, OnErr, OnOk, MatchOption, length};
ghost use Rattle.std.specs.Iterator.{YieldsFirst, item_count};
ghost use Rattle.zeb_blocks.specs.declared.postings.Posting.{Posting};
ghost use Rattle.zeb_blocks.specs.Blocks.{BlockSpells, bytes_of, gaps_of};
ghost use Rattle.zeb_blocks.specs.Left.{Follows, SpellsFrom, last_from, postings_at};
ghost use Rattle.zeb_blocks.specs.Records.{record_count};

use crate::gaps::Gaps;
use crate::numbers::read_number;
use crate::postings::{BLOCK_RECORDS, Posting, start_of_block};
use crate::records::records_after;
use std::alloc::AllocError;
use std::marker::Model;

/// The bytes spell no list of postings in the block.
#[derive(Clone, Copy, Debug, PartialEq, Eq)]
pub struct Damaged;

/// The posting at the front of the bytes, told from the one before it, and the bytes behind it.
fn read_posting<'a>(before: Posting, bytes: &'a [u8]) -> Option<(Posting, &'a [u8])>
    ensures { MatchOption result
        ((p : Posting) (rest : List ℕ) → Follows before p
        → bytes.now ≢ bytes_of (gaps_of before p) ++ rest)
        (λ found. Follows before found.0
        × (bytes.now ≡ bytes_of (gaps_of before found.0) ++ found.1.now)) }
{
    let (sysno, behind_sysno) = read_number(bytes)?;
    let (seq, behind_seq) = read_number(behind_sysno)?;
    let (pos, behind_pos) = read_number(behind_seq)?;
    let posting = Gaps { sysno, seq, pos }.after(before)?;
    Some((posting, behind_pos))
}

/// How many postings the bytes have behind another one, and the last of them.
fn count_postings(start: Posting, bytes: &[u8]) -> Option<(usize, Posting)>
    ensures { MatchOption result ((list : List Posting) → ¬ SpellsFrom start list bytes.now)
        (λ found. SpellsFrom start (postings_at found.0 start bytes.now) bytes.now
        × (last_from start (postings_at found.0 start bytes.now) ≡ found.1)
        × (found.0 < 2 ^ 64)) }
{
    let mut count = 0;
    let mut last = start;
    let mut left = bytes;
    while !left.is_empty() {
        let (posting, behind) = read_posting(last, left)?;
        count += 1;
        last = posting;
        left = behind;
    }
    Some((count, last))
}

/// Puts the postings that the bytes have behind another one at the end of a list, and gives the last of them and how many records they are of.
fn push_postings(
    postings: &mut Vec<Posting>,
    start: Posting,
    bytes: &[u8],
) -> Result<Option<(Posting, u64)>, AllocError>
    ensures found { IfOk result
        (λ found. MatchOption found ((list : List Posting) → ¬ SpellsFrom start list bytes.now)
        (λ end. (list : List Posting) × SpellsFrom start list bytes.now
        × (last_from start list ≡ end.0) × (end.1 ≡ record_count list)
        × (postings.new.items ≡ postings.old.items ++ list))) }
    ensures kept { (put : List Posting) × (postings.new.items ≡ postings.old.items ++ put) }
{
    let mut records: u64 = 0;
    let mut last = start;
    let mut left = bytes;
    while !left.is_empty() {
        let Some((posting, behind)) = read_posting(last, left) else {
            return Ok(None);
        };
        postings.push(posting)?;
        records = records_after(records, last.sysno, posting.sysno);
        last = posting;
        left = behind;
    }
    Ok(Some((last, records)))
}

/// Puts the postings that the bytes spell in the block at the end of a list, and gives how many records they are of, in one walk over the
/// bytes. `block` is the system numbers div 256.
///
/// [`Damaged`] exactly where [`Postings::read`] says so. Then, and where memory ran out, some postings may have been put behind those that
/// the list had.
pub fn push_block(
    postings: &mut Vec<Posting>,
    block: u64,
    bytes: &[u8],
) -> Result<Result<u64, Damaged>, AllocError>
    ensures spelled { IfOk result
        (λ read. OnOk read ((list : List Posting) × BlockSpells block list bytes.now
        × (postings.new.items ≡ postings.old.items ++ list))) }
    ensures counted { IfOk result (λ read. IfOk read (λ records. (list : List Posting)
        → BlockSpells block list bytes.now → records ≡ record_count list)) }
    ensures damaged { IfOk result
        (λ read. OnErr read ((list : List Posting) → ¬ BlockSpells block list bytes.now)) }
    ensures kept { (put : List Posting) × (postings.new.items ≡ postings.old.items ++ put) }
{
    let Some(start) = start_of_block(block) else {
        return Ok(Err(Damaged));
    };
    let Some((last, records)) = push_postings(postings, start, bytes)? else {
        return Ok(Err(Damaged));
    };
    let is_inside = last.sysno / BLOCK_RECORDS == block;
    if bytes.is_empty() || !is_inside {
        return Ok(Err(Damaged));
    }
    Ok(Ok(records))
}

/// The postings of a block that are left to read: contracts see their list.
#[derive(Clone, Debug, Drop)]
pub struct Postings<'a> {
    count: usize,
    before: Posting,
    bytes: &'a [u8],
}

impl<'a> Model for Postings<'a> {
    ghost use Rattle.std.specs.Prelude.{List};
    ghost use Rattle.zeb_blocks.specs.declared.postings.Posting.{Posting};

    ghost Value = { List Posting };

    ghost use Rattle.zeb_blocks.specs.Left.{SpellsFrom, postings_at};

    ghost view = { λ s. postings_at s.count s.before s.bytes.now };

    ghost invariant = { λ s.
        SpellsFrom s.before (postings_at s.count s.before s.bytes.now) s.bytes.now };
}

impl<'a> Postings<'a> {
    /// The postings that the bytes spell in the block, in their order. The bytes are checked here, once; the postings are read out
    /// of them as they are asked for. No memory is taken. `block` is the system numbers div 256.
    ///
    /// [`Damaged`] exactly where the bytes spell no list in the block: there are none; a number is cut, isn't in the shortest form
    /// of ULEB128 (DWARF 5, 7.6) or doesn't fit 64 bits; a system number, unit or place is 0; the postings don't rise; or one lies
    /// outside the block.
    pub fn read(block: u64, bytes: &'a [u8]) -> Result<Postings<'a>, Damaged>
        ensures spelled { IfOk result (λ list. BlockSpells block list bytes.now) }
        ensures few { IfOk result (λ list. length list < 2 ^ 64) }
        ensures damaged { OnErr result ((list : List Posting)
            → ¬ BlockSpells block list bytes.now) }
    {
        let Some(start) = start_of_block(block) else {
            return Err(Damaged);
        };
        let Some((count, last)) = count_postings(start, bytes) else {
            return Err(Damaged);
        };
        if count == 0 || last.sysno / BLOCK_RECORDS != block {
            return Err(Damaged);
        }
        Ok(Postings {
            count,
            before: start,
            bytes,
        })
    }
}

impl<'a> Iterator for Postings<'a> {
    type Item = Posting;

    ghost next_gives = { YieldsFirst (λ s. s) };

    ghost remaining = { item_count (λ s. s) };

    fn next(&mut self) -> Option<Posting> {
        if self.count == 0 {
            return None;
        }
        let (posting, behind) = read_posting(self.before, self.bytes)?;
        self.count -= 1;
        self.before = posting;
        self.bytes = behind;
        Some(posting)
    }

    fn size_hint(&self) -> (usize, Option<usize>) {
        (self.count, Some(self.count))
    }
}

impl ExactSizeIterator for Postings<'_> {
    fn len(&self) -> usize {
        self.count
    }
}
