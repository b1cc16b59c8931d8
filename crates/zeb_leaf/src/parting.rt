//! Into which leaves a list of entries is cut.
ghost use Rattle.std.specs.Prelude.{◌≡◌, ◌≢◌, ◌+◌, ◌-◌, ◌/◌, ◌^◌, ◌<◌, ◌≤◌, [], length, min, take, IfOk};
ghost use Rattle.std.specs.List.{AllByRecursion};
ghost use Rattle.std.specs.List.Sorted.{IsStrictlySortedBy};
ghost use Rattle.zeb_blocks.specs.Numbers.{uleb};
ghost use Rattle.zeb_leaf.specs.Cuts.{AreCut, BeginsAt, bytes_above};
ghost use Rattle.zeb_leaf.specs.Leaves.{IsLeaf, entry_bytes, leaf_bytes};
ghost use Rattle.zeb_leaf.specs.Order.{IsEntry, entry_cmp};

use crate::entries::{Bytes, Entry, FULL_BYTES};
use crate::writing::{shared_len, spell_leaf};
use std::alloc::{AllocError, Global};

/// A leaf that is to be written: the key of its first entry, and its bytes.
#[derive(Debug, Drop)]
pub struct NewLeaf {
    /// The term's bytes, which are UTF-8.
    pub term: Bytes,
    /// The block's number, 0 to 2^56 - 1.
    pub block: u64,
    /// The bytes of the leaf.
    pub bytes: Bytes,
}

/// How far leaves are filled where entries take more than one.
#[derive(Clone, Copy, Debug, PartialEq, Eq)]
pub enum Filling {
    /// What would make less than two full leaves is cut in two halves of about equal size.
    Even,
    /// Each leaf but the last is full: more entries are to come behind the last.
    Full,
}

/// How many bytes a number takes.
fn number_len(number: u64) -> usize
    ensures value { result ≡ length (uleb number) }
    ensures few { result ≤ 10 }
{
    let mut left = number;
    let mut len = 1;
    while left >= 128 {
        left /= 128;
        len += 1;
    }
    len
}

/// How many bytes an entry takes behind one with this term; 2^64 - 1 where they are more.
#[tactic(auto, using(crate::proofs::Numbers::entry_length))]
fn entry_len(before: &[u8], entry: &Entry) -> usize
    ensures { result ≡ min (length (entry_bytes before.now entry.now)) (2 ^ 64 - 1) }
{
    let term = entry.term.as_slice();
    let shared = shared_len(before, term);
    let rest = term.len() - shared;
    let bytes = entry.bytes.as_slice().len();
    let numbers = number_len(shared as u64)
        + number_len(rest as u64)
        + number_len(entry.block)
        + number_len(entry.records)
        + number_len(bytes as u64);
    numbers.saturating_add(rest).saturating_add(bytes)
}

/// How many entries a leaf takes: as many as can be in so many bytes, and one at least.
fn fitting(entries: &[Entry], most: usize) -> usize
    requires small { most < 2 ^ 64 - 1 }
    requires some { entries.now ≢ [] }
    ensures some { (1 ≤ result) × (result ≤ length entries.now) }
    ensures fits { 2 ≤ result → length (leaf_bytes (take result entries.now)) ≤ most }
    ensures full { result < length entries.now
        → most < length (leaf_bytes (take (result + 1) entries.now)) }
{
    let mut len: usize = 0;
    let mut before: &[u8] = &[];
    for (count, entry) in entries.iter().enumerate() {
        len = len.saturating_add(entry_len(before, entry));
        if count > 0 && len > most {
            return count;
        }
        before = entry.term.as_slice();
    }
    entries.len()
}

/// How many bytes the next leaf takes at most, where what is left takes so many together: half of them where they are more than one full leaf
/// and less than two, and else a full leaf.
fn even_share(left: usize) -> usize
    ensures { (FULL_BYTES / 2 ≤ result) × (result ≤ FULL_BYTES) }
{
    if left > FULL_BYTES && left < 2 * FULL_BYTES {
        left / 2
    } else {
        FULL_BYTES
    }
}

/// How many bytes the next leaf takes at most, by the filling.
fn share(left: usize, filling: Filling) -> usize
    ensures { (bytes_above filling ≤ result) × (result ≤ FULL_BYTES) }
{
    match filling {
        Filling::Even => even_share(left),
        Filling::Full => FULL_BYTES,
    }
}

/// The leaf with these entries and bytes.
fn leaf_with(alloc: Global, entries: &[Entry], bytes: Vec<u8>) -> Result<NewLeaf, AllocError>
    requires { entries.now ≢ [] }
    ensures { IfOk result (λ leaf. BeginsAt leaf entries.now × (leaf.bytes ≡ bytes.items)) }
{
    let first = &entries[0];
    Ok(NewLeaf {
        term: Bytes::copied(alloc, first.term.as_slice())?,
        block: first.block,
        bytes: Bytes::new(bytes),
    })
}

/// The leaf with these entries.
fn new_leaf(alloc: Global, entries: &[Entry]) -> Result<NewLeaf, AllocError>
    requires some { entries.now ≢ [] }
    requires rising { IsStrictlySortedBy entry_cmp entries.now }
    requires each { AllByRecursion IsEntry entries.now }
    ensures { IfOk result (λ leaf. BeginsAt leaf entries.now × IsLeaf leaf.bytes entries.now) }
{
    let bytes = spell_leaf(alloc, entries)?;
    leaf_with(alloc, entries, bytes)
}

/// The leaves with these entries, which take so many bytes together, as of [`cut`].
fn leaves_of(
    alloc: Global,
    entries: &[Entry],
    taken: usize,
    filling: Filling,
) -> Result<Vec<NewLeaf>, AllocError>
    requires rising { IsStrictlySortedBy entry_cmp entries.now }
    requires each { AllByRecursion IsEntry entries.now }
    ensures { IfOk result (λ leaves. AreCut (bytes_above filling) leaves.items entries.now) }
{
    let mut leaves = Vec::new(alloc);
    let mut rest = entries;
    let mut left = taken;
    while !rest.is_empty() {
        let most = share(left, filling);
        let (own, behind) = rest.split_at(fitting(rest, most));
        let leaf = new_leaf(alloc, own)?;
        left = left.saturating_sub(leaf.bytes.as_slice().len());
        leaves.push(leaf)?;
        rest = behind;
    }
    Ok(leaves)
}

/// The leaves with these entries, one behind the other: each has one entry at least, and several take at most [`FULL_BYTES`] bytes. By the
/// filling, each but the last is so full that with the next entry it would take more than `FULL_BYTES` bytes, or more than half as many. The
/// only refusal is want of memory.
pub fn cut(alloc: Global, entries: &[Entry], filling: Filling) -> Result<Vec<NewLeaf>, AllocError>
    requires rising { IsStrictlySortedBy entry_cmp entries.now }
    requires each { AllByRecursion IsEntry entries.now }
    ensures { IfOk result (λ leaves. AreCut (bytes_above filling) leaves.items entries.now) }
{
    if entries.is_empty() {
        return Ok(Vec::new(alloc));
    }
    // Most changes leave a leaf small enough: then it is spelled once, and nothing is counted.
    let bytes = spell_leaf(alloc, entries)?;
    if bytes.len() > FULL_BYTES {
        return leaves_of(alloc, entries, bytes.len(), filling);
    }
    let leaf = leaf_with(alloc, entries, bytes)?;
    let mut leaves = Vec::new(alloc);
    leaves.push(leaf)?;
    Ok(leaves)
}
