//! The entries of a leaf beside the postings that are left: each takes its own from the front of them.

ghost use Rattle.std.specs.Prelude.{◌≡◌, ◌≢◌, ◌≤◌, ◌++◌, List, true, false, length, drop, map, IfOk, MatchOption};
ghost use Rattle.zeb_leaves.specs.PrivateAgreeing.{TakeEntries, leaf_of};
ghost use Rattle.zeb_register.specs.Occurring.{key_in};
ghost use Rattle.zeb_register.specs.PrivateRowExpected.{with_key};
ghost use Rattle.zeb_register.specs.Readings.{SaysPart};

use crate::agreeing_rows::ShownLeaf;
use crate::said_postings::entry_said;
use std::alloc::{AllocError, Global};
use zeb_leaf::Entry;
use zeb_register::{KeyPosting, Posting, RowFault};

/// The postings that an entry says, if it says any.
fn part_said(alloc: Global, entry: &Entry) -> Result<Option<Vec<Posting>>, AllocError>
    ensures { IfOk result (λ found. MatchOption found ((part : List _)
        → ¬ SaysPart entry.now part) (λ part. SaysPart entry.now part.items)) }
{
    match entry_said(alloc, entry) {
        Ok(part) => Ok(Some(part)),
        Err(RowFault::Damaged) => Ok(None),
        Err(RowFault::Memory) => Err(AllocError),
    }
}

/// Whether this is the posting under the key of a term in the register of a leaf.
fn is_under(expected: &KeyPosting, leaf: &ShownLeaf, term: &[u8], posting: &Posting) -> bool
    ensures same { result ≡ true
        → expected.now ≡ with_key (key_in leaf.now.index leaf.now.register term.now) posting.now }
    ensures other { result ≡ false
        → expected.now ≢ with_key (key_in leaf.now.index leaf.now.register term.now) posting.now }
{
    u64::from(expected.key.index) == leaf.index
        && expected.key.register == leaf.register
        && expected.key.term.as_str().as_bytes() == term
        && expected.posting == *posting
}

/// Where these postings of a term end, if they stand from a place on.
fn part_end(
    part: &[Posting],
    leaf: &ShownLeaf,
    term: &[u8],
    postings: &[KeyPosting],
    at: usize,
) -> Option<usize>
    requires { at ≤ length postings.now }
    ensures { MatchOption result ((rest : List KeyPosting) → drop at postings.now
        ≢ map (with_key (key_in leaf.now.index leaf.now.register term.now)) part.now ++ rest)
        (λ end. (end ≤ length postings.now) × (drop at postings.now
        ≡ map (with_key (key_in leaf.now.index leaf.now.register term.now)) part.now
        ++ drop end postings.now)) }
{
    let mut end = at;
    for posting in part {
        let expected = postings.get(end)?;
        if !is_under(expected, leaf, term, posting) {
            return None;
        }
        end += 1;
    }
    Some(end)
}

/// Where the postings end that an entry of a leaf says, if they stand from a place on.
fn entry_end(
    alloc: Global,
    leaf: &ShownLeaf,
    entry: &Entry,
    postings: &[KeyPosting],
    at: usize,
) -> Result<Option<usize>, AllocError>
    requires { at ≤ length postings.now }
    ensures { IfOk result (λ found. MatchOption found
        ((part : List _) (rest : List KeyPosting) → SaysPart entry.now part → drop at postings.now
        ≢ map (with_key (key_in leaf.now.index leaf.now.register entry.now.term)) part ++ rest)
        (λ end. (end ≤ length postings.now) × ((part : List _) × SaysPart entry.now part
        × (drop at postings.now
        ≡ map (with_key (key_in leaf.now.index leaf.now.register entry.now.term)) part
        ++ drop end postings.now)))) }
{
    let Some(part) = part_said(alloc, entry)? else {
        return Ok(None);
    };
    Ok(part_end(&part, leaf, entry.term.as_slice(), postings, at))
}

/// Where the postings end that entries of a leaf say, one behind the other, if they stand from a place on.
pub(crate) fn entries_end(
    alloc: Global,
    leaf: &ShownLeaf,
    entries: &[Entry],
    postings: &[KeyPosting],
    at: usize,
) -> Result<Option<usize>, AllocError>
    requires { at ≤ length postings.now }
    ensures { IfOk result (λ found. MatchOption found ((rest : List KeyPosting)
        → ¬ TakeEntries (leaf_of leaf.now).key entries.now (drop at postings.now) rest)
        (λ end. (end ≤ length postings.now) × TakeEntries (leaf_of leaf.now).key entries.now
        (drop at postings.now) (drop end postings.now))) }
{
    let mut end = at;
    for entry in entries {
        let Some(next) = entry_end(alloc, leaf, entry, postings, end)? else {
            return Ok(None);
        };
        end = next;
    }
    Ok(Some(end))
}
