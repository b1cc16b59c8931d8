//! Counts the terms of entries until there are enough, which is known from an entry of a further term on.

ghost use Rattle.std.specs.Prelude.{◌↔◌, ◌∷◌, [], List, IsTrue, IsUtf8, filter};
ghost use Rattle.std.specs.Option.{option_map};
ghost use Rattle.zeb_leaf.specs.Answers.{entry_of};
ghost use Rattle.zeb_leaf.specs.declared.entries.Entry.{Entry as LeafEntry};
ghost use Rattle.zeb_leaf.specs.declared.spans.BlockKey.{BlockKey as KeyOfBlock};
ghost use Rattle.zeb_leaves.specs.PrivateNearTerms.{AreEnough, CountUntil, CountsRow, HidesRow, MeetNoText};
ghost use Rattle.zeb_leaves.specs.PrivateTermReads.{AreEntries, is_own};
ghost use Rattle.zeb_register.specs.Answers.{Answers, IfRowDamaged};

use crate::own_entries::{is_own_entry, next_entry};
use crate::spans::leaf_bytes;
use crate::terms::{count_entry, count_records, is_term};
use sqlite::Row;
use std::alloc::Global;
use zeb_leaf::{BlockKey, Entry, Held, LeafReader};
use zeb_register::{RowFault, TermCount};

/// Whether `n` terms are counted, and the last of them hasn't these bytes.
pub(crate) fn are_enough(counts: &[TermCount], n: u64, term: &[u8]) -> bool
    ensures { IsTrue result ↔ AreEnough n counts.now term.now }
{
    match counts.last() {
        Some(last) => counts.len() as u64 == n && !is_term(&last.term, term),
        None => false,
    }
}

/// Counts entries until there are enough terms, and tells whether there are.
pub(crate) fn entries_until(
    alloc: Global,
    counts: &mut Vec<TermCount>,
    own: &[Entry],
    n: u64,
) -> Result<bool, RowFault>
    ensures { Answers (IfRowDamaged (MeetNoText n own.now counts.old.items))
        (λ enough. CountUntil n own.now counts.old.items counts.new.items enough) result }
{
    for entry in own {
        if are_enough(counts, n, entry.term.as_slice()) {
            return Ok(true);
        }
        count_entry(alloc, counts, entry)?;
    }
    Ok(false)
}

/// Counts an entry of this term, if it is chosen, and if there aren't enough terms before it. Tells whether there are.
fn own_until(
    alloc: Global,
    counts: &mut Vec<TermCount>,
    term: &[u8],
    held: Held,
    chosen: bool,
    n: u64,
) -> Result<bool, RowFault>
    ensures { Answers (IfRowDamaged (¬ IsUtf8 term.now))
        (λ enough. CountUntil n (filter (λ _. chosen) (entry_of term.now held.entry ∷ []))
        counts.old.items counts.new.items enough) result }
{
    if !chosen {
        return Ok(false);
    }
    if are_enough(counts, n, term) {
        return Ok(true);
    }
    count_records(alloc, counts, term, held.records)?;
    Ok(false)
}

/// Counts the entries that bytes have from the first key on and below the end, where there is one, until there are enough terms. What stands
/// behind these is read too, but nothing of it is kept. Tells whether there are.
fn bytes_until(
    alloc: Global,
    counts: &mut Vec<TermCount>,
    bytes: &[u8],
    from: BlockKey,
    end: Option<BlockKey>,
    n: u64,
) -> Result<bool, RowFault>
    ensures { Answers (IfRowDamaged ((list : List LeafEntry) → ¬ AreEntries bytes.now list))
        (λ enough. (list : List LeafEntry) × AreEntries bytes.now list
        × CountUntil n (filter (is_own from.entry.term.now from.entry.block
        (option_map (λ (k : KeyOfBlock). (k.term.now, k.block)) end.entry)) list)
        counts.old.items counts.new.items enough) result }
{
    let mut reader = LeafReader::new(alloc, bytes);
    let mut enough = false;
    let mut begun = false;
    while let Some(held) = next_entry(&mut reader)? {
        if !enough {
            let chosen = is_own_entry(reader.term(), held, from, end, &mut begun);
            enough = own_until(alloc, counts, reader.term(), held, chosen, n)?;
        }
    }
    Ok(enough)
}

/// Counts the entries that a row has from the first key on and below the end, where there is one, until there are enough terms. Tells
/// whether there are.
pub(crate) fn row_until(
    alloc: Global,
    counts: &mut Vec<TermCount>,
    row: &Row,
    from: BlockKey,
    end: Option<BlockKey>,
    n: u64,
) -> Result<bool, RowFault>
    ensures { Answers (IfRowDamaged (HidesRow n from.entry.term.now from.entry.block
        (option_map (λ (k : KeyOfBlock). (k.term.now, k.block)) end.entry) row.now
        counts.old.items))
        (λ enough. CountsRow n from.entry.term.now from.entry.block
        (option_map (λ (k : KeyOfBlock). (k.term.now, k.block)) end.entry) row.now
        counts.old.items counts.new.items enough) result }
{
    let bytes = leaf_bytes(row)?;
    bytes_until(alloc, counts, bytes, from, end, n)
}
