//! What becomes of the entries of a leaf where pieces of a run are changed: each piece's entry is read, turned and spelled anew.

ghost use Rattle.std.specs.Prelude.{List, IfOk, MatchOption};
ghost use Rattle.std.specs.Option.{option_map};
ghost use Rattle.std.specs.List.{AllByRecursion};
ghost use Rattle.std.specs.List.Sorted.{IsStrictlySortedBy};
ghost use Rattle.sqlite_rules.specs.Lists.{Has};
ghost use Rattle.zeb_blocks.specs.Blocks.{LiesIn};
ghost use Rattle.zeb_leaf.specs.Order.{IsEntry, entry_cmp};
ghost use Rattle.zeb_leaf.specs.declared.entries.Entry.{Entry};
ghost use Rattle.zeb_leaf.specs.declared.spans.BlockKey.{BlockKey as KeyOfBlock};
ghost use Rattle.zeb_leaves.specs.PrivatePieces.{HasPostings, IsPiece, LackTurn, LacksTurn, TurnAllEntries, TurnsEntries, block_of};
ghost use Rattle.zeb_leaves.specs.PrivateTurnedLeaves.{AreOfOne, LeafLacksTurn, TurnsInto, TurnsLeaf};
ghost use Rattle.zeb_register.specs.Answers.{Answers, IfRowDamaged};
ghost use Rattle.zeb_register.specs.Formats.{packed_leaves};
ghost use Rattle.zeb_register.specs.PrivatePackedRows.{IsInBlock};
ghost use Rattle.zeb_register.specs.PrivateUnits.{units_of};
ghost use Rattle.zeb_register.specs.Readings.{IsAt, SayPart};
ghost use Rattle.zeb_register.specs.UnitChanges.{IsStorableChange, KeyUnits, TurnsUnits};

use crate::own_entries::own_entries;
use crate::pieces::first_block;
use crate::said_postings::entry_said;
use sqlite::Row;
use std::alloc::{AllocError, Global};
use zeb_blocks::{Posting, records_in, spell};
use zeb_leaf::{BlockChange, BlockKey, Bytes, Entry, NewBlock, merge};
use zeb_register::for_layouts::postings_changed;
use zeb_register::{KeyChanges, RecordChange, RowFault};

/// The entry of a block of a term, where there is one.
fn entry_at<'a>(entries: &'a [Entry], key: BlockKey) -> Option<&'a Entry>
    requires { IsStrictlySortedBy entry_cmp entries.now }
    ensures { MatchOption result
        ((e : Entry) → Has entries.now e → ¬ IsAt key.entry.term.now key.entry.block e)
        (λ found. Has entries.now found.now
        × IsAt key.entry.term.now key.entry.block found.now) }
{
    match entries.binary_search_by(|entry| entry.order(key)) {
        Ok(at) => Some(&entries[at]),
        Err(_) => None,
    }
}

/// The postings that entries say of a block of a term: none where it has no entry.
fn postings_at(alloc: Global, entries: &[Entry], key: BlockKey) -> Result<Vec<Posting>, RowFault>
    requires { IsStrictlySortedBy entry_cmp entries.now }
    ensures { Answers (IfRowDamaged ((part : List _)
        → ¬ SayPart entries.now key.entry.term.now key.entry.block part))
        (λ list. SayPart entries.now key.entry.term.now key.entry.block list.items) result }
{
    match entry_at(entries, key) {
        Some(entry) => entry_said(alloc, entry),
        None => Ok(Vec::new(alloc)),
    }
}

/// The postings of a block after changes of its records, one after the other. `Damaged` where a record has other places than its change says.
fn postings_after(
    alloc: Global,
    list: Vec<Posting>,
    changes: &[RecordChange<'_>],
) -> Result<Vec<Posting>, RowFault>
    requires lies { LiesIn (block_of changes.now) list.items }
    requires inside { AllByRecursion (IsInBlock (block_of changes.now)) changes.now }
    requires stored { AllByRecursion IsStorableChange changes.now }
    ensures turned { Answers (IfRowDamaged ((are : KeyUnits)
        → ¬ TurnsUnits packed_leaves changes.now (units_of list.items 0) are))
        (λ next. TurnsUnits packed_leaves changes.now (units_of list.items 0)
        (units_of next.items 0)) result }
    ensures lies { IfOk result (λ next. LiesIn (block_of changes.now) next.items) }
{
    let mut list = list;
    for change in changes {
        list = postings_changed(alloc, list, change)?;
    }
    Ok(list)
}

/// What a changed block has where these are its postings: `None` where there are none. The only refusal is want of memory.
fn block_with(alloc: Global, block: u64, list: &[Posting]) -> Result<Option<NewBlock>, AllocError>
    requires { LiesIn block list.now }
    ensures { IfOk result (λ new. HasPostings block list.now new) }
{
    if list.is_empty() {
        return Ok(None);
    }
    let bytes = spell(alloc, block, list)?;
    Ok(Some(NewBlock {
        records: records_in(list),
        bytes: Bytes::new(bytes),
    }))
}

/// What becomes of the block of a piece in a leaf with these entries. `Damaged` only where they say nothing of it that can be changed so; beside
/// that only memory can fail.
fn piece_change(
    alloc: Global,
    entries: &[Entry],
    piece: &KeyChanges<'_>,
) -> Result<BlockChange, RowFault>
    requires piece { IsPiece piece.now }
    requires rising { IsStrictlySortedBy entry_cmp entries.now }
    ensures { Answers (IfRowDamaged (LacksTurn entries.now piece.now))
        (λ change. TurnsEntries entries.now piece.now change) result }
{
    let key = BlockKey {
        term: piece.key.term.as_str().as_bytes(),
        block: first_block(piece.changes),
    };
    let old = postings_at(alloc, entries, key)?;
    let list = postings_after(alloc, old, piece.changes)?;
    let term = Vec::from_slice(alloc, key.term)?;
    let new = block_with(alloc, key.block, &list)?;
    Ok(BlockChange {
        term: Bytes::new(term),
        block: key.block,
        new,
    })
}

/// What becomes of the blocks of several pieces, in their order. Refused as for one of them.
fn piece_changes(
    alloc: Global,
    entries: &[Entry],
    pieces: &[KeyChanges<'_>],
) -> Result<Vec<BlockChange>, RowFault>
    requires pieces { AllByRecursion IsPiece pieces.now }
    requires rising { IsStrictlySortedBy entry_cmp entries.now }
    ensures { Answers (IfRowDamaged (LackTurn entries.now pieces.now))
        (λ changes. TurnAllEntries entries.now pieces.now changes.items) result }
{
    let mut changes = Vec::new(alloc);
    for piece in pieces {
        let change = piece_change(alloc, entries, piece)?;
        changes.push(change)?;
    }
    Ok(changes)
}

/// The entries after several pieces, which are of one register. Refused as for one of them.
pub(crate) fn entries_turned(
    alloc: Global,
    entries: Vec<Entry>,
    pieces: &[KeyChanges<'_>],
) -> Result<Vec<Entry>, RowFault>
    requires pieces { AreOfOne pieces.now }
    requires rising { IsStrictlySortedBy entry_cmp entries.items }
    requires each { AllByRecursion IsEntry entries.items }
    ensures { Answers (IfRowDamaged (LackTurn entries.items pieces.now))
        (λ news. TurnsInto entries.items pieces.now news.items) result }
{
    let changes = piece_changes(alloc, &entries, pieces)?;
    Ok(merge(alloc, entries, changes)?)
}

/// The entries of a leaf after several pieces, which are of one register: of the keys from its own on and below the end, where there is one.
/// `Damaged` also where the leaf's bytes are no leaf's.
pub(crate) fn leaf_entries_turned(
    alloc: Global,
    leaf: &Row,
    own: BlockKey,
    end: Option<BlockKey>,
    pieces: &[KeyChanges<'_>],
) -> Result<Vec<Entry>, RowFault>
    requires { AreOfOne pieces.now }
    ensures { Answers (IfRowDamaged (LeafLacksTurn own.entry.term.now own.entry.block
        (option_map (λ (k : KeyOfBlock). (k.term.now, k.block)) end.entry) leaf.now pieces.now))
        (λ news. TurnsLeaf own.entry.term.now own.entry.block
        (option_map (λ (k : KeyOfBlock). (k.term.now, k.block)) end.entry) leaf.now pieces.now
        news.items) result }
{
    let entries = own_entries(alloc, leaf, own, end)?;
    entries_turned(alloc, entries, pieces)
}
