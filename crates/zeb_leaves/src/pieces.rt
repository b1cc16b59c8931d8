//! A run of keys in pieces: each is the changes of a key in records of one block.

ghost use Rattle.std.specs.Prelude.{◌≡◌, ◌<◌, ◌≤◌, List, length, take, drop, IfOk, OnOk};
ghost use Rattle.std.specs.List.{AllByRecursion};
ghost use Rattle.zeb_leaves.specs.PrivatePieces.{ArePieces, AreStorable, BeginsElsewhere, IsFront, PartsRun, PutsPieces, block_of};
ghost use Rattle.zeb_register.specs.PrivatePackedRows.{IsInBlock};
ghost use Rattle.zeb_register.specs.RunChanges.{IsRun};
ghost use Rattle.zeb_register.specs.UnitChanges.{IsStorableChange, NumbersRise};

use std::alloc::{AllocError, Global};
use zeb_blocks::BLOCK_RECORDS;
use zeb_register::{KeyChanges, RecordChange};

/// How many changes there are before the first that is not of a record of the block.
fn count_inside(changes: &[RecordChange<'_>], block: u64) -> usize
    ensures within { result ≤ length changes.now }
    ensures inside { AllByRecursion (IsInBlock block) (take result changes.now) }
    ensures next { BeginsElsewhere block (drop result changes.now) }
{
    for (count, change) in changes.iter().enumerate() {
        if change.sysno / BLOCK_RECORDS != block {
            return count;
        }
    }
    changes.len()
}

/// The block of the first change, or 0 where there is none.
pub(crate) fn first_block(changes: &[RecordChange<'_>]) -> u64
    ensures { result ≡ block_of changes.now }
{
    match changes.first() {
        Some(first) => first.sysno / BLOCK_RECORDS,
        None => 0,
    }
}

/// The changes from a place on that are of records of the block of the first of them.
fn front_from<'a>(changes: &'a [RecordChange<'a>], done: usize) -> &'a [RecordChange<'a>]
    requires { done < length changes.now }
    ensures { (rest : List _) × IsFront (drop done changes.now) result.now rest }
{
    let (_, rest) = changes.split_at(done);
    let (front, _) = rest.split_at(count_inside(rest, first_block(rest)));
    front
}

/// Puts the pieces of a key's changes behind the others: none where it has no change. The only refusal is want of memory.
fn push_pieces<'a>(pieces: &mut Vec<KeyChanges<'a>>, one: &KeyChanges<'a>) -> Result<(), AllocError>
    requires stored { AllByRecursion IsStorableChange one.now.changes.now }
    requires rising { NumbersRise one.now.changes.now }
    ensures { OnOk result (PutsPieces one.now pieces.old.items pieces.new.items) }
{
    let mut done = 0;
    while done < one.changes.len() {
        let front = front_from(one.changes, done);
        pieces.push(KeyChanges {
            key: one.key,
            changes: front,
        })?;
        done += front.len();
    }
    Ok(())
}

/// The pieces of a run of keys, in the order of the keys, and under a key in that of the blocks. The only refusal is want of memory.
pub(crate) fn pieces_of<'a>(
    alloc: Global,
    run: &[KeyChanges<'a>],
) -> Result<Vec<KeyChanges<'a>>, AllocError>
    requires rising { IsRun run.now }
    requires stored { AreStorable run.now }
    ensures parts { IfOk result (λ pieces. PartsRun run.now pieces.items) }
    ensures pieces { IfOk result (λ pieces. ArePieces pieces.items) }
{
    let mut pieces = Vec::new(alloc);
    for one in run {
        push_pieces(&mut pieces, one)?;
    }
    Ok(pieces)
}
