//! The entries of a leaf, with blocks changed.
ghost use Rattle.std.specs.Prelude.{◌≡◌, ◌++◌, ◌↔◌, IfOk, IsTrue, OnOk};
ghost use Rattle.std.specs.declared.cmp.Ordering.TheVariants.{Equal, Less};
ghost use Rattle.std.specs.List.{AllByRecursion};
ghost use Rattle.std.specs.List.Sorted.{IsStrictlySortedBy};
ghost use Rattle.zeb_leaf.specs.Merging.{AreChanges, AreMerged, puts};
ghost use Rattle.zeb_leaf.specs.Order.{IsEntry, entry_cmp};
ghost use Rattle.zeb_leaf.specs.PrivateMerging.{Begins, IsRestBehind, Merges, MovesBelow, TakesBelow};

use crate::entries::{Bytes, Entry};
use crate::spans::BlockKey;
use std::alloc::{AllocError, Global};
use std::collections::VecDeque;

/// What a changed block has.
#[derive(Debug, Drop)]
pub struct NewBlock {
    /// How many records of the term are in it, 1 to 256.
    pub records: u64,
    /// Its bytes, as `zeb_blocks` spells them.
    pub bytes: Bytes,
}

/// What becomes of a block of a term.
#[derive(Debug, Drop)]
pub struct BlockChange {
    /// The term's bytes, which are UTF-8.
    pub term: Bytes,
    /// The block's number, a system number div 256, 0 to 2^56 - 1.
    pub block: u64,
    /// What the block has then. `None` where it has no entry then.
    pub new: Option<NewBlock>,
}

/// Whether the first entry is below the key.
fn begins_below(left: &VecDeque<Entry>, key: BlockKey) -> bool
    ensures { IsTrue result ↔ Begins key.entry.term.now key.entry.block Less left.now.items }
{
    match left.front() {
        Some(first) => first.order(key).is_lt(),
        None => false,
    }
}

/// Whether the first entry is that of the key.
fn begins_at(left: &VecDeque<Entry>, key: BlockKey) -> bool
    ensures { IsTrue result ↔ Begins key.entry.term.now key.entry.block Equal left.now.items }
{
    match left.front() {
        Some(first) => first.order(key).is_eq(),
        None => false,
    }
}

/// Takes the first entry out, if it is below the key.
fn take_below(left: &mut VecDeque<Entry>, key: BlockKey) -> Option<Entry>
    ensures { TakesBelow key.entry.term.now key.entry.block left.old.items left.new.items result }
{
    if !begins_below(left, key) {
        return None;
    }
    left.pop_front()
}

/// Moves the entries below the key from the front of some behind others.
fn move_below(
    merged: &mut Vec<Entry>,
    left: &mut VecDeque<Entry>,
    key: BlockKey,
) -> Result<(), AllocError>
    ensures { OnOk result (MovesBelow key.entry.term.now key.entry.block left.old.items
        left.new.items merged.old.items merged.new.items) }
{
    while let Some(entry) = take_below(left, key) {
        merged.push(entry)?;
    }
    Ok(())
}

/// Leaves the first entry out, if it is that of the key.
fn drop_own(left: &mut VecDeque<Entry>, key: BlockKey)
    ensures { IsRestBehind key.entry.term.now key.entry.block left.old.items left.new.items }
{
    if begins_at(left, key) {
        left.pop_front();
    }
}

/// Moves all entries that are left behind the others.
fn move_all(merged: &mut Vec<Entry>, left: VecDeque<Entry>) -> Result<(), AllocError>
    ensures { OnOk result (merged.new.items ≡ merged.old.items ++ left.items) }
{
    let mut left = left;
    while let Some(entry) = left.pop_front() {
        merged.push(entry)?;
    }
    Ok(())
}

/// Puts what a change puts behind the others.
fn push_new(merged: &mut Vec<Entry>, change: BlockChange) -> Result<(), AllocError>
    ensures { OnOk result (merged.new.items ≡ merged.old.items ++ puts change) }
{
    let BlockChange { term, block, new } = change;
    if let Some(new) = new {
        merged.push(Entry {
            term,
            block,
            records: new.records,
            bytes: new.bytes,
        })?;
    }
    Ok(())
}

/// Moves the entries below a changed block, and what the change puts, behind the others. Left are the entries behind the block's own.
fn push_up_to(
    merged: &mut Vec<Entry>,
    left: &mut VecDeque<Entry>,
    change: BlockChange,
) -> Result<(), AllocError>
    ensures { OnOk result
        (Merges change left.old.items merged.old.items merged.new.items left.new.items) }
{
    let key = BlockKey {
        term: change.term.as_slice(),
        block: change.block,
    };
    move_below(merged, left, key)?;
    drop_own(left, key);
    push_new(merged, change)
}

/// The entries after changes: each changed block has what its change puts, and each other entry stays. No entry is copied. The only refusal is
/// want of memory.
pub fn merge(
    alloc: Global,
    entries: Vec<Entry>,
    changes: Vec<BlockChange>,
) -> Result<Vec<Entry>, AllocError>
    requires rising { IsStrictlySortedBy entry_cmp entries.items }
    requires each { AllByRecursion IsEntry entries.items }
    requires changes { AreChanges changes.items }
    ensures { IfOk result (λ merged. AreMerged changes.items entries.items merged.items) }
{
    let most = entries.len().saturating_add(changes.len());
    let mut merged = Vec::with_capacity(alloc, most)?;
    let mut left = VecDeque::from_vec(entries);
    for change in changes {
        push_up_to(&mut merged, &mut left, change)?;
    }
    move_all(&mut merged, left)?;
    Ok(merged)
}
