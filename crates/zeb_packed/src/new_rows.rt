//! Rows of keys that have none yet. They follow from the changes alone, so they are held, and put together with those of other keys.

ghost use Rattle.std.specs.Prelude.{IsUtf8, ◌≡◌, ◌≢◌, ◌≤◌, [], IfOk, IsTrue, OnOk};
ghost use Rattle.std.specs.List.{AllByRecursion};
ghost use Rattle.sqlite.specs.Tree.{Trees};
ghost use Rattle.zeb_register.specs.Formats.{packed_blocks};
ghost use Rattle.zeb_register.specs.PackedUnits.{CountsAs};
ghost use Rattle.zeb_register.specs.UnitChanges.{AllowsChanges, KeyUnits};
ghost use Rattle.zeb_packed.specs.PrivateNewRows.{AreBehind, AreOfNewKey, BeginsBlocks, BeginsKey, BeginsRow, LeavesPlaces};
ghost use Rattle.zeb_packed.specs.PrivateUnitCalls.{AllowsBlocks, AreOfBlock};

use crate::packed_changes::Known;
use crate::packed_parts::KeyBlock;
use crate::packed_runs::run_length;
use std::alloc::{AllocError, Global};
use zeb_blocks::{BLOCK_RECORDS, spell};
use zeb_keys::Key;
use zeb_register::{RecordChange, RegFault};

/// The row of a block that a key has none for.
#[derive(Drop)]
pub(crate) struct NewBlock<'a> {
    pub(crate) key: &'a Key,
    pub(crate) block: u64,
    pub(crate) bytes: Vec<u8>,
}

/// The row of `dict` of a key that has none.
#[derive(Clone, Copy)]
pub(crate) struct NewCount<'a> {
    pub(crate) key: &'a Key,
    pub(crate) records: u64,
}

/// Rows that are held, to be put later.
#[derive(Drop)]
pub(crate) struct NewRows<'a> {
    pub(crate) blocks: Vec<NewBlock<'a>>,
    pub(crate) counts: Vec<NewCount<'a>>,
}

impl<'a> NewRows<'a> {
    /// No rows.
    pub(crate) fn new(alloc: Global) -> NewRows<'a>
        ensures blocks { result.blocks.items ≡ [] }
        ensures counts { result.counts.items ≡ [] }
    {
        NewRows {
            blocks: Vec::new(alloc),
            counts: Vec::new(alloc),
        }
    }
}

/// Puts rows behind those that are held.
pub(crate) fn hold<'a>(held: &mut NewRows<'a>, made: NewRows<'a>) -> Result<(), AllocError>
    ensures { OnOk result (AreBehind held.old made.entry held.new) }
{
    let mut made = made;
    held.blocks.append(&mut made.blocks)?;
    held.counts.append(&mut made.counts)?;
    Ok(())
}

/// Whether each change leaves its record some place. Then each block that changes lie in has a row behind them.
pub(crate) fn leave_places(changes: &[RecordChange<'_>]) -> bool
    ensures { IsTrue result → AllByRecursion LeavesPlaces changes.now }
{
    for change in changes {
        if change.new.is_empty() {
            return false;
        }
    }
    true
}

/// The row that changes of records of one block make where the key has none, and how many records have the key then.
fn block_begun<'a>(
    key: &'a Key,
    known: Known,
    block: u64,
    run: &[RecordChange<'_>],
) -> Result<(NewBlock<'a>, u64), RegFault>
    requires changes { AreOfBlock block known.records run.now }
    requires leaves { AllByRecursion LeavesPlaces run.now }
    requires some { run.now ≢ [] }
    ensures { BeginsRow key.now block run.now known.records result }
{
    let before = KeyBlock {
        block,
        list: Vec::new(known.alloc),
        records: known.records,
    };
    let after = before.changed_by(run)?;
    let bytes = spell(known.alloc, block, &after.list)?;
    Ok((NewBlock { key, block, bytes }, after.records))
}

/// The rows of blocks that changes of a key make where it has none, and how many records have it then.
fn blocks_begun<'a>(
    key: &'a Key,
    known: Known,
    changes: &[RecordChange<'_>],
) -> Result<(Vec<NewBlock<'a>>, u64), RegFault>
    requires { AreOfNewKey changes.now known }
    ensures begun { IfOk result (λ made.
        BeginsBlocks key.now changes.now known made.0.items made.1) }
    ensures damaged { result ≡ Err RegFault.Damaged → (db : _) (trees : Trees)
        → ¬ AllowsBlocks db key.now changes.now (λ block. known.clear_from ≤ block)
        known.records trees }
{
    let mut known = known;
    let mut blocks = Vec::new(known.alloc);
    let mut done = 0;
    while done < changes.len() {
        let block = changes[done].sysno / BLOCK_RECORDS;
        let rest = &changes[done..];
        let run = &rest[..run_length(rest, block)];
        let (made, records) = block_begun(key, known, block, run)?;
        blocks.push(made)?;
        known = known.behind(block, records);
        done += run.len();
    }
    Ok((blocks, known.records))
}

/// The rows that changes of a key make where it has none.
pub(crate) fn rows_begun<'a>(
    key: &'a Key,
    known: Known,
    changes: &[RecordChange<'_>],
) -> Result<NewRows<'a>, RegFault>
    requires text { IsUtf8 key.now.term }
    requires changes { AreOfNewKey changes.now known }
    requires some { changes.now ≢ [] }
    ensures begun { IfOk result (BeginsKey key.now changes.now) }
    ensures damaged { result ≡ Err RegFault.Damaged → (db : _) (trees : Trees)
        → CountsAs trees db key.now 0 → (were are : KeyUnits)
        → ¬ AllowsChanges packed_blocks db key.now changes.now trees were are }
{
    let (blocks, records) = blocks_begun(key, known, changes)?;
    let mut counts = Vec::new(known.alloc);
    counts.push(NewCount { key, records })?;
    Ok(NewRows { blocks, counts })
}
