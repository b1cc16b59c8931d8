//! A key's places changed in many records, in packed registers: the row of a block is read and written once for the records of it that
//! stand next to each other, and the row of `dict` once for all. A block that the key can have no row for is only written.

ghost use Rattle.std.specs.Prelude.{IsTrue, ◌≡◌, ◌≤◌, ◌∷◌, List, drop, length, take, OnOk};
ghost use Rattle.std.specs.List.{AllByRecursion};
ghost use Rattle.sqlite.specs.Held.{state};
ghost use Rattle.zeb_register.specs.Calls.{GoesOn};
ghost use Rattle.zeb_register.specs.Formats.{packed_blocks};
ghost use Rattle.zeb_register.specs.PrivatePackedRows.{IsInBlock};
ghost use Rattle.zeb_register.specs.Store.{blocks_tree};
ghost use Rattle.zeb_register.specs.Tallies.{Works};
ghost use Rattle.zeb_packed.specs.PrivateNewRows.{GoesOnOpenOf};
ghost use Rattle.zeb_packed.specs.PrivateUnitCalls.{AllowsBlocks, CanBePut, ChangesKnown, ChangesUnits, IsRunOf, PutsRunOf, TurnsBlocks};
ghost use Rattle.zeb_register.specs.Connections.{ChangesTableOf, InStoreOf, InsideOf};
ghost use Rattle.zeb_register.specs.UnitChanges.{ChangesKey, IsStorableChange, NumbersRise};

use crate::packed_changes::{Known, block_begin, block_list, block_write, dict_write, key_known};
use crate::packed_parts::KeyBlock;
use sqlite::{Alter, Transaction};
use std::alloc::Global;
use zeb_blocks::BLOCK_RECORDS;
use zeb_keys::Key;
use zeb_register::for_layouts::{check_changes, counted, nothing_inside};
use zeb_register::{DatabaseId, RecordChange, RegFault, Work};

/// Puts changes of a key into its rows, and counts a row of each table, read and written, for each. Without a change no row is read.
pub(crate) fn changes_made<S: Alter>(
    tx: &mut Transaction<'_, S>,
    work: &mut Work,
    db: DatabaseId,
    key: &Key,
    changes: &[RecordChange<'_>],
) -> Result<(), RegFault>
    requires rising { NumbersRise changes.now }
    ensures call { InsideOf S.Store tx.old.conn tx.new.conn result (λ _. GoesOn) }
    ensures units { ChangesKey packed_blocks db.0 key.now changes.now
        (state S.Store tx.old.conn.now) (state S.Store tx.new.conn.now) result }
    ensures work { OnOk result (Works (length changes.now) (length changes.now)
        (length changes.now) (length changes.now) work.old work.new) }
{
    check_changes(changes)?;
    if changes.is_empty() {
        // A closed connection is refused also where there is no change.
        nothing_inside(tx)?;
        return Ok(());
    }
    changes_put(tx, db, key, changes)?;
    count_rows(work, changes.len());
    Ok(())
}

/// Counts so many rows of `dict` and so many of `blocks`, read and written.
pub(crate) fn count_rows(work: &mut Work, rows: usize)
    ensures { Works rows rows rows rows work.old work.new }
{
    work.dict_read = counted(work.dict_read, rows);
    work.dict_written = counted(work.dict_written, rows);
    work.block_read = counted(work.block_read, rows);
    work.block_written = counted(work.block_written, rows);
}

/// Puts changes into the rows of a key: that of `dict` is read first, and written when all its blocks are.
fn changes_put<S: Alter>(
    tx: &mut Transaction<'_, S>,
    db: DatabaseId,
    key: &Key,
    changes: &[RecordChange<'_>],
) -> Result<(), RegFault>
    requires stored { AllByRecursion IsStorableChange changes.now }
    requires rising { NumbersRise changes.now }
    ensures call { InsideOf S.Store tx.old.conn tx.new.conn result (λ _. GoesOn) }
    ensures units { ChangesUnits db.0 key.now changes.now
        (state S.Store tx.old.conn.now) (state S.Store tx.new.conn.now) result }
{
    let known = key_known(tx, db, key)?;
    known_put(tx, db, key, known, changes)
}

/// Puts changes into the rows of a key of which so much is known: those of its blocks, and then that of `dict`.
pub(crate) fn known_put<S: Alter>(
    tx: &mut Transaction<'_, S>,
    db: DatabaseId,
    key: &Key,
    known: Known,
    changes: &[RecordChange<'_>],
) -> Result<(), RegFault>
    requires { CanBePut key.now changes.now known }
    ensures call { GoesOnOpenOf S.Store tx.old.conn tx.new.conn result }
    ensures units { ChangesKnown db.0 key.now changes.now known.records
        (state S.Store tx.old.conn.now) (state S.Store tx.new.conn.now) result }
{
    let after = runs_put(tx, db, key, known, changes)?;
    dict_write(tx, db, key, after, known.records != 0)?;
    Ok(())
}

/// Puts changes into the rows of a key's blocks, where so much is known of the key; returns how many records have it then.
fn runs_put<S: Alter>(
    tx: &mut Transaction<'_, S>,
    db: DatabaseId,
    key: &Key,
    known: Known,
    changes: &[RecordChange<'_>],
) -> Result<u64, RegFault>
    requires stored { AllByRecursion IsStorableChange changes.now }
    requires few { known.records ≤ 999999999 }
    ensures call { InsideOf S.Store tx.old.conn tx.new.conn result (λ _ a b. IsTrue a.is_open
        → GoesOn a b) }
    ensures turned { ChangesTableOf S.Store tx.old.conn tx.new.conn blocks_tree result
        (λ after _. TurnsBlocks db.0 key.now changes.now (λ block. known.clear_from ≤ block)
        known.records after) }
    ensures damaged { InStoreOf S.Store tx.old.conn tx.new.conn
        (λ trees. result ≡ Err RegFault.Damaged → ¬ AllowsBlocks db.0 key.now changes.now
        (λ block. known.clear_from ≤ block) known.records trees) }
{
    let mut known = known;
    let mut done = 0;
    while done < changes.len() {
        let block = changes[done].sysno / BLOCK_RECORDS;
        let rest = &changes[done..];
        let run = &rest[..run_length(rest, block)];
        let records = run_put(tx, db, key, block, known, run)?;
        known = known.behind(block, records);
        done += run.len();
    }
    Ok(known.records)
}

/// How many changes there are before the first that is not of a record of the block.
pub(crate) fn run_length(changes: &[RecordChange<'_>], block: u64) -> usize
    ensures within { result ≤ length changes.now }
    ensures inside { AllByRecursion (IsInBlock block) (take result changes.now) }
    ensures some { (first : _) (behind : List _) → changes.now ≡ first ∷ behind
        → IsInBlock block first → 1 ≤ result }
    ensures whole { (next : _) (behind : List _) → drop result changes.now ≡ next ∷ behind
        → ¬ IsInBlock block next }
{
    for (at, change) in changes.iter().enumerate() {
        if change.sysno / BLOCK_RECORDS != block {
            return at;
        }
    }
    changes.len()
}

/// Puts changes of records of one block into its row. Where the key is known to have none there, no row is looked for.
fn run_put<S: Alter>(
    tx: &mut Transaction<'_, S>,
    db: DatabaseId,
    key: &Key,
    block: u64,
    known: Known,
    run: &[RecordChange<'_>],
) -> Result<u64, RegFault>
    requires { IsRunOf block known.records run.now }
    ensures { PutsRunOf S.Store tx.old.conn tx.new.conn db.0 key.now block run.now
        known.records (known.clear_from ≤ block) result }
{
    if block < known.clear_from {
        return row_renew(tx, db, key, block, known.records, run);
    }
    row_begin(tx, known.alloc, db, key, block, known.records, run)
}

/// Puts changes of records of one block into its row, which is read and written once.
fn row_renew<S: Alter>(
    tx: &mut Transaction<'_, S>,
    db: DatabaseId,
    key: &Key,
    block: u64,
    records: u64,
    run: &[RecordChange<'_>],
) -> Result<u64, RegFault>
    requires { IsRunOf block records run.now }
    ensures { PutsRunOf S.Store tx.old.conn tx.new.conn db.0 key.now block run.now
        records (⊥) result }
{
    let list = block_list(tx, db, key, block)?;
    let is_there = !list.is_empty();
    let before = KeyBlock {
        block,
        list,
        records,
    };
    let after = before.changed_by(run)?;
    let alloc = *after.list.allocator();
    block_write(alloc, tx, db, key, block, &after.list, is_there)?;
    Ok(after.records)
}

/// Puts changes of records of one block into a row of it, where the key has none.
fn row_begin<S: Alter>(
    tx: &mut Transaction<'_, S>,
    alloc: Global,
    db: DatabaseId,
    key: &Key,
    block: u64,
    records: u64,
    run: &[RecordChange<'_>],
) -> Result<u64, RegFault>
    requires { IsRunOf block records run.now }
    ensures { PutsRunOf S.Store tx.old.conn tx.new.conn db.0 key.now block run.now
        records (Unit {0}) result }
{
    let before = KeyBlock {
        block,
        list: Vec::new(alloc),
        records,
    };
    let after = before.changed_by(run)?;
    block_begin(alloc, tx, db, key, block, &after.list)?;
    Ok(after.records)
}
