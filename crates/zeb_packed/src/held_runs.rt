//! A run of keys whose places change. A key is changed at once where it has a row of `dict`, or where a change leaves a record no place; the
//! rows of the others are held, and put together.

ghost use Rattle.std.specs.Prelude.{◌≢◌, ◌*◌, [], OnOk};
ghost use Rattle.std.specs.List.{AllByRecursion};
ghost use Rattle.sqlite.specs.Held.{state};
ghost use Rattle.zeb_packed.specs.PrivateNewRows.{GoesOnOpenOf, HoldsKeys, TurnsKnown, TurnsOne};
ghost use Rattle.zeb_packed.specs.PrivateUnitCalls.{CanBePut};
ghost use Rattle.zeb_register.specs.Calls.{GoesOn};
ghost use Rattle.zeb_register.specs.Connections.{InsideOf};
ghost use Rattle.zeb_register.specs.Formats.{packed_blocks};
ghost use Rattle.zeb_register.specs.RunChanges.{ChangesKeys, IsRun, changes_in};
ghost use Rattle.zeb_register.specs.Tallies.{Works};
ghost use Rattle.zeb_register.specs.UnitChanges.{IsStorableChange, NumbersRise};

use crate::held_rows::held_put;
use crate::new_keys::{RunKnown, run_known, term_is_text};
use crate::new_rows::{NewRows, hold, leave_places, rows_begun};
use crate::packed_changes::{Known, key_known};
use crate::packed_runs::{count_rows, known_put};
use sqlite::{Alter, Transaction};
use std::alloc::Global;
use zeb_keys::Key;
use zeb_register::for_layouts::{check_changes, counts_are_numbers};
use zeb_register::{DatabaseId, KeyChanges, RecordChange, RegFault, Work};

/// Puts changes of a key, of which so much is known, into its rows, or holds the rows that they make where it has none. A change that leaves
/// a record no place may leave a block without a row: then the tables have to be asked whether it has one.
fn known_turned<'a, S: Alter>(
    tx: &mut Transaction<'_, S>,
    db: DatabaseId,
    key: &'a Key,
    known: Known,
    changes: &[RecordChange<'_>],
    held: &mut NewRows<'a>,
) -> Result<(), RegFault>
    requires put { CanBePut key.now changes.now known }
    requires some { changes.now ≢ [] }
    ensures call { GoesOnOpenOf S.Store tx.old.conn tx.new.conn result }
    ensures turned { TurnsKnown db.0 key.now changes.now known.records
        (state S.Store tx.old.conn.now) (state S.Store tx.new.conn.now) held.old held.new result }
{
    if known.records != 0 || !leave_places(changes) {
        return known_put(tx, db, key, known, changes);
    }
    let made = rows_begun(key, known, changes)?;
    hold(held, made)?;
    Ok(())
}

/// Does the same for a key of which it is known that it has no row of `dict`.
fn new_turned<'a, S: Alter>(
    alloc: Global,
    tx: &mut Transaction<'_, S>,
    db: DatabaseId,
    key: &'a Key,
    changes: &[RecordChange<'_>],
    held: &mut NewRows<'a>,
) -> Result<(), RegFault>
    requires stored { AllByRecursion IsStorableChange changes.now }
    requires rising { NumbersRise changes.now }
    requires some { changes.now ≢ [] }
    ensures call { GoesOnOpenOf S.Store tx.old.conn tx.new.conn result }
    ensures turned { TurnsKnown db.0 key.now changes.now 0
        (state S.Store tx.old.conn.now) (state S.Store tx.new.conn.now) held.old held.new result }
{
    term_is_text(key);
    let known = Known {
        alloc,
        records: 0,
        clear_from: 0,
    };
    known_turned(tx, db, key, known, changes, held)
}

/// Puts changes of a key into its rows, or holds those that they make where it has none. It is looked for where it isn't known to be new.
fn key_turned<'a, S: Alter>(
    of_run: RunKnown,
    tx: &mut Transaction<'_, S>,
    db: DatabaseId,
    key: &'a Key,
    changes: &[RecordChange<'_>],
    held: &mut NewRows<'a>,
) -> Result<(), RegFault>
    requires rising { NumbersRise changes.now }
    ensures call { GoesOnOpenOf S.Store tx.old.conn tx.new.conn result }
    ensures turned { TurnsOne db.0 key.now changes.now of_run.are_new
        (state S.Store tx.old.conn.now) (state S.Store tx.new.conn.now) held.old held.new result }
{
    check_changes(changes)?;
    if changes.is_empty() {
        return Ok(());
    }
    let RunKnown { alloc, are_new } = of_run;
    if are_new {
        return new_turned(alloc, tx, db, key, changes, held);
    }
    let known = key_known(tx, db, key)?;
    known_turned(tx, db, key, known, changes, held)
}

/// Changes the keys of a run one after the other, and returns the rows that are held.
fn keys_turned<'a, S: Alter>(
    of_run: RunKnown,
    tx: &mut Transaction<'_, S>,
    work: &mut Work,
    db: DatabaseId,
    run: &[KeyChanges<'a>],
) -> Result<NewRows<'a>, RegFault>
    requires rising { IsRun run.now }
    ensures call { GoesOnOpenOf S.Store tx.old.conn tx.new.conn result }
    ensures holds { HoldsKeys db.0 run.now of_run.are_new (state S.Store tx.old.conn.now)
        (state S.Store tx.new.conn.now) result }
    ensures work { OnOk result (Works (1 * changes_in run.now) (1 * changes_in run.now)
        (1 * changes_in run.now) (1 * changes_in run.now) work.old work.new) }
{
    let mut held = NewRows::new(of_run.alloc);
    for one in run {
        key_turned(of_run, tx, db, one.key, one.changes, &mut held)?;
        count_rows(work, one.changes.len());
        counts_are_numbers(work);
    }
    Ok(held)
}

/// Puts the changes of a run of keys, and counts a row of each table, read and written, for each change.
pub(crate) fn run_made<S: Alter>(
    tx: &mut Transaction<'_, S>,
    work: &mut Work,
    db: DatabaseId,
    run: &[KeyChanges<'_>],
) -> Result<(), RegFault>
    requires rising { IsRun run.now }
    ensures call { InsideOf S.Store tx.old.conn tx.new.conn result (λ _. GoesOn) }
    ensures units { ChangesKeys packed_blocks db.0 run.now
        (state S.Store tx.old.conn.now) (state S.Store tx.new.conn.now) result }
    ensures work { OnOk result (Works (1 * changes_in run.now) (1 * changes_in run.now)
        (1 * changes_in run.now) (1 * changes_in run.now) work.old work.new) }
{
    let known = run_known(tx, db, run)?;
    let held = keys_turned(known, tx, work, db, run)?;
    held_put(known.alloc, tx, db, &held)
}
