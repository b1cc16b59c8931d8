//! Noted changes of keys, written into the registers in runs of keys.

ghost use Rattle.std.specs.Prelude.{◌≡◌, List, IfOk, OnOk, length, map};
ghost use Rattle.std.specs.List.{AllZip};
ghost use Rattle.std.specs.List.Sorted.{IsStrictlySortedBy};
ghost use Rattle.sqlite.specs.Held.{state};
ghost use Rattle.zeb_keys.specs.Order.{key_order};
ghost use Rattle.zeb_register.specs.Calls.{GoesOn};
ghost use Rattle.zeb_register.specs.Tallies.{CountsNothing, works_for};
ghost use Rattle.zeb_register.specs.UnitChanges.{NumbersRise};
ghost use Rattle.zeb_change.specs.declared.key_notes.KeyNotes.{KeyNotes};
ghost use Rattle.zeb_change.specs.NoteWords.{KeyChange};
ghost use Rattle.zeb_change.specs.Noted.{IsNothingNoted, KeepsUnwritten, SettlesOf, changes_among};
ghost use Rattle.zeb_change.specs.Inside.{WorksInsideOf};
ghost use Rattle.zeb_change.specs.PrivateNoteWords.{IsCutOff, counts_in, places_in};
ghost use Rattle.zeb_change.specs.PrivatePending.{AreGivenInOrder, IsGivenFrom, IsTakenFrom};
ghost use Rattle.zeb_change.specs.PrivateWriting.{CountsInStore, WritesInStore};
ghost use Rattle.zeb_register.specs.Connections.{InStoreOf, InsideOf};

use crate::key_notes::PlaceCounts;
use crate::pending::{Pending, TakenKey};
use sqlite::{Alter, Transaction};
use std::alloc::{AllocError, Global};
use zeb_keys::Key;
use zeb_register::for_layouts::counts_are_numbers;
use zeb_register::{DatabaseId, KeyChanges, Layout, Place, RecordChange, RegFault, Work};

/// So many places at the front, and those behind them; all where there are fewer.
fn cut_off<'a>(places: &'a [Place], count: u64) -> (&'a [Place], &'a [Place])
    ensures { IsCutOff places.now count result.0.now result.1.now }
{
    places.split_at(places.len().min(count as usize))
}

/// The changes of a key as a layout takes them, by the numbers of their records: a layout reads and writes a row once for changes that
/// stand next to each other. Those of one record stay in the order in which they were noted.
fn given<'a>(
    alloc: Global,
    counts: &[PlaceCounts],
    places: &'a [Place],
) -> Result<Vec<RecordChange<'a>>, AllocError>
    ensures many { IfOk result (λ given. length given.items ≡ length counts.now) }
    ensures rising { IfOk result (λ given. NumbersRise given.items) }
    ensures told { IfOk result (λ given. (changes : List KeyChange)
        → counts.now ≡ map counts_in changes → places.now ≡ places_in changes
        → AreGivenInOrder changes given.items) }
{
    let mut given = Vec::with_capacity(alloc, counts.len())?;
    let mut left = places;
    for count in counts {
        let (old, behind) = cut_off(left, count.old);
        let (new, behind) = cut_off(behind, count.new);
        given.push(RecordChange {
            sysno: count.sysno,
            old,
            new,
        })?;
        left = behind;
    }
    given.sort_by_key(|change| change.sysno)?;
    Ok(given)
}

/// A key, and its changes as a layout takes them.
#[derive(Drop)]
struct GivenKey<'a> {
    key: &'a Key,
    changes: Vec<RecordChange<'a>>,
}

/// The changes of each of these keys, as a layout takes them.
fn given_each<'a>(alloc: Global, taken: &'a [TakenKey]) -> Result<Vec<GivenKey<'a>>, AllocError>
    ensures { IfOk result (λ given. AllZip (λ (one : TakenKey) (given_one : _).
        IsGivenFrom one given_one.key.now given_one.changes.items) taken.now given.items) }
{
    let mut all = Vec::with_capacity(alloc, taken.len())?;
    for one in taken {
        let changes = given(alloc, &one.counts, &one.places)?;
        all.push(GivenKey {
            key: &one.key,
            changes,
        })?;
    }
    Ok(all)
}

/// These keys with their changes, as a run.
fn run_of<'k: 'a, 'a>(
    alloc: Global,
    given: &'a [GivenKey<'k>],
) -> Result<Vec<KeyChanges<'a>>, AllocError>
    ensures { IfOk result (λ run. AllZip (λ (given_one : _) (one : _).
        (one.key.now ≡ given_one.key.now) × (one.changes.now ≡ given_one.changes.items))
        given.now run.items) }
{
    let mut run = Vec::with_capacity(alloc, given.len())?;
    for one in given {
        run.push(KeyChanges {
            key: one.key,
            changes: &one.changes,
        })?;
    }
    Ok(run)
}

/// Writes the changes of these keys, as one run.
fn write_run<S: Alter, L: Layout>(
    tx: &mut Transaction<'_, S>,
    alloc: Global,
    work: &mut Work,
    db: DatabaseId,
    taken: &[TakenKey],
) -> Result<(), RegFault>
    requires rising { IsStrictlySortedBy key_order (map (λ (one : TakenKey). one.key) taken.now) }
    ensures call { InsideOf S.Store tx.old.conn tx.new.conn result (λ _. GoesOn) }
    ensures rows { (entries : List (Key × KeyNotes)) → AllZip IsTakenFrom entries taken.now
        → WritesInStore L.format db.0 entries (state S.Store tx.old.conn.now)
        (state S.Store tx.new.conn.now) result }
    ensures work { (entries : List (Key × KeyNotes)) → AllZip IsTakenFrom entries taken.now
        → InStoreOf S.Store tx.old.conn tx.new.conn (λ trees. OnOk result
        (works_for L.format L.row_work (changes_among entries) trees
        (state S.Store tx.new.conn.now).now.trees work.old work.new)) }
    ensures no_work { CountsNothing L.format L.row_work → work.new ≡ work.old }
{
    let given = given_each(alloc, taken)?;
    let run = run_of(alloc, &given)?;
    L::run_changes(tx, work, db, &run)
}

/// Writes all that is noted, run by run.
fn write_runs<S: Alter, L: Layout>(
    tx: &mut Transaction<'_, S>,
    alloc: Global,
    work: &mut Work,
    db: DatabaseId,
    pending: &mut Pending,
) -> Result<(), RegFault>
    ensures inside { WorksInsideOf S.Store tx.old.conn tx.new.conn result }
    ensures rows { WritesInStore L.format db.0 pending.old.notes.entries
        (state S.Store tx.old.conn.now) (state S.Store tx.new.conn.now) result }
    ensures all { OnOk result (IsNothingNoted pending.new
        × CountsInStore L.format L.row_work (state S.Store tx.old.conn.now)
        (state S.Store tx.new.conn.now) work.old work.new pending.old pending.new) }
    ensures no_work { CountsNothing L.format L.row_work → work.new ≡ work.old }
{
    loop {
        let taken = pending.take_run()?;
        if taken.is_empty() {
            return Ok(());
        }
        write_run::<S, L>(tx, alloc, work, db, &taken)?;
        counts_are_numbers(work);
    }
}

/// Writes all noted changes into the registers of a database, in runs of keys in the order of keys, and those of a key by the numbers of
/// their records. Nothing is noted then, and the registers hold what they would have held had each change been written as it was noted.
///
/// `Damaged` where other places stand in the registers than the changes say. The transaction is to be given up then, and where the store or
/// the memory fails.
pub fn write_pending<S: Alter, L: Layout>(
    tx: &mut Transaction<'_, S>,
    alloc: Global,
    work: &mut Work,
    db: DatabaseId,
    pending: &mut Pending,
) -> Result<(), RegFault>
    ensures call { SettlesOf S.Store L.format L.row_work db.0 tx.old.conn tx.new.conn
        pending.old pending.new work.old work.new result }
    ensures all { OnOk result (IsNothingNoted pending.new) }
    ensures keeps { InStoreOf S.Store tx.old.conn tx.new.conn
        (λ trees. OnOk result (KeepsUnwritten L.format db.0 trees
        (state S.Store tx.new.conn.now).now.trees)) }
    // Over a layout that counts nothing the counts stay, also where it is refused.
    ensures no_work { CountsNothing L.format L.row_work → work.new ≡ work.old }
{
    write_runs::<S, L>(tx, alloc, work, db, pending)
}

/// Writes all noted changes, as `write_pending` does, where they take as much memory as they may, and else does nothing.
pub fn write_where_full<S: Alter, L: Layout>(
    tx: &mut Transaction<'_, S>,
    alloc: Global,
    work: &mut Work,
    db: DatabaseId,
    pending: &mut Pending,
) -> Result<(), RegFault>
    ensures call { SettlesOf S.Store L.format L.row_work db.0 tx.old.conn tx.new.conn
        pending.old pending.new work.old work.new result }
    ensures keeps { InStoreOf S.Store tx.old.conn tx.new.conn
        (λ trees. OnOk result (KeepsUnwritten L.format db.0 trees
        (state S.Store tx.new.conn.now).now.trees)) }
    ensures no_work { CountsNothing L.format L.row_work → work.new ≡ work.old }
{
    if pending.is_full() {
        return write_pending::<S, L>(tx, alloc, work, db, pending);
    }
    Ok(())
}
