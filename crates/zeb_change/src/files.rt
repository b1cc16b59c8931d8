//! The records of files, folded into a database inside a transaction.

ghost use Rattle.std.specs.Prelude.{◌≡◌, ◌↔◌, ◌+◌, true, map, IsErrOf, IfErr, OnOk};
ghost use Rattle.sqlite.specs.Held.{state};
ghost use Rattle.zeb_marc.specs.Reading.{StaysAble};
ghost use Rattle.zeb_change.specs.RecordChanges.{OnRowsOf};
ghost use Rattle.zeb_change.specs.PrivateRecordChanges.{Steps};
ghost use Rattle.zeb_change.specs.RecordFolds.{Advances, ChangesFiles, FoldsFiles, FoldsRecord, OfReaders, TakesFiles, TakesRecord};
ghost use Rattle.zeb_change.specs.PrivateRecordFolds.{TakesReader, at};
ghost use Rattle.zeb_change.specs.Reading.{NamesFailed, NoneFailed, TellsFaults};
ghost use Rattle.zeb_change.specs.Outcomes.{fold_refusal, take_refusal};
ghost use Rattle.zeb_change.specs.PrivateFaults.{as_refusal};
ghost use Rattle.zeb_change.specs.PrivateReading.{ReadsRecord, TellsFault};
ghost use Rattle.zeb_change.specs.Inside.{WorksInsideOf};

use crate::part_faults::{FoldFault, TakeFault};
use crate::pending::Pending;
use crate::records::{Incoming, Progress, change_record};
use crate::refusals::Refusal;
use crate::settings::Setting;
use crate::tally::Tally;
use crate::writing::{write_pending, write_where_full};
use sqlite::{Alter, Transaction};
use zeb_marc::{MarcFault, RecordBuf, Source, next_record};
use zeb_register::Layout;
use zeb_register::for_layouts::counts_are_numbers;

/// How many bytes of memory what is noted of keys takes before it is written: 115 MB.
const MOST_NOTED: usize = 115_000_000;

/// Reads a file's next record into the buffer, and says whether there is one.
fn read_record<R: Source>(reader: &mut R, buffer: &mut RecordBuf) -> Result<bool, MarcFault>
    ensures reads { ReadsRecord (R.has_failed reader.new) (R.remaining reader.old) result buffer.new
        (R.remaining reader.new) }
    ensures failed { IsErrOf result MarcFault.ReadFault ↔ (R.has_failed reader.new ≡ true) }
    ensures able { StaysAble R.may_fail R.has_failed reader.old reader.new }
{
    if reader.has_failed() {
        return Err(MarcFault::ReadFault);
    }
    Ok(next_record(reader, buffer)?.is_some())
}

/// Refused with `ReadFault` where a reader has failed already, by the number of the first such file, counted from 1: no record is
/// to be read then. Nothing is read.
pub fn check_readers<R: Source>(readers: &[R]) -> Result<(), Refusal>
    ensures none { OnOk result (NoneFailed R.has_failed readers.now) }
    ensures named { IfErr result (λ refusal. NamesFailed R.has_failed readers.now refusal) }
{
    for (index, reader) in readers.iter().enumerate() {
        if reader.has_failed() {
            return Err(Refusal::ReadFault {
                file: index as u64 + 1,
            });
        }
    }
    Ok(())
}

/// A change on its way: how far it has come, and what became of its records.
#[derive(Clone, Copy, Debug)]
pub struct Fold {
    pub progress: Progress,
    pub tally: Tally,
}

/// Folds in one record, which is one of those that the limits allow, and notes its keys.
fn note_record<S: Alter>(
    tx: &mut Transaction<'_, S>,
    setting: &Setting<'_>,
    fold: &mut Fold,
    pending: &mut Pending,
    incoming: Incoming<'_>,
) -> Result<(), TakeFault>
    ensures inside { WorksInsideOf S.Store tx.old.conn tx.new.conn result }
    ensures steps { Steps setting.now.limits fold.old.progress fold.new.progress }
    ensures folds { OnRowsOf S.Store tx.old.conn tx.new.conn
        (FoldsRecord setting.now fold.old.progress.database.0 incoming.entry.file incoming.entry.nth
        incoming.entry.bytes.now (at (state S.Store tx.old.conn.now) pending.old fold.old)
        (at (state S.Store tx.new.conn.now) pending.new fold.new)
        (as_refusal take_refusal result)) }
    ensures counted { OnOk result (fold.new.tally.records ≡ fold.old.tally.records + 1) }
{
    if fold.tally.records >= setting.limits.records {
        return Err(TakeFault::TooManyRecords);
    }
    let fate = change_record(tx, setting, &mut fold.progress, pending, incoming)?;
    fold.tally.count(fate);
    Ok(())
}

/// Folds in one record, and then writes what is noted where that is much.
fn take_record<S: Alter, L: Layout>(
    tx: &mut Transaction<'_, S>,
    setting: &Setting<'_>,
    fold: &mut Fold,
    pending: &mut Pending,
    incoming: Incoming<'_>,
) -> Result<(), TakeFault>
    ensures inside { WorksInsideOf S.Store tx.old.conn tx.new.conn result }
    ensures steps { Advances setting.now.limits L.format L.row_work fold.old.progress
        fold.new.progress }
    ensures takes { OnRowsOf S.Store tx.old.conn tx.new.conn
        (TakesRecord setting.now L.format L.row_work fold.old.progress.database.0
        incoming.entry.file incoming.entry.nth incoming.entry.bytes.now
        (at (state S.Store tx.old.conn.now) pending.old fold.old)
        (at (state S.Store tx.new.conn.now) pending.new fold.new)
        (as_refusal take_refusal result)) }
    ensures counted { OnOk result (fold.new.tally.records ≡ fold.old.tally.records + 1) }
{
    note_record(tx, setting, fold, pending, incoming)?;
    let database = fold.progress.database;
    write_where_full::<S, L>(
        tx,
        setting.alloc,
        &mut fold.progress.work,
        database,
        pending,
    )?;
    counts_are_numbers(&fold.progress.work);
    Ok(())
}

/// Folds in the records of one file, each before the next is read.
fn fold_file<S: Alter, L: Layout, R: Source>(
    tx: &mut Transaction<'_, S>,
    setting: &Setting<'_>,
    fold: &mut Fold,
    pending: &mut Pending,
    buffer: &mut RecordBuf,
    reader: &mut R,
    file: u64,
) -> Result<(), FoldFault>
    ensures inside { WorksInsideOf S.Store tx.old.conn tx.new.conn result }
    ensures steps { Advances setting.now.limits L.format L.row_work fold.old.progress
        fold.new.progress }
    ensures takes { OnRowsOf S.Store tx.old.conn tx.new.conn
        (TakesReader setting.now L.format L.row_work fold.old.progress.database.0
        (R.has_failed reader.new) (R.remaining reader.old) file 1
        (at (state S.Store tx.old.conn.now) pending.old fold.old)
        (at (state S.Store tx.new.conn.now) pending.new fold.new)
        (as_refusal fold_refusal result)) }
    ensures faults { TellsFault R.may_fail R.has_failed reader.old reader.new file
        (as_refusal fold_refusal result) }
{
    for nth in 1..u64::MAX {
        let found = match read_record(reader, buffer) {
            Ok(found) => found,
            Err(fault) => return Err(FoldFault::of_marc(file, nth, fault)),
        };
        if !found {
            return Ok(());
        }
        let incoming = Incoming {
            bytes: buffer.bytes(),
            file,
            nth,
        };
        take_record::<S, L>(tx, setting, fold, pending, incoming)?;
    }
    Ok(())
}

/// Folds in the records of all files, in their order. Changes of keys may be noted and not yet written then.
fn fold_readers<S: Alter, L: Layout, R: Source>(
    tx: &mut Transaction<'_, S>,
    setting: &Setting<'_>,
    fold: &mut Fold,
    pending: &mut Pending,
    buffer: &mut RecordBuf,
    readers: &mut [R],
) -> Result<(), FoldFault>
    ensures inside { WorksInsideOf S.Store tx.old.conn tx.new.conn result }
    ensures steps { Advances setting.now.limits L.format L.row_work fold.old.progress
        fold.new.progress }
    ensures takes { OnRowsOf S.Store tx.old.conn tx.new.conn
        (OfReaders (NoneFailed R.has_failed readers.new) (map R.remaining readers.old)
        (λ splits. TakesFiles setting.now L.format L.row_work fold.old.progress.database.0 1 splits
        (at (state S.Store tx.old.conn.now) pending.old fold.old)
        (at (state S.Store tx.new.conn.now) pending.new fold.new))
        (as_refusal fold_refusal result)) }
    ensures faults { TellsFaults R.may_fail R.has_failed readers.old readers.new
        (as_refusal fold_refusal result) }
{
    for (index, reader) in readers.iter_mut().enumerate() {
        let file = index as u64 + 1;
        fold_file::<S, L, R>(tx, setting, fold, pending, buffer, reader, file)?;
    }
    Ok(())
}

/// Folds in the records of all files, in their order, and then writes all changes of keys that are noted.
fn take_files<S: Alter, L: Layout, R: Source>(
    tx: &mut Transaction<'_, S>,
    setting: &Setting<'_>,
    fold: &mut Fold,
    pending: &mut Pending,
    buffer: &mut RecordBuf,
    readers: &mut [R],
) -> Result<(), Refusal>
    ensures inside { WorksInsideOf S.Store tx.old.conn tx.new.conn result }
    ensures steps { Advances setting.now.limits L.format L.row_work fold.old.progress
        fold.new.progress }
    ensures changes { OnRowsOf S.Store tx.old.conn tx.new.conn
        (OfReaders (NoneFailed R.has_failed readers.new) (map R.remaining readers.old)
        (λ splits. ChangesFiles setting.now L.format L.row_work fold.old.progress.database.0 splits
        (at (state S.Store tx.old.conn.now) pending.old fold.old)
        (at (state S.Store tx.new.conn.now) pending.new fold.new)) result) }
    ensures faults { TellsFaults R.may_fail R.has_failed readers.old readers.new result }
{
    fold_readers::<S, L, R>(tx, setting, fold, pending, buffer, readers)?;
    let database = fold.progress.database;
    write_pending::<S, L>(
        tx,
        setting.alloc,
        &mut fold.progress.work,
        database,
        pending,
    )?;
    counts_are_numbers(&fold.progress.work);
    Ok(())
}

/// Folds in the records of all files, in their order, inside the caller's transaction. Files are counted from 1, and
/// records from 1 within their file. It ends at the first that is refused: `ReadFault` of a reader that fails, `Record` of
/// a record or an identifier at fault, `Unknown` of a `Delete` that finds none, `TooManyRecords` and `DatabaseFull`
/// at the limits, `Damaged` of tables that no command leaves, and `Store` and `Memory`. The transaction then holds some of
/// what the records before it made, and is to be given up. The changes of keys are written when the last file is through,
/// or earlier where they take much memory.
pub fn fold_files<S: Alter, L: Layout, R: Source>(
    tx: &mut Transaction<'_, S>,
    setting: &Setting<'_>,
    fold: &mut Fold,
    buffer: &mut RecordBuf,
    readers: &mut [R],
) -> Result<(), Refusal>
    ensures inside { WorksInsideOf S.Store tx.old.conn tx.new.conn result }
    // How far the last number and the counts go, whatever is answered.
    ensures steps { Advances setting.now.limits L.format L.row_work fold.old.progress
        fold.new.progress }
    // What it does on any tables of a store, and whatever the readers tell.
    ensures changes { OnRowsOf S.Store tx.old.conn tx.new.conn
        (OfReaders (NoneFailed R.has_failed readers.new) (map R.remaining readers.old)
        (λ splits. FoldsFiles setting.now L.format L.row_work fold.old.progress.database.0 splits
        (state S.Store tx.old.conn.now).now (state S.Store tx.new.conn.now).now fold.old fold.new)
        result) }
    ensures faults { TellsFaults R.may_fail R.has_failed readers.old readers.new result }
{
    counts_are_numbers(&fold.progress.work);
    let mut pending = Pending::new(setting.alloc, MOST_NOTED);
    take_files::<S, L, R>(tx, setting, fold, &mut pending, buffer, readers)
}
