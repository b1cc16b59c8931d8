//! Updates and deletes: the records of files are folded into a database in one transaction.

ghost use Rattle.std.specs.Prelude.{◌≡◌, ◌+◌, ◌<◌, ◌≤◌, ◌^◌, pos, map, MatchResult, Err, OnOk, IfOk, IfErr, false};
ghost use Rattle.sqlite.specs.Held.{state};
ghost use Rattle.zeb_register.specs.Calls.{GoesOn, OnlyReads};
ghost use Rattle.zeb_register.specs.Catalog.{PutsDatabase};
ghost use Rattle.zeb_register.specs.Store.{databases_tree};
ghost use Rattle.zeb_register.specs.Tallies.{CountsNothing};
ghost use Rattle.zeb_change.specs.Inside.{WorksInsideOf};
ghost use Rattle.zeb_change.specs.Reading.{NoneFailed, TellsFaults};
ghost use Rattle.zeb_change.specs.RecordChanges.{OnRowsOf};
ghost use Rattle.zeb_image.specs.NameOf.{name_bytes};
ghost use Rattle.zeb_engine.specs.Changing.{HasNumbersTo};
ghost use Rattle.zeb_engine.specs.PrivateChanging.{BeginsWith, IsMissedFor, last_of};
ghost use Rattle.zeb_engine.specs.PrivateConnections.{AsksTables, CommandedOf};
ghost use Rattle.zeb_engine.specs.PrivateDatabaseChanges.{AppliesChange, ChangesDatabase, Transacts, asked};
ghost use Rattle.zeb_engine.specs.PrivateNumbers.{AreGiven, AreWellNumbered, IsMisnumbered};
ghost use Rattle.zeb_register.specs.Connections.{ChangesTableOf, InStoreOf, InsideOf};

use crate::readiness::existing_database;
use crate::replies::Reply;
use sqlite::{Alter, Connection, Transaction};
use zeb_change::{Fold, Kind, Progress, Refusal, Setting, Tally, fold_files};
use zeb_image::DbName;
use zeb_marc::{RecordBuf, Source};
use zeb_register::{
    Database, DatabaseId, Layout, Record, RegFault, Work, database_of, database_put,
    record_from_inside,
};

/// The greatest number that a column stores: `2^63 - 1`.
const MOST_STORED: u64 = 9_223_372_036_854_775_807;

/// A change of one database, which is made where it is absent.
#[derive(Clone, Copy)]
struct Change<'a> {
    setting: Setting<'a>,
    name: &'a DbName,
    found: Option<Database>,
}

impl Change<'_> {
    /// The last system number that the database has given, 0 where it is absent.
    fn last(&self) -> u64
        ensures { result ≡ last_of self.now.found }
    {
        self.found.map_or(0, |database| database.last)
    }
}

/// What a change answers that has done so much.
fn changed(tally: Tally) -> Reply
    ensures { result ≡ Reply.Changed tally.inserted tally.updated tally.deleted }
{
    Reply::Changed {
        inserted: tally.inserted,
        updated: tally.updated,
        deleted: tally.deleted,
    }
}

/// The number above the last one, which has to be one that a column stores: `Damaged` where it isn't.
fn number_above(last: u64) -> Result<u64, RegFault>
    ensures above { IfOk result (λ next. (next ≡ last + 1) × (next < 2 ^ 63)) }
    ensures damaged { IfErr result (λ fault. (fault ≡ RegFault.Damaged) × (2 ^ 63 ≤ last + 1)) }
{
    if last >= MOST_STORED {
        return Err(RegFault::Damaged);
    }
    Ok(last + 1)
}

/// `Damaged` where the first record of a database has number 0, or one was found above its last number.
fn check_found(first: Option<Record>, above: Option<Record>) -> Result<(), RegFault>
    ensures given { OnOk result (AreGiven first above) }
    ensures damaged { IfErr result (λ fault. (fault ≡ RegFault.Damaged) × ¬ AreGiven first above) }
{
    match above {
        Some(_) => Err(RegFault::Damaged),
        None => match first {
            Some(found) if found.sysno < 1 => Err(RegFault::Damaged),
            _ => Ok(()),
        },
    }
}

/// `Damaged` where a record of the database has a number that this can't have given: 0, or one above its last.
fn check_numbers<S: Alter>(
    tx: &mut Transaction<'_, S>,
    database: DatabaseId,
    last: u64,
) -> Result<(), RegFault>
    ensures call { InsideOf S.Store tx.old.conn tx.new.conn result (λ _. OnlyReads) }
    ensures numbers { InStoreOf S.Store tx.old.conn tx.new.conn
        (λ trees. OnOk result (HasNumbersTo last trees database.0)) }
    ensures honest { InStoreOf S.Store tx.old.conn tx.new.conn
        (λ trees. result ≡ Err RegFault.Damaged → ¬ AreWellNumbered last trees database.0) }
{
    let next = number_above(last)?;
    let first = record_from_inside(tx, database, 0)?;
    let above = record_from_inside(tx, database, next)?;
    check_found(first, above)
}

/// Makes the database where it is absent, with its last number as it is, and looks at the numbers of its records: what a database can't
/// have given isn't replaced unread.
fn begin_change<S: Alter>(
    tx: &mut Transaction<'_, S>,
    name: &str,
    last: u64,
) -> Result<DatabaseId, RegFault>
    ensures call { InsideOf S.Store tx.old.conn tx.new.conn result (λ _. GoesOn) }
    ensures put { ChangesTableOf S.Store tx.old.conn tx.new.conn databases_tree result
        (λ id. PutsDatabase id.0 name.now (pos last)) }
    ensures numbers { InStoreOf S.Store tx.old.conn tx.new.conn (λ trees. IfOk result
        (λ id. HasNumbersTo last trees id.0)) }
    ensures honest { InStoreOf S.Store tx.old.conn tx.new.conn (λ _. result ≡ Err RegFault.Damaged
        → IsMisnumbered name.now last (state S.Store tx.old.conn.now).now) }
{
    let database = database_put(tx, name, last)?;
    check_numbers(tx, database, last)?;
    Ok(database)
}

/// Makes the database where it is absent, looks at the numbers of its records, folds in those of the files, and keeps the last number.
fn apply<S: Alter, L: Layout, R: Source>(
    tx: &mut Transaction<'_, S>,
    work: &mut Work,
    change: &Change<'_>,
    buffer: &mut RecordBuf,
    readers: &mut [R],
) -> Result<Reply, Refusal>
    ensures inside { WorksInsideOf S.Store tx.old.conn tx.new.conn result }
    ensures applies { OnRowsOf S.Store tx.old.conn tx.new.conn
        (AppliesChange (NoneFailed R.has_failed readers.new)
        (asked change.now.setting L.format L.row_work change.now.name.now
        (map R.remaining readers.old)) (last_of change.now.found) work.old work.new
        (state S.Store tx.old.conn.now).now (state S.Store tx.new.conn.now).now result) }
    ensures faults { TellsFaults R.may_fail R.has_failed readers.old readers.new result }
    ensures no_work { CountsNothing L.format L.row_work → work.new ≡ work.old }
{
    let name = change.name.as_str();
    let last = change.last();
    let database = begin_change(tx, name, last)?;
    let mut fold = Fold {
        progress: Progress {
            database,
            last,
            work: *work,
        },
        tally: Tally::new(),
    };
    fold_files::<S, L, R>(tx, &change.setting, &mut fold, buffer, readers)?;
    database_put(tx, name, fold.progress.last)?;
    *work = fold.progress.work;
    Ok(changed(fold.tally))
}

/// Does a change in one transaction. The reply is there before the commit, which is the last that the store is asked.
fn transact<S: Alter, L: Layout, R: Source>(
    connection: &mut Connection<S>,
    work: &mut Work,
    change: &Change<'_>,
    buffer: &mut RecordBuf,
    readers: &mut [R],
) -> Result<Reply, Refusal>
    requires idle { connection.old.in_transaction ≡ false }
    ensures commanded { CommandedOf S.Store connection.old connection.new result }
    ensures transacts { Transacts (AppliesChange (NoneFailed R.has_failed readers.new)
        (asked change.now.setting L.format L.row_work change.now.name.now
        (map R.remaining readers.old))
        (last_of change.now.found) work.old work.new)
        (state S.Store connection.old) (state S.Store connection.new) result }
    ensures faults { TellsFaults R.may_fail R.has_failed readers.old readers.new result }
    ensures no_work { CountsNothing L.format L.row_work → work.new ≡ work.old }
{
    let _settled = connection.is_autocommit();
    let mut tx = connection.transaction();
    let reply = apply::<S, L, R>(&mut tx, work, change, buffer, readers)?;
    tx.commit()?;
    Ok(reply)
}

/// What the tables know of the name. A delete needs the database: where it is absent, diagnostic 235, which names it.
fn found_for<S: Alter, L: Layout>(
    connection: &mut Connection<S>,
    setting: &Setting<'_>,
    name: &DbName,
) -> Result<Option<Database>, Refusal>
    requires idle { connection.old.in_transaction ≡ false }
    ensures { AsksTables S.Store connection.old connection.new result
        (λ trees found. MatchResult found (BeginsWith setting.now.kind trees (name_bytes name.now))
        (IsMissedFor setting.now.kind trees (name_bytes name.now))) }
{
    match setting.kind {
        Kind::Update => Ok(database_of(connection, name.as_str())?),
        Kind::Delete | Kind::Adelete => {
            let database = existing_database::<S, L>(setting.alloc, connection, name)?;
            Ok(Some(database))
        }
    }
}

/// Changes a database by the records of files. An update makes the database where it is absent; a delete of an
/// absent one is diagnostic 235.
pub(crate) fn change_database<S: Alter, L: Layout, R: Source>(
    connection: &mut Connection<S>,
    work: &mut Work,
    setting: Setting<'_>,
    name: &DbName,
    readers: &mut [R],
) -> Result<Reply, Refusal>
    requires idle { connection.old.in_transaction ≡ false }
    ensures commanded { CommandedOf S.Store connection.old connection.new result }
    ensures transacts { Transacts (ChangesDatabase (NoneFailed R.has_failed readers.new)
        (asked setting.entry L.format L.row_work name.now
        (map R.remaining readers.old)) work.old work.new)
        (state S.Store connection.old) (state S.Store connection.new) result }
    ensures faults { TellsFaults R.may_fail R.has_failed readers.old readers.new result }
    ensures no_work { CountsNothing L.format L.row_work → work.new ≡ work.old }
{
    let found = found_for::<S, L>(connection, &setting, name)?;
    let mut buffer = RecordBuf::new(setting.alloc)?;
    let change = Change {
        setting,
        name,
        found,
    };
    transact::<S, L, R>(connection, work, &change, &mut buffer, readers)
}
