//! The registers made anew from the kept records.

ghost use Rattle.sqlite.specs.Held.{state};
ghost use Rattle.zeb_register.specs.Calls.{GoesOn};
ghost use Rattle.zeb_change.specs.Inside.{WorksInsideOf};
ghost use Rattle.zeb_image.specs.Rebuilding.{Rebuilds};
ghost use Rattle.zeb_image.specs.PrivateRebuilding.{PostsDatabase};
ghost use Rattle.zeb_register.specs.Connections.{InStoreOf, InsideOf};

use crate::rebuilding_records::record_note;
use sqlite::{Alter, Transaction};
use std::alloc::Global;
use zeb_change::{Pending, write_pending, write_where_full};
use zeb_profile::Profile;
use zeb_register::{
    DatabaseId, Layout, RegFault, Work, databases_inside, record_from_inside, registers_wipe,
};

/// How many bytes of memory what is noted of keys takes before it is written: 2^28, some 268 MB. That is more than twice as many as in an
/// update, since the store takes least time for keys that are written once, each behind the ones below it.
const MOST_NOTED: usize = 268_435_456;

/// Takes every row of the registers out, in whichever format, and puts in this layout's rows of what the kept records have under the
/// profile. Texts, databases and records stay.
///
/// Three things no clause says, and so they aren't proved: one record is held at a time; what is noted of keys takes some 268 MB at most;
/// and each key of a database is written once each time that so much is noted, and once at the end, in the order of keys.
///
/// `Damaged` where a record isn't one of ISO 2709 with the identifier that it is kept under, where its number isn't 1 to 999,999,999, and
/// where a row of the lists can't be read; `Store` where the store failed, `Memory` where memory ran out. The transaction is to be given up
/// then.
pub fn rebuild<S: Alter, L: Layout>(
    alloc: Global,
    tx: &mut Transaction<'_, S>,
    profile: &Profile,
) -> Result<(), RegFault>
    ensures call { InsideOf S.Store tx.old.conn tx.new.conn result (λ _. GoesOn) }
    ensures rebuilds { InStoreOf S.Store tx.old.conn tx.new.conn
        (λ _. Rebuilds L.format profile.now (state S.Store tx.old.conn.now)
        (state S.Store tx.new.conn.now) result) }
{
    registers_wipe(tx)?;
    let databases = databases_inside(alloc, tx)?;
    for database in &databases {
        database_post::<S, L>(alloc, tx, profile, database.id)?;
    }
    Ok(())
}

/// Puts the postings of a database's records in, which has none. Its records are read one after the other and their keys noted, which are
/// written where they are many and behind the last record.
fn database_post<S: Alter, L: Layout>(
    alloc: Global,
    tx: &mut Transaction<'_, S>,
    profile: &Profile,
    db: DatabaseId,
) -> Result<(), RegFault>
    ensures inside { WorksInsideOf S.Store tx.old.conn tx.new.conn result }
    ensures posts { InStoreOf S.Store tx.old.conn tx.new.conn
        (λ _. PostsDatabase L.format profile.now db.0 (state S.Store tx.old.conn.now)
        (state S.Store tx.new.conn.now) result) }
{
    let mut work = Work::default();
    let mut pending = Pending::new(alloc, MOST_NOTED);
    let mut next: u64 = 0;
    for _turn in 0..u64::MAX {
        let Some(record) = record_from_inside(tx, db, next)? else {
            return write_pending::<S, L>(tx, alloc, &mut work, db, &mut pending);
        };
        record_note(alloc, profile, &mut pending, &record)?;
        write_where_full::<S, L>(tx, alloc, &mut work, db, &mut pending)?;
        next = record.sysno + 1;
    }
    // Numbers that rise come to an end before this, so the store gave others.
    Err(RegFault::Store)
}
