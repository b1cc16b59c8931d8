//! What is kept of a database, as it came in.

ghost use Rattle.std.specs.Prelude.{◌≡◌, false};
ghost use Rattle.sqlite.specs.Held.{state};
ghost use Rattle.zeb_register.specs.Kept.{AreReadable};
ghost use Rattle.zeb_engine.specs.Dumping.{HidesRecords, DumpOver, JoinsRecords};
ghost use Rattle.zeb_engine.specs.Hidden.{TellsUnlessHidden};
ghost use Rattle.zeb_image.specs.NameOf.{name_bytes};
ghost use Rattle.zeb_engine.specs.PrivateConnections.{AsksTables, LooksThrough};

use crate::readiness::existing_database;
use crate::replies::Reply;
use sqlite::{Alter, Connection};
use std::alloc::Global;
use zeb_change::Refusal;
use zeb_image::DbName;
use zeb_register::{DatabaseId, Layout, RegFault, record_from};

/// The bytes of a database's records, in rising order of their system numbers. One record is held at a time.
fn bytes_of<S: Alter>(
    alloc: Global,
    connection: &mut Connection<S>,
    database: DatabaseId,
) -> Result<Vec<u8>, RegFault>
    // Whatever the tables hold, they are the bytes of records of the database, or one of its records can't be read.
    ensures { LooksThrough (state S.Store connection.old) (state S.Store connection.new) result
        (λ trees. ¬ AreReadable trees database.0)
        (λ trees bytes. JoinsRecords trees database.0 bytes.items) }
{
    let mut bytes = Vec::new(alloc);
    let mut next: u64 = 0;
    for _turn in 0..u64::MAX {
        let Some(record) = record_from(connection, database, next)? else {
            break;
        };
        bytes.extend_from_slice(&record.bytes)?;
        next = record.sysno.saturating_add(1);
    }
    Ok(bytes)
}

/// Answers the bytes of a database's records, in rising order of their system numbers.
pub(crate) fn dump<S: Alter, L: Layout>(
    alloc: Global,
    connection: &mut Connection<S>,
    name: &DbName,
) -> Result<Reply, Refusal>
    requires idle { connection.old.in_transaction ≡ false }
    // Whatever the tables hold, it is of records that the database keeps, or refused by the definition, or as damage that they have.
    ensures { AsksTables S.Store connection.old connection.new result
        (TellsUnlessHidden (DumpOver (name_bytes name.now)) (HidesRecords (name_bytes name.now))) }
{
    let database = existing_database::<S, L>(alloc, connection, name)?;
    let bytes = bytes_of(alloc, connection, database.id)?;
    Ok(Reply::Dumped(bytes))
}
