//! The tables of a store that is taken over.

ghost use Rattle.std.specs.Prelude.{◌≡◌, false, OnOk, IfErr};
ghost use Rattle.sqlite.specs.Held.{state};
ghost use Rattle.sqlite.specs.State.{HasCleanDisk, Survives};
ghost use Rattle.zeb_engine.specs.PrivateConnections.{CommandedOf};
ghost use Rattle.zeb_engine.specs.Adopting.{HasOtherTables};
ghost use Rattle.zeb_engine.specs.PrivateAdopting.{MakesTables, MayBeTaken, TakesOwn};
ghost use Rattle.zeb_engine.specs.PrivateCrashes.{CommitsTables};

use sqlite::{Alter, Connection};
use zeb_change::Refusal;
use zeb_register::{RegFault, is_bare_schema, is_store_schema, make_tables};

/// Refuses a store (`Store`) that has tables, views or triggers, and not just this store's six tables. Triggers count among the
/// views of a schema, and so do tables that can't be read.
fn check_tables<S: Alter>(connection: &Connection<S>) -> Result<(), Refusal>
    ensures ok { OnOk result (MayBeTaken (state S.Store connection.now)) }
    ensures other { IfErr result (λ refusal. (refusal ≡ Refusal.Store)
        × HasOtherTables (state S.Store connection.now)) }
{
    let schema = connection.schema();
    if is_bare_schema(schema) || is_store_schema(schema) {
        Ok(())
    } else {
        Err(Refusal::Store)
    }
}

/// Makes the tables of a store that has none, in one transaction, and leaves this store's six. No row changes. Any other
/// store is refused (`Store`) before anything is written.
pub(crate) fn make_absent_tables<S: Alter>(connection: &mut Connection<S>) -> Result<(), Refusal>
    requires idle { connection.old.in_transaction ≡ false }
    ensures commanded { CommandedOf S.Store connection.old connection.new result }
    ensures makes { HasCleanDisk (state S.Store connection.new) → OnOk result
        (MakesTables (state S.Store connection.old) (state S.Store connection.new)) }
    ensures survives { Survives (state S.Store connection.old) (state S.Store connection.new)
        (CommitsTables (state S.Store connection.old)) }
    ensures takes { TakesOwn S.Store connection.old connection.new result }
{
    check_tables(connection)?;
    let _settled = connection.is_autocommit();
    let mut tx = connection.transaction();
    match make_tables(&mut tx) {
        Ok(()) => (),
        // A failed commit alone is a failed store whatever its error is: here want of memory is told as such.
        Err(error) => return Err(RegFault::from(error).into()),
    }
    tx.commit()?;
    Ok(())
}
