//! A database is taken out, in whichever format the registers are kept.

ghost use Rattle.std.specs.Prelude.{OnOk};
ghost use Rattle.sqlite.specs.Held.{state};
ghost use Rattle.zeb_register.specs.Calls.{GoesOn};
ghost use Rattle.zeb_register.specs.Connections.{InStoreOf, InsideOf};
ghost use Rattle.zeb_register.specs.Content.{Content, IsWithout, TakesWhole};
ghost use Rattle.zeb_register.specs.Formats.{Format, holds_in};
ghost use Rattle.zeb_register.specs.PrivateRowPlaces.{DropsRegisters};
ghost use Rattle.zeb_register.specs.Store.{IsStore};

use crate::DatabaseId;
use crate::agreeing::Table;
use crate::catalog::database_drop;
use crate::statements::whole::table_clear;
use sqlite::{Alter, Error, Transaction};

/// Takes a database out, with its records and its rows in every table of the registers.
pub fn database_drop_whole<S: Alter>(
    tx: &mut Transaction<'_, S>,
    db: DatabaseId,
) -> Result<(), Error>
    ensures call { InsideOf S.Store tx.old.conn tx.new.conn result (λ _. GoesOn) }
    ensures taken { InStoreOf S.Store tx.old.conn tx.new.conn
        (λ trees. OnOk result
        (TakesWhole db.0 (state S.Store tx.old.conn.now) (state S.Store tx.new.conn.now)
        × ((format : Format) (before after : Content) → holds_in format trees before
        → IsWithout db.0 before after
        → holds_in format (state S.Store tx.new.conn.now).now.trees after))) }
{
    registers_drop(tx, db)?;
    table_clear(tx, Table::Records, db)?;
    database_drop(tx, db)
}

/// Takes the rows of the database out of each table of the registers.
fn registers_drop<S: Alter>(tx: &mut Transaction<'_, S>, db: DatabaseId) -> Result<(), Error>
    ensures call { InsideOf S.Store tx.old.conn tx.new.conn result
        (λ _ a b. GoesOn a b × (IsStore a → DropsRegisters db.0 a b)) }
{
    table_clear(tx, Table::Postings, db)?;
    table_clear(tx, Table::Blocks, db)?;
    table_clear(tx, Table::Dict, db)
}
