//! Statements that take the rows of a whole table, or of a database in one.

ghost use Rattle.std.specs.Prelude.{◌≡◌};
ghost use Rattle.zeb_register.specs.Connections.{WritesOf};
ghost use Rattle.zeb_register.specs.PrivateRowExpected.{tree_of};
ghost use Rattle.zeb_register.specs.PrivateRowStatements.{Empties};
ghost use Rattle.zeb_register.specs.PrivateStoreTables.{clear_text, tree_at, wipe_text};
ghost use Rattle.zeb_register.specs.Sql.{Loses};
ghost use Rattle.zeb_register.specs.Store.{IsOfDatabase};

use crate::DatabaseId;
use crate::agreeing::Table;
use crate::statements::writing::write;
use crate::tables::StoreTable;
use sqlite::{Alter, Error, Transaction, params};

const WIPE_META: &str = "DELETE FROM meta";

const WIPE_DATABASES: &str = "DELETE FROM databases";

const WIPE_RECORDS: &str = "DELETE FROM records";

const WIPE_POSTINGS: &str = "DELETE FROM postings";

const WIPE_BLOCKS: &str = "DELETE FROM blocks";

const WIPE_DICT: &str = "DELETE FROM dict";

const CLEAR_RECORDS: &str = "DELETE FROM records WHERE db = ?1";

const CLEAR_POSTINGS: &str = "DELETE FROM postings WHERE db = ?1";

const CLEAR_BLOCKS: &str = "DELETE FROM blocks WHERE db = ?1";

const CLEAR_DICT: &str = "DELETE FROM dict WHERE db = ?1";

fn wipe_text(table: StoreTable) -> &'static str
    ensures { result.now ≡ wipe_text table }
{
    match table {
        StoreTable::Meta => WIPE_META,
        StoreTable::Databases => WIPE_DATABASES,
        StoreTable::Records => WIPE_RECORDS,
        StoreTable::Postings => WIPE_POSTINGS,
        StoreTable::Blocks => WIPE_BLOCKS,
        StoreTable::Dict => WIPE_DICT,
    }
}

fn clear_text(table: Table) -> &'static str
    ensures { result.now ≡ clear_text table }
{
    match table {
        Table::Records => CLEAR_RECORDS,
        Table::Postings => CLEAR_POSTINGS,
        Table::Blocks => CLEAR_BLOCKS,
        Table::Dict => CLEAR_DICT,
    }
}

/// Takes every row of the table.
pub(crate) fn table_wipe<S: Alter>(
    tx: &mut Transaction<'_, S>,
    table: StoreTable,
) -> Result<(), Error>
    ensures call { WritesOf S.Store tx.old.conn tx.new.conn (tree_at table) Empties result }
{
    write(tx, wipe_text(table), &[])
}

/// Takes the rows of the database out of the table.
pub(crate) fn table_clear<S: Alter>(
    tx: &mut Transaction<'_, S>,
    table: Table,
    db: DatabaseId,
) -> Result<(), Error>
    ensures call { WritesOf S.Store tx.old.conn tx.new.conn (tree_of table)
        (Loses (IsOfDatabase db.0)) result }
{
    let id = db.column();
    write(tx, clear_text(table), params![id])
}
