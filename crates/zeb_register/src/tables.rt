//! The six tables, made one statement at a time.

ghost use Rattle.std.specs.Prelude.{◌≡◌, IsTrue, OnOk};
ghost use Rattle.sqlite.specs.Held.{state};
ghost use Rattle.sqlite.specs.State.{HasCleanDisk, IsUnchanged};
ghost use Rattle.zeb_register.specs.Tables.{no_schema, store_schema};
ghost use Rattle.zeb_register.specs.PrivateRowStatements.{IsMade};
ghost use Rattle.zeb_register.specs.PrivateStoreTables.{HasEmpty, create_text, schema_after, schema_before};
ghost use Rattle.zeb_register.specs.Store.{IsEmptyStore};
ghost use Rattle.zeb_register.specs.Calls.{GoesOn};
ghost use Rattle.zeb_register.specs.Clauses.{DoneUnder, KeepsAllTables};
ghost use Rattle.zeb_register.specs.Connections.{InsideOf};

use sqlite::{Alter, Error, Transaction};

/// One of the six tables of a store.
#[derive(Clone, Copy, PartialEq, Eq)]
pub(crate) enum StoreTable {
    Meta,
    Databases,
    Records,
    Postings,
    Blocks,
    Dict,
}

const CREATE_META: &str =
    "CREATE TABLE IF NOT EXISTS meta (name TEXT NOT NULL, value TEXT NOT NULL, PRIMARY KEY (name)) STRICT";

const CREATE_DATABASES: &str =
    "CREATE TABLE IF NOT EXISTS databases (id INTEGER PRIMARY KEY, name TEXT NOT NULL UNIQUE, last INTEGER NOT NULL) STRICT";

const CREATE_RECORDS: &str =
    "CREATE TABLE IF NOT EXISTS records (db INTEGER NOT NULL, sysno INTEGER NOT NULL, ident TEXT NOT NULL, bytes BLOB NOT NULL, PRIMARY KEY (db, sysno), UNIQUE (db, ident)) STRICT";

const CREATE_POSTINGS: &str =
    "CREATE TABLE IF NOT EXISTS postings (db INTEGER NOT NULL, idx INTEGER NOT NULL, reg INTEGER NOT NULL, term TEXT NOT NULL, sysno INTEGER NOT NULL, seq INTEGER NOT NULL, pos INTEGER NOT NULL, PRIMARY KEY (db, idx, reg, term, sysno, seq, pos)) STRICT";

const CREATE_BLOCKS: &str =
    "CREATE TABLE IF NOT EXISTS blocks (db INTEGER NOT NULL, idx INTEGER NOT NULL, reg INTEGER NOT NULL, term TEXT NOT NULL, block INTEGER NOT NULL, data BLOB NOT NULL, PRIMARY KEY (db, idx, reg, term, block)) STRICT";

const CREATE_DICT: &str =
    "CREATE TABLE IF NOT EXISTS dict (db INTEGER NOT NULL, idx INTEGER NOT NULL, reg INTEGER NOT NULL, term TEXT NOT NULL, records INTEGER NOT NULL, PRIMARY KEY (db, idx, reg, term)) STRICT";

fn create_text(table: StoreTable) -> &'static str
    ensures { result.now ≡ create_text table }
{
    match table {
        StoreTable::Meta => CREATE_META,
        StoreTable::Databases => CREATE_DATABASES,
        StoreTable::Records => CREATE_RECORDS,
        StoreTable::Postings => CREATE_POSTINGS,
        StoreTable::Blocks => CREATE_BLOCKS,
        StoreTable::Dict => CREATE_DICT,
    }
}

/// Makes the table where it is absent.
fn table_make<S: Alter>(tx: &mut Transaction<'_, S>, table: StoreTable) -> Result<(), Error>
    ensures made { HasCleanDisk (state S.Store tx.new.conn.now)
        → IsTrue (state S.Store tx.old.conn.now).in_transaction
        → HasEmpty (schema_before table) (state S.Store tx.old.conn.now)
        → OnOk result (IsMade (schema_after table) (state S.Store tx.new.conn.now)) }
    ensures there { DoneUnder store_schema (state S.Store tx.old.conn.now)
        (state S.Store tx.new.conn.now) result IsUnchanged }
    ensures kept { KeepsAllTables (state S.Store tx.old.conn.now) (state S.Store tx.new.conn.now)
        result }
    ensures call { InsideOf S.Store tx.old.conn tx.new.conn result (λ _. GoesOn) }
{
    tx.execute(create_text(table), &[])?;
    Ok(())
}

/// Makes three tables where they are absent, each behind the one before it in the schema.
fn tables_make<S: Alter>(
    tx: &mut Transaction<'_, S>,
    first: StoreTable,
    second: StoreTable,
    third: StoreTable,
) -> Result<(), Error>
    requires follow { (schema_after first ≡ schema_before second)
        × (schema_after second ≡ schema_before third) }
    ensures made { HasCleanDisk (state S.Store tx.new.conn.now)
        → IsTrue (state S.Store tx.old.conn.now).in_transaction
        → HasEmpty (schema_before first) (state S.Store tx.old.conn.now)
        → OnOk result (IsMade (schema_after third) (state S.Store tx.new.conn.now)) }
    ensures there { DoneUnder store_schema (state S.Store tx.old.conn.now)
        (state S.Store tx.new.conn.now) result IsUnchanged }
    ensures kept { KeepsAllTables (state S.Store tx.old.conn.now) (state S.Store tx.new.conn.now)
        result }
    ensures call { InsideOf S.Store tx.old.conn tx.new.conn result (λ _. GoesOn) }
{
    table_make(tx, first)?;
    table_make(tx, second)?;
    table_make(tx, third)
}

/// Makes the tables that are absent. No row of a table that is there changes.
///
/// A table or a view that has one of these names is taken for it, whatever its columns are. It is refused where an index has one.
pub fn make_tables<S: Alter>(tx: &mut Transaction<'_, S>) -> Result<(), Error>
    ensures made { DoneUnder no_schema (state S.Store tx.old.conn.now)
        (state S.Store tx.new.conn.now) result (λ _ b. IsEmptyStore b) }
    ensures there { DoneUnder store_schema (state S.Store tx.old.conn.now)
        (state S.Store tx.new.conn.now) result IsUnchanged }
    ensures kept { KeepsAllTables (state S.Store tx.old.conn.now) (state S.Store tx.new.conn.now)
        result }
    ensures call { InsideOf S.Store tx.old.conn tx.new.conn result (λ _. GoesOn) }
{
    tables_make(
        tx,
        StoreTable::Meta,
        StoreTable::Databases,
        StoreTable::Records,
    )?;
    tables_make(
        tx,
        StoreTable::Postings,
        StoreTable::Blocks,
        StoreTable::Dict,
    )?;
    Ok(())
}
