//! The databases of the store.

ghost use Rattle.std.specs.Prelude.{◌≡◌, ◌≢◌, pos, map, IfOk, FitsSigned};
ghost use Rattle.std.specs.Int.{w64};
ghost use Rattle.sqlite.specs.Held.{state};
ghost use Rattle.zeb_register.specs.Store.{databases_tree, TakesDatabase};
ghost use Rattle.zeb_register.specs.Catalog.{IsDatabaseOf, AreCountedDatabases, PutsDatabase};
ghost use Rattle.zeb_register.specs.Catalog.{AreDatabases, AreReadableDatabases};
ghost use Rattle.zeb_register.specs.PrivateCatalog.{IsIdOf, listed_row};
ghost use Rattle.zeb_register.specs.PrivateRowPlaces.{first_three};
ghost use Rattle.zeb_register.specs.PrivateFirstRows.{AreShown, BeginsWithId, IsCountedRow, ShowsDatabase, ShowsFound, ShowsId};
ghost use Rattle.zeb_register.specs.PrivateRowStatements.{IsDatabaseShown};
ghost use Rattle.sqlite_rules.specs.Lists.{Has};
ghost use Rattle.zeb_register.specs.Calls.{GoesOn};
ghost use Rattle.zeb_register.specs.Answers.{IfDamaged};
ghost use Rattle.zeb_register.specs.Clauses.{IsOpenDamageInside};
ghost use Rattle.zeb_register.specs.Connections.{ChangesTableOf, InStoreOf, InsideOf, IsDueRefusalInsideOf, LooksInsideOf, LooksIntoOf, WritesOf};

use crate::statements::databases::{
    database_add, database_rows, database_rows_inside, last_set, listed_rows, listed_rows_inside,
};
use crate::statements::writing::write;
use crate::values::{read, read_integer, read_number, stored};
use crate::{RegFault, RowFault};
use sqlite::{Alter, Connection, Error, Row, Transaction, params};
use std::alloc::Global;

const TAKE: &str = "DELETE FROM databases WHERE id = ?1";

/// What the tables know a database by. It stays the same as long as the database is there.
#[derive(Clone, Copy, Debug, PartialEq, Eq)]
pub struct DatabaseId(i64);

/// A database: what the tables know it by, and the greatest system number that it has given, 0 before the first.
#[derive(Clone, Copy, Debug, PartialEq, Eq)]
pub struct Database {
    pub id: DatabaseId,
    pub last: u64,
}

/// A database of the list of all: what the tables know it by, its name, and the greatest system number that it has given.
#[derive(Debug, PartialEq, Eq, Drop)]
pub struct ListedDatabase {
    pub id: DatabaseId,
    pub name: String,
    pub last: u64,
}

impl DatabaseId {
    /// The number as a column stores it.
    pub fn column(self) -> i64
        ensures value { result ≡ self.0 }
        ensures fits { FitsSigned w64 result }
    {
        self.0
    }
}

/// The database of this name, or `None`. Names are compared byte by byte.
///
/// `Damaged` where its last number is below 0. It changes nothing.
pub fn database_of<S: Alter>(
    conn: &mut Connection<S>,
    name: &str,
) -> Result<Option<Database>, RegFault>
    ensures { LooksIntoOf S.Store conn.old conn.new result
        (λ trees. ¬ AreCountedDatabases trees name.now) (λ trees. IsDatabaseOf trees name.now) }
{
    let rows = database_rows(conn, name)?;
    Ok(first_database(&rows)?)
}

/// The database that the first row shows, or `None` where there is no row.
fn first_database(rows: &[Row]) -> Result<Option<Database>, RowFault>
    ensures ok { IfOk result (ShowsFound ShowsDatabase rows.now) }
    ensures honest { result ≡ Err RowFault.Damaged → ¬ AreShown IsCountedRow rows.now }
{
    match rows.first() {
        Some(row) => Ok(Some(counted_in(row)?)),
        None => Ok(None),
    }
}

/// The id and the last number of a database, as a row shows them.
fn counted_in(row: &Row) -> Result<Database, RowFault>
    ensures ok { IfOk result (ShowsDatabase row.now) }
    ensures honest { result ≡ Err RowFault.Damaged → ¬ IsCountedRow row.now }
{
    Ok(Database {
        id: DatabaseId(read_integer(row, 0)?),
        last: read_number(row, 1)?,
    })
}

/// All databases, rising by the bytes of their names.
///
/// `Damaged` where a last number is below 0 or a name is no UTF-8. It changes nothing.
pub fn databases<S: Alter>(
    alloc: Global,
    conn: &mut Connection<S>,
) -> Result<Vec<ListedDatabase>, RegFault>
    ensures { LooksIntoOf S.Store conn.old conn.new result
        (λ trees. ¬ AreReadableDatabases trees) (λ trees list. AreDatabases trees list.items) }
{
    let rows = listed_rows(conn)?;
    Ok(databases_in(alloc, &rows)?)
}

/// The same as [`databases`], inside a transaction.
pub fn databases_inside<S: Alter>(
    alloc: Global,
    tx: &mut Transaction<'_, S>,
) -> Result<Vec<ListedDatabase>, RegFault>
    ensures found { LooksInsideOf S.Store tx.old.conn tx.new.conn result
        (λ trees. IfDamaged (¬ AreReadableDatabases trees))
        (λ trees list. AreDatabases trees list.items) }
    ensures refused { IsDueRefusalInsideOf S.Store tx.old.conn tx.new.conn result }
{
    let rows = listed_rows_inside(tx)?;
    Ok(databases_in(alloc, &rows)?)
}

/// The databases that rows show.
pub(crate) fn databases_in(alloc: Global, rows: &[Row]) -> Result<Vec<ListedDatabase>, RowFault>
    ensures ok { IfOk result (λ list. map listed_row list.items ≡ map first_three rows.now) }
    ensures honest { result ≡ Err RowFault.Damaged
        → ¬ ((row : _) → Has rows.now row → IsDatabaseShown row) }
{
    let mut databases = Vec::new(alloc);
    for row in rows {
        databases.push(database_in(row)?)?;
    }
    Ok(databases)
}

/// The database that a row shows.
fn database_in(row: &Row) -> Result<ListedDatabase, RowFault>
    ensures ok { IfOk result (λ database. listed_row database ≡ first_three row.now) }
    ensures honest { result ≡ Err RowFault.Damaged → ¬ IsDatabaseShown row.now }
{
    Ok(ListedDatabase {
        name: read(row, 0)?,
        id: DatabaseId(read_integer(row, 1)?),
        last: read_number(row, 2)?,
    })
}

/// Sets the last number of the database of this name, which is made where it is absent, and answers what the tables know it by.
///
/// `Store` also where `last` is above `2^63 - 1`.
pub fn database_put<S: Alter>(
    tx: &mut Transaction<'_, S>,
    name: &str,
    last: u64,
) -> Result<DatabaseId, RegFault>
    ensures call { InsideOf S.Store tx.old.conn tx.new.conn result (λ _. GoesOn) }
    ensures put { ChangesTableOf S.Store tx.old.conn tx.new.conn databases_tree result
        (λ id. PutsDatabase id.0 name.now (pos last)) }
    ensures honest { InStoreOf S.Store tx.old.conn tx.new.conn
        (λ _. result ≢ Err RegFault.Damaged) }
    ensures opened { IsOpenDamageInside (state S.Store tx.old.conn.now)
        (state S.Store tx.new.conn.now) result }
{
    let last = stored(last)?;
    match id_inside(tx, name)? {
        Some(id) => {
            last_set(tx, id.column(), last)?;
            Ok(id)
        }
        None => {
            database_add(tx, name, last)?;
            Ok(DatabaseId(tx.last_insert_rowid()))
        }
    }
}

/// The id of the database of this name, or `None`, whatever its last number is.
fn id_inside<S: Alter>(
    tx: &mut Transaction<'_, S>,
    name: &str,
) -> Result<Option<DatabaseId>, RegFault>
    ensures found { LooksInsideOf S.Store tx.old.conn tx.new.conn result
        (λ _. IfDamaged ⊥) (λ trees. IsIdOf trees name.now) }
    ensures opened { IsOpenDamageInside (state S.Store tx.old.conn.now)
        (state S.Store tx.new.conn.now) result }
{
    let rows = database_rows_inside(tx, name)?;
    Ok(first_id(&rows)?)
}

/// The id with which the first row begins, or `None` where there is no row.
fn first_id(rows: &[Row]) -> Result<Option<DatabaseId>, RowFault>
    ensures ok { IfOk result (ShowsFound ShowsId rows.now) }
    ensures honest { result ≡ Err RowFault.Damaged → ¬ AreShown BeginsWithId rows.now }
{
    match rows.first() {
        Some(row) => Ok(Some(DatabaseId(read_integer(row, 0)?))),
        None => Ok(None),
    }
}

/// Takes the database out of the list of databases.
pub(crate) fn database_drop<S: Alter>(
    tx: &mut Transaction<'_, S>,
    db: DatabaseId,
) -> Result<(), Error>
    ensures call { WritesOf S.Store tx.old.conn tx.new.conn databases_tree (TakesDatabase db.0)
        result }
{
    let id = db.column();
    write(tx, TAKE, params![id])
}
