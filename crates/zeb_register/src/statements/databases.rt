//! Statements on the table `databases`.

ghost use Rattle.zeb_register.specs.Store.{databases_tree};
ghost use Rattle.zeb_register.specs.PrivateRowStatements.{AddsDatabase, SetsLast, IsDatabaseRow, IsListedRow, ListsInside};
ghost use Rattle.zeb_register.specs.Calls.{Alters};
ghost use Rattle.zeb_register.specs.Connections.{AsksOf, InsideOf, IsReasonedErrorInsideOf, WritesOf};
ghost use Rattle.zeb_register.specs.Sql.{IsListOf};

use crate::statements::queries::look_up;
use crate::statements::writing::write;
use sqlite::{Alter, Connection, Error, Row, Transaction, params};

const BY_NAME: &str = "SELECT id, last FROM databases WHERE name = ?1";

const LISTED: &str = "SELECT name, id, last FROM databases ORDER BY name";

const ADD: &str = "INSERT INTO databases (name, last) VALUES (?1, ?2)";

const SET_LAST: &str = "UPDATE databases SET last = ?2 WHERE id = ?1";

pub(crate) fn database_rows<S: Alter>(
    conn: &mut Connection<S>,
    name: &str,
) -> Result<Vec<Row>, Error>
    ensures { AsksOf S.Store conn.old conn.new result
        (λ trees rows. IsListOf (IsDatabaseRow trees name.now) rows.items) }
{
    look_up(conn, BY_NAME, params![name])
}

pub(crate) fn database_rows_inside<S: Alter>(
    tx: &mut Transaction<'_, S>,
    name: &str,
) -> Result<Vec<Row>, Error>
    ensures call { InsideOf S.Store tx.old.conn tx.new.conn result
        (λ rows a b. ListsInside (λ trees. IsDatabaseRow trees name.now) a b rows.items) }
{
    tx.query_all(BY_NAME, params![name])
}

/// All databases, rising by the bytes of their names: the name, the id and the last number of each.
pub(crate) fn listed_rows<S: Alter>(conn: &mut Connection<S>) -> Result<Vec<Row>, Error>
    ensures { AsksOf S.Store conn.old conn.new result
        (λ trees rows. IsListOf (IsListedRow trees) rows.items) }
{
    look_up(conn, LISTED, &[])
}

pub(crate) fn listed_rows_inside<S: Alter>(tx: &mut Transaction<'_, S>) -> Result<Vec<Row>, Error>
    ensures call { InsideOf S.Store tx.old.conn tx.new.conn result
        (λ rows a b. ListsInside IsListedRow a b rows.items) }
    ensures err { IsReasonedErrorInsideOf S.Store tx.old.conn tx.new.conn result }
{
    tx.query_all(LISTED, &[])
}

pub(crate) fn database_add<S: Alter>(
    tx: &mut Transaction<'_, S>,
    name: &str,
    last: i64,
) -> Result<(), Error>
    ensures call { InsideOf S.Store tx.old.conn tx.new.conn result
        (λ _ a b. Alters databases_tree (AddsDatabase b.last_rowid name.now last) a b) }
{
    write(tx, ADD, params![name, last])
}

pub(crate) fn last_set<S: Alter>(
    tx: &mut Transaction<'_, S>,
    id: i64,
    last: i64,
) -> Result<(), Error>
    ensures call { WritesOf S.Store tx.old.conn tx.new.conn databases_tree (SetsLast id last)
        result }
{
    write(tx, SET_LAST, params![id, last])
}
