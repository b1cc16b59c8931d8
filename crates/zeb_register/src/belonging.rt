//! Whether each row of a table belongs to a database that is listed, by the ids with which rows begin: the least and the greatest
//! are looked up, and from one on the next.

ghost use Rattle.std.specs.Prelude.{◌≤ℤ◌, ◌≡◌, ◌↔◌, ◌∷◌, [], List, true, false, IsTrue, None, Some};
ghost use Rattle.sqlite.specs.Order.{Row as Columns};
ghost use Rattle.sqlite.specs.declared.types.Value.TheVariants.{Int};
ghost use Rattle.zeb_register.specs.Agreeing.{AreEnds, IsLeastFrom, IsListedId, Owns};
ghost use Rattle.zeb_register.specs.PrivateRowExpected.{BelongsTo, tree_of};
ghost use Rattle.zeb_register.specs.PrivateRowReads.{IsFirst};
ghost use Rattle.zeb_register.specs.Store.{blocks_tree};
ghost use Rattle.zeb_register.specs.Connections.{AsksOf};

use crate::ListedDatabase;
use crate::agreeing::Table;
use crate::statements::owners::{greatest_rows, least_rows, next_rows};
use sqlite::types::ValueRef;
use sqlite::{Alter, Connection, Error, Row};

/// The least and the greatest id with which a row of a table begins.
#[derive(Clone, Copy, Debug)]
pub struct Ends {
    pub first: i64,
    pub last: i64,
}

/// Whether each row of a table belongs to one of these databases.
pub(crate) fn belongs<S: Alter>(
    conn: &mut Connection<S>,
    table: Table,
    listed: &[ListedDatabase],
) -> Result<bool, Error>
    ensures { AsksOf S.Store conn.old conn.new result (λ trees agree. IsTrue agree
        ↔ BelongsTo (tree_of table) listed.now trees) }
{
    let Some(ends) = ends_of(conn, table)? else {
        return Ok(true);
    };
    let mut id = ends.first;
    // The ids rise, and each is one of the databases, so that there are no more of them than databases.
    'ids: for _turn in 0..=listed.len() {
        if !is_listed(listed, id) {
            return Ok(false);
        }
        if id >= ends.last {
            return Ok(true);
        }
        let Some(next) = next_id(conn, table, id + 1)? else {
            return Ok(true);
        };
        id = next;
    }
    Ok(false)
}

/// The least and the greatest id, or none where the table has no row.
fn ends_of<S: Alter>(conn: &mut Connection<S>, table: Table) -> Result<Option<Ends>, Error>
    ensures { AsksOf S.Store conn.old conn.new result (AreEnds (tree_of table)) }
{
    let Some(first) = least_id(conn, table)? else {
        return Ok(None);
    };
    let Some(last) = greatest_id(conn, table)? else {
        return Ok(None);
    };
    Ok(Some(Ends { first, last }))
}

/// The least id, or none where the table has no row.
fn least_id<S: Alter>(conn: &mut Connection<S>, table: Table) -> Result<Option<i64>, Error>
    ensures { AsksOf S.Store conn.old conn.new result (λ trees. IsFirst
        (λ id other. id ≤ℤ other) (Owns (tree_of table) trees)) }
{
    let rows = least_rows(conn, table)?;
    Ok(id_of(&rows))
}

/// The greatest id, or none where the table has no row.
fn greatest_id<S: Alter>(conn: &mut Connection<S>, table: Table) -> Result<Option<i64>, Error>
    ensures { AsksOf S.Store conn.old conn.new result (λ trees. IsFirst
        (λ id other. other ≤ℤ id) (Owns (tree_of table) trees)) }
{
    let rows = greatest_rows(conn, table)?;
    Ok(id_of(&rows))
}

/// The least id from a start on, if there is one.
fn next_id<S: Alter>(
    conn: &mut Connection<S>,
    table: Table,
    start: i64,
) -> Result<Option<i64>, Error>
    ensures { AsksOf S.Store conn.old conn.new result
        (λ trees. IsLeastFrom (Owns (tree_of table) trees) start) }
{
    let rows = next_rows(conn, table, start)?;
    Ok(id_of(&rows))
}

/// The least and the greatest id of a database with which a row of `blocks` begins, or none where it has no row. It changes nothing.
pub fn ends_in_blocks<S: Alter>(conn: &mut Connection<S>) -> Result<Option<Ends>, Error>
    ensures { AsksOf S.Store conn.old conn.new result (AreEnds blocks_tree) }
{
    ends_of(conn, Table::Blocks)
}

/// The least id of a database from a start on with which a row of `blocks` begins, if one does. It changes nothing.
pub fn next_in_blocks<S: Alter>(conn: &mut Connection<S>, start: i64) -> Result<Option<i64>, Error>
    ensures { AsksOf S.Store conn.old conn.new result
        (λ trees. IsLeastFrom (Owns blocks_tree trees) start) }
{
    next_id(conn, Table::Blocks, start)
}

/// The id that the first row shows.
fn id_of(rows: &[Row]) -> Option<i64>
    ensures none { rows.now ≡ [] → result ≡ None }
    ensures some { (id : _) (more : List Columns) → rows.now ≡ (Int id ∷ []) ∷ more
        → result ≡ Some id }
{
    match rows.first()?.get_ref(0) {
        Ok(ValueRef::Int(id)) => Some(id),
        _ => None,
    }
}

/// Whether one of these databases has the id.
pub fn is_listed(listed: &[ListedDatabase], id: i64) -> bool
    ensures same { result ≡ true → IsListedId listed.now id }
    ensures other { result ≡ false → ¬ IsListedId listed.now id }
{
    for database in listed {
        if database.id.column() == id {
            return true;
        }
    }
    false
}
