//! Whole tables beside what is expected of them, one table after the other.

ghost use Rattle.std.specs.Prelude.{◌≡◌, ◌↔◌, length, MatchOption, IfSome, IsTrue, IfOk};
ghost use Rattle.std.specs.List.Sorted.{IsStrictlySortedBy};
ghost use Rattle.zeb_register.specs.Agreeing.{AreBeside, HasNames, KeepsExpectedTexts, LacksPostingsAndDict, ListsAgree, RecordsAgree};
ghost use Rattle.zeb_register.specs.Expected.{IsOrdered, name_order};
ghost use Rattle.zeb_register.specs.PrivateRowExpected.{AreInOrder, AsExpected, EachAsExpected, HoldsExpected, IsInOrder, LacksPacked};
ghost use Rattle.zeb_register.specs.Connections.{AsksOf, AsksWhetherOf};

use crate::belonging::belongs;
use crate::catalog::databases_in;
use crate::expected::{are_named, are_texts};
use crate::read_beside::rests_agree;
use crate::statements::databases::listed_rows;
use crate::statements::postings::nothing_of;
use crate::statements::texts::all_texts;
use crate::{DatabaseId, Expected, ExpectedDatabase, ListedDatabase, RowFault};
use sqlite::{Alter, Connection, Error};
use std::alloc::{AllocError, Global};

/// A table whose rows begin with the id of a database.
#[derive(Clone, Copy)]
pub(crate) enum Table {
    Records,
    Postings,
    Blocks,
    Dict,
}

/// The databases that are there, in the order of the expected ones; `None` where texts, databases or records are others than expected. It
/// changes nothing.
pub fn lists_beside<S: Alter>(
    alloc: Global,
    conn: &mut Connection<S>,
    expected: &Expected,
) -> Result<Option<Vec<ListedDatabase>>, Error>
    ensures asks { AsksOf S.Store conn.old conn.new result (λ trees found. IsOrdered expected.now
        → MatchOption found (¬ ListsAgree trees expected.now)
        (λ listed. AreBeside listed.items expected.now.databases.items trees
        × ListsAgree trees expected.now)) }
    ensures long { IfOk result (λ found. IfSome found
        (λ listed. length listed.items ≡ length expected.now.databases.items)) }
{
    if !texts_agree(conn, expected)? {
        return Ok(None);
    }
    records_beside(alloc, conn, &expected.databases)
}

/// The databases that are there; `None` where they or their records are others than expected.
fn records_beside<S: Alter>(
    alloc: Global,
    conn: &mut Connection<S>,
    expected: &[ExpectedDatabase],
) -> Result<Option<Vec<ListedDatabase>>, Error>
    ensures asks { AsksOf S.Store conn.old conn.new result
        (λ trees found. IsStrictlySortedBy name_order expected.now → AreInOrder expected.now
        → MatchOption found (¬ (HasNames trees expected.now × RecordsAgree expected.now trees))
        (λ listed. AreBeside listed.items expected.now trees × RecordsAgree expected.now trees)) }
    ensures long { IfOk result (λ found. IfSome found
        (λ listed. length listed.items ≡ length expected.now)) }
{
    let Some(listed) = databases_beside(alloc, conn, expected)? else {
        return Ok(None);
    };
    let agree = table_agrees(conn, Table::Records, &listed, expected)?;
    if agree { Ok(Some(listed)) } else { Ok(None) }
}

/// Whether the tables of the registers have just the expected rows, one for each posting, and the packed tables none.
pub(crate) fn rows_agree<S: Alter>(
    conn: &mut Connection<S>,
    listed: &[ListedDatabase],
    expected: &[ExpectedDatabase],
) -> Result<bool, Error>
    requires { length listed.now ≡ length expected.now }
    ensures { AsksWhetherOf S.Store conn.old conn.new
        (λ trees. HoldsExpected Table.Postings listed.now expected.now trees
        × LacksPacked trees) (AreInOrder expected.now) result }
{
    if !table_agrees(conn, Table::Postings, listed, expected)? {
        return Ok(false);
    }
    lacks_packed(conn)
}

/// Whether no packed table has a row.
fn lacks_packed<S: Alter>(conn: &mut Connection<S>) -> Result<bool, Error>
    ensures { AsksOf S.Store conn.old conn.new result (λ trees agree. IsTrue agree
        ↔ LacksPacked trees) }
{
    if !belongs(conn, Table::Blocks, &[])? {
        return Ok(false);
    }
    belongs(conn, Table::Dict, &[])
}

/// Whether `postings` and `dict` have no row, as where registers are kept in leaves. It changes nothing.
pub fn postings_and_dict_lack_rows<S: Alter>(conn: &mut Connection<S>) -> Result<bool, Error>
    ensures { AsksOf S.Store conn.old conn.new result (λ trees agree. IsTrue agree
        ↔ LacksPostingsAndDict trees) }
{
    if !belongs(conn, Table::Postings, &[])? {
        return Ok(false);
    }
    belongs(conn, Table::Dict, &[])
}

/// Whether `meta` has just the expected texts.
fn texts_agree<S: Alter>(conn: &mut Connection<S>, expected: &Expected) -> Result<bool, Error>
    ensures { AsksOf S.Store conn.old conn.new result (λ trees agree. IsTrue agree
        ↔ KeepsExpectedTexts trees expected.now) }
{
    let rows = all_texts(conn)?;
    Ok(are_texts(&rows, expected))
}

/// The databases that are there; `None` where their names or last numbers are others than expected, or a row is unreadable.
fn databases_beside<S: Alter>(
    alloc: Global,
    conn: &mut Connection<S>,
    expected: &[ExpectedDatabase],
) -> Result<Option<Vec<ListedDatabase>>, Error>
    ensures asks { AsksOf S.Store conn.old conn.new result
        (λ trees found. IsStrictlySortedBy name_order expected.now
        → MatchOption found (¬ HasNames trees expected.now)
        (λ listed. AreBeside listed.items expected.now trees)) }
    ensures long { IfOk result (λ found. IfSome found
        (λ listed. length listed.items ≡ length expected.now)) }
{
    let rows = listed_rows(conn)?;
    match databases_in(alloc, &rows) {
        Ok(listed) => {
            if are_named(&listed, expected) {
                Ok(Some(listed))
            } else {
                Ok(None)
            }
        }
        // An unreadable row is none that is expected.
        Err(RowFault::Damaged) => Ok(None),
        Err(RowFault::Memory) => Err(Error::from(AllocError)),
    }
}

/// Whether a table has just the expected rows of these databases.
pub(crate) fn table_agrees<S: Alter>(
    conn: &mut Connection<S>,
    table: Table,
    listed: &[ListedDatabase],
    expected: &[ExpectedDatabase],
) -> Result<bool, Error>
    requires { length listed.now ≡ length expected.now }
    ensures { AsksWhetherOf S.Store conn.old conn.new (HoldsExpected table listed.now expected.now)
        (AreInOrder expected.now) result }
{
    if !each_agrees(conn, table, listed, expected)? {
        return Ok(false);
    }
    belongs(conn, table, listed)
}

/// Whether a table has just the expected rows under the id of each of these databases.
fn each_agrees<S: Alter>(
    conn: &mut Connection<S>,
    table: Table,
    listed: &[ListedDatabase],
    expected: &[ExpectedDatabase],
) -> Result<bool, Error>
    requires { length listed.now ≡ length expected.now }
    ensures { AsksWhetherOf S.Store conn.old conn.new (EachAsExpected table listed.now expected.now)
        (AreInOrder expected.now) result }
{
    // A closed connection is refused also where no database is expected.
    nothing_of(conn)?;
    for (at, database) in expected.iter().enumerate() {
        if !database_agrees(conn, table, listed[at].id, database)? {
            return Ok(false);
        }
    }
    Ok(true)
}

/// Whether a table has just the expected rows of a database under this id.
fn database_agrees<S: Alter>(
    conn: &mut Connection<S>,
    table: Table,
    db: DatabaseId,
    database: &ExpectedDatabase,
) -> Result<bool, Error>
    ensures { AsksWhetherOf S.Store conn.old conn.new (AsExpected table db.0 database.now)
        (IsInOrder database.now) result }
{
    rests_agree(conn, table, db.column(), database)
}
