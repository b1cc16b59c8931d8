//! Whole tables beside what is expected of them, where registers are kept in leaves.

ghost use Rattle.std.specs.Prelude.{◌≡◌, ◌↔◌, length, IsTrue};
ghost use Rattle.sqlite.specs.State.{IsUnchanged};
ghost use Rattle.zeb_leaves.specs.PrivateAgreeing.{EachHasLeaves, IsEmptyBeside, OthersAreEmpty, PostingsRise};
ghost use Rattle.zeb_register.specs.Agreeing.{LacksPostingsAndDict};
ghost use Rattle.zeb_register.specs.Connections.{AsksOf, AsksWhetherOf, IsReasonedErrorOf, ReadingOf, TellsOf};
ghost use Rattle.zeb_register.specs.Expected.{AreExpected, IsOrdered};
ghost use Rattle.zeb_register.specs.Formats.{packed_leaves};

use crate::agreeing::leaves_hold;
use sqlite::{Alter, Connection, Error};
use std::alloc::{AllocError, Global};
use zeb_register::for_layouts::{
    ends_in_blocks, is_listed, lists_beside, next_in_blocks, postings_and_dict_lack_rows,
};
use zeb_register::{Expected, ExpectedDatabase, ListedDatabase};

/// Whether the tables hold just what is expected, in leaves. Unreadable rows are not expected. It changes nothing.
///
/// A leaf without entries says nothing, so that it may stand also under an id that no database has.
pub fn leaves_agree<S: Alter>(
    alloc: Global,
    conn: &mut Connection<S>,
    expected: &Expected,
) -> Result<bool, Error>
    ensures { AsksWhetherOf S.Store conn.old conn.new
        (λ trees. AreExpected packed_leaves trees expected.now) (IsOrdered expected.now) result }
{
    let Some(listed) = lists_beside(alloc, conn, expected)? else {
        return Ok(false);
    };
    registers_agree(alloc, conn, &listed, &expected.databases)
}

/// Whether the tables of the registers have just the expected leaves.
fn registers_agree<S: Alter>(
    alloc: Global,
    conn: &mut Connection<S>,
    listed: &[ListedDatabase],
    expected: &[ExpectedDatabase],
) -> Result<bool, Error>
    requires { length listed.now ≡ length expected.now }
    ensures { AsksWhetherOf S.Store conn.old conn.new (λ trees. LacksPostingsAndDict trees
        × (OthersAreEmpty listed.now trees × EachHasLeaves listed.now expected.now trees))
        (PostingsRise expected.now) result }
{
    if !postings_and_dict_lack_rows(conn)? {
        return Ok(false);
    }
    ids_agree(alloc, conn, listed, expected)
}

/// Whether the leaves under the id of each database hold what is expected of it, and those under any other id nothing.
fn ids_agree<S: Alter>(
    alloc: Global,
    conn: &mut Connection<S>,
    listed: &[ListedDatabase],
    expected: &[ExpectedDatabase],
) -> Result<bool, Error>
    requires { length listed.now ≡ length expected.now }
    ensures { AsksWhetherOf S.Store conn.old conn.new (λ trees. OthersAreEmpty listed.now trees
        × EachHasLeaves listed.now expected.now trees) (PostingsRise expected.now) result }
{
    if !others_are_empty(alloc, conn, listed)? {
        return Ok(false);
    }
    for (at, database) in expected.iter().enumerate() {
        if !leaves_hold(alloc, conn, listed[at].id.column(), &database.postings)? {
            return Ok(false);
        }
    }
    Ok(true)
}

/// Whether the leaves under each id that none of these databases has hold nothing.
fn others_are_empty<S: Alter>(
    alloc: Global,
    conn: &mut Connection<S>,
    listed: &[ListedDatabase],
) -> Result<bool, Error>
    ensures { AsksOf S.Store conn.old conn.new result (λ trees agree. IsTrue agree
        ↔ OthersAreEmpty listed.now trees) }
{
    let Some(ends) = ends_in_blocks(conn)? else {
        return Ok(true);
    };
    let mut id = ends.first;
    // Leaves may stand under any number of ids beside those of the databases.
    'ids: for _turn in 0..u64::MAX {
        if !is_empty_beside(alloc, conn, listed, id)? {
            return Ok(false);
        }
        if id >= ends.last {
            return Ok(true);
        }
        let Some(next) = next_in_blocks(conn, id + 1)? else {
            return Ok(true);
        };
        id = next;
    }
    // So many ids no store has.
    Err(Error::from(AllocError))
}

/// Whether the leaves under an id hold nothing, if none of these databases has it. An open connection stays as it is.
fn is_empty_beside<S: Alter>(
    alloc: Global,
    conn: &mut Connection<S>,
    listed: &[ListedDatabase],
    id: i64,
) -> Result<bool, Error>
    ensures call { ReadingOf S.Store conn.old conn.new result (λ _ old new. IsTrue old.is_open
        → IsUnchanged old new) }
    ensures value { TellsOf S.Store conn.old conn.new result (λ trees agree. IsTrue agree
        ↔ IsEmptyBeside listed.now trees id) }
    ensures refused { IsReasonedErrorOf S.Store conn.old conn.new result }
{
    if is_listed(listed, id) {
        return Ok(true);
    }
    leaves_hold(alloc, conn, id, &[])
}
