//! The leaves that cover the blocks of all terms from a text on.

ghost use Rattle.std.specs.Prelude.{◌≡◌, ◌∷◌, List};
ghost use Rattle.zeb_register.specs.Covering.{leaf_key};
ghost use Rattle.zeb_leaf_rows.specs.LeafRows.{IsLeafIn, IsUncovered};
ghost use Rattle.zeb_leaves.specs.PrivateTermReads.{AreLeavesFrom, IsRowFrom};
ghost use Rattle.zeb_register.specs.Connections.{AsksOf, LooksIntoOf};
ghost use Rattle.zeb_register.specs.Sql.{IsListOf};

use sqlite::{Alter, Connection, Error, Row, params};
use std::alloc::Global;
use zeb_leaf_rows::leaf_at;
use zeb_register::for_layouts::look_up;
use zeb_register::{RegFault, RegisterOf};

// A block below 0 is no block's number, and so its row is no leaf.
const FROM: &str =
    "SELECT term, block, data FROM blocks WHERE db = ?1 AND idx = ?2 AND reg = ?3 AND term >= ?4 AND block >= ?5 ORDER BY term, block";

/// The leaves whose terms are not below `first`, in their order.
fn rows_from<S: Alter>(
    conn: &mut Connection<S>,
    at: RegisterOf,
    first: &str,
) -> Result<Vec<Row>, Error>
    ensures { AsksOf S.Store conn.old conn.new result
        (λ trees rows. IsListOf (IsRowFrom at first.now trees) rows.items) }
{
    let db = at.db.column();
    let reg = u32::from(at.register.code());
    let least: u32 = 0;
    look_up(conn, FROM, params![db, at.index, reg, first, least])
}

/// A leaf, and behind it the rows of the terms from the first text on.
fn rows_behind<S: Alter>(
    conn: &mut Connection<S>,
    at: RegisterOf,
    first: &str,
    leaf: Row,
) -> Result<Vec<Row>, RegFault>
    ensures { LooksIntoOf S.Store conn.old conn.new result (λ _. ⊥) (λ trees rows. (behind : List _)
        × (rows.items ≡ leaf ∷ behind) × IsListOf (IsRowFrom at first.now trees) behind) }
{
    let mut rows = rows_from(conn, at, first)?;
    rows.insert(0, leaf)?;
    Ok(rows)
}

/// The leaves that cover the blocks of the terms from the first text on: none where the register has none. The first may stand there
/// twice. `Damaged` just where it has one, and none covers the first text's first block.
pub(crate) fn leaves_from<S: Alter>(
    alloc: Global,
    conn: &mut Connection<S>,
    at: RegisterOf,
    first: &str,
) -> Result<Vec<Row>, RegFault>
    ensures { LooksIntoOf S.Store conn.old conn.new result
        (λ trees. IsUncovered (IsLeafIn trees at) (leaf_key first.now 0))
        (λ trees rows. AreLeavesFrom (IsLeafIn trees at) first.now rows.items) }
{
    match leaf_at(conn, at, first, 0)? {
        Some(leaf) => rows_behind(conn, at, first, leaf),
        None => Ok(Vec::new(alloc)),
    }
}
