//! The statements that find the leaves of a register: one shows the block of some leaf, each other a leaf by its term, block and bytes.

ghost use Rattle.zeb_leaf_rows.specs.LeafRows.{IsInRegister, IsRowBetween, ShowsSome};
ghost use Rattle.zeb_leaf_rows.specs.PrivateLeafRows.{IsOfTermBelow, IsOfTermsBelow, ShowsGreatest};
ghost use Rattle.zeb_register.specs.Connections.{AsksOf};
ghost use Rattle.zeb_register.specs.Sql.{IsListOf};

use sqlite::{Alter, Connection, Error, Row, params};
use zeb_register::RegisterOf;
use zeb_register::for_layouts::look_up;

/// Shows the greatest leaf of a term whose own block is below an end. It is given a database's id, an index, a register's code, the term, 0
/// and the end. A block below 0 is no block's number, and so its row is no leaf.
pub const OF_TERM: &str =
    "SELECT term, block, data FROM blocks WHERE db = ?1 AND idx = ?2 AND reg = ?3 AND term = ?4 AND block >= ?5 AND block < ?6 ORDER BY term DESC, block DESC LIMIT 1";

/// Shows the greatest leaf of the terms below one. It is given a database's id, an index, a register's code, the term and 0.
pub const OF_TERMS_BELOW: &str =
    "SELECT term, block, data FROM blocks WHERE db = ?1 AND idx = ?2 AND reg = ?3 AND term < ?4 AND block >= ?5 ORDER BY term DESC, block DESC LIMIT 1";

const BETWEEN: &str =
    "SELECT term, block, data FROM blocks WHERE db = ?1 AND idx = ?2 AND reg = ?3 AND term >= ?4 AND term < ?5 AND block >= ?6 ORDER BY term, block";

/// Shows the block of some leaf, where a register has one. It is given a database's id, an index, a register's code and 0.
pub const ANY: &str =
    "SELECT block FROM blocks WHERE db = ?1 AND idx = ?2 AND reg = ?3 AND block >= ?4 LIMIT 1";

/// The greatest leaf of the term whose own block is below `end`.
pub(crate) fn row_of_term<S: Alter>(
    conn: &mut Connection<S>,
    at: RegisterOf,
    term: &str,
    end: i64,
) -> Result<Vec<Row>, Error>
    ensures { AsksOf S.Store conn.old conn.new result
        (λ trees rows. ShowsGreatest (IsOfTermBelow at term.now end trees) rows.items) }
{
    let db = at.db.column();
    let reg = u32::from(at.register.code());
    let least: u32 = 0;
    look_up(conn, OF_TERM, params![db, at.index, reg, term, least, end])
}

/// The greatest leaf of the terms below this one.
pub(crate) fn row_of_terms_below<S: Alter>(
    conn: &mut Connection<S>,
    at: RegisterOf,
    term: &str,
) -> Result<Vec<Row>, Error>
    ensures { AsksOf S.Store conn.old conn.new result
        (λ trees rows. ShowsGreatest (IsOfTermsBelow at term.now trees) rows.items) }
{
    let db = at.db.column();
    let reg = u32::from(at.register.code());
    let least: u32 = 0;
    look_up(
        conn,
        OF_TERMS_BELOW,
        params![db, at.index, reg, term, least],
    )
}

/// The leaves whose terms are not below `first` and are below `end`, in their order: each a row of a term, a block and bytes.
///
/// On a store's tables it fails only where the store may refuse, or for want of memory. It changes nothing.
pub fn rows_between<S: Alter>(
    conn: &mut Connection<S>,
    at: RegisterOf,
    first: &str,
    end: &str,
) -> Result<Vec<Row>, Error>
    ensures { AsksOf S.Store conn.old conn.new result
        (λ trees rows. IsListOf (IsRowBetween at first.now end.now trees) rows.items) }
{
    let db = at.db.column();
    let reg = u32::from(at.register.code());
    let least: u32 = 0;
    look_up(conn, BETWEEN, params![db, at.index, reg, first, end, least])
}

/// A row where the register has a leaf, and none where it has none.
///
/// On a store's tables it fails only where the store may refuse, or for want of memory. It changes nothing.
pub fn some_row<S: Alter>(conn: &mut Connection<S>, at: RegisterOf) -> Result<Vec<Row>, Error>
    ensures { AsksOf S.Store conn.old conn.new result
        (λ trees rows. ShowsSome (IsInRegister at trees) rows.items) }
{
    let db = at.db.column();
    let reg = u32::from(at.register.code());
    let least: u32 = 0;
    look_up(conn, ANY, params![db, at.index, reg, least])
}
