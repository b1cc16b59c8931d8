//! The leaves nearest to a text, so many at most.

ghost use Rattle.std.specs.Prelude.{◌<◌, ◌↔◌, IsTrue, length};
ghost use Rattle.zeb_leaf_rows.specs.PrivateLeafRows.{IsOfTermsBelow};
ghost use Rattle.zeb_leaves.specs.PrivateNearRows.{ListsBack, ListsFront};
ghost use Rattle.zeb_leaves.specs.PrivateTermReads.{IsRowFrom};
ghost use Rattle.zeb_register.specs.Connections.{AsksOf};

use sqlite::{Alter, Connection, Error, Row, params};
use zeb_register::RegisterOf;
use zeb_register::for_layouts::look_up;

// A block below 0 is no block's number, and so its row is no leaf.
const FIRST: &str =
    "SELECT term, block, data FROM blocks WHERE db = ?1 AND idx = ?2 AND reg = ?3 AND term >= ?4 AND block >= ?5 ORDER BY term, block LIMIT ?6";

const LAST: &str =
    "SELECT term, block, data FROM blocks WHERE db = ?1 AND idx = ?2 AND reg = ?3 AND term < ?4 AND block >= ?5 ORDER BY term DESC, block DESC LIMIT ?6";

/// The first leaves whose terms are not below `start`, at most `limit`, in their order.
pub(crate) fn first_rows<S: Alter>(
    conn: &mut Connection<S>,
    at: RegisterOf,
    start: &str,
    limit: u32,
) -> Result<Vec<Row>, Error>
    ensures { AsksOf S.Store conn.old conn.new result
        (λ trees rows. ListsFront limit (IsRowFrom at start.now trees) rows.items) }
{
    let db = at.db.column();
    let reg = u32::from(at.register.code());
    let least: u32 = 0;
    look_up(conn, FIRST, params![db, at.index, reg, start, least, limit])
}

/// The last leaves whose terms are below `start`, at most `limit`, the greatest first.
pub(crate) fn last_rows<S: Alter>(
    conn: &mut Connection<S>,
    at: RegisterOf,
    start: &str,
    limit: u32,
) -> Result<Vec<Row>, Error>
    ensures { AsksOf S.Store conn.old conn.new result
        (λ trees rows. ListsBack limit (IsOfTermsBelow at start.now trees) rows.items) }
{
    let db = at.db.column();
    let reg = u32::from(at.register.code());
    let least: u32 = 0;
    look_up(conn, LAST, params![db, at.index, reg, start, least, limit])
}

/// Whether fewer rows came than were asked for, so that there are no more.
pub(crate) fn are_all(rows: &[Row], limit: u32) -> bool
    ensures { IsTrue result ↔ (length rows.now < limit) }
{
    (rows.len() as u64) < u64::from(limit)
}
