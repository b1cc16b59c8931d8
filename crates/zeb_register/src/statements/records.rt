//! Statements on the table `records`.

ghost use Rattle.std.specs.Prelude.{◌≡◌, List, [], ◌∷◌, take};
ghost use Rattle.sqlite.specs.declared.types.Value.TheVariants.{Int};
ghost use Rattle.zeb_register.specs.Sql.{IsListOf};
ghost use Rattle.zeb_register.specs.Store.{records_tree, IsRest};
ghost use Rattle.zeb_register.specs.PrivateRowStatements.{IsElderRow, IsIdentRow, IsRestAtLeast, ListsInside, ShowsCount};
ghost use Rattle.zeb_register.specs.Connections.{AsksOf, InsideOf, IsReasonedErrorInsideOf};

use crate::statements::queries::look_up;
use sqlite::{Alter, Connection, Error, Row, Transaction, params};

const BY_IDENT: &str = "SELECT sysno, bytes FROM records WHERE db = ?1 AND ident = ?2";

const IDENT: &str = "SELECT ident FROM records WHERE db = ?1 AND sysno = ?2";

const ALL: &str = "SELECT sysno, ident, bytes FROM records WHERE db = ?1 ORDER BY sysno";

const COUNT: &str = "SELECT count(*) FROM records WHERE db = ?1";

pub(crate) const FIRST_FROM: &str =
    "SELECT sysno, ident, bytes FROM records WHERE db = ?1 AND sysno >= ?2 ORDER BY sysno LIMIT 1";

pub(crate) fn elder_rows<S: Alter>(
    tx: &mut Transaction<'_, S>,
    db: i64,
    ident: &str,
) -> Result<Vec<Row>, Error>
    ensures call { InsideOf S.Store tx.old.conn tx.new.conn result
        (λ rows a b. ListsInside (IsElderRow db ident.now) a b rows.items) }
    ensures err { IsReasonedErrorInsideOf S.Store tx.old.conn tx.new.conn result }
{
    tx.query_all(BY_IDENT, params![db, ident])
}

pub(crate) fn ident_rows<S: Alter>(
    conn: &mut Connection<S>,
    db: i64,
    sysno: i64,
) -> Result<Vec<Row>, Error>
    ensures { AsksOf S.Store conn.old conn.new result
        (λ trees rows. IsListOf (IsIdentRow db sysno trees) rows.items) }
{
    look_up(conn, IDENT, params![db, sysno])
}

pub(crate) fn record_rows<S: Alter>(conn: &mut Connection<S>, db: i64) -> Result<Vec<Row>, Error>
    ensures { AsksOf S.Store conn.old conn.new result
        (λ trees rows. IsListOf (IsRest records_tree (Int db ∷ []) trees) rows.items) }
{
    look_up(conn, ALL, params![db])
}

/// How many records a database has: one row, with one number.
pub(crate) fn count_rows<S: Alter>(conn: &mut Connection<S>, db: i64) -> Result<Vec<Row>, Error>
    ensures { AsksOf S.Store conn.old conn.new result
        (λ trees rows. ShowsCount db trees rows.items) }
{
    look_up(conn, COUNT, params![db])
}

/// The record with the least number that is not below `start`: at most one row.
pub(crate) fn rows_from<S: Alter>(
    conn: &mut Connection<S>,
    db: i64,
    start: i64,
) -> Result<Vec<Row>, Error>
    ensures { AsksOf S.Store conn.old conn.new result (λ trees rows. (all : List _)
        × IsListOf (IsRestAtLeast records_tree (Int db ∷ []) start trees) all
        × (rows.items ≡ take 1 all)) }
{
    look_up(conn, FIRST_FROM, params![db, start])
}
