//! Statements on the tables `blocks` and `dict`, which hold packed registers.

ghost use Rattle.std.specs.Prelude.{[], ◌∷◌, ◌++◌};
ghost use Rattle.sqlite.specs.declared.types.Value.TheVariants.{Text};
ghost use Rattle.zeb_register.specs.Store.{blocks_tree, dict_tree, IsRest};
ghost use Rattle.zeb_register.specs.PrivateKeyColumns.{register_columns};
ghost use Rattle.zeb_packed.specs.PrivatePackedRows.{IsRestBefore, IsRestFrom, ListsFirst, ListsLast};
ghost use Rattle.zeb_register.specs.Connections.{AsksOf};
ghost use Rattle.zeb_register.specs.Sql.{IsListOf};

use sqlite::{Alter, Connection, Error, Row, params};
use zeb_register::RegisterOf;
use zeb_register::for_layouts::look_up;

/// The first of a register's terms that are not below a text, so many at most.
pub(crate) const TERMS_FROM: &str =
    "SELECT term, records FROM dict WHERE db = ?1 AND idx = ?2 AND reg = ?3 AND term >= ?4 ORDER BY term LIMIT ?5";

/// The blocks of a key: the number of each, and its bytes.
pub(crate) fn block_rows<S: Alter>(
    conn: &mut Connection<S>,
    at: RegisterOf,
    term: &str,
) -> Result<Vec<Row>, Error>
    ensures { AsksOf S.Store conn.old conn.new result
        (λ trees rows. IsListOf (IsRest blocks_tree (register_columns at ++ Text term.now ∷ [])
        trees) rows.items) }
{
    let db = at.db.column();
    let reg = u32::from(at.register.code());
    look_up(
        conn,
        "SELECT block, data FROM blocks WHERE db = ?1 AND idx = ?2 AND reg = ?3 AND term = ?4 ORDER BY block",
        params![db, at.index, reg, term],
    )
}

/// The terms of a register, each with the number of its records.
pub(crate) fn dict_rows<S: Alter>(
    conn: &mut Connection<S>,
    at: RegisterOf,
) -> Result<Vec<Row>, Error>
    ensures { AsksOf S.Store conn.old conn.new result
        (λ trees rows. IsListOf (IsRest dict_tree (register_columns at) trees) rows.items) }
{
    let db = at.db.column();
    let reg = u32::from(at.register.code());
    look_up(
        conn,
        "SELECT term, records FROM dict WHERE db = ?1 AND idx = ?2 AND reg = ?3 ORDER BY term",
        params![db, at.index, reg],
    )
}

/// The first of the terms that are not below `start`, with the numbers of their records: at most `limit`, or all where that is below 0.
pub(crate) fn dict_rows_from<S: Alter>(
    conn: &mut Connection<S>,
    at: RegisterOf,
    start: &str,
    limit: i64,
) -> Result<Vec<Row>, Error>
    ensures { AsksOf S.Store conn.old conn.new result (λ trees rows. ListsFirst limit
        (IsRestFrom dict_tree (register_columns at) start.now trees) rows.items) }
{
    let db = at.db.column();
    let reg = u32::from(at.register.code());
    look_up(conn, TERMS_FROM, params![db, at.index, reg, start, limit])
}

/// The last of the terms that are below `start`, the last first, with the numbers of their records: at most `limit`, or all where
/// that is below 0.
pub(crate) fn dict_rows_before<S: Alter>(
    conn: &mut Connection<S>,
    at: RegisterOf,
    start: &str,
    limit: i64,
) -> Result<Vec<Row>, Error>
    ensures { AsksOf S.Store conn.old conn.new result (λ trees rows. ListsLast limit
        (IsRestBefore dict_tree (register_columns at) start.now trees) rows.items) }
{
    let db = at.db.column();
    let reg = u32::from(at.register.code());
    look_up(
        conn,
        "SELECT term, records FROM dict WHERE db = ?1 AND idx = ?2 AND reg = ?3 AND term < ?4 ORDER BY term DESC LIMIT ?5",
        params![db, at.index, reg, start, limit],
    )
}
