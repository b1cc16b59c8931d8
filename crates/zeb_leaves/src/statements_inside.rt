//! The statements that find a leaf inside a transaction, or its own key.

ghost use Rattle.sqlite.specs.Values.{bound};
ghost use Rattle.zeb_leaf_rows.specs.LeafRows.{IsLeafIn};
ghost use Rattle.zeb_leaf_rows.specs.PrivateLeafRows.{IsGreatest, IsOfTermBelow, IsOfTermsBelow};
ghost use Rattle.zeb_leaves.specs.PrivateLeafReads.{IsLeast, IsOfTermFrom, ShowsLast, TellsKey, TellsSome};
ghost use Rattle.zeb_leaves.specs.PrivateTermReads.{IsRowFrom};
ghost use Rattle.zeb_register.specs.Connections.{AsksInsideOf, InsideOf};
ghost use Rattle.zeb_register.specs.Queries.{IsSilent};

use sqlite::types::ValueRef;
use sqlite::{Alter, Error, Row, Transaction, params};
use zeb_leaf_rows::{ANY, OF_TERM, OF_TERMS_BELOW, last_row};
use zeb_register::RegisterOf;

// The table's index has a row's own key: these two statements are answered from there, and no leaf is read.
const OF_TERM_FROM: &str =
    "SELECT term, block FROM blocks WHERE db = ?1 AND idx = ?2 AND reg = ?3 AND term = ?4 AND block >= ?5 ORDER BY term, block LIMIT 1";

// A block below 0 is no block's number, and so its row is no leaf.
const OF_TERMS_FROM: &str =
    "SELECT term, block FROM blocks WHERE db = ?1 AND idx = ?2 AND reg = ?3 AND term >= ?4 AND block >= ?5 ORDER BY term, block LIMIT 1";

/// The last of the rows that a query shows inside a transaction. Nothing changes.
fn last_shown<S: Alter>(
    tx: &mut Transaction<'_, S>,
    sql: &str,
    params: &[ValueRef<'_>],
) -> Result<Option<Row>, Error>
    requires { IsSilent sql.now }
    ensures { InsideOf S.Store tx.old.conn tx.new.conn result
        (ShowsLast sql.now (bound params.now)) }
{
    let rows = tx.query_all(sql, params)?;
    Ok(last_row(rows))
}

/// The greatest leaf of the term whose own block is below `end`.
pub(crate) fn leaf_of_term_inside<S: Alter>(
    tx: &mut Transaction<'_, S>,
    at: RegisterOf,
    term: &str,
    end: i64,
) -> Result<Option<Row>, Error>
    ensures { AsksInsideOf S.Store tx.old.conn tx.new.conn result
        (λ trees. IsGreatest (IsOfTermBelow at term.now end trees)) }
{
    let db = at.db.column();
    let reg = u32::from(at.register.code());
    let least: u32 = 0;
    last_shown(tx, OF_TERM, params![db, at.index, reg, term, least, end])
}

/// The greatest leaf of the terms below this one.
pub(crate) fn leaf_of_terms_below_inside<S: Alter>(
    tx: &mut Transaction<'_, S>,
    at: RegisterOf,
    term: &str,
) -> Result<Option<Row>, Error>
    ensures { AsksInsideOf S.Store tx.old.conn tx.new.conn result
        (λ trees. IsGreatest (IsOfTermsBelow at term.now trees)) }
{
    let db = at.db.column();
    let reg = u32::from(at.register.code());
    let least: u32 = 0;
    last_shown(tx, OF_TERMS_BELOW, params![db, at.index, reg, term, least])
}

/// A row, where the register has a leaf.
pub(crate) fn some_row_inside<S: Alter>(
    tx: &mut Transaction<'_, S>,
    at: RegisterOf,
) -> Result<Option<Row>, Error>
    ensures { AsksInsideOf S.Store tx.old.conn tx.new.conn result
        (λ trees. TellsSome (IsLeafIn trees at)) }
{
    let db = at.db.column();
    let reg = u32::from(at.register.code());
    let least: u32 = 0;
    last_shown(tx, ANY, params![db, at.index, reg, least])
}

/// The own key of the least leaf of the term whose own block isn't below `first`.
pub(crate) fn key_of_term_from<S: Alter>(
    tx: &mut Transaction<'_, S>,
    at: RegisterOf,
    term: &str,
    first: i64,
) -> Result<Option<Row>, Error>
    ensures { AsksInsideOf S.Store tx.old.conn tx.new.conn result
        (λ trees. TellsKey (IsLeast (IsOfTermFrom at term.now first trees))) }
{
    let db = at.db.column();
    let reg = u32::from(at.register.code());
    last_shown(tx, OF_TERM_FROM, params![db, at.index, reg, term, first])
}

/// The own key of the least leaf of the terms that aren't below `first`.
pub(crate) fn key_of_terms_from<S: Alter>(
    tx: &mut Transaction<'_, S>,
    at: RegisterOf,
    first: &str,
) -> Result<Option<Row>, Error>
    ensures { AsksInsideOf S.Store tx.old.conn tx.new.conn result
        (λ trees. TellsKey (IsLeast (IsRowFrom at first.now trees))) }
{
    let db = at.db.column();
    let reg = u32::from(at.register.code());
    let least: u32 = 0;
    last_shown(tx, OF_TERMS_FROM, params![db, at.index, reg, first, least])
}
