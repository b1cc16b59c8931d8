//! The leaf that covers a block of a term.

ghost use Rattle.std.specs.Prelude.{◌≡◌, ◌<◌, ◌^◌, None};
ghost use Rattle.zeb_register.specs.Covering.{leaf_key};
ghost use Rattle.zeb_leaf_rows.specs.LeafRows.{IsLastOf, IsLeafAt, IsLeafIn, IsUncovered};
ghost use Rattle.zeb_leaf_rows.specs.PrivateLeafRows.{IsCovering, IsGreatest, IsOfTermBelow, IsOfTermsBelow};
ghost use Rattle.zeb_register.specs.Connections.{AsksOf, LooksIntoOf};

use crate::statements::{row_of_term, row_of_terms_below, some_row};
use sqlite::{Alter, Connection, Error, Row};
use zeb_register::{RegFault, RegisterOf};

/// The last of the rows; `None` where there is none.
pub fn last_row(rows: Vec<Row>) -> Option<Row>
    ensures { IsLastOf rows.items result }
{
    let mut rows = rows;
    rows.pop()
}

/// The greatest leaf of the term whose own block is below `end`.
fn leaf_of_term<S: Alter>(
    conn: &mut Connection<S>,
    at: RegisterOf,
    term: &str,
    end: i64,
) -> Result<Option<Row>, Error>
    ensures { AsksOf S.Store conn.old conn.new result
        (λ trees found. IsGreatest (IsOfTermBelow at term.now end trees) found) }
{
    let rows = row_of_term(conn, at, term, end)?;
    Ok(last_row(rows))
}

/// The greatest leaf of the terms below this one.
pub(crate) fn leaf_of_terms_below<S: Alter>(
    conn: &mut Connection<S>,
    at: RegisterOf,
    term: &str,
) -> Result<Option<Row>, Error>
    ensures { AsksOf S.Store conn.old conn.new result
        (λ trees found. IsGreatest (IsOfTermsBelow at term.now trees) found) }
{
    let rows = row_of_terms_below(conn, at, term)?;
    Ok(last_row(rows))
}

/// The leaf that covers a block of a term: the greatest one of the register that isn't above it. `None` where each leaf is above it, or
/// there is none.
fn covering_leaf<S: Alter>(
    conn: &mut Connection<S>,
    at: RegisterOf,
    term: &str,
    block: u64,
) -> Result<Option<Row>, Error>
    requires { block < 2 ^ 56 }
    ensures { AsksOf S.Store conn.old conn.new result
        (λ trees found. IsCovering (IsLeafIn trees at) (leaf_key term.now block) found) }
{
    let end = block as i64 + 1;
    match leaf_of_term(conn, at, term, end)? {
        Some(leaf) => Ok(Some(leaf)),
        None => leaf_of_terms_below(conn, at, term),
    }
}

/// No leaf. `Damaged` where the register has one.
///
/// On a store's tables `Store` is answered only where the store may refuse, and `Memory` for want of memory. It changes nothing.
pub fn no_leaf<S: Alter>(conn: &mut Connection<S>, at: RegisterOf) -> Result<Option<Row>, RegFault>
    ensures { LooksIntoOf S.Store conn.old conn.new result (λ trees. (leaf : _)
        × IsLeafIn trees at leaf) (λ trees found. (found ≡ None) × ((leaf : _)
        → ¬ IsLeafIn trees at leaf)) }
{
    let rows = some_row(conn, at)?;
    if rows.is_empty() {
        return Ok(None);
    }
    Err(RegFault::Damaged)
}

/// The leaf that covers a block of a term; `None` where the register has no leaf. `Damaged` just where it has one, and none covers it.
///
/// On a store's tables `Store` is answered only where the store may refuse, and `Memory` for want of memory. It changes nothing.
pub fn leaf_at<S: Alter>(
    conn: &mut Connection<S>,
    at: RegisterOf,
    term: &str,
    block: u64,
) -> Result<Option<Row>, RegFault>
    requires { block < 2 ^ 56 }
    ensures { LooksIntoOf S.Store conn.old conn.new result
        (λ trees. IsUncovered (IsLeafIn trees at) (leaf_key term.now block))
        (λ trees found. IsLeafAt (IsLeafIn trees at) (leaf_key term.now block) found) }
{
    match covering_leaf(conn, at, term, block)? {
        Some(leaf) => Ok(Some(leaf)),
        None => no_leaf(conn, at),
    }
}
