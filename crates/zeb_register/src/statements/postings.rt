//! Statements on the table `postings`: a row for each posting.

ghost use Rattle.std.specs.Prelude.{IsUtf8, [], ◌∷◌, ◌++◌};
ghost use Rattle.sqlite.specs.declared.types.Value.TheVariants.{Text};
ghost use Rattle.zeb_register.specs.PrivateRowStatements.{ListsInside};
ghost use Rattle.zeb_register.specs.Store.{postings_tree, IsRest};
ghost use Rattle.zeb_register.specs.Connections.{AsksOf, InsideOf};
ghost use Rattle.zeb_register.specs.PrivateKeyColumns.{HasTermOf, numbered_columns, register_columns};
ghost use Rattle.zeb_register.specs.PrivateRowTerms.{ShowsNearest};
ghost use Rattle.zeb_register.specs.Terms.{Comes};
ghost use Rattle.zeb_register.specs.Sql.{IsListOf};

use crate::RegisterOf;
use crate::statements::keys::KeyOf;
use crate::statements::queries::look_up;
use sqlite::{Alter, Connection, Error, Row, Transaction, params};

const UNDER_TERM: &str =
    "SELECT sysno, seq, pos FROM postings WHERE db = ?1 AND idx = ?2 AND reg = ?3 AND term = ?4 ORDER BY sysno, seq, pos";

const UNDER_NUMBER: &str =
    "SELECT seq, pos FROM postings WHERE db = ?1 AND idx = ?2 AND reg = ?3 AND term = ?4 AND sysno = ?5 ORDER BY seq, pos";

const REGISTER: &str =
    "SELECT term, sysno, seq, pos FROM postings WHERE db = ?1 AND idx = ?2 AND reg = ?3 ORDER BY term, sysno, seq, pos";

pub(crate) const NOTHING: &str = "SELECT term FROM postings LIMIT 0";

const TERM_FROM: &str =
    "SELECT term FROM postings WHERE db = ?1 AND idx = ?2 AND reg = ?3 AND term >= ?4 ORDER BY term LIMIT 1";

const TERM_BEFORE: &str =
    "SELECT term FROM postings WHERE db = ?1 AND idx = ?2 AND reg = ?3 AND term < ?4 ORDER BY term DESC LIMIT 1";

/// Reads nothing. It is refused where the connection is closed.
pub(crate) fn nothing_of<S: Alter>(conn: &mut Connection<S>) -> Result<(), Error>
    ensures { AsksOf S.Store conn.old conn.new result (λ _ _. Unit {0}) }
{
    look_up(conn, NOTHING, &[])?;
    Ok(())
}

pub(crate) fn posting_rows<S: Alter>(
    conn: &mut Connection<S>,
    at: RegisterOf,
    term: &str,
) -> Result<Vec<Row>, Error>
    ensures { AsksOf S.Store conn.old conn.new result
        (λ trees rows. IsListOf (IsRest postings_tree (register_columns at ++ Text term.now ∷ [])
        trees) rows.items) }
{
    let db = at.db.column();
    let reg = u32::from(at.register.code());
    look_up(conn, UNDER_TERM, params![db, at.index, reg, term])
}

pub(crate) fn place_rows<S: Alter>(
    tx: &mut Transaction<'_, S>,
    at: KeyOf<'_>,
    number: i64,
) -> Result<Vec<Row>, Error>
    ensures call { InsideOf S.Store tx.old.conn tx.new.conn result
        (λ rows a b. ListsInside (IsRest postings_tree (numbered_columns at.entry number)) a b
        rows.items) }
    ensures text { IsUtf8 at.entry.key.now.term }
{
    let db = at.db.column();
    let reg = u32::from(at.key.register.code());
    let term = at.key.term.as_str();
    tx.query_all(UNDER_NUMBER, params![db, at.key.index, reg, term, number])
}

pub(crate) fn register_rows<S: Alter>(
    conn: &mut Connection<S>,
    at: RegisterOf,
) -> Result<Vec<Row>, Error>
    ensures { AsksOf S.Store conn.old conn.new result
        (λ trees rows. IsListOf (IsRest postings_tree (register_columns at) trees) rows.items) }
{
    let db = at.db.column();
    let reg = u32::from(at.register.code());
    look_up(conn, REGISTER, params![db, at.index, reg])
}

/// The least term of the register that is not below `start`.
pub(crate) fn rows_from<S: Alter>(
    conn: &mut Connection<S>,
    at: RegisterOf,
    start: &str,
) -> Result<Vec<Row>, Error>
    ensures { AsksOf S.Store conn.old conn.new result (λ trees rows. ShowsNearest
        (λ term. HasTermOf at trees term × ¬ Comes term start.now) Comes rows.items) }
{
    let db = at.db.column();
    let reg = u32::from(at.register.code());
    look_up(conn, TERM_FROM, params![db, at.index, reg, start])
}

/// The greatest term of the register that is below `start`.
pub(crate) fn rows_before<S: Alter>(
    conn: &mut Connection<S>,
    at: RegisterOf,
    start: &str,
) -> Result<Vec<Row>, Error>
    ensures { AsksOf S.Store conn.old conn.new result (λ trees rows. ShowsNearest
        (λ term. HasTermOf at trees term × Comes term start.now)
        (λ one other. Comes other one) rows.items) }
{
    let db = at.db.column();
    let reg = u32::from(at.register.code());
    look_up(conn, TERM_BEFORE, params![db, at.index, reg, start])
}
