//! Statements that read the rows of a register's terms from one text to another.

ghost use Rattle.zeb_register.specs.PrivateBetweenRows.{IsRestBetween};
ghost use Rattle.zeb_register.specs.PrivateKeyColumns.{register_columns};
ghost use Rattle.zeb_register.specs.Store.{postings_tree};
ghost use Rattle.zeb_register.specs.Connections.{AsksOf};
ghost use Rattle.zeb_register.specs.Sql.{IsListOf};

use crate::RegisterOf;
use crate::statements::queries::look_up;
use sqlite::{Alter, Connection, Error, Row, params};

const BETWEEN: &str =
    "SELECT term, sysno, seq, pos FROM postings WHERE db = ?1 AND idx = ?2 AND reg = ?3 AND term >= ?4 AND term < ?5 ORDER BY term, sysno, seq, pos";

/// The postings of the terms that are not below `first` and are below `end`, each with its term.
pub(crate) fn posting_rows_between<S: Alter>(
    conn: &mut Connection<S>,
    at: RegisterOf,
    first: &str,
    end: &str,
) -> Result<Vec<Row>, Error>
    ensures { AsksOf S.Store conn.old conn.new result
        (λ trees rows. IsListOf (IsRestBetween postings_tree (register_columns at) first.now end.now
        trees) rows.items) }
{
    let db = at.db.column();
    let reg = u32::from(at.register.code());
    look_up(conn, BETWEEN, params![db, at.index, reg, first, end])
}
