//! Statements that read the rows of a register's terms from one text to another.

ghost use Rattle.zeb_register.specs.PrivateBetweenRows.{IsRestBetween};
ghost use Rattle.zeb_register.specs.PrivateKeyColumns.{register_columns};
ghost use Rattle.zeb_register.specs.Store.{blocks_tree};
ghost use Rattle.zeb_register.specs.Connections.{AsksOf};
ghost use Rattle.zeb_register.specs.Sql.{IsListOf};

use sqlite::{Alter, Connection, Error, Row, params};
use zeb_register::RegisterOf;
use zeb_register::for_layouts::look_up;

/// The blocks of the terms that are not below `first` and are below `end`: the term, the number of the block, and its bytes.
pub(crate) fn block_rows_between<S: Alter>(
    conn: &mut Connection<S>,
    at: RegisterOf,
    first: &str,
    end: &str,
) -> Result<Vec<Row>, Error>
    ensures { AsksOf S.Store conn.old conn.new result
        (λ trees rows. IsListOf (IsRestBetween blocks_tree (register_columns at) first.now end.now
        trees) rows.items) }
{
    let db = at.db.column();
    let reg = u32::from(at.register.code());
    look_up(
        conn,
        "SELECT term, block, data FROM blocks WHERE db = ?1 AND idx = ?2 AND reg = ?3 AND term >= ?4 AND term < ?5 ORDER BY term, block",
        params![db, at.index, reg, first, end],
    )
}
