//! A query outside a transaction.

ghost use Rattle.sqlite.specs.Held.{state};
ghost use Rattle.sqlite.specs.Values.{bound};
ghost use Rattle.zeb_register.specs.Queries.{IsSilent, LooksUp};

use sqlite::types::ValueRef;
use sqlite::{Alter, Connection, Error, Row};

/// The rows that a query shows outside a transaction. Nothing changes, whatever it answers.
pub fn look_up<S: Alter>(
    conn: &mut Connection<S>,
    sql: &str,
    params: &[ValueRef<'_>],
) -> Result<Vec<Row>, Error>
    requires { IsSilent sql.now }
    ensures { LooksUp (λ rows. rows.items) sql.now (bound params.now)
        (state S.Store conn.old) (state S.Store conn.new) result }
{
    // Nobody reads it. Its contract says that what is seen outside a transaction is what was committed.
    let _idle = conn.is_autocommit();
    conn.query_all(sql, params)
}
