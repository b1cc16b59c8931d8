//! A statement that writes.

ghost use Rattle.std.specs.Prelude.{◌≡◌};
ghost use Rattle.sqlite.specs.Held.{state};
ghost use Rattle.sqlite.specs.Values.{bound};
ghost use Rattle.zeb_register.specs.PrivateClauses.{Ran};

use sqlite::types::ValueRef;
use sqlite::{Alter, Error, Transaction};

/// Carries the statement out, inside a transaction.
pub(crate) fn write<S: Alter>(
    tx: &mut Transaction<'_, S>,
    sql: &str,
    params: &[ValueRef<'_>],
) -> Result<(), Error>
    ensures same { tx.new.conn.ghost_name ≡ tx.old.conn.ghost_name }
    ensures ran { Ran sql.now (bound params.now) (state S.Store tx.old.conn.now)
        (state S.Store tx.new.conn.now) result }
{
    tx.execute(sql, params)?;
    Ok(())
}
