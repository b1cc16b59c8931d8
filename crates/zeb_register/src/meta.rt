//! Texts that the store keeps of itself, each under a name.

ghost use Rattle.std.specs.Prelude.{◌≡◌, IfOk};
ghost use Rattle.zeb_register.specs.Sql.{Replaces};
ghost use Rattle.zeb_register.specs.Store.{meta_tree, entry, IsEntryOf, IsValueOf, AreReadableTexts};
ghost use Rattle.zeb_register.specs.PrivateFirstRows.{AreShown, IsTextShown, ShowsFound, ShowsText};
ghost use Rattle.zeb_register.specs.Connections.{LooksIntoOf, WritesOf};

use crate::statements::texts::text_rows;
use crate::statements::writing::write;
use crate::values::read;
use crate::{RegFault, RowFault};
use sqlite::{Alter, Connection, Error, Row, Transaction, params};

const PUT: &str = "INSERT OR REPLACE INTO meta VALUES (?1, ?2)";

/// The text that is kept under a name, or `None`.
///
/// `Damaged` where it is no UTF-8. It changes nothing.
pub fn meta_of<S: Alter>(conn: &mut Connection<S>, name: &str) -> Result<Option<String>, RegFault>
    ensures { LooksIntoOf S.Store conn.old conn.new result
        (λ trees. ¬ AreReadableTexts trees name.now) (λ trees. IsValueOf trees name.now) }
{
    let rows = text_rows(conn, name)?;
    Ok(first_text(&rows)?)
}

/// The text that the first row shows, or `None` where there is no row.
pub(crate) fn first_text(rows: &[Row]) -> Result<Option<String>, RowFault>
    ensures ok { IfOk result (ShowsFound ShowsText rows.now) }
    ensures honest { result ≡ Err RowFault.Damaged → ¬ AreShown IsTextShown rows.now }
{
    match rows.first() {
        Some(row) => Ok(Some(read(row, 0)?)),
        None => Ok(None),
    }
}

/// Keeps a text under a name, in place of the one that was there.
pub fn meta_put<S: Alter>(tx: &mut Transaction<'_, S>, name: &str, value: &str) -> Result<(), Error>
    ensures call { WritesOf S.Store tx.old.conn tx.new.conn meta_tree
        (Replaces (IsEntryOf name.now) (entry name.now value.now)) result }
{
    write(tx, PUT, params![name, value])
}
