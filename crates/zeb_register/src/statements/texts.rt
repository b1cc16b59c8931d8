//! Statements on the table `meta`: texts, each under a name.

ghost use Rattle.zeb_register.specs.Sql.{HasRow, IsListOf};
ghost use Rattle.zeb_register.specs.Store.{meta_tree};
ghost use Rattle.zeb_register.specs.PrivateRowStatements.{IsValueRow};
ghost use Rattle.zeb_register.specs.Connections.{AsksOf};

use crate::statements::queries::look_up;
use sqlite::{Alter, Connection, Error, Row, Transaction, params};

const VALUE: &str = "SELECT value FROM meta WHERE name = ?1";

const ALL_TEXTS: &str = "SELECT name, value FROM meta ORDER BY name";

pub(crate) fn text_rows<S: Alter>(conn: &mut Connection<S>, name: &str) -> Result<Vec<Row>, Error>
    ensures { AsksOf S.Store conn.old conn.new result
        (λ trees rows. IsListOf (IsValueRow trees name.now) rows.items) }
{
    look_up(conn, VALUE, params![name])
}

/// All texts, by their names: the name and the text of each.
pub(crate) fn all_texts<S: Alter>(conn: &mut Connection<S>) -> Result<Vec<Row>, Error>
    ensures { AsksOf S.Store conn.old conn.new result
        (λ trees rows. IsListOf (HasRow trees meta_tree) rows.items) }
{
    look_up(conn, ALL_TEXTS, &[])
}
