//! Statements on the ids of databases with which the rows of a table begin. Each asks for one row, so that no row is read in turn.

ghost use Rattle.std.specs.Prelude.{◌≡◌, ◌≤ℤ◌};
ghost use Rattle.zeb_register.specs.Agreeing.{Owns};
ghost use Rattle.zeb_register.specs.PrivateRowExpected.{tree_of};
ghost use Rattle.zeb_register.specs.PrivateRowReads.{ShowsFirst, greatest_text, least_text, next_text};
ghost use Rattle.zeb_register.specs.Connections.{AsksOf};

use crate::agreeing::Table;
use crate::statements::queries::look_up;
use sqlite::{Alter, Connection, Error, Row, params};

const LEAST_RECORDS: &str = "SELECT db FROM records ORDER BY db LIMIT 1";

const LEAST_POSTINGS: &str = "SELECT db FROM postings ORDER BY db LIMIT 1";

const LEAST_BLOCKS: &str = "SELECT db FROM blocks ORDER BY db LIMIT 1";

const LEAST_DICT: &str = "SELECT db FROM dict ORDER BY db LIMIT 1";

const GREATEST_RECORDS: &str = "SELECT db FROM records ORDER BY db DESC LIMIT 1";

const GREATEST_POSTINGS: &str = "SELECT db FROM postings ORDER BY db DESC LIMIT 1";

const GREATEST_BLOCKS: &str = "SELECT db FROM blocks ORDER BY db DESC LIMIT 1";

const GREATEST_DICT: &str = "SELECT db FROM dict ORDER BY db DESC LIMIT 1";

const NEXT_RECORDS: &str = "SELECT db FROM records WHERE db >= ?1 ORDER BY db LIMIT 1";

const NEXT_POSTINGS: &str = "SELECT db FROM postings WHERE db >= ?1 ORDER BY db LIMIT 1";

const NEXT_BLOCKS: &str = "SELECT db FROM blocks WHERE db >= ?1 ORDER BY db LIMIT 1";

const NEXT_DICT: &str = "SELECT db FROM dict WHERE db >= ?1 ORDER BY db LIMIT 1";

/// The least id with which a row of the table begins: at most one row.
pub(crate) fn least_rows<S: Alter>(
    conn: &mut Connection<S>,
    table: Table,
) -> Result<Vec<Row>, Error>
    ensures { AsksOf S.Store conn.old conn.new result (λ trees rows. ShowsFirst
        (λ id other. id ≤ℤ other) (Owns (tree_of table) trees) rows.items) }
{
    look_up(conn, least_text(table), &[])
}

/// The greatest id with which a row of the table begins: at most one row.
pub(crate) fn greatest_rows<S: Alter>(
    conn: &mut Connection<S>,
    table: Table,
) -> Result<Vec<Row>, Error>
    ensures { AsksOf S.Store conn.old conn.new result (λ trees rows. ShowsFirst
        (λ id other. other ≤ℤ id) (Owns (tree_of table) trees) rows.items) }
{
    look_up(conn, greatest_text(table), &[])
}

/// The least id from `start` on with which a row of the table begins: at most one row.
pub(crate) fn next_rows<S: Alter>(
    conn: &mut Connection<S>,
    table: Table,
    start: i64,
) -> Result<Vec<Row>, Error>
    ensures { AsksOf S.Store conn.old conn.new result (λ trees rows. ShowsFirst
        (λ id other. id ≤ℤ other) (λ id. Owns (tree_of table) trees id
        × (start ≤ℤ id)) rows.items) }
{
    look_up(conn, next_text(table), params![start])
}

fn least_text(table: Table) -> &'static str
    ensures { result.now ≡ least_text table }
{
    match table {
        Table::Records => LEAST_RECORDS,
        Table::Postings => LEAST_POSTINGS,
        Table::Blocks => LEAST_BLOCKS,
        Table::Dict => LEAST_DICT,
    }
}

fn greatest_text(table: Table) -> &'static str
    ensures { result.now ≡ greatest_text table }
{
    match table {
        Table::Records => GREATEST_RECORDS,
        Table::Postings => GREATEST_POSTINGS,
        Table::Blocks => GREATEST_BLOCKS,
        Table::Dict => GREATEST_DICT,
    }
}

fn next_text(table: Table) -> &'static str
    ensures { result.now ≡ next_text table }
{
    match table {
        Table::Records => NEXT_RECORDS,
        Table::Postings => NEXT_POSTINGS,
        Table::Blocks => NEXT_BLOCKS,
        Table::Dict => NEXT_DICT,
    }
}
