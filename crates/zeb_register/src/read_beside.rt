//! The rows of a table, read one at a time beside what is expected of them.

ghost use Rattle.std.specs.Prelude.{◌≡◌, ◌≢◌, ◌<◌, ◌≤◌, ◌↔◌, List, ◌∷◌, length, drop, map, IfSome, MatchOption};
ghost use Rattle.sqlite.specs.Order.{Row};
ghost use Rattle.zeb_register.specs.Connections.{IsReasonedErrorOf, ReadingOf};
ghost use Rattle.zeb_register.specs.Kept.{record_shown};
ghost use Rattle.zeb_register.specs.PrivateRowExpected.{IsInOrder, posting_shown};
ghost use Rattle.zeb_register.specs.PrivateRowReads.{Fits, ReadsRests, rests_text, size_of};

use crate::agreeing::Table;
use crate::expected::{is_posting, is_record};
use crate::key_runs::run_end;
use crate::packed_agreeing::block_end;
use crate::{ExpectedDatabase, KeyPosting, Record};
use sqlite::{Alter, Connection, Error, Row, params};

const RESTS_RECORDS: &str = "SELECT sysno, ident, bytes FROM records WHERE db = ?1 ORDER BY sysno";

const RESTS_POSTINGS: &str =
    "SELECT idx, reg, term, sysno, seq, pos FROM postings WHERE db = ?1 ORDER BY idx, reg, term, sysno, seq, pos";

const RESTS_BLOCKS: &str =
    "SELECT idx, reg, term, block, data FROM blocks WHERE db = ?1 ORDER BY idx, reg, term, block";

const RESTS_DICT: &str =
    "SELECT idx, reg, term, records FROM dict WHERE db = ?1 ORDER BY idx, reg, term";

/// Whether the rows of a table under this id are just the expected ones. One row is held at a time.
pub(crate) fn rests_agree<S: Alter>(
    conn: &mut Connection<S>,
    table: Table,
    db: i64,
    database: &ExpectedDatabase,
) -> Result<bool, Error>
    ensures call { ReadingOf S.Store conn.old conn.new result (ReadsRests table db database.now) }
    ensures refused { IsReasonedErrorOf S.Store conn.old conn.new result }
{
    // Nobody reads it. Its contract says that what is seen outside a transaction is what was committed.
    let _idle = conn.is_autocommit();
    let size = size_of(table, database);
    let mut at = 0;
    let mut rows = conn.query(rests_text(table), params![db])?;
    // Each row that is the next moves the place on, so that there are no more of them than the list is long.
    'rows: for _turn in 0..=size {
        let Some(row) = rows.next()? else {
            return Ok(at == size);
        };
        let Some(end) = row_end(table, row, database, at) else {
            return Ok(false);
        };
        at = end;
    }
    Ok(false)
}

/// The query for the rows of a table under the id of a database, in the order of the table's key.
fn rests_text(table: Table) -> &'static str
    ensures { result.now ≡ rests_text table }
{
    match table {
        Table::Records => RESTS_RECORDS,
        Table::Postings => RESTS_POSTINGS,
        Table::Blocks => RESTS_BLOCKS,
        Table::Dict => RESTS_DICT,
    }
}

/// How long the list is that the table's rows are compared with.
fn size_of(table: Table, database: &ExpectedDatabase) -> usize
    ensures { result ≡ size_of table database.now }
{
    match table {
        Table::Records => database.records.len(),
        Table::Postings | Table::Blocks | Table::Dict => database.postings.len(),
    }
}

/// Where the list goes on behind this row, if it is the row that is expected from a place on.
fn row_end(table: Table, row: &Row, database: &ExpectedDatabase, at: usize) -> Option<usize>
    requires { at ≤ size_of table database.now }
    ensures further { IfSome result (λ end. (at < end) × (end ≤ size_of table database.now)) }
    ensures fits { IsInOrder database.now → MatchOption result ((more : List Row)
        → ¬ Fits table database.now (row.now ∷ more) at)
        (λ end. (more : List Row) → Fits table database.now (row.now ∷ more) at ↔ Fits table
        database.now more end) }
{
    match table {
        Table::Records => record_end(row, &database.records, at),
        Table::Postings => posting_end(row, &database.postings, at),
        Table::Blocks => block_end(row, &database.postings, at),
        Table::Dict => run_end(row, &database.postings, at),
    }
}

/// Where the records go on behind the one at this place, if the row shows it.
fn record_end(row: &Row, records: &[Record], at: usize) -> Option<usize>
    ensures further { IfSome result (λ end. (at < end) × (end ≤ length records.now)) }
    ensures fits { MatchOption result ((more : List Row)
        → row.now ∷ more ≢ map record_shown (drop at records.now))
        (λ end. (more : List Row)
        → (row.now ∷ more ≡ map record_shown (drop at records.now)) ↔
        (more ≡ map record_shown (drop end records.now))) }
{
    let kept = records.get(at)?;
    if is_record(row, kept) {
        Some(at + 1)
    } else {
        None
    }
}

/// Where the postings go on behind the one at this place, if the row shows it.
fn posting_end(row: &Row, postings: &[KeyPosting], at: usize) -> Option<usize>
    ensures further { IfSome result (λ end. (at < end) × (end ≤ length postings.now)) }
    ensures fits { MatchOption result ((more : List Row)
        → row.now ∷ more ≢ map posting_shown (drop at postings.now))
        (λ end. (more : List Row)
        → (row.now ∷ more ≡ map posting_shown (drop at postings.now)) ↔
        (more ≡ map posting_shown (drop end postings.now))) }
{
    let posting = postings.get(at)?;
    if is_posting(row, posting) {
        Some(at + 1)
    } else {
        None
    }
}
