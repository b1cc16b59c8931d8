//! Registers with one row for each posting.

ghost use Rattle.std.specs.Prelude.{◌≡◌, map, IfOk, IfErr};
ghost use Rattle.zeb_register.specs.Answers.{Answers, IfRowDamaged};
ghost use Rattle.zeb_register.specs.Formats.{plain_rows};
ghost use Rattle.zeb_register.specs.Occurring.{key_in};
ghost use Rattle.zeb_register.specs.PlainRows.{posting_row};
ghost use Rattle.zeb_register.specs.PlainUnits.{HasShownNone, ShowsNone};
ghost use Rattle.zeb_register.specs.PrivateRowPlaces.{first_three, SomeShowsNone};
ghost use Rattle.zeb_register.specs.Units.{ListsUnits};
ghost use Rattle.zeb_register.specs.Connections.{LooksIntoOf};

use crate::agreeing::{lists_beside, rows_agree};
use crate::dropping::database_drop_whole;
use crate::plain_between::postings_between;
use crate::plain_changes::key_changes_plain;
use crate::registers::{Layout, RecordChange, RegisterOf, TermCount, Totals, Work};
use crate::statements::postings::{posting_rows, register_rows};
use crate::terms::{Way, count_terms, nearest_terms};
use crate::values::read_number;
use crate::{DatabaseId, Expected, RegFault, RowFault};
use sqlite::{Alter, Connection, Error, Row, Transaction};
use std::alloc::Global;
use zeb_blocks::Posting;
use zeb_keys::Key;

/// The layout with one row of `postings` for each posting, and no row of `blocks` or `dict`. It counts no work.
#[derive(Clone, Copy, Debug, PartialEq, Eq)]
pub struct Rows;

impl Layout for Rows {
    ghost use Rattle.zeb_register.specs.Formats.{plain_rows};
    ghost use Rattle.zeb_register.specs.PlainRows.{no_rows};

    ghost format = { plain_rows };

    ghost row_work = { 0 };

    ghost block_rows = { no_rows };

    fn version() -> &'static str {
        "1"
    }

    fn key_changes<S: Alter>(
        tx: &mut Transaction<'_, S>,
        _work: &mut Work,
        db: DatabaseId,
        key: &Key,
        changes: &[RecordChange<'_>],
    ) -> Result<(), RegFault> {
        key_changes_plain(tx, db, key, changes)
    }

    fn database_take<S: Alter>(tx: &mut Transaction<'_, S>, db: DatabaseId) -> Result<(), Error> {
        database_drop_whole(tx, db)
    }

    fn key_list<S: Alter>(
        alloc: Global,
        conn: &mut Connection<S>,
        _work: &mut Work,
        db: DatabaseId,
        key: &Key,
    ) -> Result<Vec<Posting>, RegFault> {
        let at = RegisterOf {
            db,
            index: key.index,
            register: key.register,
        };
        postings_under(alloc, conn, at, key.term.as_str())
    }

    fn postings_between<S: Alter>(
        alloc: Global,
        conn: &mut Connection<S>,
        _work: &mut Work,
        at: RegisterOf,
        first: &str,
        last: &str,
    ) -> Result<Vec<Posting>, RegFault> {
        postings_between(alloc, conn, at, first, last)
    }

    fn terms_of<S: Alter>(
        alloc: Global,
        conn: &mut Connection<S>,
        _work: &mut Work,
        at: RegisterOf,
    ) -> Result<Vec<TermCount>, RegFault> {
        let rows = register_rows(conn, at)?;
        Ok(count_terms(alloc, &rows)?)
    }

    fn terms_from<S: Alter>(
        alloc: Global,
        conn: &mut Connection<S>,
        _work: &mut Work,
        at: RegisterOf,
        start: &str,
        n: u64,
    ) -> Result<Vec<TermCount>, RegFault> {
        nearest_terms(alloc, conn, at, Way::Up, start, n)
    }

    fn terms_before<S: Alter>(
        alloc: Global,
        conn: &mut Connection<S>,
        _work: &mut Work,
        at: RegisterOf,
        start: &str,
        n: u64,
    ) -> Result<Vec<TermCount>, RegFault> {
        let mut counts = nearest_terms(alloc, conn, at, Way::Down, start, n)?;
        counts.reverse();
        Ok(counts)
    }

    fn totals<S: Alter>(
        alloc: Global,
        conn: &mut Connection<S>,
        _work: &mut Work,
        at: RegisterOf,
    ) -> Result<Totals, RegFault> {
        let rows = register_rows(conn, at)?;
        let counts = count_terms(alloc, &rows)?;
        Ok(Totals {
            terms: counts.len() as u64,
            occurrences: rows.len() as u64,
        })
    }

    fn agrees<S: Alter>(
        alloc: Global,
        conn: &mut Connection<S>,
        expected: &Expected,
    ) -> Result<bool, Error> {
        let Some(listed) = lists_beside(alloc, conn, expected)? else {
            return Ok(false);
        };
        rows_agree(conn, &listed, &expected.databases)
    }
}

/// The postings of a term, rising.
pub(crate) fn postings_under<S: Alter>(
    alloc: Global,
    conn: &mut Connection<S>,
    at: RegisterOf,
    term: &str,
) -> Result<Vec<Posting>, RegFault>
    ensures { LooksIntoOf S.Store conn.old conn.new result
        (λ trees. HasShownNone trees at.db.0 (key_in at.index at.register term.now))
        (λ trees list. ListsUnits plain_rows trees at.db.0 (key_in at.index at.register term.now)
        list.items) }
{
    let rows = posting_rows(conn, at, term)?;
    Ok(postings_of(alloc, &rows)?)
}

/// The postings that rows of a key show.
fn postings_of(alloc: Global, rows: &[Row]) -> Result<Vec<Posting>, RowFault>
    ensures { Answers (IfRowDamaged (SomeShowsNone rows.now))
        (λ list. map posting_row list.items ≡ map first_three rows.now) result }
{
    let mut postings = Vec::new(alloc);
    for row in rows {
        postings.push(posting_of(row)?)?;
    }
    Ok(postings)
}

/// The posting that a row shows.
fn posting_of(row: &Row) -> Result<Posting, RowFault>
    ensures ok { IfOk result (λ p. posting_row p ≡ first_three row.now) }
    ensures refused { IfErr result (λ fault. (fault ≡ RowFault.Damaged) × ShowsNone row.now) }
{
    Ok(Posting {
        sysno: read_number(row, 0)?,
        seq: read_number(row, 1)?,
        pos: read_number(row, 2)?,
    })
}
