//! The postings of neighbouring terms, by a row for each.

ghost use Rattle.std.specs.Prelude.{◌≡◌, map, IfOk, IfErr};
ghost use Rattle.zeb_register.specs.Answers.{Answers, IfRowDamaged};
ghost use Rattle.zeb_register.specs.Formats.{plain_rows};
ghost use Rattle.zeb_register.specs.PlainRows.{posting_row};
ghost use Rattle.zeb_register.specs.PlainUnits.{ShowsNone};
ghost use Rattle.zeb_register.specs.PrivateBetweenRows.{SomeShowsNoneBehind, three_behind};
ghost use Rattle.zeb_register.specs.Units.{HasMalformedBetween, ListsBetween};
ghost use Rattle.zeb_register.specs.Connections.{LooksIntoOf};

use crate::registers::RegisterOf;
use crate::statements::between::posting_rows_between;
use crate::terms::text_above;
use crate::values::read_number;
use crate::{RegFault, RowFault};
use sqlite::{Alter, Connection, Row};
use std::alloc::Global;
use zeb_blocks::Posting;

/// The postings of the terms from `first` to `last`.
pub(crate) fn postings_between<S: Alter>(
    alloc: Global,
    conn: &mut Connection<S>,
    at: RegisterOf,
    first: &str,
    last: &str,
) -> Result<Vec<Posting>, RegFault>
    ensures { LooksIntoOf S.Store conn.old conn.new result
        (λ trees. HasMalformedBetween plain_rows trees at first.now last.now)
        (λ trees list. ListsBetween plain_rows trees at first.now last.now list.items) }
{
    let end = text_above(alloc, last)?;
    let rows = posting_rows_between(conn, at, first, end.as_str())?;
    Ok(postings_behind(alloc, &rows)?)
}

/// The postings that rows show behind their terms.
fn postings_behind(alloc: Global, rows: &[Row]) -> Result<Vec<Posting>, RowFault>
    ensures { Answers (IfRowDamaged (SomeShowsNoneBehind rows.now))
        (λ list. map posting_row list.items ≡ map three_behind rows.now) result }
{
    let mut postings = Vec::new(alloc);
    for row in rows {
        postings.push(posting_behind(row)?)?;
    }
    Ok(postings)
}

/// The posting that a row shows behind its term.
fn posting_behind(row: &Row) -> Result<Posting, RowFault>
    ensures ok { IfOk result (λ p. posting_row p ≡ three_behind row.now) }
    ensures refused { IfErr result (λ fault. (fault ≡ RowFault.Damaged)
        × ShowsNone (three_behind row.now)) }
{
    Ok(Posting {
        sysno: read_number(row, 1)?,
        seq: read_number(row, 2)?,
        pos: read_number(row, 3)?,
    })
}
