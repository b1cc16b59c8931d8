//! The terms of a register, read from the rows of its postings.

ghost use Rattle.std.specs.Prelude.{ℕ, List, ◌≡◌, ◌↔◌, ◌<◌, ◌+◌, ◌^◌, ◌++◌, [], ◌∷◌, IfOk, OnOk, string_bytes};
ghost use Rattle.std.specs.List.Sorted.{IsStrictlySortedBy};
ghost use Rattle.sqlite.specs.Order.{row_cmp};
ghost use Rattle.sqlite_rules.specs.Lists.{Has};
ghost use Rattle.zeb_register.specs.Occurring.{AreCounts, key_in};
ghost use Rattle.zeb_register.specs.PlainUnits.{HasShownNone, RowsCount};
ghost use Rattle.zeb_register.specs.PrivateNearest.{AreNearest, FindsCount, HasOn, HideNearest, HidesNext, IsNearer, IsOn};
ghost use Rattle.zeb_register.specs.PrivateRowTerms.{IsShown, ShowsOccurrence, IsOccurrenceRow, SomeIsNoOccurrence, ShowsTerm, IsTermRow};
ghost use Rattle.zeb_register.specs.Answers.{Answers, IfRowDamaged};
ghost use Rattle.zeb_register.specs.PrivateRowTerms.{FindsNearest, HidesText, IsCountedIn, ShowsNearest};
ghost use Rattle.zeb_register.specs.Connections.{AsksOf, LooksIntoOf};

use crate::plain::postings_under;
use crate::registers::{RegisterOf, TermCount};
use crate::statements::postings::{nothing_of, rows_before, rows_from};
use crate::values::{read, read_number};
use crate::{RegFault, RowFault};
use sqlite::{Alter, Connection, Error, Row};
use std::alloc::{AllocError, Global};
use zeb_blocks::records_in;
use zeb_keys::Term;

/// The way from a text along the order of terms.
#[derive(Clone, Copy)]
pub(crate) enum Way {
    /// To the terms that are not below the text.
    Up,
    /// To those that are below it.
    Down,
}

/// The terms of rows that rise by term and then by record, each with the number of its records.
pub(crate) fn count_terms(alloc: Global, rows: &[Row]) -> Result<Vec<TermCount>, RowFault>
    ensures counts { IfOk result (λ list. IsStrictlySortedBy row_cmp rows.now
        → AreCounts (IsShown rows.now) list.items) }
    ensures occur { Answers (IfRowDamaged (SomeIsNoOccurrence rows.now))
        (λ _. (row : _) → Has rows.now row → IsOccurrenceRow row) result }
{
    let mut counts: Vec<TermCount> = Vec::new(alloc);
    let mut newest: u64 = 0;
    for row in rows {
        let (term, sysno) = occurrence_of(row)?;
        count_occurrence(&mut counts, newest, term, sysno)?;
        newest = sysno;
    }
    Ok(counts)
}

/// The term and the record's number that a row shows, which shows a place in the record too.
fn occurrence_of(row: &Row) -> Result<(Term, u64), RowFault>
    ensures ok { IfOk result (λ o. ShowsOccurrence row.now o.0 o.1) }
    ensures occurs { OnOk result (IsOccurrenceRow row.now) }
    ensures honest { result ≡ Err RowFault.Damaged → ¬ IsOccurrenceRow row.now }
{
    let term: String = read(row, 0)?;
    let sysno = read_number(row, 1)?;
    read_number(row, 2)?;
    read_number(row, 3)?;
    Ok((Term::new(term), sysno))
}

/// Counts one occurrence more. No term comes after this one yet, and the newest number is that of the occurrence before.
fn count_occurrence(
    counts: &mut Vec<TermCount>,
    newest: u64,
    term: Term,
    sysno: u64,
) -> Result<(), AllocError>
    requires room { (t : _) → Has counts.old.items t → t.records + 1 < 2 ^ 64 }
    ensures { OnOk result
        (IsCountedIn newest term sysno counts.old.items counts.new.items) }
{
    if let Some(last) = counts.last_mut() {
        if last.term == term {
            if sysno != newest {
                last.records += 1;
            }
            return Ok(());
        }
    }
    counts.push(TermCount { term, records: 1 })?;
    Ok(())
}

/// The term with the number of records that have it.
fn term_count<S: Alter>(
    alloc: Global,
    conn: &mut Connection<S>,
    at: RegisterOf,
    term: String,
) -> Result<TermCount, RegFault>
    ensures { LooksIntoOf S.Store conn.old conn.new result
        (λ trees. HasShownNone trees at.db.0 (key_in at.index at.register (string_bytes term)))
        (λ trees t. (t.term ≡ string_bytes term) × RowsCount trees at.db.0 (key_in at.index
        at.register (string_bytes term)) t.records) }
{
    let list = postings_under(alloc, conn, at, term.as_str())?;
    let records = records_in(&list);
    Ok(TermCount {
        term: Term::new(term),
        records,
    })
}

/// The least text above this one.
pub fn text_above(alloc: Global, text: &str) -> Result<String, AllocError>
    ensures { IfOk result (λ above. string_bytes above ≡ text.now ++ 0 ∷ []) }
{
    let mut above = String::from_str(alloc, text)?;
    above.push('\0')?;
    Ok(above)
}

/// The term that the first of the rows shows.
fn term_of(rows: &[Row]) -> Result<Option<String>, RowFault>
    ensures ok { IfOk result (ShowsTerm rows.now) }
    ensures honest { result ≡ Err RowFault.Damaged
        → ¬ ((row : _) → Has rows.now row → IsTermRow row) }
{
    match rows.first() {
        Some(row) => Ok(Some(read(row, 0)?)),
        None => Ok(None),
    }
}

/// The term nearest to a text on a way from it.
fn term_on<S: Alter>(
    conn: &mut Connection<S>,
    at: RegisterOf,
    way: Way,
    text: &str,
) -> Result<Option<String>, RegFault>
    ensures { LooksIntoOf S.Store conn.old conn.new result
        (λ trees. HidesText (HasOn at way text.now trees) (IsNearer way))
        (λ trees. FindsNearest (HasOn at way text.now trees) (IsNearer way)) }
{
    let rows = nearest_rows(conn, at, way, text)?;
    Ok(term_of(&rows)?)
}

/// The row of the term nearest to a text on a way from it.
fn nearest_rows<S: Alter>(
    conn: &mut Connection<S>,
    at: RegisterOf,
    way: Way,
    text: &str,
) -> Result<Vec<Row>, Error>
    ensures { AsksOf S.Store conn.old conn.new result
        (λ trees rows. ShowsNearest (HasOn at way text.now trees) (IsNearer way) rows.items) }
{
    match way {
        Way::Up => rows_from(conn, at, text),
        Way::Down => rows_before(conn, at, text),
    }
}

/// The term nearest to a text on a way from it, with the number of records that have it.
fn count_on<S: Alter>(
    alloc: Global,
    conn: &mut Connection<S>,
    at: RegisterOf,
    way: Way,
    text: &str,
) -> Result<Option<TermCount>, RegFault>
    ensures { LooksIntoOf S.Store conn.old conn.new result (HidesNext at way text.now)
        (FindsCount at way text.now) }
{
    let Some(term) = term_on(conn, at, way, text)? else {
        return Ok(None);
    };
    Ok(Some(term_count(alloc, conn, at, term)?))
}

/// The text from which a way goes on behind a term.
fn text_behind(alloc: Global, way: Way, term: &str) -> Result<String, AllocError>
    ensures { IfOk result (λ text. (u : List ℕ) → IsOn way (string_bytes text) u
        ↔ IsNearer way term.now u) }
{
    match way {
        Way::Up => text_above(alloc, term),
        Way::Down => String::from_str(alloc, term),
    }
}

/// The `n` terms nearest to a text on a way from it, the nearest first, each with the number of records that have it.
pub(crate) fn nearest_terms<S: Alter>(
    alloc: Global,
    conn: &mut Connection<S>,
    at: RegisterOf,
    way: Way,
    start: &str,
    n: u64,
) -> Result<Vec<TermCount>, RegFault>
    ensures { LooksIntoOf S.Store conn.old conn.new result
        (λ trees. HideNearest at way start.now trees n)
        (λ trees list. AreNearest at way start.now trees n list.items) }
{
    let mut counts = Vec::new(alloc);
    let mut text = String::from_str(alloc, start)?;
    // A closed connection is refused also where no term is asked for.
    nothing_of(conn)?;
    for _done in 0..n {
        let Some(count) = count_on(alloc, conn, at, way, &text)? else {
            return Ok(counts);
        };
        text = text_behind(alloc, way, count.term.as_str())?;
        counts.push(count)?;
    }
    Ok(counts)
}
