//! The records that a database keeps.

ghost use Rattle.std.specs.Prelude.{◌≡◌, [], ◌∷◌, pos, map, IfOk};
ghost use Rattle.sqlite.specs.declared.types.Value.TheVariants.{Int};
ghost use Rattle.zeb_register.specs.Sql.{Loses, Replaces, IsListOf};
ghost use Rattle.zeb_register.specs.Store.{records_tree, record_row, HasNumber, SharesRecord, IsRest};
ghost use Rattle.sqlite_rules.specs.Lists.{Has};
ghost use Rattle.zeb_register.specs.PrivateRowPlaces.{first_three};
ghost use Rattle.zeb_register.specs.PrivateFirstRows.{AreShown, IsElderShown, ShowsElder, ShowsFound, ShowsRecord};
ghost use Rattle.zeb_register.specs.Kept.{IsElderOf, IsIdentOf, AreNumbered, AreReadableIdents, AreReadable, record_shown};
ghost use Rattle.zeb_register.specs.Kept.{IsFirstFrom, IsRecordCount};
ghost use Rattle.zeb_register.specs.PrivateRowStatements.{IsRecordShown};
ghost use Rattle.zeb_register.specs.Answers.{IfDamaged};
ghost use Rattle.zeb_register.specs.Clauses.{TellsByNumber};
ghost use Rattle.zeb_register.specs.Connections.{IsDueRefusalInsideOf, LooksInsideOf, LooksIntoOf, WritesOf};

use crate::meta::first_text;
use crate::statements::inside::{nothing_inside, rows_from_inside};
use crate::statements::postings::nothing_of;
use crate::statements::records::{count_rows, elder_rows, ident_rows, record_rows, rows_from};
use crate::statements::writing::write;
use crate::values::{read, read_number, stored};
use crate::{DatabaseId, RegFault, RowFault};
use sqlite::{Alter, Connection, Error, Row, Transaction, params};
use std::alloc::Global;

const PUT: &str = "INSERT OR REPLACE INTO records VALUES (?1, ?2, ?3, ?4)";

const TAKE: &str = "DELETE FROM records WHERE db = ?1 AND sysno = ?2";

/// A kept record: its system number, its identifier and its bytes (ISO 2709).
#[derive(Debug, PartialEq, Eq, Drop)]
pub struct Record {
    pub sysno: u64,
    pub ident: String,
    pub bytes: Vec<u8>,
}

/// The record that is kept under an identifier: its system number and its bytes.
#[derive(Debug, PartialEq, Eq, Drop)]
pub struct Elder {
    pub sysno: u64,
    pub bytes: Vec<u8>,
}

/// Keeps a record under a system number, in place of those that had that number or that identifier.
///
/// It is refused where `sysno` is above `2^63 - 1`.
pub fn record_put<S: Alter>(
    tx: &mut Transaction<'_, S>,
    db: DatabaseId,
    sysno: u64,
    ident: &str,
    bytes: &[u8],
) -> Result<(), Error>
    ensures call { WritesOf S.Store tx.old.conn tx.new.conn records_tree
        (Replaces (SharesRecord db.0 (pos sysno) ident.now)
        (record_row db.0 (pos sysno) ident.now bytes.now)) result }
{
    let sysno = stored(sysno)?;
    let id = db.column();
    write(tx, PUT, params![id, sysno, ident, bytes])
}

/// Takes the record of a system number out. Where there is none, nothing changes.
///
/// It is refused where `sysno` is above `2^63 - 1`.
pub fn record_take<S: Alter>(
    tx: &mut Transaction<'_, S>,
    db: DatabaseId,
    sysno: u64,
) -> Result<(), Error>
    ensures call { WritesOf S.Store tx.old.conn tx.new.conn records_tree
        (Loses (HasNumber db.0 (pos sysno))) result }
{
    let sysno = stored(sysno)?;
    let id = db.column();
    write(tx, TAKE, params![id, sysno])
}

/// The number and the bytes of the record that is kept under an identifier, or `None`. Identifiers are compared byte by byte.
///
/// `Damaged` where its number is below 0. It changes nothing.
pub fn record_of_ident<S: Alter>(
    tx: &mut Transaction<'_, S>,
    db: DatabaseId,
    ident: &str,
) -> Result<Option<Elder>, RegFault>
    ensures found { LooksInsideOf S.Store tx.old.conn tx.new.conn result
        (λ trees. IfDamaged (¬ AreNumbered trees db.0 ident.now))
        (λ trees. IsElderOf trees db.0 ident.now) }
    ensures refused { IsDueRefusalInsideOf S.Store tx.old.conn tx.new.conn result }
{
    let rows = elder_rows(tx, db.column(), ident)?;
    Ok(first_elder(&rows)?)
}

/// What the first row shows of the record that was looked up, or `None` where there is no row.
fn first_elder(rows: &[Row]) -> Result<Option<Elder>, RowFault>
    ensures ok { IfOk result (ShowsFound ShowsElder rows.now) }
    ensures honest { result ≡ Err RowFault.Damaged → ¬ AreShown IsElderShown rows.now }
{
    match rows.first() {
        Some(row) => Ok(Some(elder_of(row)?)),
        None => Ok(None),
    }
}

/// What a row shows of the record that was looked up.
fn elder_of(row: &Row) -> Result<Elder, RowFault>
    ensures ok { IfOk result (ShowsElder row.now) }
    ensures honest { result ≡ Err RowFault.Damaged → ¬ IsElderShown row.now }
{
    Ok(Elder {
        sysno: read_number(row, 0)?,
        bytes: read(row, 1)?,
    })
}

/// The identifier of the record of a system number, or `None`.
///
/// `None` also where `sysno` is above `2^63 - 1`, which no column stores. `Damaged` where it is no UTF-8. It changes nothing.
pub fn ident_of<S: Alter>(
    conn: &mut Connection<S>,
    db: DatabaseId,
    sysno: u64,
) -> Result<Option<String>, RegFault>
    ensures { LooksIntoOf S.Store conn.old conn.new result
        (λ trees. ¬ AreReadableIdents trees db.0 (pos sysno))
        (λ trees. TellsByNumber sysno (IsIdentOf trees db.0 (pos sysno))) }
{
    let Ok(sysno) = stored(sysno) else {
        // A closed connection is refused for such a number too.
        nothing_of(conn)?;
        return Ok(None);
    };
    let rows = ident_rows(conn, db.column(), sysno)?;
    Ok(first_text(&rows)?)
}

/// How many records a database has; `2^63 - 1`, the greatest number that a column stores, where there are more.
///
/// It takes the memory of one row, however many records there are. On a store's tables it is never `Damaged`. It changes nothing.
pub fn record_count<S: Alter>(conn: &mut Connection<S>, db: DatabaseId) -> Result<u64, RegFault>
    ensures { LooksIntoOf S.Store conn.old conn.new result (λ _. ⊥)
        (λ trees. IsRecordCount trees db.0) }
{
    let rows = count_rows(conn, db.column())?;
    match rows.first() {
        Some(row) => Ok(read_number(row, 0)?),
        // A count has one row, whatever the tables are.
        None => Err(RegFault::Damaged),
    }
}

/// The record with the least system number that is not below `start`, or `None`. So records are read one after the other.
///
/// `None` also where `start` is above `2^63 - 1`, which no column stores. `Damaged` where the identifier is no UTF-8. It changes
/// nothing.
pub fn record_from<S: Alter>(
    conn: &mut Connection<S>,
    db: DatabaseId,
    start: u64,
) -> Result<Option<Record>, RegFault>
    ensures { LooksIntoOf S.Store conn.old conn.new result (λ trees. ¬ AreReadable trees db.0)
        (λ trees. TellsByNumber start (IsFirstFrom trees db.0 start)) }
{
    let Ok(start) = stored(start) else {
        // A closed connection is refused for such a number too.
        nothing_of(conn)?;
        return Ok(None);
    };
    let rows = rows_from(conn, db.column(), start)?;
    Ok(first_record(&rows)?)
}

/// The same as [`record_from`], inside a transaction.
pub fn record_from_inside<S: Alter>(
    tx: &mut Transaction<'_, S>,
    db: DatabaseId,
    start: u64,
) -> Result<Option<Record>, RegFault>
    ensures found { LooksInsideOf S.Store tx.old.conn tx.new.conn result
        (λ trees. IfDamaged (¬ AreReadable trees db.0))
        (λ trees. TellsByNumber start (IsFirstFrom trees db.0 start)) }
    ensures refused { IsDueRefusalInsideOf S.Store tx.old.conn tx.new.conn result }
{
    let Ok(start) = stored(start) else {
        // A closed connection is refused for such a number too.
        nothing_inside(tx)?;
        return Ok(None);
    };
    let rows = rows_from_inside(tx, db.column(), start)?;
    Ok(first_record(&rows)?)
}

/// The records of a database, in rising order of their system numbers.
///
/// `Damaged` where a number is below 0 or an identifier is no UTF-8. It changes nothing.
pub fn records<S: Alter>(
    alloc: Global,
    conn: &mut Connection<S>,
    db: DatabaseId,
) -> Result<Vec<Record>, RegFault>
    ensures { LooksIntoOf S.Store conn.old conn.new result (λ trees. ¬ AreReadable trees db.0)
        (λ trees list. IsListOf (IsRest records_tree (Int db.0 ∷ []) trees)
        (map record_shown list.items)) }
{
    let rows = record_rows(conn, db.column())?;
    Ok(records_of(alloc, &rows)?)
}

/// The record that the first row shows, or `None` where there is no row.
fn first_record(rows: &[Row]) -> Result<Option<Record>, RowFault>
    ensures ok { IfOk result (ShowsFound ShowsRecord rows.now) }
    ensures honest { result ≡ Err RowFault.Damaged → ¬ AreShown IsRecordShown rows.now }
{
    match rows.first() {
        Some(row) => Ok(Some(record_of(row)?)),
        None => Ok(None),
    }
}

/// The records that rows show.
fn records_of(alloc: Global, rows: &[Row]) -> Result<Vec<Record>, RowFault>
    ensures ok { IfOk result (λ list. map record_shown list.items ≡ map first_three rows.now) }
    ensures honest { result ≡ Err RowFault.Damaged
        → ¬ ((row : _) → Has rows.now row → IsRecordShown row) }
{
    let mut records = Vec::new(alloc);
    for row in rows {
        records.push(record_of(row)?)?;
    }
    Ok(records)
}

/// The record that a row shows.
fn record_of(row: &Row) -> Result<Record, RowFault>
    ensures ok { IfOk result (λ r. record_shown r ≡ first_three row.now) }
    ensures honest { result ≡ Err RowFault.Damaged → ¬ IsRecordShown row.now }
{
    Ok(Record {
        sysno: read_number(row, 0)?,
        ident: read(row, 1)?,
        bytes: read(row, 2)?,
    })
}
