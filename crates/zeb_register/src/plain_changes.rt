//! A key's places in records changed, in registers with one row for each posting.

ghost use Rattle.std.specs.Prelude.{IsUtf8, ◌≡◌, ◌≢◌, ◌↔◌, map, true, false, IsTrue, IfErr, OnOk};
ghost use Rattle.std.specs.List.Sorted.{IsStrictlySortedBy};
ghost use Rattle.sqlite_rules.specs.Lists.{Has};
ghost use Rattle.sqlite.specs.Held.{state};
ghost use Rattle.zeb_register.specs.Answers.{IfDamaged};
ghost use Rattle.zeb_register.specs.Calls.{GoesOn};
ghost use Rattle.zeb_register.specs.Connections.{InStoreOf, InsideOf, LooksInsideOf, WritesOf};
ghost use Rattle.zeb_register.specs.Content.{place_cmp};
ghost use Rattle.zeb_register.specs.Formats.{plain_rows};
ghost use Rattle.zeb_register.specs.PlainUnits.{RowsRead};
ghost use Rattle.zeb_register.specs.PrivateRowPlaces.{first_two, place_row, IsTwoNumbers, IsPlaceIn, posting_columns, Puts};
ghost use Rattle.zeb_register.specs.PrivateRowStatements.{Gains};
ghost use Rattle.zeb_register.specs.PrivateUnits.{ChangesUnit};
ghost use Rattle.zeb_register.specs.Sql.{Loses};
ghost use Rattle.zeb_register.specs.Store.{postings_tree};
ghost use Rattle.zeb_register.specs.UnitChanges.{ChangesKey};

use crate::checked_changes::check_changes;
use crate::registers::{Place, RecordChange};
use crate::statements::inside::nothing_inside;
use crate::statements::keys::KeyOf;
use crate::statements::postings::place_rows;
use crate::statements::writing::write;
use crate::values::{read_number, stored};
use crate::{DatabaseId, RegFault, RowFault};
use sqlite::{Alter, Error, Row, Transaction, params};
use zeb_keys::Key;

const PUT: &str = "INSERT INTO postings VALUES (?1, ?2, ?3, ?4, ?5, ?6, ?7)";

const TAKE: &str =
    "DELETE FROM postings WHERE db = ?1 AND idx = ?2 AND reg = ?3 AND term = ?4 AND sysno = ?5";

/// Puts changes of a key into its rows, one after the other. It fails as `key_changes` of `Layout` does.
pub(crate) fn key_changes_plain<S: Alter>(
    tx: &mut Transaction<'_, S>,
    db: DatabaseId,
    key: &Key,
    changes: &[RecordChange<'_>],
) -> Result<(), RegFault>
    ensures call { InsideOf S.Store tx.old.conn tx.new.conn result (λ _. GoesOn) }
    ensures units { ChangesKey plain_rows db.0 key.now changes.now
        (state S.Store tx.old.conn.now) (state S.Store tx.new.conn.now) result }
{
    check_changes(changes)?;
    // A closed connection is refused also where there is no change.
    nothing_inside(tx)?;
    for change in changes {
        unit_change(tx, db, key, change.sysno, change.old, change.new)?;
    }
    Ok(())
}

/// Puts the places `new` of a key in a record where `old` stood. `Damaged` where others did.
fn unit_change<S: Alter>(
    tx: &mut Transaction<'_, S>,
    db: DatabaseId,
    key: &Key,
    sysno: u64,
    old: &[Place],
    new: &[Place],
) -> Result<(), RegFault>
    requires rising { IsStrictlySortedBy place_cmp new.now }
    ensures call { InsideOf S.Store tx.old.conn tx.new.conn result (λ _. GoesOn) }
    ensures units { ChangesUnit db.0 key.now sysno old.now new.now
        (state S.Store tx.old.conn.now) (state S.Store tx.new.conn.now) result }
{
    if !holds_places(tx, db, key, sysno, old)? {
        return Err(RegFault::Damaged);
    }
    places_take(tx, db, key, sysno)?;
    Ok(places_put(tx, db, key, sysno, new)?)
}

/// Whether the rows show just these places, in order.
fn are_places(rows: &[Row], places: &[Place]) -> Result<bool, RowFault>
    ensures same { result ≡ Ok true → map first_two rows.now ≡ map place_row places.now }
    ensures other { result ≡ Ok false → map first_two rows.now ≢ map place_row places.now }
    ensures refused { IfErr result (λ fault. (fault ≡ RowFault.Damaged)
        × ¬ ((row : _) → Has rows.now row → IsTwoNumbers row)) }
{
    if rows.len() != places.len() {
        return Ok(false);
    }
    for (at, row) in rows.iter().enumerate() {
        if !is_place(row, places[at])? {
            return Ok(false);
        }
    }
    Ok(true)
}

/// Whether the row shows this place.
fn is_place(row: &Row, place: Place) -> Result<bool, RowFault>
    ensures same { result ≡ Ok true → first_two row.now ≡ place_row place }
    ensures other { result ≡ Ok false → first_two row.now ≢ place_row place }
    ensures refused { IfErr result (λ fault. (fault ≡ RowFault.Damaged) × ¬ IsTwoNumbers row.now) }
{
    let seq = read_number(row, 0)?;
    let pos = read_number(row, 1)?;
    Ok(seq == place.seq && pos == place.pos)
}

/// Whether the register holds just these places of the key in the record.
fn holds_places<S: Alter>(
    tx: &mut Transaction<'_, S>,
    db: DatabaseId,
    key: &Key,
    sysno: u64,
    places: &[Place],
) -> Result<bool, RegFault>
    ensures found { LooksInsideOf S.Store tx.old.conn tx.new.conn result
        (λ trees. IfDamaged (¬ RowsRead trees db.0 key.now sysno places.now))
        (λ trees same. IsTrue same ↔ RowsRead trees db.0 key.now sysno places.now) }
    ensures text { OnOk result (IsUtf8 key.now.term) }
{
    let number = stored(sysno)?;
    let rows = place_rows(tx, KeyOf { db, key }, number)?;
    Ok(are_places(&rows, places)?)
}

/// Takes the places of the key in the record out.
fn places_take<S: Alter>(
    tx: &mut Transaction<'_, S>,
    db: DatabaseId,
    key: &Key,
    sysno: u64,
) -> Result<(), Error>
    ensures call { WritesOf S.Store tx.old.conn tx.new.conn postings_tree
        (Loses (IsPlaceIn db.0 key.now sysno)) result }
{
    let number = stored(sysno)?;
    let id = db.column();
    let reg = u32::from(key.register.code());
    let term = key.term.as_str();
    write(tx, TAKE, params![id, key.index, reg, term, number])
}

/// Puts places of the key in the record.
fn places_put<S: Alter>(
    tx: &mut Transaction<'_, S>,
    db: DatabaseId,
    key: &Key,
    sysno: u64,
    places: &[Place],
) -> Result<(), Error>
    ensures call { InsideOf S.Store tx.old.conn tx.new.conn result
        (λ _ a b. IsTrue a.is_open → GoesOn a b) }
    ensures put { InStoreOf S.Store tx.old.conn tx.new.conn
        (λ _. OnOk result (Puts db.0 key.now sysno places.now (state S.Store tx.old.conn.now)
        (state S.Store tx.new.conn.now))) }
{
    for place in places {
        place_put(tx, db, key, sysno, *place)?;
    }
    Ok(())
}

/// Puts a place of the key in the record. It is refused where a number is above `2^63 - 1`.
fn place_put<S: Alter>(
    tx: &mut Transaction<'_, S>,
    db: DatabaseId,
    key: &Key,
    sysno: u64,
    place: Place,
) -> Result<(), Error>
    ensures call { WritesOf S.Store tx.old.conn tx.new.conn postings_tree
        (Gains (posting_columns db.0 key.now sysno place)) result }
{
    let number = stored(sysno)?;
    let seq = stored(place.seq)?;
    let pos = stored(place.pos)?;
    let id = db.column();
    let reg = u32::from(key.register.code());
    let term = key.term.as_str();
    write(tx, PUT, params![id, key.index, reg, term, number, seq, pos])
}
