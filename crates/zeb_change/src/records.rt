//! One record of a change: it is added, replaces a kept one, or takes it away.

ghost use Rattle.std.specs.Prelude.{◌≡◌, ◌↔◌, ◌<◌, [], ◌∷◌, None, Ok, Err, IfOk};
ghost use Rattle.std.specs.Prelude.{string_bytes, IsTrue};
ghost use Rattle.sqlite.specs.Held.{state};
ghost use Rattle.zeb_marc.specs.Records.{IsRecord, first_fault};
ghost use Rattle.zeb_change.specs.Folding.{ident_in};
ghost use Rattle.zeb_change.specs.Occurs.{AreOccurrencesOf};
ghost use Rattle.zeb_change.specs.Outcomes.{change_refusal, incoming_refusal, register_refusal, turn_refusal};
ghost use Rattle.zeb_change.specs.PrivateFaults.{as_refusal};
ghost use Rattle.zeb_change.specs.Inside.{WorksInsideOf};
ghost use Rattle.zeb_change.specs.Reasons.{IsAtFault};
ghost use Rattle.zeb_change.specs.RecordChanges.{Answers, ChangesRecord, IsSound, OnRowsOf, TellsFailure};
ghost use Rattle.zeb_change.specs.PrivateRecordChanges.{Inserts, Steps, Supplants, TurnsRecord, Withdraws, point};

use crate::faults::RecordFault;
use crate::kept::{KeptFault, kept_occurrences};
use crate::noting::note_keys;
use crate::part_faults::{ChangeFault, IncomingFault, TurnFault};
use crate::pending::Pending;
use crate::settings::{Kind, Setting};
use crate::tally::Fate;
use sqlite::{Alter, Transaction};
use std::alloc::AllocError;
use zeb_extract::{identifier, occurrences};
use zeb_keys::Occurrence;
use zeb_marc::Marc;
use zeb_profile::Profile;
use zeb_register::{DatabaseId, Elder, RegFault, Work, record_of_ident, record_put, record_take};

/// How far a change has come: the database with its last system number, and the work on its registers.
#[derive(Clone, Copy, Debug)]
pub struct Progress {
    pub database: DatabaseId,
    /// The last system number that the database has given, 0 before the first.
    pub last: u64,
    pub work: Work,
}

/// One record of a file. Files are counted from 1, and records from 1 within their file.
#[derive(Clone, Copy)]
pub(crate) struct Incoming<'a> {
    pub bytes: &'a [u8],
    pub file: u64,
    pub nth: u64,
}

/// A record of a file that was read, and the identifier that the profile finds in it.
#[derive(Drop)]
struct Newer<'a> {
    ident: &'a str,
    bytes: &'a [u8],
    marc: Marc<'a>,
}

/// The occurrences of the elder, which is kept under this identifier.
fn elder_occurrences(
    setting: &Setting<'_>,
    ident: &str,
    elder: &Elder,
) -> Result<Vec<Occurrence>, KeptFault>
    ensures read { IfOk result (λ found.
        IsSound setting.now.profile.now ident.now elder.now.bytes.items
        × AreOccurrencesOf setting.now.profile.now elder.now.bytes.items found.items) }
    ensures damaged { result ≡ Err KeptFault.Damaged
        → ¬ IsSound setting.now.profile.now ident.now elder.now.bytes.items }
    ensures unread { result ≡ Err KeptFault.Memory → first_fault elder.now.bytes.items ≡ None }
{
    Ok(kept_occurrences(setting.alloc, setting.profile, ident, &elder.bytes)?)
}

/// The record's own occurrences.
fn newer_occurrences(
    setting: &Setting<'_>,
    newer: &Newer<'_>,
) -> Result<Vec<Occurrence>, AllocError>
    requires whole { IsRecord newer.now.bytes.now newer.now.marc }
    ensures { IfOk result (λ found.
        AreOccurrencesOf setting.now.profile.now newer.now.bytes.now found.items) }
{
    let found = occurrences(setting.alloc, &newer.marc, setting.profile)?;
    Ok(found)
}

/// The record is kept under the number after the last, which the limits leave.
fn insert<S: Alter>(
    tx: &mut Transaction<'_, S>,
    setting: &Setting<'_>,
    progress: &mut Progress,
    pending: &mut Pending,
    newer: &Newer<'_>,
) -> Result<Fate, RegFault>
    requires whole { IsRecord newer.now.bytes.now newer.now.marc }
    requires free { progress.old.last < setting.now.limits.numbers }
    ensures inside { WorksInsideOf S.Store tx.old.conn tx.new.conn result }
    ensures steps { Steps setting.now.limits progress.old progress.new }
    ensures inserts { OnRowsOf S.Store tx.old.conn tx.new.conn
        (Inserts setting.now progress.old.database.0 newer.now.ident.now newer.now.bytes.now
        (point (state S.Store tx.old.conn.now) pending.old progress.old.last)
        (point (state S.Store tx.new.conn.now) pending.new progress.new.last)
        (as_refusal register_refusal result)) }
{
    let new = newer_occurrences(setting, newer)?;
    progress.last += 1;
    let sysno = progress.last;
    record_put(tx, progress.database, sysno, newer.ident, newer.bytes)?;
    note_keys(setting.alloc, pending, sysno, &[], &new)?;
    Ok(Fate::Inserted)
}

/// Whether the elder has these bytes.
fn has_bytes(elder: &Elder, bytes: &[u8]) -> bool
    ensures { IsTrue result ↔ (elder.now.bytes.items ≡ bytes.now) }
{
    elder.bytes.as_slice() == bytes
}

/// The record takes its elder's place, under the same number. Where the elder has the same bytes nothing is changed: what it is found by is
/// what these bytes give.
fn replace<S: Alter>(
    tx: &mut Transaction<'_, S>,
    setting: &Setting<'_>,
    progress: &Progress,
    pending: &mut Pending,
    elder: &Elder,
    newer: &Newer<'_>,
) -> Result<Fate, RegFault>
    requires whole { IsRecord newer.now.bytes.now newer.now.marc }
    ensures inside { WorksInsideOf S.Store tx.old.conn tx.new.conn result }
    ensures supplants { OnRowsOf S.Store tx.old.conn tx.new.conn
        (Supplants setting.now progress.now.database.0 newer.now.ident.now newer.now.bytes.now
        elder.now (point (state S.Store tx.old.conn.now) pending.old progress.now.last)
        (point (state S.Store tx.new.conn.now) pending.new progress.now.last)
        (as_refusal register_refusal result)) }
{
    if has_bytes(elder, newer.bytes) {
        return Ok(Fate::Updated);
    }
    let old = elder_occurrences(setting, newer.ident, elder)?;
    let new = newer_occurrences(setting, newer)?;
    let sysno = elder.sysno;
    record_put(tx, progress.database, sysno, newer.ident, newer.bytes)?;
    note_keys(setting.alloc, pending, sysno, &old, &new)?;
    Ok(Fate::Updated)
}

/// The record is kept no longer.
fn withdraw<S: Alter>(
    tx: &mut Transaction<'_, S>,
    setting: &Setting<'_>,
    progress: &Progress,
    pending: &mut Pending,
    ident: &str,
    elder: &Elder,
) -> Result<Fate, RegFault>
    ensures inside { WorksInsideOf S.Store tx.old.conn tx.new.conn result }
    ensures withdraws { OnRowsOf S.Store tx.old.conn tx.new.conn
        (Withdraws setting.now progress.now.database.0 ident.now elder.now
        (point (state S.Store tx.old.conn.now) pending.old progress.now.last)
        (point (state S.Store tx.new.conn.now) pending.new progress.now.last)
        (as_refusal register_refusal result)) }
{
    let old = elder_occurrences(setting, ident, elder)?;
    let sysno = elder.sysno;
    record_take(tx, progress.database, sysno)?;
    note_keys(setting.alloc, pending, sysno, &old, &[])?;
    Ok(Fate::Deleted)
}

/// Does with a record what the change's kind says, beside its elder. `Unknown` is told of a `Delete` without one, `DatabaseFull` of a
/// new record where the limits leave no number; neither touches the tables, so the store and the memory can't fail then.
fn turn_record<S: Alter>(
    tx: &mut Transaction<'_, S>,
    setting: &Setting<'_>,
    progress: &mut Progress,
    pending: &mut Pending,
    elder: Option<Elder>,
    newer: &Newer<'_>,
    file: u64,
    nth: u64,
) -> Result<Fate, TurnFault>
    requires whole { IsRecord newer.now.bytes.now newer.now.marc }
    ensures inside { WorksInsideOf S.Store tx.old.conn tx.new.conn result }
    ensures steps { Steps setting.now.limits progress.old progress.new }
    ensures turns { OnRowsOf S.Store tx.old.conn tx.new.conn
        (TurnsRecord setting.now progress.old.database.0 file nth newer.now.ident.now
        newer.now.bytes.now setting.now.kind elder (point (state S.Store tx.old.conn.now)
        pending.old progress.old.last) (point (state S.Store tx.new.conn.now) pending.new
        progress.new.last) (as_refusal turn_refusal result)) }
{
    match (setting.kind, elder) {
        (Kind::Update, Some(elder)) => {
            Ok(replace(tx, setting, progress, pending, &elder, newer)?)
        }
        (Kind::Update, None) => {
            if progress.last >= setting.limits.numbers {
                return Err(TurnFault::DatabaseFull);
            }
            Ok(insert(tx, setting, progress, pending, newer)?)
        }
        (Kind::Delete, Some(elder)) => {
            Ok(withdraw(tx, setting, progress, pending, newer.ident, &elder)?)
        }
        (Kind::Adelete, Some(elder)) => {
            Ok(withdraw(tx, setting, progress, pending, newer.ident, &elder)?)
        }
        (Kind::Delete, None) => Err(TurnFault::Unknown { file, nth }),
        (Kind::Adelete, None) => Ok(Fate::PassedOver),
    }
}

/// The record that the bytes are, with its identifier under the profile.
fn sound_record<'a>(
    setting: &Setting<'_>,
    incoming: Incoming<'a>,
) -> Result<(Marc<'a>, String), IncomingFault>
    ensures reads { Answers TellsFailure
        (IsAtFault setting.now.profile.now incoming.entry.file incoming.entry.nth
        (incoming.entry.bytes.now ∷ []) None)
        (λ sound. IsRecord incoming.entry.bytes.now sound.0
        × (ident_in setting.now.profile.now incoming.entry.bytes.now ≡ Ok (string_bytes sound.1)))
        (as_refusal incoming_refusal result) }
{
    let Incoming { bytes, file, nth } = incoming;
    let record = match Marc::read(bytes) {
        Ok(record) => record,
        Err(fault) => {
            let fault = RecordFault::of_marc(fault);
            return Err(IncomingFault::Record { file, nth, fault });
        }
    };
    match identifier(setting.alloc, &record, setting.profile) {
        Ok(ident) => Ok((record, ident)),
        Err(fault) => Err(IncomingFault::of_identifier(file, nth, fault)),
    }
}

/// Does with one record what the change's kind says.
pub(crate) fn change_record<S: Alter>(
    tx: &mut Transaction<'_, S>,
    setting: &Setting<'_>,
    progress: &mut Progress,
    pending: &mut Pending,
    incoming: Incoming<'_>,
) -> Result<Fate, ChangeFault>
    ensures inside { WorksInsideOf S.Store tx.old.conn tx.new.conn result }
    ensures steps { Steps setting.now.limits progress.old progress.new }
    ensures changes { OnRowsOf S.Store tx.old.conn tx.new.conn
        (ChangesRecord setting.now progress.old.database.0 incoming.entry.file incoming.entry.nth
        incoming.entry.bytes.now (point (state S.Store tx.old.conn.now) pending.old
        progress.old.last) (point (state S.Store tx.new.conn.now) pending.new progress.new.last)
        (as_refusal change_refusal result)) }
{
    let Incoming { bytes, file, nth } = incoming;
    let (marc, named) = sound_record(setting, incoming)?;
    let ident = named.as_str();
    let elder = record_of_ident(tx, progress.database, ident)?;
    let newer = Newer { ident, bytes, marc };
    Ok(turn_record(tx, setting, progress, pending, elder, &newer, file, nth)?)
}
