//! Which changes of records' places the registers store.

ghost use Rattle.std.specs.Prelude.{◌≡◌, ◌≤◌, IfErr, OnOk};
ghost use Rattle.std.specs.declared.cmp.Ordering.TheVariants.{Less};
ghost use Rattle.std.specs.List.{AllByRecursion};
ghost use Rattle.zeb_register.specs.Content.{AreStorablePlaces, IsStorablePlace, place_cmp};
ghost use Rattle.zeb_register.specs.UnitChanges.{IsStorableChange};

use crate::RegFault;
use crate::registers::{Place, RecordChange};
use crate::values::stored;

/// The greatest system number of a record.
const GREATEST_NUMBER: u64 = 999_999_999;

/// Refuses changes that no row has, as `Store`: one with a number of 0 or above 999,999,999, and one to places that don't rise.
pub fn check_changes(changes: &[RecordChange<'_>]) -> Result<(), RegFault>
    ensures stored { OnOk result (AllByRecursion IsStorableChange changes.now) }
    ensures refused { IfErr result (λ fault. fault ≡ RegFault.Store) }
{
    for change in changes {
        check_numbers(change.sysno, change.new)?;
    }
    Ok(())
}

/// Refuses what no row has, as `Store`: a number that no record has, and places that don't rise.
fn check_numbers(sysno: u64, places: &[Place]) -> Result<(), RegFault>
    ensures number { OnOk result ((1 ≤ sysno) × (sysno ≤ 999999999)) }
    ensures stored { OnOk result (AreStorablePlaces places.now) }
    ensures refused { IfErr result (λ fault. fault ≡ RegFault.Store) }
{
    if sysno == 0 || sysno > GREATEST_NUMBER {
        return Err(RegFault::Store);
    }
    let mut before = Place { seq: 0, pos: 0 };
    for place in places {
        check_place(before, *place)?;
        before = *place;
    }
    Ok(())
}

/// Refuses a place that isn't above the one before it, or that no column stores.
fn check_place(before: Place, place: Place) -> Result<(), RegFault>
    ensures ok { OnOk result (IsStorablePlace place × (place_cmp before place ≡ Less)) }
    ensures refused { IfErr result (λ fault. fault ≡ RegFault.Store) }
{
    stored(place.seq)?;
    stored(place.pos)?;
    let rises = before.seq < place.seq || (before.seq == place.seq && before.pos < place.pos);
    if place.seq == 0 || place.pos == 0 || !rises {
        return Err(RegFault::Store);
    }
    Ok(())
}
