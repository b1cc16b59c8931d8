//! What becomes of the keys of one record, noted to be written later.

ghost use Rattle.std.specs.Prelude.{◌≡◌, map, OnOk};
ghost use Rattle.zeb_keys.specs.Order.{IsRising};
ghost use Rattle.zeb_change.specs.NotedKeys.{NotesKeys};
ghost use Rattle.zeb_change.specs.PrivateChangedKeys.{place_in};

use crate::changed_keys::changed_keys;
use crate::pending::Pending;
use std::alloc::{AllocError, Global};
use zeb_keys::Occurrence;
use zeb_register::{Place, RecordChange};

/// Puts the places of occurrences, in their order, in the place of those that the list has. Its memory is used again.
fn set_places(places: &mut Vec<Place>, occurrences: &[Occurrence]) -> Result<(), AllocError>
    ensures { OnOk result (places.new.items ≡ map place_in occurrences.now) }
{
    places.clear();
    for occurrence in occurrences {
        places.push(Place {
            seq: occurrence.seq,
            pos: occurrence.pos,
        })?;
    }
    Ok(())
}

/// Notes what becomes of just those keys whose places differ between two rising lists of occurrences, in the record with this number: the
/// elder list stands in the registers once what was noted before is written, and the newer one is to stand there. Where there is no elder
/// record, or no newer one, its list is empty.
///
/// An error is want of memory. Some of the keys may be noted then.
pub fn note_keys(
    alloc: Global,
    pending: &mut Pending,
    sysno: u64,
    elder: &[Occurrence],
    newer: &[Occurrence],
) -> Result<(), AllocError>
    ensures { IsRising elder.now → IsRising newer.now
        → OnOk result (NotesKeys sysno elder.now newer.now pending.old pending.new) }
{
    let changed_keys = changed_keys(alloc, elder, newer)?;
    let mut old_places = Vec::new(alloc);
    let mut new_places = Vec::new(alloc);
    for changed in changed_keys {
        set_places(&mut old_places, changed.old)?;
        set_places(&mut new_places, changed.new)?;
        let change = RecordChange {
            sysno,
            old: &old_places,
            new: &new_places,
        };
        pending.note(changed.key, change)?;
    }
    Ok(())
}
