//! The postings of one kept record, noted for registers that have none of it.

ghost use Rattle.std.specs.Prelude.{◌≡◌, ◌≤◌, ℤ, Err, OnOk};
ghost use Rattle.sqlite.specs.Tree.{Trees};
ghost use Rattle.zeb_register.specs.Content.{Content, IsStorable};
ghost use Rattle.zeb_register.specs.Formats.{Format};
ghost use Rattle.zeb_change.specs.Noted.{WillHold};
ghost use Rattle.zeb_change.specs.Occurs.{OccursIn};
ghost use Rattle.zeb_image.specs.Rebuilding.{IsSound};
ghost use Rattle.zeb_image.specs.PrivateChecking.{kept_of};
ghost use Rattle.zeb_image.specs.PrivateRebuilding.{IsRecordPosted, LacksRecord, WillHoldSuch};

use std::alloc::Global;
use zeb_change::{Limits, Pending, kept_occurrences, note_keys};
use zeb_profile::Profile;
use zeb_register::{Record, RegFault};

/// Notes the postings of a record, which has none in the registers once what was noted before is written.
///
/// `Damaged` where the record isn't one of ISO 2709 with the identifier that it is kept under, or its number isn't 1 to 999,999,999.
pub(crate) fn record_note(
    alloc: Global,
    profile: &Profile,
    pending: &mut Pending,
    kept: &Record,
) -> Result<(), RegFault>
    ensures sound { OnOk result (IsSound profile.now (kept_of kept.now)) }
    ensures number { OnOk result (kept.now.sysno ≤ 999999999) }
    ensures posted { OnOk result ((format : Format) (trees : Trees) (id : ℤ) (before : Content)
        → WillHold format trees id pending.old before
        → IsStorable before → LacksRecord id kept.now.sysno before
        → WillHoldSuch format trees id pending.new
        (IsRecordPosted id kept.now.sysno (OccursIn profile.now (kept_of kept.now)) before)) }
    ensures damaged { result ≡ Err RegFault.Damaged → ¬ IsSound profile.now (kept_of kept.now) }
{
    if kept.sysno < 1 || kept.sysno > Limits::GREATEST.numbers {
        return Err(RegFault::Damaged);
    }
    let found = kept_occurrences(alloc, profile, kept.ident.as_str(), &kept.bytes)?;
    note_keys(alloc, pending, kept.sysno, &[], &found)?;
    Ok(())
}
