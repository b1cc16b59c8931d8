//! What the packed tables hold of a key in one block, and what they hold of it after records' places are changed.

ghost use Rattle.std.specs.Prelude.{◌≡◌, ◌≢◌, ◌≤◌, [], ℕ, true, false, MatchOption};
ghost use Rattle.zeb_blocks.specs.Blocks.{LiesIn};
ghost use Rattle.zeb_register.specs.PrivatePackedRows.{IsInBlock};
ghost use Rattle.zeb_register.specs.Formats.{packed_blocks};
ghost use Rattle.zeb_packed.specs.PrivateUnitCalls.{AreOfBlock, TurnsHeld};
ghost use Rattle.zeb_register.specs.UnitChanges.{CountsOn, IsStorableChange, TurnsUnit, TurnsUnits};

use crate::packed::MOST_RECORDS;
use zeb_blocks::Posting;
use zeb_register::for_layouts::postings_changed;
use zeb_register::{Place, RecordChange, RegFault};

/// What the tables hold of a key: its postings in one block, and how many records have it at all.
#[derive(Drop)]
pub(crate) struct KeyBlock {
    pub(crate) block: u64,
    pub(crate) list: Vec<Posting>,
    pub(crate) records: u64,
}

impl KeyBlock {
    /// What is held after changes of records of the block, one after the other.
    ///
    /// `Damaged` where a record has other places than the change says, or where the number of the records that have the key can't follow: it
    /// is 0 though the block has a posting, none is left to take from, or it would pass 999,999,999.
    pub(crate) fn changed_by(self, changes: &[RecordChange<'_>]) -> Result<KeyBlock, RegFault>
        requires lies { LiesIn self.block self.list.items }
        requires changes { AreOfBlock self.block self.records changes.now }
        ensures { TurnsHeld (TurnsUnits packed_blocks changes.now) self result }
    {
        let mut held = self;
        for change in changes {
            held = held.changed(change)?;
        }
        Ok(held)
    }

    /// What is held after a change of a record of the block. `Damaged` as [`KeyBlock::changed_by`].
    fn changed(self, change: &RecordChange<'_>) -> Result<KeyBlock, RegFault>
        requires lies { LiesIn self.block self.list.items }
        requires inside { IsInBlock self.block change.now }
        requires stored { IsStorableChange change.now }
        requires few { self.records ≤ 999999999 }
        ensures { TurnsHeld (TurnsUnit packed_blocks change.now) self result }
    {
        if self.lacks_records() {
            return Err(RegFault::Damaged);
        }
        let list = postings_changed(*self.list.allocator(), self.list, change)?;
        let Some(records) = records_after(self.records, change.old, change.new) else {
            return Err(RegFault::Damaged);
        };
        let held = KeyBlock {
            block: self.block,
            list,
            records,
        };
        if held.lacks_records() {
            return Err(RegFault::Damaged);
        }
        Ok(held)
    }

    /// Whether no record has the key, though it has a posting.
    fn lacks_records(&self) -> bool
        ensures lacks { result ≡ true → (self.now.records ≡ 0) × (self.now.list.items ≢ []) }
        ensures has { result ≡ false → self.now.list.items ≢ [] → 1 ≤ self.now.records }
    {
        self.records == 0 && !self.list.is_empty()
    }
}

/// How many records have a key after one record's places are changed; `None` where none had it, and this one did, or where a database has
/// no numbers for so many.
fn records_after(records: u64, old: &[Place], new: &[Place]) -> Option<u64>
    requires { records ≤ 999999999 }
    ensures { MatchOption result
        ((after : ℕ) → CountsOn old.now new.now records after → ¬ (after ≤ 999999999))
        (λ after. CountsOn old.now new.now records after × (after ≤ 999999999)) }
{
    match (old.is_empty(), new.is_empty()) {
        (true, false) if records == MOST_RECORDS => None,
        (true, false) => Some(records + 1),
        (false, true) => records.checked_sub(1),
        _ => Some(records),
    }
}
