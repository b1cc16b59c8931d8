//! The changes of keys that were noted and are not written yet.

ghost use Rattle.std.specs.Prelude.{◌≡◌, ◌≤◌, ◌↔◌, [], IsTrue, IfOk, OnOk, IfNone, IfSome};
ghost use Rattle.zeb_change.specs.Noted.{IsNothingNoted};
ghost use Rattle.zeb_change.specs.PrivatePending.{AreTakenOut, IsNotNoted, IsNotedAlso, IsTakenOut, change_in};

use crate::key_notes::{KeyNotes, PlaceCounts};
use std::alloc::{AllocError, Global};
use std::collections::BTreeMap;
use zeb_keys::{Key, order_is_by_parts};
use zeb_register::{Place, RecordChange};

/// With how many changes a run of keys is long enough. Out of its words a change takes some 80 bytes, eight times what it takes in them, and
/// its key 160 more. So a run takes 1 MB, where all that an update notes before it writes could take 920. A layout reads and writes at most
/// one row more a run.
const RUN_CHANGES: usize = 4096;

/// How many bytes a key takes in the map, whose nodes are two thirds full or more. Its term's bytes and the memory of words that its notes have no
/// room for are counted beside.
const KEY_WEIGHT: usize = size_of::<(Key, KeyNotes)>() * 3 / 2;

/// A key that is noted no longer, with its changes: of each its record and how many places it has, and the places of all, one behind the
/// other.
#[derive(Drop)]
pub(crate) struct TakenKey {
    pub key: Key,
    pub counts: Vec<PlaceCounts>,
    pub places: Vec<Place>,
}

/// The changes of a database's registers that were noted and are not written yet: for each key those of its records, in the order in
/// which they were noted.
#[derive(Drop)]
pub struct Pending {
    alloc: Global,
    notes: BTreeMap<Key, KeyNotes>,
    /// How many bytes they take: room for words that isn't used yet is counted too.
    weight: usize,
    /// How many they may take before they are to be written.
    most_weight: usize,
}

impl Pending {
    /// Nothing is noted. What is noted is to be written where it takes so many bytes.
    pub fn new(alloc: Global, most_weight: usize) -> Pending
        ensures { IsNothingNoted result }
    {
        Pending {
            alloc,
            notes: BTreeMap::new(alloc),
            weight: 0,
            most_weight,
        }
    }

    /// Whether so much is noted that it is to be written.
    pub(crate) fn is_full(&self) -> bool
        ensures { IsTrue result ↔ (self.now.most_weight ≤ self.now.weight) }
    {
        self.weight >= self.most_weight
    }

    /// Notes one more change of a key, behind those that are noted of it.
    pub(crate) fn note(&mut self, key: &Key, change: RecordChange<'_>) -> Result<(), AllocError>
        ensures { OnOk result (IsNotedAlso key.now (change_in change.entry) self.old self.new) }
    {
        order_is_by_parts();
        match self.notes.get_mut(key) {
            Some(notes) => {
                let more = notes.note(change)?;
                self.weight = self.weight.saturating_add(more);
                Ok(())
            }
            None => self.note_first(key, change),
        }
    }

    /// Notes the first change of a key.
    fn note_first(&mut self, key: &Key, change: RecordChange<'_>) -> Result<(), AllocError>
        ensures { IsNotNoted key.now self.old
            → OnOk result (IsNotedAlso key.now (change_in change.entry) self.old self.new) }
    {
        order_is_by_parts();
        let mut notes = KeyNotes::new(self.alloc);
        let more = notes.note(change)?;
        self.notes.insert(key.clone()?, notes)?;
        let term = key.term.as_str().len();
        self.weight = self
            .weight
            .saturating_add(KEY_WEIGHT)
            .saturating_add(term)
            .saturating_add(more);
        Ok(())
    }

    /// Takes out the least key with its changes; none where nothing is noted.
    fn take_first(&mut self) -> Option<(Key, KeyNotes)>
        ensures taken { IfSome result (λ first. IsTakenOut first.0 first.1 self.old self.new) }
        ensures none { IfNone result (IsNothingNoted self.old × IsNothingNoted self.new) }
    {
        order_is_by_parts();
        match self.notes.pop_first() {
            Some(first) => Some(first),
            None => {
                self.weight = 0;
                None
            }
        }
    }

    /// Takes out the least keys with their changes, up to the one with which these are enough for a run; all where they are fewer. None
    /// where nothing is noted.
    pub(crate) fn take_run(&mut self) -> Result<Vec<TakenKey>, AllocError>
        ensures taken { IfOk result (λ run. AreTakenOut run.items self.old self.new) }
        ensures none { IfOk result (λ run. run.items ≡ []
            → IsNothingNoted self.old × IsNothingNoted self.new) }
    {
        let mut run = Vec::new(self.alloc);
        let mut changes = 0;
        while let Some((key, notes)) = self.take_first() {
            let (counts, places) = notes.read(self.alloc)?;
            changes += counts.len();
            run.push(TakenKey {
                key,
                counts,
                places,
            })?;
            if changes >= RUN_CHANGES {
                return Ok(run);
            }
        }
        Ok(run)
    }
}
