//! The noted changes of one key.

ghost use Rattle.std.specs.Prelude.{◌≡◌, ◌+◌, ◌++◌, [], List, IfOk, OnOk, length, map};
ghost use Rattle.zeb_change.specs.NoteWords.{KeyChange, change_words};
ghost use Rattle.zeb_change.specs.Noted.{IsNotedIn};
ghost use Rattle.zeb_change.specs.PrivateNoteWords.{TakesChange, counts_in, places_in};
ghost use Rattle.zeb_change.specs.PrivatePending.{change_in};

use crate::words::{Words, put_number, put_places, take_number, take_places};
use std::alloc::{AllocError, Global};
use zeb_register::{Place, RecordChange};

/// A changed record by its number, and how many places a key has in it before the change and after it.
#[derive(Clone, Copy)]
pub(crate) struct PlaceCounts {
    pub sysno: u64,
    pub old: u64,
    pub new: u64,
}

/// The changes of one key, in the order in which they were noted: how many, and the words that they take.
///
/// A change of one place takes some ten bytes so, of which there are many in memory at a time.
#[derive(Drop)]
pub struct KeyNotes {
    count: u64,
    words: Words,
}

impl KeyNotes {
    /// No change is noted.
    pub(crate) fn new(alloc: Global) -> KeyNotes
        ensures { (result.count ≡ 0) × (result.words.items ≡ []) }
    {
        KeyNotes {
            count: 0,
            words: Words::new(alloc),
        }
    }

    /// Notes one more change; answers how many bytes more are taken.
    pub(crate) fn note(&mut self, change: RecordChange<'_>) -> Result<usize, AllocError>
        ensures count { OnOk result (self.new.count ≡ self.old.count + 1) }
        ensures words { OnOk result (self.new.words.items
            ≡ self.old.words.items ++ change_words (change_in change.entry)) }
    {
        let room = self.words.capacity();
        self.count = self.count.checked_add(1).ok_or(AllocError)?;
        put_number(&mut self.words, change.sysno)?;
        put_number(&mut self.words, change.old.len() as u64)?;
        put_number(&mut self.words, change.new.len() as u64)?;
        put_places(&mut self.words, change.old)?;
        put_places(&mut self.words, change.new)?;
        Ok(self.words.capacity().saturating_sub(room).saturating_mul(2))
    }

    /// Of each change its record and how many places it has, and the places of all, one behind the other.
    pub(crate) fn read(&self, alloc: Global) -> Result<(Vec<PlaceCounts>, Vec<Place>), AllocError>
        ensures many { IfOk result (λ read. length read.0.items ≡ self.now.count) }
        ensures told { IfOk result (λ read. (changes : List KeyChange) → IsNotedIn self.now changes
            → (read.0.items ≡ map counts_in changes) × (read.1.items ≡ places_in changes)) }
    {
        let mut counts = Vec::with_capacity(alloc, self.count as usize)?;
        let mut places = Vec::with_capacity(alloc, self.count as usize)?;
        let mut left = self.words.as_slice();
        for _ in 0..self.count {
            left = take_change(left, &mut counts, &mut places)?;
        }
        Ok((counts, places))
    }
}

/// Takes a change from the front of the words, and puts it behind others; answers what is left of the words.
fn take_change<'a>(
    words: &'a [u16],
    counts: &mut Vec<PlaceCounts>,
    places: &mut Vec<Place>,
) -> Result<&'a [u16], AllocError>
    ensures one { OnOk result (length counts.new.items ≡ length counts.old.items + 1) }
    ensures told { IfOk result (λ left. TakesChange words.now left.now counts.old.items
        counts.new.items places.old.items places.new.items) }
{
    let (sysno, left) = take_number(words);
    let (old, left) = take_number(left);
    let (new, left) = take_number(left);
    let left = take_places(left, old, places)?;
    let left = take_places(left, new, places)?;
    counts.push(PlaceCounts { sysno, old, new })?;
    Ok(left)
}
