//! One record's part of the postings of a key, with the places of a change put in the place of the old ones.

ghost use Rattle.std.specs.Prelude.{◌≡◌, ◌≢◌, ◌/◌, ◌++◌, ◌∷◌, ◌↔◌, [], List, IsTrue};
ghost use Rattle.std.specs.Prelude.{map, true, false, IfOk, OnOk};
ghost use Rattle.zeb_blocks.specs.Blocks.{LiesIn};
ghost use Rattle.zeb_blocks.specs.declared.postings.Posting.{Posting};
ghost use Rattle.zeb_register.specs.Answers.{Answers, IfRowDamaged};
ghost use Rattle.zeb_register.specs.Content.{places_in, posting_at};
ghost use Rattle.zeb_register.specs.PrivateRecordParts.{ComesLast, EndsBelow, IsParted};
ghost use Rattle.zeb_register.specs.UnitChanges.{IsStorableChange, TurnsPlaces};

use crate::RowFault;
use crate::registers::{Place, RecordChange};
use std::alloc::{AllocError, Global};
use zeb_blocks::Posting;

/// How many places more there is room for where postings are parted: a record mostly gets few more than it had, so that the list needs no
/// more memory while it is put together.
const MORE_PLACES: usize = 4;

/// Postings parted at a record: those of the records before it, its own places, and the postings of the records behind it.
#[derive(Drop)]
struct Parted {
    before: Vec<Posting>,
    own: Vec<Place>,
    behind: Vec<Posting>,
}

impl Parted {
    /// Puts a posting that stands behind the others.
    fn put(&mut self, posting: Posting, sysno: u64) -> Result<(), AllocError>
        ensures { OnOk result ((list : List Posting) → IsParted sysno list self.old
            → IsParted sysno (list ++ posting ∷ []) self.new) }
    {
        if posting.sysno < sysno {
            self.before.push(posting)?;
        } else if posting.sysno == sysno {
            self.own.push(Place {
                seq: posting.seq,
                pos: posting.pos,
            })?;
        } else {
            self.behind.push(posting)?;
        }
        Ok(())
    }
}

/// The postings of a list, parted at a record.
fn parted_at(alloc: Global, list: &[Posting], sysno: u64) -> Result<Parted, AllocError>
    ensures { IfOk result (λ parted. IsParted sysno list.now parted) }
{
    let mut parted = Parted {
        before: Vec::with_capacity(alloc, list.len().saturating_add(MORE_PLACES))?,
        own: Vec::new(alloc),
        behind: Vec::new(alloc),
    };
    for posting in list {
        parted.put(*posting, sysno)?;
    }
    Ok(parted)
}

/// Whether two lists have the same places, in the same order.
fn are_same(one: &[Place], two: &[Place]) -> bool
    ensures same { result ≡ true → one.now ≡ two.now }
    ensures other { result ≡ false → one.now ≢ two.now }
{
    one == two
}

/// A list with the places of a record behind it.
fn with_places(list: Vec<Posting>, sysno: u64, places: &[Place]) -> Result<Vec<Posting>, AllocError>
    ensures { IfOk result (λ next. next.items ≡ list.items ++ map (posting_at sysno) places.now) }
{
    let mut list = list;
    for place in places {
        list.push(Posting {
            sysno,
            seq: place.seq,
            pos: place.pos,
        })?;
    }
    Ok(list)
}

/// The postings before a record, those of its places, and those behind it.
fn joined(
    before: Vec<Posting>,
    sysno: u64,
    places: &[Place],
    behind: &[Posting],
) -> Result<Vec<Posting>, AllocError>
    ensures { IfOk result
        (λ list. list.items ≡ before.items ++ (map (posting_at sysno) places.now ++ behind.now)) }
{
    let mut list = with_places(before, sysno, places)?;
    list.extend_from_slice(behind)?;
    Ok(list)
}

/// Whether a list ends with a posting of a record below this one.
fn ends_below(list: &[Posting], sysno: u64) -> bool
    ensures { IsTrue result ↔ EndsBelow sysno list.now }
{
    match list.last() {
        Some(last) => last.sysno < sysno,
        None => false,
    }
}

/// Whether a change puts places of a record that had none behind all postings of a list that has some.
fn comes_last(list: &[Posting], change: &RecordChange<'_>) -> bool
    ensures { IsTrue result → ComesLast change.now list.now }
{
    change.old.is_empty() && ends_below(list, change.sysno)
}

/// The same as [`postings_changed`], where the record may have places among the others: all postings are copied.
fn postings_parted(
    alloc: Global,
    list: &[Posting],
    change: &RecordChange<'_>,
) -> Result<Vec<Posting>, RowFault>
    requires lies { LiesIn (change.now.sysno / 256) list.now }
    requires stored { IsStorableChange change.now }
    ensures turned { Answers
        (IfRowDamaged (places_in change.now.sysno list.now ≢ change.now.old.now))
        (λ next. TurnsPlaces change.now list.now next.items) result }
    ensures lies { IfOk result (λ next. LiesIn (change.now.sysno / 256) next.items) }
{
    let parted = parted_at(alloc, list, change.sysno)?;
    if !are_same(&parted.own, change.old) {
        return Err(RowFault::Damaged);
    }
    Ok(joined(parted.before, change.sysno, change.new, &parted.behind)?)
}

/// The postings of a block, with a record's places put in the place of its old ones. `Damaged` just where the record has other places than the
/// change says; beside that only memory can fail. New records mostly come behind all others: then no posting is copied.
pub fn postings_changed(
    alloc: Global,
    list: Vec<Posting>,
    change: &RecordChange<'_>,
) -> Result<Vec<Posting>, RowFault>
    requires lies { LiesIn (change.now.sysno / 256) list.items }
    requires stored { IsStorableChange change.now }
    ensures turned { Answers
        (IfRowDamaged (places_in change.now.sysno list.items ≢ change.now.old.now))
        (λ next. TurnsPlaces change.now list.items next.items) result }
    ensures lies { IfOk result (λ next. LiesIn (change.now.sysno / 256) next.items) }
{
    if comes_last(&list, change) {
        return Ok(with_places(list, change.sysno, change.new)?);
    }
    postings_parted(alloc, &list, change)
}
