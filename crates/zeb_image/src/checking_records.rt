//! Whether a database can keep its records, and the postings that these have.

ghost use Rattle.std.specs.Prelude.{◌≡◌, ◌↔◌, map, IsTrue, IfOk};
ghost use Rattle.std.specs.List.Sorted.{IsStrictlySortedBy};
ghost use Rattle.sqlite_rules.specs.Lists.{Has};
ghost use Rattle.zeb_marc.specs.Contents.{units_of};
ghost use Rattle.zeb_extract.specs.Identifier.{identifier_of};
ghost use Rattle.zeb_register.specs.declared.expected.KeyPosting.{KeyPosting};
ghost use Rattle.zeb_register.specs.Expected.{key_posting_order};
ghost use Rattle.zeb_image.specs.PrivateChecking.{AreOccurrencesOrNone, ArePostingsOrNone, bare};

use crate::fronted::{Fronted, add_postings, sorted, without_fronts};
use std::alloc::{AllocError, Global};
use std::cmp::Ordering;
use zeb_extract::{IdentFault, identifier, occurrences};
use zeb_keys::{Occurrence, order_is_by_parts};
use zeb_marc::Marc;
use zeb_profile::Profile;
use zeb_register::{KeyPosting, Record};

/// The postings of records, each once and rising by key, system number, unit and place; or `None` where one isn't a whole record that a
/// database with this last number keeps under its identifier.
pub(crate) fn postings_of(
    alloc: Global,
    profile: &Profile,
    last: u64,
    records: &[Record],
) -> Result<Option<Vec<KeyPosting>>, AllocError>
    ensures { IfOk result (ArePostingsOrNone profile.now last records.now) }
{
    let mut postings = Vec::new(alloc);
    for kept in records {
        let Some(found) = occurrences_of(alloc, profile, last, kept)? else {
            return Ok(None);
        };
        add_postings(&mut postings, kept.sysno, found)?;
    }
    Ok(Some(in_order(alloc, postings)?))
}

/// The occurrences of a record, or `None` where it isn't a whole record that a database with this last number keeps under its identifier.
fn occurrences_of(
    alloc: Global,
    profile: &Profile,
    last: u64,
    kept: &Record,
) -> Result<Option<Vec<Occurrence>>, AllocError>
    ensures { IfOk result (AreOccurrencesOrNone profile.now last kept.now) }
{
    if kept.sysno == 0 || kept.sysno > last {
        return Ok(None);
    }
    let Ok(marc) = Marc::read(&kept.bytes) else {
        return Ok(None);
    };
    if !is_named(alloc, &marc, profile, kept.ident.as_str())? {
        return Ok(None);
    }
    Ok(Some(occurrences(alloc, &marc, profile)?))
}

/// Whether the profile finds this identifier in a record.
fn is_named(
    alloc: Global,
    marc: &Marc<'_>,
    profile: &Profile,
    ident: &str,
) -> Result<bool, AllocError>
    ensures { IfOk result (λ it. IsTrue it ↔ (identifier_of profile.now (units_of marc.now) ≡ Ok
        ident.now)) }
{
    match identifier(alloc, marc, profile) {
        Ok(found) => Ok(found.as_str() == ident),
        Err(IdentFault::Memory) => Err(AllocError),
        Err(IdentFault::NoIdentifier | IdentFault::BadIdentifier) => Ok(false),
    }
}

/// The postings rising by key, system number, unit and place, each once.
fn in_order(alloc: Global, postings: Vec<Fronted>) -> Result<Vec<KeyPosting>, AllocError>
    ensures rising { IfOk result (λ list. IsStrictlySortedBy key_posting_order list.items) }
    ensures members { IfOk result (λ list. (it : KeyPosting)
        → Has list.items it ↔ Has (map bare postings.items) it) }
{
    let mut list = without_fronts(alloc, sorted(postings))?;
    // That the list is in order here isn't proved. Where it is, a sort sees so by one look at each posting.
    list.sort_unstable_by(compare);
    list.dedup();
    Ok(list)
}

/// By key, then system number, unit and place.
fn compare(one: &KeyPosting, two: &KeyPosting) -> Ordering
    ensures { result ≡ key_posting_order one.now two.now }
{
    order_is_by_parts();
    one.key
        .cmp(&two.key)
        .then(one.posting.sysno.cmp(&two.posting.sysno))
        .then(one.posting.seq.cmp(&two.posting.seq))
        .then(one.posting.pos.cmp(&two.posting.pos))
}
