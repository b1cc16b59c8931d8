//! The postings of records, put in order. Most are told apart by a number that stands beside each, and not by their terms, which lie far
//! apart in memory.

ghost use Rattle.std.specs.Prelude.{◌≡◌, ◌++◌, map, IfOk, OnOk};
ghost use Rattle.std.specs.List.Sorted.{IsPermutation};
ghost use Rattle.zeb_image.specs.PrivateChecking.{bare, posting_of};

use std::alloc::{AllocError, Global};
use std::cmp::Ordering;
use zeb_keys::Occurrence;
use zeb_register::{KeyPosting, Posting};

/// So many bytes of a term make its number.
const FRONT: usize = 8;

/// How much room a list that is taken apart may keep unused: 65,536 postings, 4 MB.
const SPARE: usize = 65_536;

/// A posting under its key, and the first eight bytes of the key's term as a number, with zeros behind a shorter term.
#[derive(Drop)]
pub(crate) struct Fronted {
    front: u64,
    pub(crate) bare: KeyPosting,
}

/// Adds the postings that a record with this number has by its occurrences.
pub(crate) fn add_postings(
    postings: &mut Vec<Fronted>,
    sysno: u64,
    found: Vec<Occurrence>,
) -> Result<(), AllocError>
    ensures { OnOk result (map bare postings.new.items ≡ map bare postings.old.items ++ map
        (posting_of sysno) found.items) }
{
    for occurrence in found {
        let Occurrence { key, seq, pos } = occurrence;
        let front = front_of(key.term.as_str());
        let posting = Posting { sysno, seq, pos };
        let bare = KeyPosting { key, posting };
        postings.push(Fronted { front, bare })?;
    }
    Ok(())
}

/// The first eight bytes of a text as a number, with zeros behind a shorter text.
fn front_of(text: &str) -> u64 {
    let bytes = text.as_bytes();
    let mut front: u64 = 0;
    for at in 0..FRONT {
        let byte = bytes.get(at).copied().unwrap_or(0);
        front = front.wrapping_mul(256).wrapping_add(u64::from(byte));
    }
    front
}

/// The postings with their numbers, in the order of what the postings are.
pub(crate) fn sorted(mut postings: Vec<Fronted>) -> Vec<Fronted>
    ensures { IsPermutation postings.items result.items }
{
    postings.sort_unstable_by(by_fronts);
    postings
}

/// By index, register and number, and where these are the same by the rest.
fn by_fronts(one: &Fronted, two: &Fronted) -> Ordering {
    let (key, other) = (&one.bare.key, &two.bare.key);
    let by_numbers = key
        .index
        .cmp(&other.index)
        .then(key.register.cmp(&other.register))
        .then(one.front.cmp(&two.front));
    match by_numbers {
        Ordering::Equal => by_rest(&one.bare, &two.bare),
        Ordering::Less | Ordering::Greater => by_numbers,
    }
}

/// By term, system number, unit and place, where the numbers of the terms are the same: a term that has no more bytes than its number
/// is told apart by its length.
fn by_rest(one: &KeyPosting, two: &KeyPosting) -> Ordering {
    let (term, other) = (one.key.term.as_str(), two.key.term.as_str());
    let by_term = if term.len() <= FRONT && other.len() <= FRONT {
        term.len().cmp(&other.len())
    } else {
        term.cmp(other)
    };
    by_term
        .then(one.posting.sysno.cmp(&two.posting.sysno))
        .then(one.posting.seq.cmp(&two.posting.seq))
        .then(one.posting.pos.cmp(&two.posting.pos))
}

/// The postings without their numbers, in their order. Taken from the end, so that what they leave is given back meanwhile.
pub(crate) fn without_fronts(
    alloc: Global,
    mut fronted: Vec<Fronted>,
) -> Result<Vec<KeyPosting>, AllocError>
    ensures { IfOk result (λ postings. postings.items ≡ map bare fronted.items) }
{
    let mut postings = Vec::with_capacity(alloc, fronted.len())?;
    while let Some(last) = fronted.pop() {
        postings.push(last.bare)?;
        give_back(&mut fronted);
    }
    postings.reverse();
    Ok(postings)
}

/// Gives the room that a list leaves unused back, where that is much.
fn give_back(fronted: &mut Vec<Fronted>)
    ensures { fronted.new.items ≡ fronted.old.items }
{
    if fronted.capacity().saturating_sub(fronted.len()) > SPARE {
        fronted.shrink_to_fit();
    }
}
