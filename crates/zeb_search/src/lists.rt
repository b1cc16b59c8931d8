//! Lists that rise: of record numbers, and of postings.

ghost use Rattle.std.specs.Prelude.{◌≡◌, ◌++◌, ℕ, ◌<◌, ◌≤◌, ◌↔◌, IfOk, IsTrue, length, slice_index, slice_index_or};
ghost use Rattle.std.specs.List.Sorted.{IsStrictlySortedBy};
ghost use Rattle.std.specs.Ordering.{nat_cmp};
ghost use Rattle.sqlite_rules.specs.Lists.{Has};
ghost use Rattle.zeb_register.specs.Content.{posting_cmp, Posting};
ghost use Rattle.zeb_search.specs.Finds.{HasPosting};
ghost use Rattle.zeb_search.specs.Holds.{AreJoined};
ghost use Rattle.zeb_search.specs.Lists.{AreNumbers};
ghost use Rattle.zeb_search.specs.PrivateLists.{ArePostings};
ghost use Rattle.zeb_search.specs.PrivateWalks.{HasWithin, IsBefore, IsBehind, IsWithin, words_between, words_from};

use std::alloc::{AllocError, Global};
use std::cmp::Ordering;
use zeb_query::Operator;
use zeb_register::Posting;

/// The numbers in order, each once.
pub(crate) fn in_order(mut numbers: Vec<u64>) -> Vec<u64>
    ensures { AreNumbers (Has numbers.items) result.items }
{
    numbers.sort_unstable();
    numbers.dedup();
    numbers
}

/// The postings in order, each once.
pub(crate) fn postings_in_order(mut postings: Vec<Posting>) -> Vec<Posting>
    ensures { ArePostings (Has postings.items) result.items }
{
    postings.sort_unstable_by_key(|posting| (posting.sysno, posting.seq, posting.pos));
    postings.dedup();
    postings
}

/// One list behind the other: the second itself where the first is empty, since a long list takes time to copy.
pub(crate) fn postings_joined(
    first: Vec<Posting>,
    second: Vec<Posting>,
) -> Result<Vec<Posting>, AllocError>
    ensures { IfOk result (λ list. list.items ≡ first.items ++ second.items) }
{
    if first.is_empty() {
        return Ok(second);
    }
    let mut list = first;
    list.extend_from_slice(&second)?;
    Ok(list)
}

/// The numbers of the records that have a posting, each once; postings rise by number.
pub(crate) fn numbers_of(alloc: Global, postings: &[Posting]) -> Result<Vec<u64>, AllocError>
    ensures { IsStrictlySortedBy posting_cmp postings.now
        → IfOk result (λ numbers. AreNumbers (HasPosting postings.now) numbers.items) }
{
    let mut numbers: Vec<u64> = postings.iter().map(|posting| posting.sysno).collect(alloc)?;
    numbers.dedup();
    Ok(numbers)
}

/// The numbers of the records that have a posting, each once; the postings stand in any order.
pub(crate) fn numbers_among(alloc: Global, postings: &[Posting]) -> Result<Vec<u64>, AllocError>
    ensures { IfOk result (λ numbers. AreNumbers (HasPosting postings.now) numbers.items) }
{
    let mut numbers: Vec<u64> = postings.iter().map(|posting| posting.sysno).collect(alloc)?;
    // The postings of a record mostly stand together, and fewer numbers are sorted sooner.
    numbers.dedup();
    Ok(in_order(numbers))
}

/// Whether a number that may stand in each of two lists holds under an operator.
fn keeps(operator: Operator, in_left: bool, in_right: bool) -> bool
    ensures { IsTrue result ↔ AreJoined operator (IsTrue in_left) (IsTrue in_right) }
{
    match operator {
        Operator::And => in_left && in_right,
        Operator::Or => in_left || in_right,
        Operator::Not => in_left && !in_right,
    }
}

/// Whether the number at a place of one list is there, and not above the one at a place of another list.
fn stands_first(list: &[u64], place: usize, other: &[u64], other_place: usize) -> bool
    ensures { IsTrue result ↔ (place < length list.now)
        × (other_place < length other.now → slice_index list.now place ≤ slice_index other.now
        other_place) }
{
    place < list.len() && (other_place >= other.len() || list[place] <= other[other_place])
}

/// Two lists of numbers that rise, under an operator, in one walk over both.
pub(crate) fn joined(
    alloc: Global,
    operator: Operator,
    left: &[u64],
    right: &[u64],
) -> Result<Vec<u64>, AllocError>
    ensures { IsStrictlySortedBy nat_cmp left.now → IsStrictlySortedBy nat_cmp right.now
        → IfOk result (λ numbers. AreNumbers (λ n.
        AreJoined operator (Has left.now n) (Has right.now n)) numbers.items) }
{
    let mut numbers = Vec::new(alloc);
    let mut from_left = 0;
    let mut from_right = 0;
    while from_left < left.len() || from_right < right.len() {
        let in_left = stands_first(left, from_left, right, from_right);
        let in_right = stands_first(right, from_right, left, from_left);
        let number = if in_left {
            left[from_left]
        } else {
            right[from_right]
        };
        if keeps(operator, in_left, in_right) {
            numbers.push(number)?;
        }
        from_left += usize::from(in_left);
        from_right += usize::from(in_right);
    }
    Ok(numbers)
}

/// Numbers of words from one word to another: `least` or more, and `greatest` or less where there is one.
#[derive(Clone, Copy)]
pub(crate) struct Words {
    pub least: u64,
    pub greatest: Option<u64>,
}

impl Words {
    /// `least` to `greatest`; none where `greatest` is below `least`.
    pub(crate) fn between(least: u64, greatest: u64) -> Self
        ensures { result ≡ words_between least greatest }
    {
        let greatest = Some(greatest);
        Words { least, greatest }
    }

    /// `least` or more.
    pub(crate) fn at_least(least: u64) -> Self
        ensures { result ≡ words_from least }
    {
        let greatest = None;
        Words { least, greatest }
    }

    /// Whether the number of words is one of these.
    fn has(self, words: u64) -> bool
        ensures { IsTrue result ↔ IsWithin self words }
    {
        match self.greatest {
            None => self.least <= words,
            Some(greatest) => self.least <= words && words <= greatest,
        }
    }
}

/// Whether the other posting stands before the place that is `least` words behind a posting.
fn stands_before(other: &Posting, posting: &Posting, least: u64) -> bool
    ensures { IsTrue result ↔ IsBefore least other.now posting.now }
{
    match (other.sysno, other.seq).cmp(&(posting.sysno, posting.seq)) {
        Ordering::Less => true,
        Ordering::Equal => other.pos < posting.pos || other.pos - posting.pos < least,
        Ordering::Greater => false,
    }
}

/// Whether the other posting stands behind a posting in the same unit, so many words.
fn stands_behind(other: &Posting, posting: &Posting, words: Words) -> bool
    ensures { IsTrue result ↔ IsBehind words other.now posting.now }
{
    other.sysno == posting.sysno
        && other.seq == posting.seq
        && other.pos >= posting.pos
        && words.has(other.pos - posting.pos)
}

/// The index of the first of the others, `from` or above, that doesn't stand before the place `least` words behind a posting.
fn first_from(others: &[Posting], from: usize, posting: &Posting, least: u64) -> usize
    requires { from ≤ length others.now }
    ensures bounds { (from ≤ result) × (result ≤ length others.now) }
    ensures before { (k : ℕ) (d : Posting) → from ≤ k → k < result
        → IsBefore least (slice_index_or others.now k d) posting.now }
    ensures first { (d : Posting) → result < length others.now
        → ¬ IsBefore least (slice_index_or others.now result d) posting.now }
{
    let mut at = from;
    while at < others.len() && stands_before(&others[at], posting, least) {
        at += 1;
    }
    at
}

/// Those of the postings behind which one of the others stands in the same unit, so many words, in one walk over both lists, which rise.
pub(crate) fn with_one_within(
    alloc: Global,
    postings: &[Posting],
    others: &[Posting],
    words: Words,
) -> Result<Vec<Posting>, AllocError>
    ensures { IsStrictlySortedBy posting_cmp postings.now
        → IsStrictlySortedBy posting_cmp others.now
        → IfOk result (λ list. ArePostings (λ p. Has postings.now p × HasWithin words others.now p)
        list.items) }
{
    let mut list = Vec::new(alloc);
    // Since the postings rise, the places that are looked for rise too, and the index into the others only goes forward.
    let mut at = 0;
    for posting in postings {
        at = first_from(others, at, posting, words.least);
        if at < others.len() && stands_behind(&others[at], posting, words) {
            list.push(*posting)?;
        }
    }
    Ok(list)
}
