//! Words near each other in one unit (ANSI/NISO Z39.50-2003, the proximity operator).

ghost use Rattle.std.specs.Prelude.{◌⊎◌, ◌↔◌, ◌<◌, ◌^◌, ℕ, IfOk, OnOk};
ghost use Rattle.std.specs.List.Sorted.{IsStrictlySortedBy};
ghost use Rattle.sqlite_rules.specs.Lists.{Has};
ghost use Rattle.zeb_register.specs.Content.{posting_cmp};
ghost use Rattle.zeb_search.specs.Comparing.{IsDistant};
ghost use Rattle.zeb_search.specs.Lists.{AreNumbers};
ghost use Rattle.zeb_search.specs.Finds.{IsNear};
ghost use Rattle.zeb_search.specs.PrivateWalks.{IsFollowed, IsNearBy, IsWithin, IsWithinSome};

use crate::lists::{Words, in_order, numbers_of, with_one_within};
use std::alloc::{AllocError, Global};
use zeb_query::{DistanceRelation, Separation};
use zeb_register::Posting;

/// The numbers of words, from 1 on, that stand in the relation to a distance, in one or two ranges.
fn ranges(relation: DistanceRelation, distance: u64) -> (Words, Option<Words>)
    requires { distance < 10 ^ 9 }
    ensures { (words : ℕ) → ((0 < words) × IsDistant relation words distance) ↔
        (IsWithin result.0 words ⊎ IsWithinSome result.1 words) }
{
    let below = Words::between(1, distance.saturating_sub(1));
    let above = Words::at_least(distance + 1);
    // A distance of 0 is none: two words are at distance 1 at least.
    let same = distance.max(1);
    match relation {
        DistanceRelation::Less => (below, None),
        DistanceRelation::LessOrEqual => (Words::between(1, distance), None),
        DistanceRelation::Equal => (Words::between(same, distance), None),
        DistanceRelation::GreaterOrEqual => (Words::at_least(same), None),
        DistanceRelation::Greater => (above, None),
        DistanceRelation::NotEqual => (below, Some(above)),
    }
}

/// Adds the numbers of the records in which one of the others stands behind one of the postings in one unit, so many words. Both rise.
fn add_followed(
    alloc: Global,
    numbers: &mut Vec<u64>,
    postings: &[Posting],
    others: &[Posting],
    words: Words,
) -> Result<(), AllocError>
    ensures { IsStrictlySortedBy posting_cmp postings.now
        → IsStrictlySortedBy posting_cmp others.now
        → OnOk result ((n : ℕ) → Has numbers.new.items n ↔ (Has numbers.old.items n
        ⊎ IsFollowed words postings.now others.now n)) }
{
    let found = with_one_within(alloc, postings, others, words)?;
    let more = numbers_of(alloc, &found)?;
    numbers.extend_from_slice(&more)
}

/// Adds the numbers of the records in which a posting of the right list stands so many words behind one of the left list in one unit,
/// or before it, where the order doesn't matter. Both rise.
fn add_near(
    alloc: Global,
    numbers: &mut Vec<u64>,
    left: &[Posting],
    right: &[Posting],
    ordered: bool,
    words: Words,
) -> Result<(), AllocError>
    ensures { IsStrictlySortedBy posting_cmp left.now → IsStrictlySortedBy posting_cmp right.now
        → OnOk result ((n : ℕ) → Has numbers.new.items n ↔ (Has numbers.old.items n
        ⊎ IsNearBy ordered words left.now right.now n)) }
{
    add_followed(alloc, numbers, left, right, words)?;
    if !ordered {
        add_followed(alloc, numbers, right, left, words)?;
    }
    Ok(())
}

/// The numbers of the records in which a posting of the left list and one of the right list are separated so, in one unit. Both rise.
pub(crate) fn near(
    alloc: Global,
    left: &[Posting],
    right: &[Posting],
    separation: &Separation,
) -> Result<Vec<u64>, AllocError>
    requires { separation.now.distance < 10 ^ 9 }
    ensures { IsStrictlySortedBy posting_cmp left.now → IsStrictlySortedBy posting_cmp right.now
        → IfOk result (λ numbers. AreNumbers (IsNear separation.now left.now right.now)
        numbers.items) }
{
    let ordered = separation.ordered;
    let distance = separation.distance as u64;
    let (words, more_words) = ranges(separation.relation, distance);
    let mut numbers = Vec::new(alloc);
    add_near(alloc, &mut numbers, left, right, ordered, words)?;
    if let Some(more_words) = more_words {
        add_near(alloc, &mut numbers, left, right, ordered, more_words)?;
    }
    Ok(in_order(numbers))
}
