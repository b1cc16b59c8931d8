//! Between which terms of a register those stand that a step of a search asks for, in the order of their bytes.

ghost use Rattle.std.specs.Prelude.{◌<◌, ◌++◌, ℕ, List, IfOk, IsTrue, string_bytes};
ghost use Rattle.zeb_search.specs.Comparing.{Precedes, Stands, StandsInOrder};
ghost use Rattle.zeb_search.specs.Holds.{IsNumberAt};
ghost use Rattle.zeb_search.specs.PrivateTerms.{BeginsAt, EndsAt};

use crate::terms::{KEYS_END, Wanted};
use std::alloc::{AllocError, Global};
use zeb_query::Relation;
use zeb_register::for_layouts::text_above;
use zeb_text::{key_of_number, number_of_key};

impl Wanted<'_> {
    /// Whether terms from the register's first to its last may be asked for.
    pub(crate) fn spans_register(&self) -> bool {
        match self {
            Wanted::All => true,
            Wanted::Matching(pattern) => pattern.prefix().is_empty(),
            Wanted::Number(..) | Wanted::Text(..) => false,
        }
    }

    /// A text before which no term is asked for.
    pub(crate) fn start(&self, alloc: Global) -> Result<String, AllocError>
        ensures { IfOk result (λ start. BeginsAt self.now (string_bytes start)) }
    {
        match self {
            Wanted::All => Ok(String::new(alloc)),
            Wanted::Matching(pattern) => String::from_str(alloc, pattern.prefix()),
            Wanted::Number(relation, number) => first_key(alloc, *relation, *number),
            Wanted::Text(relation, text) => first_text(alloc, *relation, text),
        }
    }

    /// Whether no term behind this one is asked for.
    pub(crate) fn ends_at(&self, term: &str) -> bool
        ensures { IsTrue result → EndsAt self.now term.now }
    {
        match self {
            Wanted::All => false,
            Wanted::Matching(pattern) => is_past(term, pattern.prefix()),
            Wanted::Number(relation, number) => match number_of_key(term) {
                Some(value) => is_last_number(*relation, value, *number),
                None => false,
            },
            Wanted::Text(relation, text) => is_last_text(*relation, term, text),
        }
    }
}

/// A text before which no key stands of a number in the relation to this one.
fn first_key(alloc: Global, relation: Relation, number: u64) -> Result<String, AllocError>
    ensures { IfOk result (λ start. (term : List ℕ) → IsNumberAt relation number term
        → ¬ Precedes term (string_bytes start)) }
{
    let least = number.min(KEYS_END - 1);
    match relation {
        Relation::Less | Relation::LessOrEqual => Ok(String::new(alloc)),
        Relation::Equal | Relation::GreaterOrEqual => key_of_number(alloc, least),
        Relation::Greater => text_above(alloc, key_of_number(alloc, least)?.as_str()),
    }
}

/// A text before which no text stands so to this one.
fn first_text(alloc: Global, relation: Relation, text: &str) -> Result<String, AllocError>
    ensures { IfOk result (λ start. (term : List ℕ) → StandsInOrder relation term text.now
        → ¬ Precedes term (string_bytes start)) }
{
    match relation {
        Relation::Less | Relation::LessOrEqual => Ok(String::new(alloc)),
        Relation::Equal | Relation::GreaterOrEqual => String::from_str(alloc, text),
        Relation::Greater => text_above(alloc, text),
    }
}

/// Whether no text that begins with the front comes behind this one.
fn is_past(text: &str, front: &str) -> bool
    ensures { IsTrue result → (rest : List ℕ) → ¬ Precedes text.now (front.now ++ rest) }
{
    text.cmp(front).is_gt() && !text.starts_with(front)
}

/// Whether no number above the value stands in the relation to the other number.
fn is_last_number(relation: Relation, value: u64, number: u64) -> bool
    ensures { IsTrue result → (above : ℕ) → value < above → ¬ Stands relation above number }
{
    match relation {
        Relation::Less | Relation::LessOrEqual | Relation::Equal => value >= number,
        Relation::GreaterOrEqual | Relation::Greater => false,
    }
}

/// Whether no text behind the first one stands so to the other.
fn is_last_text(relation: Relation, text: &str, other: &str) -> bool
    ensures { IsTrue result → (behind : List ℕ) → Precedes text.now behind
        → ¬ StandsInOrder relation behind other.now }
{
    match relation {
        Relation::Less | Relation::LessOrEqual | Relation::Equal => text.cmp(other).is_ge(),
        Relation::GreaterOrEqual | Relation::Greater => false,
    }
}
