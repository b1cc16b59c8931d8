//! Which terms of a register a step of a search asks for.

ghost use Rattle.std.specs.Prelude.{◌≡◌, ◌↔◌, ℕ, List, IfOk, IfNone, IfSome, IsTrue};
ghost use Rattle.zeb_search.specs.Comparing.{Stands, StandsInOrder};
ghost use Rattle.zeb_search.specs.SearchCounts.{IsOneKey};
ghost use Rattle.zeb_search.specs.Holds.{IsNumberAt};
ghost use Rattle.zeb_search.specs.PrivateTerms.{IsWanted, NamesEntry};

use std::alloc::{AllocError, Global};
use zeb_keys::Term;
use zeb_query::Relation;
use zeb_text::{Pattern, key_of_number, number_of_key};

/// The numbers that have a key end below this one.
pub(crate) const KEYS_END: u64 = 1_000_000_000_000_000_000;

/// Which terms of a register are asked for.
#[derive(Clone, Copy)]
pub(crate) enum Wanted<'a> {
    /// Each of them.
    All,
    /// Those that a pattern matches.
    Matching(&'a Pattern),
    /// Those that are the key of a number below 10^18 which stands in a relation to this one.
    Number(Relation, u64),
    /// Those that stand in a relation to a text, in the order of their bytes.
    Text(Relation, &'a str),
}

impl Wanted<'_> {
    /// Whether the term is asked for.
    pub(crate) fn takes(&self, term: &str) -> bool
        ensures { IsTrue result ↔ IsWanted self.now term.now }
    {
        match self {
            Wanted::All => true,
            Wanted::Matching(pattern) => pattern.matches(term),
            Wanted::Number(relation, number) => match number_of_key(term) {
                Some(value) => stands(*relation, value, *number),
                None => false,
            },
            Wanted::Text(relation, start) => stands_in_order(*relation, term, start),
        }
    }

    /// The one text that is asked for, or `None` where it may be another one or several.
    pub(crate) fn only_text(&self, alloc: Global) -> Result<Option<Term>, AllocError>
        ensures text { IfOk result (λ found. IfSome found (λ text. (term : List ℕ)
            → IsWanted self.now term ↔ (term ≡ text))) }
        ensures named { IfOk result (λ found. IfSome found (λ _. NamesEntry self.now)) }
        ensures none { IfOk result (λ found. IfNone found (¬ NamesEntry self.now)) }
    {
        match self {
            Wanted::Matching(pattern) => match pattern.literal() {
                Some(text) => Ok(Some(Term::new(String::from_str(alloc, text)?))),
                None => Ok(None),
            },
            Wanted::Number(relation, number) => only_key(alloc, *relation, *number),
            Wanted::All | Wanted::Text(..) => Ok(None),
        }
    }
}

/// The one key of a number in the relation to this one, or `None` where there is none or may be several.
fn only_key(alloc: Global, relation: Relation, number: u64) -> Result<Option<Term>, AllocError>
    ensures text { IfOk result (λ found. IfSome found (λ text. (term : List ℕ)
        → IsNumberAt relation number term ↔ (term ≡ text))) }
    ensures named { IfOk result (λ found. IfSome found (λ _. IsOneKey relation number)) }
    ensures none { IfOk result (λ found. IfNone found (¬ IsOneKey relation number)) }
{
    if relation != Relation::Equal || number >= KEYS_END {
        return Ok(None);
    }
    Ok(Some(Term::new(key_of_number(alloc, number)?)))
}

/// Whether the first number stands in the relation to the other.
fn stands(relation: Relation, value: u64, number: u64) -> bool
    ensures { IsTrue result ↔ Stands relation value number }
{
    match relation {
        Relation::Less => value < number,
        Relation::LessOrEqual => value <= number,
        Relation::Equal => value == number,
        Relation::GreaterOrEqual => value >= number,
        Relation::Greater => value > number,
    }
}

/// Whether the first text stands in the relation to the other, in the order of their bytes.
fn stands_in_order(relation: Relation, text: &str, start: &str) -> bool
    ensures { IsTrue result ↔ StandsInOrder relation text.now start.now }
{
    let ordering = text.cmp(start);
    match relation {
        Relation::Less => ordering.is_lt(),
        Relation::LessOrEqual => ordering.is_le(),
        Relation::Equal => ordering.is_eq(),
        Relation::GreaterOrEqual => ordering.is_ge(),
        Relation::Greater => ordering.is_gt(),
    }
}
