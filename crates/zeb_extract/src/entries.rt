//! The occurrences of a record.
ghost use Rattle.std.specs.Prelude.{◌≡◌, ◌↔◌, ◌++◌, IfOk, OnOk, OnErr, chars, map, string_bytes, Contains};
ghost use Rattle.std.specs.List.Sorted.{IsStrictlySortedBy};
ghost use Rattle.zeb_marc.specs.Contents.{units_of};
ghost use Rattle.zeb_marc.specs.Units.{unit_text};
ghost use Rattle.zeb_profile.specs.Indexes.{unit_targets};
ghost use Rattle.zeb_text.specs.Numbers.{numbers_of, number_key};
ghost use Rattle.zeb_keys.specs.declared.keys.Occurrence.{Occurrence};
ghost use Rattle.zeb_extract.specs.PrivateListing.{numbered_terms, unit_listing};
ghost use Rattle.zeb_extract.specs.Occurrences.{IsOccurrence, joined, terms_of, word_terms};
ghost use Rattle.zeb_keys.specs.Order.{IsRising, TellsApart};

use std::alloc::{AllocError, Global};
use zeb_keys::{Key, Occurrence, Register, Term};
use zeb_marc::{Marc, Unit};
use zeb_profile::Profile;

/// The occurrences of a record, in strictly rising order.
///
/// Each unit (a control field, or a subfield of a data field) adds to each of its targets: in a word register each of
/// its words, at the word's number; in a phrase register its words joined by one space, at 1, where it has a word; in a
/// number register the key of each of its numbers, at the number's number. Words and numbers count from 1 in their
/// unit. Bytes that are no UTF-8 are read as U+FFFD (Unicode, section 3.9, best practice).
///
/// No clause says, and so it isn't proved, that each unit's text is folded once, whatever the number of its targets, that `n`
/// occurrences are put in order by about `n log n` comparisons, and that `AllocError` comes only where memory was refused.
pub fn occurrences(
    alloc: Global,
    marc: &Marc<'_>,
    profile: &Profile,
) -> Result<Vec<Occurrence>, AllocError>
    ensures rising { IfOk result (λ found. IsRising found.items) }
    ensures members { IfOk result (λ found. (o : Occurrence) →
        Contains found.items o ↔ IsOccurrence (unit_targets profile.now) (units_of marc.now) o) }
{
    let mut found = Vec::new(alloc);
    for unit in marc.units() {
        add_unit(alloc, &mut found, &unit, profile)?;
    }
    put_in_order(&mut found)?;
    Ok(found)
}

/// Sorts the elements, by merging, and leaves out repeats. An error leaves them as they were.
fn put_in_order<T: Ord + Drop>(elements: &mut Vec<T>) -> Result<(), AllocError>
    requires { TellsApart T.cmp }
    ensures rising { OnOk result (IsStrictlySortedBy T.cmp elements.new.items) }
    ensures members { OnOk result
        ((x : T) → Contains elements.new.items x ↔ Contains elements.old.items x) }
    ensures err { OnErr result (elements.new.items ≡ elements.old.items) }
{
    elements.sort()?;
    elements.dedup();
    Ok(())
}

/// Adds what one unit adds to its targets. Its text is folded once, whatever the number of its targets.
fn add_unit(
    alloc: Global,
    found: &mut Vec<Occurrence>,
    unit: &Unit<'_>,
    profile: &Profile,
) -> Result<(), AllocError>
    ensures { OnOk result (found.new.items
        ≡ found.old.items ++ unit_listing (unit_targets profile.now) (unit_text unit.now)) }
{
    let text = String::from_utf8_lossy(alloc, unit.bytes)?;
    let words = zeb_text::words(alloc, text.as_str())?;
    for (index, register) in profile.targets(&unit.tag, unit.code) {
        let terms = terms_for(alloc, register, text.as_str(), &words)?;
        add_terms(found, index, register, unit.seq, terms)?;
    }
    Ok(())
}

/// The terms that a text with these words adds to a register, in the order of their numbers.
fn terms_for(
    alloc: Global,
    register: Register,
    text: &str,
    words: &[String],
) -> Result<Vec<Term>, AllocError>
    requires { map string_bytes words.now ≡ word_terms (chars text.now) }
    ensures { IfOk result (λ terms. terms.items ≡ terms_of register (chars text.now)) }
{
    match register {
        Register::Word => word_terms(alloc, words),
        Register::Phrase => phrase_terms(alloc, words),
        Register::Number => number_terms(alloc, text),
    }
}

fn word_terms(alloc: Global, words: &[String]) -> Result<Vec<Term>, AllocError>
    ensures { IfOk result (λ terms. terms.items ≡ map string_bytes words.now) }
{
    let mut terms = Vec::with_capacity(alloc, words.len())?;
    for word in words {
        terms.push(Term::copied(alloc, word.as_str())?)?;
    }
    Ok(terms)
}

/// The joined words, where there is a word.
fn phrase_terms(alloc: Global, words: &[String]) -> Result<Vec<Term>, AllocError>
    ensures { IfOk result (λ terms. terms.items ≡ joined (map string_bytes words.now)) }
{
    let mut terms = Vec::new(alloc);
    if words.is_empty() {
        return Ok(terms);
    }
    terms.push(Term::new(zeb_text::join(alloc, words)?))?;
    Ok(terms)
}

fn number_terms(alloc: Global, text: &str) -> Result<Vec<Term>, AllocError>
    ensures { IfOk result (λ terms. terms.items ≡ map number_key (numbers_of (chars text.now))) }
{
    let mut terms = Vec::new(alloc);
    for number in zeb_text::numbers(text) {
        terms.push(Term::new(zeb_text::key_of_number(alloc, number)?))?;
    }
    Ok(terms)
}

/// Adds the terms to an index's register, numbered from 1.
fn add_terms(
    found: &mut Vec<Occurrence>,
    index: u32,
    register: Register,
    seq: u64,
    terms: Vec<Term>,
) -> Result<(), AllocError>
    ensures { OnOk result (found.new.items
        ≡ found.old.items ++ numbered_terms (index, register) seq terms.items) }
{
    let mut pos = 0;
    for term in terms {
        pos += 1;
        let key = Key {
            index,
            register,
            term,
        };
        found.push(Occurrence { key, seq, pos })?;
    }
    Ok(())
}
