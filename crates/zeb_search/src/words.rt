//! The records in which words match patterns.

ghost use Rattle.std.specs.Prelude.{◌≡◌, ◌==◌, IfOk, filter};
ghost use Rattle.sqlite.specs.Held.{state};
ghost use Rattle.zeb_query.specs.Plans.{AllWordsOf, AnyWordOf, PhraseOf};
ghost use Rattle.zeb_search.specs.PrivateSearching.{SearchesPhrases, SearchesTerm, SearchesWord};

use crate::lists::{Words, joined, numbers_of, with_one_within};
use crate::postings::{numbers_wanted, places_of_words};
use crate::registers::IndexOf;
use crate::terms::Wanted;
use sqlite::{Alter, Connection};
use std::alloc::{AllocError, Global};
use zeb_keys::Register;
use zeb_query::Operator;
use zeb_register::{Layout, Posting, RegFault, Work};
use zeb_text::Pattern;

/// The records in which the pattern matches some word.
fn word_hits<S: Alter, L: Layout>(
    alloc: Global,
    connection: &mut Connection<S>,
    work: &mut Work,
    of: IndexOf,
    pattern: &Pattern,
) -> Result<Vec<u64>, RegFault>
    ensures { SearchesWord L.format L.row_work L.block_rows of.db.0 of.index pattern.now
        (state S.Store connection.old) (state S.Store connection.new) work.old work.new result }
{
    let words = of.register(Register::Word);
    numbers_wanted::<S, L>(alloc, connection, work, words, Wanted::Matching(pattern))
}

/// The records in which some pattern matches some word.
pub(crate) fn any_word_hits<S: Alter, L: Layout>(
    alloc: Global,
    connection: &mut Connection<S>,
    work: &mut Work,
    of: IndexOf,
    patterns: &[Pattern],
) -> Result<Vec<u64>, RegFault>
    ensures { SearchesTerm L.format L.row_work L.block_rows of.db.0
        (AnyWordOf of.index patterns.now)
        (state S.Store connection.old) (state S.Store connection.new) work.old work.new result }
{
    let mut hits = Vec::new(alloc);
    for pattern in patterns {
        let found = word_hits::<S, L>(alloc, connection, work, of, pattern)?;
        hits = joined(alloc, Operator::Or, &hits, &found)?;
    }
    Ok(hits)
}

/// The records in which each pattern matches some word; none where there is no pattern.
pub(crate) fn all_words_hits<S: Alter, L: Layout>(
    alloc: Global,
    connection: &mut Connection<S>,
    work: &mut Work,
    of: IndexOf,
    patterns: &[Pattern],
) -> Result<Vec<u64>, RegFault>
    ensures { SearchesTerm L.format L.row_work L.block_rows of.db.0
        (AllWordsOf of.index patterns.now)
        (state S.Store connection.old) (state S.Store connection.new) work.old work.new result }
{
    let Some((pattern, others)) = patterns.split_first() else {
        return Ok(Vec::new(alloc));
    };
    let mut hits = word_hits::<S, L>(alloc, connection, work, of, pattern)?;
    for other in others {
        let found = word_hits::<S, L>(alloc, connection, work, of, other)?;
        hits = joined(alloc, Operator::And, &hits, &found)?;
    }
    Ok(hits)
}

/// The records in which words of one unit, one after another, match the patterns in order; `first` asks that they begin with the
/// unit's first word. None where there is no pattern.
pub(crate) fn phrase_hits<S: Alter, L: Layout>(
    alloc: Global,
    connection: &mut Connection<S>,
    work: &mut Work,
    of: IndexOf,
    patterns: &[Pattern],
    first: bool,
) -> Result<Vec<u64>, RegFault>
    ensures { SearchesTerm L.format L.row_work L.block_rows of.db.0
        (PhraseOf of.index patterns.now first)
        (state S.Store connection.old) (state S.Store connection.new) work.old work.new result }
{
    // Of one word no place is asked for, unless it has to be a unit's first.
    if let ([pattern], false) = (patterns, first) {
        return word_hits::<S, L>(alloc, connection, work, of, pattern);
    }
    let places = places_of_phrase::<S, L>(alloc, connection, work, of, patterns)?;
    if first {
        let firsts = at_first_words(alloc, &places)?;
        Ok(numbers_of(alloc, &firsts)?)
    } else {
        Ok(numbers_of(alloc, &places)?)
    }
}

/// Those of the places at which a unit's first word stands.
fn at_first_words(alloc: Global, places: &[Posting]) -> Result<Vec<Posting>, AllocError>
    ensures { IfOk result (λ firsts. firsts.items ≡ filter (λ place. place.pos == 1) places.now) }
{
    places
        .iter()
        .filter(|place| place.pos == 1)
        .copied()
        .collect(alloc)
}

/// Where words of one unit, one after another, match the patterns in order: the places of the first of them. None where there is no pattern.
fn places_of_phrase<S: Alter, L: Layout>(
    alloc: Global,
    connection: &mut Connection<S>,
    work: &mut Work,
    of: IndexOf,
    patterns: &[Pattern],
) -> Result<Vec<Posting>, RegFault>
    ensures { SearchesPhrases L.format L.row_work L.block_rows of.db.0 of.index patterns.now
        (state S.Store connection.old) (state S.Store connection.new) work.old work.new result }
{
    let Some((last, mut others)) = patterns.split_last() else {
        return Ok(Vec::new(alloc));
    };
    let mut places = places_of_words::<S, L>(alloc, connection, work, of, last)?;
    while let Some((pattern, before)) = others.split_last() {
        let starts = places_of_words::<S, L>(alloc, connection, work, of, pattern)?;
        places = with_one_within(alloc, &starts, &places, Words::between(1, 1))?;
        others = before;
    }
    Ok(places)
}
