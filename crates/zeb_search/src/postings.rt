//! The postings of several keys.

ghost use Rattle.std.specs.Prelude.{◌≡◌, ◌≤◌, ◌+◌, ◌++◌, IsTrue, length};
ghost use Rattle.sqlite.specs.Held.{state};
ghost use Rattle.zeb_search.specs.PrivateTerms.{IsWanted, NamesEntry};
ghost use Rattle.zeb_search.specs.PrivateSearching.{SearchesEntry, SearchesFound, SearchesPlaces, SearchesRun};

use crate::keys::{FoundKeys, keys_wanted};
use crate::lists::{numbers_among, postings_in_order, postings_joined};
use crate::registers::IndexOf;
use crate::terms::Wanted;
use sqlite::{Alter, Connection};
use std::alloc::Global;
use zeb_keys::{Key, Register};
use zeb_register::{Layout, Posting, RegFault, RegisterOf, Work};
use zeb_text::Pattern;

/// How many lists one statement reads at most, since it holds all their rows at once.
const GREATEST_RUN: usize = 256;

/// How many lists of these keys one statement may read.
fn run_of(found: &FoundKeys) -> usize
    ensures some { 1 ≤ result }
    ensures several { 2 ≤ result → IsTrue found.now.are_neighbours }
{
    if found.are_neighbours {
        GREATEST_RUN
    } else {
        1
    }
}

/// The first keys, so many where there are so many, and those behind them.
fn first_run(keys: &[Key], most: usize) -> (&[Key], &[Key])
    ensures whole { keys.now ≡ result.0.now ++ result.1.now }
    ensures lengths { length result.0.now + length result.1.now ≡ length keys.now }
    ensures some { 1 ≤ most → 1 ≤ length keys.now → 1 ≤ length result.0.now }
    ensures few { length result.0.now ≤ most }
{
    keys.split_at(keys.len().min(most))
}

/// The postings of one key, or of keys that are neighbours; in which order isn't said. They are read by one statement.
fn list_of_run<S: Alter, L: Layout>(
    alloc: Global,
    connection: &mut Connection<S>,
    work: &mut Work,
    of: RegisterOf,
    run: &[Key],
) -> Result<Vec<Posting>, RegFault>
    requires { 1 ≤ length run.now }
    ensures { SearchesRun L.format L.row_work L.block_rows of run.now
        (state S.Store connection.old) (state S.Store connection.new) work.old work.new result }
{
    if run.len() == 1 {
        return L::key_list(alloc, connection, work, of.db, &run[0]);
    }
    let first = &run[0];
    let last = &run[run.len() - 1];
    L::postings_between(
        alloc,
        connection,
        work,
        of,
        first.term.as_str(),
        last.term.as_str(),
    )
}

/// The postings of keys that were found; in which order isn't said. One statement reads the lists of up to 256 neighbours.
fn list_found<S: Alter, L: Layout>(
    alloc: Global,
    connection: &mut Connection<S>,
    work: &mut Work,
    of: RegisterOf,
    found: &FoundKeys,
) -> Result<Vec<Posting>, RegFault>
    ensures { SearchesFound L.format L.row_work L.block_rows of found.now
        (state S.Store connection.old) (state S.Store connection.new) work.old work.new result }
{
    let most = run_of(found);
    let mut postings = Vec::new(alloc);
    let mut left = found.keys.as_slice();
    while !left.is_empty() {
        let (run, behind) = first_run(left, most);
        let list = list_of_run::<S, L>(alloc, connection, work, of, run)?;
        postings = postings_joined(postings, list)?;
        left = behind;
    }
    Ok(postings)
}

/// The numbers of the records that have an entry which is asked for, in a register.
pub(crate) fn numbers_wanted<S: Alter, L: Layout>(
    alloc: Global,
    connection: &mut Connection<S>,
    work: &mut Work,
    of: RegisterOf,
    wanted: Wanted<'_>,
) -> Result<Vec<u64>, RegFault>
    ensures { SearchesEntry L.format L.row_work L.block_rows of.db.0 (NamesEntry wanted.entry)
        of.index of.register (IsWanted wanted.entry)
        (state S.Store connection.old) (state S.Store connection.new) work.old work.new result }
{
    let found = keys_wanted::<S, L>(alloc, connection, work, of, wanted)?;
    let list = list_found::<S, L>(alloc, connection, work, of, &found)?;
    Ok(numbers_among(alloc, &list)?)
}

/// The places of the words of an index that a pattern matches, in order and each once.
pub(crate) fn places_of_words<S: Alter, L: Layout>(
    alloc: Global,
    connection: &mut Connection<S>,
    work: &mut Work,
    of: IndexOf,
    pattern: &Pattern,
) -> Result<Vec<Posting>, RegFault>
    ensures { SearchesPlaces L.format L.row_work L.block_rows of.db.0 of.index pattern.now
        (state S.Store connection.old) (state S.Store connection.new) work.old work.new result }
{
    let words = RegisterOf {
        db: of.db,
        index: of.index,
        register: Register::Word,
    };
    let found = keys_wanted::<S, L>(alloc, connection, work, words, Wanted::Matching(pattern))?;
    // The list of one key is in order as it is.
    if found.keys.len() == 1 {
        return L::key_list(alloc, connection, work, words.db, &found.keys[0]);
    }
    let list = list_found::<S, L>(alloc, connection, work, words, &found)?;
    Ok(postings_in_order(list))
}
