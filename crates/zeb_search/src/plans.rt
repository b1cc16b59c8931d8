//! The records on which a plan holds.

ghost use Rattle.std.specs.Prelude.{◌≡◌, ◌<◌, ◌^◌, ℕ, ℤ};
ghost use Rattle.sqlite.specs.Held.{state};
ghost use Rattle.zeb_query.specs.Plans.{HasSmallNumber, HasSmallNumbers, NearOf, PlanValue, plan_value, term_plan_value};
ghost use Rattle.zeb_register.specs.Content.{Content};
ghost use Rattle.zeb_search.specs.SearchCounts.{NamesEntries};
ghost use Rattle.zeb_search.specs.DictRows.{PlanDict};
ghost use Rattle.zeb_search.specs.PrivateSearching.{LooksForRecord, SearchesTerm};
ghost use Rattle.zeb_search.specs.Searching.{SearchesPlan};

use crate::distances::near;
use crate::lists::joined;
use crate::postings::{numbers_wanted, places_of_words};
use crate::registers::IndexOf;
use crate::terms::Wanted;
use crate::words::{all_words_hits, any_word_hits, phrase_hits};
use sqlite::{Alter, Connection};
use std::alloc::Global;
use zeb_keys::Register;
use zeb_query::{NearPlan, Plan, TermPlan};
use zeb_register::{DatabaseId, Layout, RegFault, Work, ident_of};

/// The numbers of the records of a database on which a plan holds, rising and each once, whatever rows the tables have. The units of the
/// entries decide that the plan asks for, and of a system number that it names whether a record has it. Stray entries may be read with
/// them: those without a count, between two with a count that the plan asks for and doesn't name. No change leaves them with a row.
///
/// `Damaged` only where a row of such an entry or of a stray one is malformed, a count of a register whose terms are read can't be shown, or
/// the identifier of a record that the plan names is no UTF-8; `Store` where a call of the store failed; `Memory` where memory ran out.
/// Outside a transaction it changes nothing.
pub fn hits<S: Alter, L: Layout>(
    alloc: Global,
    connection: &mut Connection<S>,
    work: &mut Work,
    database: DatabaseId,
    plan: &Plan,
) -> Result<Vec<u64>, RegFault>
    requires { HasSmallNumbers (plan_value plan.now) }
    ensures { SearchesPlan L.format L.row_work L.block_rows database.0 (plan_value plan.now)
        (state S.Store connection.old) (state S.Store connection.new) work.old work.new result }
{
    match plan {
        Plan::Term(term) => term_hits::<S, L>(alloc, connection, work, database, term),
        Plan::Pair(pair) => {
            let left = hits::<S, L>(alloc, connection, work, database, &pair.left)?;
            let right = hits::<S, L>(alloc, connection, work, database, &pair.right)?;
            Ok(joined(alloc, pair.operator, &left, &right)?)
        }
        Plan::Near(near) => near_hits::<S, L>(alloc, connection, work, database, near),
    }
}

/// The records on which one term of a plan holds.
fn term_hits<S: Alter, L: Layout>(
    alloc: Global,
    connection: &mut Connection<S>,
    work: &mut Work,
    db: DatabaseId,
    term: &TermPlan,
) -> Result<Vec<u64>, RegFault>
    requires { HasSmallNumber (term_plan_value term.now) }
    ensures { SearchesTerm L.format L.row_work L.block_rows db.0 (term_plan_value term.now)
        (state S.Store connection.old) (state S.Store connection.new) work.old work.new result }
{
    match term {
        TermPlan::RecordNumber(number) => record_hits(alloc, connection, db, *number as u64),
        TermPlan::NoWords { .. } => Ok(Vec::new(alloc)),
        TermPlan::Always { index, register } => {
            let of = IndexOf::new(db, *index).register(*register);
            numbers_wanted::<S, L>(alloc, connection, work, of, Wanted::All)
        }
        TermPlan::Number {
            index,
            relation,
            number,
        } => {
            let of = IndexOf::new(db, *index).register(Register::Number);
            let wanted = Wanted::Number(*relation, *number);
            numbers_wanted::<S, L>(alloc, connection, work, of, wanted)
        }
        TermPlan::Ordered {
            index,
            register,
            relation,
            start,
        } => {
            let of = IndexOf::new(db, *index).register(*register);
            numbers_wanted::<S, L>(alloc, connection, work, of, Wanted::Text(*relation, start))
        }
        TermPlan::Complete { index, pattern } => {
            let of = IndexOf::new(db, *index).register(Register::Phrase);
            numbers_wanted::<S, L>(alloc, connection, work, of, Wanted::Matching(pattern))
        }
        TermPlan::Phrase {
            index,
            patterns,
            first,
        } => {
            let of = IndexOf::new(db, *index);
            phrase_hits::<S, L>(alloc, connection, work, of, patterns, *first)
        }
        TermPlan::AllWords { index, patterns } => {
            all_words_hits::<S, L>(alloc, connection, work, IndexOf::new(db, *index), patterns)
        }
        TermPlan::AnyWord { index, patterns } => {
            any_word_hits::<S, L>(alloc, connection, work, IndexOf::new(db, *index), patterns)
        }
    }
}

/// The record of a system number, if it is kept. `Damaged` where its identifier is no UTF-8.
fn record_hits<S: Alter>(
    alloc: Global,
    connection: &mut Connection<S>,
    database: DatabaseId,
    number: u64,
) -> Result<Vec<u64>, RegFault>
    requires { number < 10 ^ 9 }
    ensures { LooksForRecord database.0 number (state S.Store connection.old)
        (state S.Store connection.new) result }
{
    let Some(_ident) = ident_of(connection, database, number)? else {
        return Ok(Vec::new(alloc));
    };
    Ok(Vec::from_slice(alloc, &[number])?)
}

/// The records in which two words stand near each other.
fn near_hits<S: Alter, L: Layout>(
    alloc: Global,
    connection: &mut Connection<S>,
    work: &mut Work,
    database: DatabaseId,
    plan: &NearPlan,
) -> Result<Vec<u64>, RegFault>
    requires { plan.now.separation.distance < 10 ^ 9 }
    ensures { SearchesPlan L.format L.row_work L.block_rows database.0
        (NearOf plan.now.index plan.now.left plan.now.right plan.now.separation)
        (state S.Store connection.old) (state S.Store connection.new) work.old work.new result }
{
    let of = IndexOf {
        db: database,
        index: plan.index,
    };
    let left = places_of_words::<S, L>(alloc, connection, work, of, &plan.left)?;
    let right = places_of_words::<S, L>(alloc, connection, work, of, &plan.right)?;
    Ok(near(alloc, &left, &right, &plan.separation)?)
}

/// A search whose plan names its entries, by patterns without a star and by numbers that are asked for as they are, reads no row of `dict`.
pub fn named_entries_read_no_terms()
    ensures { (row_work : ℕ) (content : Content) (db : ℤ) (plan : PlanValue) (n : ℕ)
        → PlanDict row_work content db plan n
        → NamesEntries plan → n ≡ 0 }
{}
