//! Finding records by a query.

ghost use Rattle.std.specs.Prelude.{◌≡◌, ◌≢◌, ◌<◌, ◌^◌, ℕ, false, map, string_bytes, IfErr, OnOk};
ghost use Rattle.sqlite.specs.Held.{state};
ghost use Rattle.sqlite.specs.State.{HasCleanDisk};
ghost use Rattle.sqlite_rules.specs.Lists.{Has};
ghost use Rattle.zeb_search.specs.Registers.{has_ident_in};
ghost use Rattle.zeb_change.specs.Refused.{why_of, store_failed, Meets};
ghost use Rattle.zeb_engine.specs.Finding.{HidesOne, FindOver, HidesFind, AreShown, asked_of, FindReads};
ghost use Rattle.zeb_engine.specs.Hidden.{TellsUnlessHidden};
ghost use Rattle.zeb_image.specs.NameOf.{name_bytes};
ghost use Rattle.zeb_engine.specs.PrivateConnections.{AsksTables, LooksThrough};
ghost use Rattle.zeb_engine.specs.PrivateLooking.{IsAskRefusal};

use crate::readiness::existing_database;
use crate::replies::{Hit, Reply};
use sqlite::{Alter, Connection};
use std::alloc::Global;
use zeb_change::Refusal;
use zeb_image::DbName;
use zeb_profile::Profile;
use zeb_query::{plan, read_pqf};
use zeb_register::{DatabaseId, Layout, RegFault, Work, ident_of};
use zeb_search::hits;

/// The Bib-1 diagnostic of a first record past the last hit.
const PAST_THE_HITS: u32 = 13;

/// What a find asks: a query, and which of the hits to show.
#[derive(Clone, Copy)]
pub(crate) struct Question<'a> {
    pub query: &'a str,
    pub first: u32,
    pub count: u32,
}

/// The hits with their identifiers; `Damaged` where one of them is no kept record, or its identifier is no UTF-8.
fn show<S: Alter>(
    alloc: Global,
    connection: &mut Connection<S>,
    database: DatabaseId,
    numbers: &[u64],
) -> Result<Vec<Hit>, RegFault>
    // Whatever the tables hold, each is a kept record's, or, where a column can hold the numbers, one of them can't be shown.
    ensures { LooksThrough (state S.Store connection.old) (state S.Store connection.new) result
        (λ trees. ((n : ℕ) → Has numbers.now n → n < 2 ^ 63)
        → HidesOne trees database.0 numbers.now)
        (λ trees shown. AreShown (has_ident_in trees database.0) numbers.now
        (map (λ hit. (hit.sysno, string_bytes hit.ident)) shown.items)) }
{
    let mut shown = Vec::with_capacity(alloc, numbers.len())?;
    for number in numbers {
        let Some(ident) = ident_of(connection, database, *number)? else {
            return Err(RegFault::Damaged);
        };
        shown.push_reserved(Hit {
            sysno: *number,
            ident,
        });
    }
    Ok(shown)
}

/// Those of the hits that are asked for; diagnostic 13 where the first is past the last hit, unless it is 1.
fn asked_for<'a>(
    alloc: Global,
    hits: &'a [u64],
    question: &Question<'_>,
) -> Result<&'a [u64], Refusal>
    ensures asked { Meets (λ wanted asked. asked.now ≡ wanted)
        (asked_of hits.now question.now.first question.now.count) result }
    ensures unstored { IfErr result (λ refusal. why_of refusal ≢ store_failed) }
    ensures few { IfErr result IsAskRefusal }
{
    let first = question.first as usize;
    if first > 1 && first > hits.len() {
        return Err(Refusal::Diagnostic {
            number: PAST_THE_HITS,
            place: 0,
            addinfo: question.first.to_string(alloc)?,
        });
    }
    let from = first.saturating_sub(1).min(hits.len());
    let rest = &hits[from..];
    Ok(&rest[..rest.len().min(question.count as usize)])
}

/// Answers a query over a database: all hits are counted, and those that are asked for shown.
pub(crate) fn find<S: Alter, L: Layout>(
    alloc: Global,
    connection: &mut Connection<S>,
    work: &mut Work,
    profile: &Profile,
    name: &DbName,
    question: Question<'_>,
) -> Result<Reply, Refusal>
    requires idle { connection.old.in_transaction ≡ false }
    // Whatever the tables hold, the hits are those that the units tell, a hit is shown only as a record that is kept, and damage is told for a
    // row that the query asks for.
    ensures asks { AsksTables S.Store connection.old connection.new result
        (TellsUnlessHidden (FindOver L.format profile.now (name_bytes name.now)
        question.entry.query.now question.entry.first question.entry.count)
        (HidesFind L.format profile.now (name_bytes name.now) question.entry.query.now
        question.entry.first question.entry.count)) }
    // No row is written; of terms no more are read than the searched registers have, once for each pattern with a star and each entry that
    // isn't named, and no more lists than those that the query asks for.
    ensures work { (L.row_work ≡ 0 → work.new ≡ work.old)
        × (HasCleanDisk (state S.Store connection.new)
        → OnOk result (FindReads L.format L.row_work L.block_rows profile.now (name_bytes name.now)
        question.entry.query.now (state S.Store connection.old) work.old work.new)) }
{
    let query = read_pqf(alloc, question.query)?;
    let database = existing_database::<S, L>(alloc, connection, name)?;
    let plan = plan(alloc, &query, profile)?;
    drop(query);
    let hits = hits::<S, L>(alloc, connection, work, database.id, &plan)?;
    drop(plan);
    let asked = asked_for(alloc, &hits, &question)?;
    let shown = show(alloc, connection, database.id, asked)?;
    Ok(Reply::Found {
        hits: hits.len() as u64,
        shown,
    })
}
