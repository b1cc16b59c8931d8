//! Scanning the terms of a register around a start.

ghost use Rattle.std.specs.Prelude.{◌≡◌, ◌++◌, false, IfOk, OnOk};
ghost use Rattle.sqlite.specs.Held.{state};
ghost use Rattle.sqlite.specs.State.{HasCleanDisk};
ghost use Rattle.zeb_query.specs.Plans.{scan_value};
ghost use Rattle.zeb_search.specs.Searching.{Searches};
ghost use Rattle.zeb_engine.specs.Scanning.{HidesAround, HidesTerms, ScanOver, TellsAround, ScanCounts, ScanReads};
ghost use Rattle.zeb_engine.specs.Hidden.{TellsUnlessHidden};
ghost use Rattle.zeb_image.specs.NameOf.{name_bytes};
ghost use Rattle.zeb_engine.specs.PrivateConnections.{AsksTables};

use crate::readiness::existing_database;
use crate::replies::Reply;
use sqlite::{Alter, Connection};
use std::alloc::{AllocError, Global};
use zeb_change::Refusal;
use zeb_image::DbName;
use zeb_profile::Profile;
use zeb_query::{ScanPlan, plan_scan, read_pqf};
use zeb_register::{DatabaseId, Layout, RegFault, RegisterOf, TermCount, Work};

/// What a scan asks: a query that names the start, how many terms, and the start's place among them.
#[derive(Clone, Copy)]
pub(crate) struct Around<'a> {
    pub query: &'a str,
    pub number: u32,
    pub position: u32,
}

/// Both lists, one after the other.
fn joined(first: Vec<TermCount>, rest: Vec<TermCount>) -> Result<Vec<TermCount>, AllocError>
    ensures { IfOk result (λ all. all.items ≡ first.items ++ rest.items) }
{
    let mut all = first;
    for entry in rest {
        all.push(entry)?;
    }
    Ok(all)
}

/// The terms of the plan's register around its start.
fn terms_around<S: Alter, L: Layout>(
    alloc: Global,
    connection: &mut Connection<S>,
    work: &mut Work,
    database: DatabaseId,
    plan: &ScanPlan,
    around: &Around<'_>,
) -> Result<Vec<TermCount>, RegFault>
    // Whatever the tables hold, they are those that the counts tell, or the count of one of them can't be shown.
    ensures { Searches L.format L.row_work
        (λ trees. HidesAround L.format trees database.0 (scan_value plan.now) around.now.number
        around.now.position)
        (λ trees terms. TellsAround L.format trees database.0 (scan_value plan.now)
        around.now.number around.now.position terms.items)
        (λ _. ScanCounts L.row_work around.now.number around.now.position)
        (state S.Store connection.old) (state S.Store connection.new) work.old work.new result }
{
    let below = (around.position as u64).saturating_sub(1);
    let from = (around.number as u64 + 1).saturating_sub(around.position as u64);
    let start = plan.start.as_str();
    let at = RegisterOf {
        db: database,
        index: plan.index,
        register: plan.register,
    };
    let first = L::terms_before(alloc, connection, work, at, start, below)?;
    let rest = L::terms_from(alloc, connection, work, at, start, from)?;
    Ok(joined(first, rest)?)
}

/// The terms of a database around the start that a query names, each with the number of its records.
pub(crate) fn scan<S: Alter, L: Layout>(
    alloc: Global,
    connection: &mut Connection<S>,
    work: &mut Work,
    profile: &Profile,
    name: &DbName,
    around: Around<'_>,
) -> Result<Reply, Refusal>
    requires idle { connection.old.in_transaction ≡ false }
    // Whatever the tables hold, the terms are those that the rows around the start tell, or it is refused by the definition, or as damage
    // that these rows or the database's have.
    ensures asks { AsksTables S.Store connection.old connection.new result
        (TellsUnlessHidden (ScanOver L.format profile.now (name_bytes name.now)
        around.entry.query.now around.entry.number around.entry.position)
        (HidesTerms L.format profile.now (name_bytes name.now) around.entry.query.now
        around.entry.number around.entry.position)) }
    // The terms that are asked for are read, one more at most, and nothing else.
    ensures work { (L.row_work ≡ 0 → work.new ≡ work.old)
        × (HasCleanDisk (state S.Store connection.new)
        → OnOk result (ScanReads L.format L.row_work around.entry.number around.entry.position
        (state S.Store connection.old) work.old work.new)) }
{
    let query = read_pqf(alloc, around.query)?;
    let database = existing_database::<S, L>(alloc, connection, name)?;
    let plan = plan_scan(alloc, &query, profile)?;
    drop(query);
    let entries = terms_around::<S, L>(alloc, connection, work, database.id, &plan, &around)?;
    Ok(Reply::Scanned {
        register: plan.register,
        entries,
    })
}
