//! How much a database holds.

ghost use Rattle.std.specs.Prelude.{◌≡◌, ◌++◌, false, IfOk, OnOk, string_bytes};
ghost use Rattle.sqlite.specs.Held.{state};
ghost use Rattle.zeb_search.specs.Searching.{Searches};
ghost use Rattle.zeb_engine.specs.Counting.{HidesRegister, HidesRegisters, IsSummedUp, StatOver, Paired, name_of_index, target_in, target_list};
ghost use Rattle.zeb_engine.specs.Hidden.{TellsUnlessHidden};
ghost use Rattle.zeb_engine.specs.Answers.{extent_of};
ghost use Rattle.zeb_image.specs.NameOf.{name_bytes};
ghost use Rattle.zeb_engine.specs.PrivateConnections.{AsksTables};

use crate::readiness::existing_database;
use crate::replies::{Holding, Reply};
use sqlite::{Alter, Connection};
use std::alloc::{AllocError, Global};
use zeb_change::Refusal;
use zeb_image::DbName;
use zeb_keys::Register;
use zeb_profile::Profile;
use zeb_register::{DatabaseId, Layout, RegFault, RegisterOf, Totals, Work, record_count};

/// The register is added where some line has it as a target.
fn add_target(
    profile: &Profile,
    targets: &mut Vec<(u32, Register)>,
    index: u32,
    register: Register,
) -> Result<(), AllocError>
    ensures { OnOk result (targets.new.items ≡ targets.old.items ++ target_in profile.now index
        register) }
{
    if profile.has(index, register) {
        targets.push((index, register))?;
    }
    Ok(())
}

/// The registers that some line has as a target, in their order.
fn targets_of(alloc: Global, profile: &Profile) -> Result<Vec<(u32, Register)>, AllocError>
    ensures { IfOk result (λ targets. targets.items ≡ target_list profile.now) }
{
    let mut targets = Vec::new(alloc);
    for index in 0..profile.index_count() {
        add_target(profile, &mut targets, index, Register::Word)?;
        add_target(profile, &mut targets, index, Register::Phrase)?;
        add_target(profile, &mut targets, index, Register::Number)?;
    }
    Ok(targets)
}

/// What a register holds, under the name of its index.
fn holding_of(
    alloc: Global,
    profile: &Profile,
    target: (u32, Register),
    totals: Totals,
) -> Result<Holding, AllocError>
    ensures name { IfOk result (λ holding. string_bytes holding.index ≡ name_of_index profile.now
        target.0) }
    ensures register { IfOk result (λ holding. holding.register ≡ target.1) }
    ensures totals { IfOk result (λ holding. record
        { terms = holding.terms; occurrences = holding.occurrences } ≡ totals) }
{
    let (index, register) = target;
    let name = profile.index_name(index).unwrap_or("");
    Ok(Holding {
        index: String::from_str(alloc, name)?,
        register,
        terms: totals.terms,
        occurrences: totals.occurrences,
    })
}

/// What each of the registers holds of a database.
fn holdings_of<S: Alter, L: Layout>(
    alloc: Global,
    connection: &mut Connection<S>,
    work: &mut Work,
    profile: &Profile,
    database: DatabaseId,
    targets: &[(u32, Register)],
) -> Result<Vec<Holding>, RegFault>
    // Whatever the tables hold, each stands under the name of its index, and is what its register sums up to. What it counts in a layout
    // that counts isn't said.
    ensures { Searches L.format L.row_work
        (λ trees. HidesRegister L.format targets.now trees database.0)
        (λ trees holdings. Paired (λ target holding.
        IsSummedUp L.format profile.now trees database.0 target (extent_of holding)) targets.now
        holdings.items) (λ _ _ _. Unit {0})
        (state S.Store connection.old) (state S.Store connection.new) work.old work.new result }
{
    let mut holdings = Vec::with_capacity(alloc, targets.len())?;
    for target in targets {
        let (index, register) = *target;
        let at = RegisterOf {
            db: database,
            index,
            register,
        };
        let totals = L::totals(alloc, connection, work, at)?;
        holdings.push_reserved(holding_of(alloc, profile, *target, totals)?);
    }
    Ok(holdings)
}

/// Answers how many records a database has, its last number, and what each register holds of it.
pub(crate) fn stat<S: Alter, L: Layout>(
    alloc: Global,
    connection: &mut Connection<S>,
    work: &mut Work,
    profile: &Profile,
    name: &DbName,
) -> Result<Reply, Refusal>
    requires idle { connection.old.in_transaction ≡ false }
    // Whatever the tables hold, the records are counted, the last number is told and the rows of the registers are sound, or it is refused by
    // the definition, or as damage that these rows or the database's have.
    ensures asks { AsksTables S.Store connection.old connection.new result
        (TellsUnlessHidden (StatOver L.format profile.now (name_bytes name.now))
        (HidesRegisters L.format profile.now (name_bytes name.now))) }
    ensures no_work { L.row_work ≡ 0 → work.new ≡ work.old }
{
    let database = existing_database::<S, L>(alloc, connection, name)?;
    let kept = record_count(connection, database.id)?;
    let targets = targets_of(alloc, profile)?;
    let holdings = holdings_of::<S, L>(alloc, connection, work, profile, database.id, &targets)?;
    Ok(Reply::Counted {
        records: kept,
        last: database.last,
        holdings,
    })
}
