//! The session over a register's store, or the refusal by which there is none.

ghost use Rattle.std.specs.Prelude.{◌≡◌, false, None, Ok, Err, Some, IfErr, IfOk, MatchResult};
ghost use Rattle.sqlite.specs.Held.{state};
ghost use Rattle.sqlite.specs.State.{HasCleanDisk};
ghost use Rattle.zeb_engine.specs.Adopting.{HasOtherTables};
ghost use Rattle.zeb_register.specs.Formats.{packed_blocks};
ghost use Rattle.zeb_words.specs.declared.words.LayoutChoice.TheVariants.{Unsaid};
ghost use Rattle.zeb_program.specs.FaultAnswers.{IsOpeningFailure, unopened_refusal};
ghost use Rattle.zeb_program.specs.PrivateWordRuns.{OnlyLooked, TakesOpen, TellsLayout};
ghost use Rattle.zeb_program.specs.Registers.{IsGivenBack};
ghost use Rattle.zeb_program.specs.ScriptAnswers.{AreScriptConditions};
ghost use Rattle.zeb_engine.specs.Sessions.{KeepsConditions, conditions_in};

use sqlite::{Alter, Connection};
use std::alloc::Global;
use zeb_engine::{Limits, Refusal, Session};
use zeb_leaves::Leaves;
use zeb_packed::Blocks;
use zeb_paths::{OpenFailed, StoreCause};
use zeb_profile::Profile;
use zeb_words::LayoutChoice;

/// What a session that takes a store over answers: where it refuses, with the store.
type Adopted<S> = Result<Session<S, Blocks>, (Connection<S>, Refusal)>;

/// A session, or why there is none, with what was opened, if it was.
pub type Opened<S> = Result<Session<S, Blocks>, (Option<Connection<S>>, Refusal)>;

/// A register that is open, and in which layout it is used.
pub type OpenRegister<S> = (Session<S, Blocks>, UsedLayout);

/// In which layout a register is used.
#[derive(Clone, Copy, PartialEq, Eq)]
pub enum UsedLayout {
    Blocks,
    Leaves,
}

/// Takes over what was opened for a register, under the profile and the greatest limits. An open that failed is a failed
/// store, or want of memory where that is its cause, and a store that isn't taken over is refused by what refused it.
pub fn session_over<S: Alter + Drop>(
    alloc: Global,
    opened: Result<Connection<S>, OpenFailed>,
    profile: Profile,
) -> Opened<S>
    requires idle { IfOk opened (λ connection. connection.in_transaction ≡ false) }
    ensures unopened { IfErr opened (λ failed.
        result ≡ Err (None, unopened_refusal failed.cause)) }
    ensures other { IfOk opened (λ connection. HasOtherTables (state S.Store connection)
        → result ≡ Err (Some connection, Refusal.Store)) }
    ensures refused { IfOk opened (λ connection. IfErr result (λ why. (back : _)
        × (why.0 ≡ Some back) × IsGivenBack S.Store connection back why.1)) }
    ensures keeps { IfOk opened
        (λ connection. IfOk result (λ session. HasCleanDisk (state S.Store session.connection)
        → TakesOpen S.Store connection session.connection)) }
    ensures under { IfOk result (λ session. AreScriptConditions profile
        (conditions_in packed_blocks session)) }
{
    match opened {
        Ok(connection) => {
            taken_over(Session::adopt(alloc, connection, profile, Limits::GREATEST))
        }
        Err(failed) => Err((None, unopened(failed))),
    }
}

/// The refusal of a store that can't be opened: where memory ran out, that is told.
fn unopened(failed: OpenFailed) -> Refusal
    ensures { result ≡ unopened_refusal failed.cause }
{
    match failed.cause {
        Some(StoreCause::Memory) => Refusal::Memory,
        _ => Refusal::Store,
    }
}

/// In which layout a register is used: in leaves where they are asked for or where the store keeps their version, else in packed
/// blocks. So it is where the version can't be read, and a command tells that. Nothing is done to the store but a look.
pub fn layout_of<S: Alter>(
    choice: LayoutChoice,
    session: &mut Session<S, Blocks>,
) -> Result<UsedLayout, Refusal>
    ensures told { HasCleanDisk (state S.Store session.new.connection)
        → TellsLayout choice (state S.Store session.new.connection) result }
    ensures failed { IfErr result IsOpeningFailure }
    // Where leaves are asked for, nothing can fail.
    ensures asked { choice ≡ LayoutChoice.Leaves → result ≡ Ok UsedLayout.Leaves }
    ensures looked { OnlyLooked (state S.Store session.old.connection)
        (state S.Store session.new.connection) result }
    ensures under { KeepsConditions session.old session.new }
{
    match choice {
        LayoutChoice::Leaves => Ok(UsedLayout::Leaves),
        LayoutChoice::Unsaid => kept_layout(session),
    }
}

/// The layout whose version the store keeps, where that is leaves, or packed blocks.
fn kept_layout<S: Alter>(session: &mut Session<S, Blocks>) -> Result<UsedLayout, Refusal>
    ensures told { HasCleanDisk (state S.Store session.new.connection)
        → TellsLayout Unsaid (state S.Store session.new.connection) result }
    ensures failed { IfErr result IsOpeningFailure }
    ensures looked { OnlyLooked (state S.Store session.old.connection)
        (state S.Store session.new.connection) result }
    ensures under { KeepsConditions session.old session.new }
{
    match session.keeps_layout::<Leaves>() {
        Ok(true) => Ok(UsedLayout::Leaves),
        Ok(false) => Ok(UsedLayout::Blocks),
        // The version can't be read, as any command tells.
        Err(Refusal::Damaged) => Ok(UsedLayout::Blocks),
        Err(Refusal::Store) => Err(Refusal::Store),
        Err(_) => Err(Refusal::Memory),
    }
}

/// The session that took a store over, or the refusal by which none did, with what is given back.
fn taken_over<S: Alter + Drop>(adopted: Adopted<S>) -> Opened<S>
    ensures { MatchResult adopted (λ session. result ≡ Ok session)
        (λ back. result ≡ Err (Some back.0, back.1)) }
{
    match adopted {
        Ok(session) => Ok(session),
        Err((back, refusal)) => Err((Some(back), refusal)),
    }
}
