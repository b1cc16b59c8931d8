//! A task from the words to what is told of it: the register is opened, the task is carried out, and the register is closed.

ghost use Rattle.std.specs.Prelude.{◌≡◌, ◌⊎◌, ◌↔◌, false, true, IfErr, IfNone, IfOk, IfSome, IsTrue, None, Result, string_bytes};
ghost use Rattle.sqlite.specs.Held.{state};
ghost use Rattle.zeb_paths.specs.Walks.{telling_of};
ghost use Rattle.zeb_engine.specs.Adopting.{HasOtherTables};
ghost use Rattle.zeb_engine.specs.declared.replies.Reply.{Reply};
ghost use Rattle.zeb_program.specs.PrivateServing.{StandsFor};
ghost use Rattle.zeb_program.specs.PrivateWordRuns.{ExplainsFailure, ExplainsRun, GivesClosed, GivesFor, OpensUnder, ServesHeld, ServesOnNothing, TakesIn, TakesStore, fault_given, format_of};
ghost use Rattle.zeb_program.specs.ProfileFiles.{ReadsProfile};
ghost use Rattle.zeb_program.specs.Registers.{AtStore, ClosesStore, IsForeignOr, IsLetGo, nothing_met, places_of};
ghost use Rattle.zeb_program.specs.TaskAnswers.{paths_of};
ghost use Rattle.zeb_program.specs.WordRuns.{IsOwnOr, Performs, ServesUnder, StopsOpening};
ghost use Rattle.std.specs.Option.{option_map};
ghost use Rattle.zeb_register.specs.Formats.{packed_blocks};
ghost use Rattle.zeb_program.specs.Explanations.{ExplainsUnread, refusal_cause};
ghost use Rattle.zeb_program.specs.PrivateFaults.{IsOpeningFault};
ghost use Rattle.zeb_program.specs.ScriptAnswers.{AreConditionsIn, AreScriptConditions};
ghost use Rattle.zeb_program.specs.PrivateWarnings as spec;
ghost use Rattle.zeb_program.specs.Warnings.{MayWarn, WarnsOf};
ghost use Rattle.std.specs.Result.{IsOkAnd};
ghost use Rattle.zeb_engine.specs.Sessions.{conditions_in};
ghost use Rattle.zeb_program.specs.declared.faults.Fault.{Fault};
ghost use Rattle.zeb_program.specs.declared.faults.Fault.TheVariants.{Refused};

use crate::explaining::explained;
use crate::failures::{Failure, of_path, of_store};
use crate::faults::Fault;
use crate::files::read_profile;
use crate::memory::session_in_memory;
use crate::opening::{OpenRegister, UsedLayout, layout_of, session_over};
use crate::tasks::{Served, Task, carry_out};
use crate::warnings::warning;
use sqlite::{Alter, Connection};
use std::alloc::Global;
use zeb_engine::{Command, Refusal, Session, render};
use zeb_leaves::Leaves;
use zeb_packed::Blocks;
use zeb_paths::{Asked, Closed, OpenFailed, Paths, StoreCause};
use zeb_profile::Profile;
use zeb_register::{Layout, is_bare_schema, is_store_schema};
use zeb_words::LayoutChoice;

/// What is written for a task that is answered.
#[derive(Drop)]
pub struct Told {
    /// Its answer.
    pub text: Vec<u8>,
    /// A line that warns of records, where there is need.
    pub warning: Option<String>,
}

/// What comes of a task.
#[derive(Drop)]
pub struct Performed {
    /// What is written for it, or why it isn't answered.
    pub told: Result<Told, Failure>,
    /// How the register was closed behind it.
    pub closed: Closed,
}

/// Why a register isn't opened.
#[derive(Drop)]
pub struct Unopened {
    pub failure: Failure,
    /// How its store was closed. One that wasn't opened, or was let go, counts as whole, with what it met as the cause.
    pub closed: Closed,
}

/// Carries a task out under the profile in this file, where this layout is asked for, and gives what comes of it. Where no register
/// stands at the profile's path, a task that can't begin one is carried out on an empty one in memory, and no file is made.
pub fn perform<P: Paths>(
    alloc: Global,
    config: String,
    choice: LayoutChoice,
    task: &Task,
    paths: &mut P,
) -> Performed
    ensures warns { IfOk result.told (λ told. WarnsOf (P.tells paths.old)
        (telling_of P.Paths paths.new) task.now (option_map string_bytes told.warning)) }
    ensures performs { GivesClosed result (Performs
        (places_of P.Store.Store P.Paths paths.old paths.new) choice config task.now)
        (ExplainsRun (places_of P.Store.Store P.Paths paths.old paths.new) config task.now) }
{
    let profile = match profile_at(alloc, paths, config) {
        Ok(profile) => profile,
        Err(failure) => return without_store(Err(failure)),
    };
    if uses_store(paths, &profile, task.begins()) {
        return perform_in_register(alloc, profile, choice, task, paths);
    }
    without_store(perform_on_nothing(alloc, profile, task, paths))
}

/// What comes of a task for which no store was opened.
fn without_store(told: Result<Told, Failure>) -> Performed
    ensures told { result.told ≡ told }
    ensures closed { result.closed ≡ nothing_met }
{
    Performed {
        told,
        closed: Closed::WHOLE,
    }
}

/// Whether the store at the profile's path is opened for a command: where one may stand there, or the command may begin one.
pub fn uses_store<P: Paths>(paths: &P, profile: &Profile, begins: bool) -> bool
    ensures used { result ≡ true → AtStore profile.now (P.has paths.now) ⊎ (begins ≡ true) }
    ensures unused { result ≡ false → AtStore profile.now (P.lacks paths.now)
        × (begins ≡ false) }
{
    begins || paths.has_store(profile.store_path())
}

/// Carries a task out on the register at the profile's path, and closes the register, also where the task is refused.
fn perform_in_register<P: Paths>(
    alloc: Global,
    profile: Profile,
    choice: LayoutChoice,
    task: &Task,
    paths: &mut P,
) -> Performed
    requires { AtStore profile (P.has paths.old) ⊎ (task.now ≡ Task.Ask Command.Init) }
    ensures warns { IfOk result.told (λ told. WarnsOf (P.tells paths.old)
        (telling_of P.Paths paths.new) task.now (option_map string_bytes told.warning)) }
    ensures serves { GivesClosed result (ServesUnder
        (places_of P.Store.Store P.Paths paths.old paths.new) choice profile task.now)
        (ExplainsFailure (telling_of P.Paths paths.new) (P.explains paths.new)
        (paths_of task.now)) }
{
    match open_register(alloc, paths, choice, profile) {
        Ok(register) => serve_task(alloc, register, task, paths),
        Err(refused) => Performed {
            told: Err(refused.failure),
            closed: refused.closed,
        },
    }
}

/// Carries a task out on a register that is open, and closes it.
fn serve_task<P: Paths>(
    alloc: Global,
    register: OpenRegister<P::Store>,
    task: &Task,
    paths: &P,
) -> Performed
    ensures warns { IfOk result.told (λ told. WarnsOf (P.tells paths.now)
        (telling_of P.Paths paths.now) task.now (option_map string_bytes told.warning)) }
    ensures serves { GivesClosed result (ServesHeld P.Store.Store (P.leaves paths.now)
        (P.tells paths.now) (telling_of P.Paths paths.now) (format_of register.1)
        (conditions_in (format_of register.1) register.0) task.now register.0.connection)
        (ExplainsFailure (telling_of P.Paths paths.now) (P.explains paths.now)
        (paths_of task.now)) }
{
    let (session, layout) = register;
    match layout {
        UsedLayout::Blocks => serve_task_in(alloc, session, task, paths),
        UsedLayout::Leaves => serve_task_in(alloc, session.to_layout::<Leaves>(), task, paths),
    }
}

/// The same in a session, whatever its layout.
fn serve_task_in<L: Layout, P: Paths>(
    alloc: Global,
    session: Session<P::Store, L>,
    task: &Task,
    paths: &P,
) -> Performed
    ensures warns { IfOk result.told (λ told. WarnsOf (P.tells paths.now)
        (telling_of P.Paths paths.now) task.now (option_map string_bytes told.warning)) }
    ensures serves { GivesClosed result (ServesHeld P.Store.Store (P.leaves paths.now)
        (P.tells paths.now) (telling_of P.Paths paths.now) L.format (conditions_in L.format session)
        task.now session.connection) (ExplainsFailure (telling_of P.Paths paths.now)
        (P.explains paths.now) (paths_of task.now)) }
{
    let mut session = session;
    let served = carry_out(alloc, &mut session, paths, task);
    let closed = close_register(paths, session);
    Performed {
        told: told_of(alloc, paths, task, served, closed.cause),
        closed,
    }
}

/// Carries a task out on a register in memory that holds nothing and isn't initialised.
fn perform_on_nothing<P: Paths>(
    alloc: Global,
    profile: Profile,
    task: &Task,
    paths: &P,
) -> Result<Told, Failure>
    ensures warns { IfOk result (λ told. WarnsOf (P.tells paths.now) (telling_of P.Paths paths.now)
        task.now (option_map string_bytes told.warning)) }
    ensures serves { GivesFor result (ServesOnNothing (P.tells paths.now)
        (telling_of P.Paths paths.now) profile task.now) }
    ensures explains { IfErr result (ExplainsFailure (telling_of P.Paths paths.now)
        (P.explains paths.now) (paths_of task.now) None) }
{
    let mut session = session_in_memory(alloc, profile)?;
    let served = carry_out(alloc, &mut session, paths, task);
    told_of(alloc, paths, task, served, None)
}

/// What is told of a task that was served so, where this is known of why the store may have failed.
fn told_of<P: Paths>(
    alloc: Global,
    paths: &P,
    task: &Task,
    served: Result<Served, Fault>,
    met: Option<StoreCause>,
) -> Result<Told, Failure>
    requires shown { IfOk served (spec.IsServedFor task.now) }
    ensures warned { IfOk result (λ told. IsOkAnd served
        (λ it. option_map string_bytes told.warning ≡ spec.warned_in it)) }
    ensures warns { IfOk result
        (λ told. MayWarn task.now (option_map string_bytes told.warning)) }
    ensures gives { (own : Result Reply Fault) → StandsFor served own
        → GivesFor result (λ answer. IsOwnOr answer own) }
    ensures explains { IfErr result (ExplainsFailure (telling_of P.Paths paths.now)
        (P.explains paths.now) (paths_of task.now) met) }
{
    match served {
        Ok(Served::Replied(reply)) => Ok(Told {
            text: render(alloc, &reply)?,
            warning: None,
        }),
        Ok(Served::Shown { lines, unmarked }) => Ok(Told {
            warning: warning(alloc, &unmarked, lines.records())?,
            text: lines.into_text().into_bytes(),
        }),
        Err(fault) => Err(explained(alloc, paths, task.named(), fault, met)?),
    }
}

/// Reads a profile's file.
pub fn profile_at<P: Paths>(alloc: Global, paths: &P, file: String) -> Result<Profile, Failure>
    ensures read { ReadsProfile (P.tells paths.now (string_bytes file)) file (fault_given result) }
    ensures explains { IfErr result
        (λ failure. ExplainsUnread (P.explains paths.now) Asked.Text failure.fault failure.cause) }
{
    match read_profile(alloc, paths, file) {
        Ok(profile) => Ok(profile),
        Err(fault) => Err(of_path(paths, fault, Asked::Text)),
    }
}

/// Opens the register that the profile in this file names.
pub fn open<P: Paths>(
    alloc: Global,
    config: String,
    paths: &mut P,
) -> Result<OpenRegister<P::Store>, Unopened>
    ensures opened { IfOk result (λ register. OpensUnder
        (places_of P.Store.Store P.Paths paths.old paths.new) config (format_of register.1)
        (conditions_in (format_of register.1) register.0) register.0.connection) }
    ensures failed { IfErr result (λ it. StopsOpening
        (places_of P.Store.Store P.Paths paths.old paths.new) config it.failure.fault
        it.failure.cause it.closed) }
    ensures told { P.tells paths.new ≡ P.tells paths.old }
{
    match profile_at(alloc, paths, config) {
        Ok(profile) => open_register(alloc, paths, LayoutChoice::Unsaid, profile),
        Err(failure) => Err(Unopened {
            failure,
            closed: Closed::WHOLE,
        }),
    }
}

/// Opens the register at the profile's path, and tells in which layout it is used where this one is asked for. Where that can't be
/// told, the register is closed.
pub fn open_register<P: Paths>(
    alloc: Global,
    paths: &mut P,
    choice: LayoutChoice,
    profile: Profile,
) -> Result<OpenRegister<P::Store>, Unopened>
    ensures failed { IfErr result (λ it. IsOpeningFault
        (places_of P.Store.Store P.Paths paths.old paths.new) profile it.failure.fault
        it.failure.cause it.closed) }
    ensures under { IfOk result (λ register. AreConditionsIn (format_of register.1) profile
        (conditions_in (format_of register.1) register.0)) }
    ensures opened { IfOk result (λ register. TakesIn
        (places_of P.Store.Store P.Paths paths.old paths.new) choice (format_of register.1) profile
        register.0.connection) }
    ensures told { P.tells paths.new ≡ P.tells paths.old }
{
    let mut session = take_register(alloc, paths, profile)?;
    match layout_of(choice, &mut session) {
        Ok(layout) => Ok((session, layout)),
        Err(refusal) => Err(refused_opening(refusal, close_register(paths, session))),
    }
}

/// A refusal by which no register is opened, behind which its store was closed so.
fn refused_opening(refusal: Refusal, closed: Closed) -> Unopened
    ensures fault { result.failure.fault ≡ Refused refusal }
    ensures cause { result.failure.cause ≡ refusal_cause refusal closed.cause }
    ensures closed { result.closed ≡ closed }
{
    Unopened {
        failure: of_store(refusal, closed.cause),
        closed,
    }
}

/// Opens the store at the profile's path, and takes it over.
fn take_register<P: Paths>(
    alloc: Global,
    paths: &mut P,
    profile: Profile,
) -> Result<Session<P::Store, Blocks>, Unopened>
    ensures failed { IfErr result (λ it. IsOpeningFault
        (places_of P.Store.Store P.Paths paths.old paths.new) profile it.failure.fault
        it.failure.cause it.closed) }
    ensures under { IfOk result (λ session. AreScriptConditions profile
        (conditions_in packed_blocks session)) }
    ensures opened { IfOk result (λ session. TakesStore
        (places_of P.Store.Store P.Paths paths.old paths.new) profile session.connection) }
    ensures told { P.tells paths.new ≡ P.tells paths.old }
{
    let opened = paths.store(profile.store_path());
    let cause = opening_cause(&opened);
    match session_over(alloc, opened, profile) {
        Ok(session) => Ok(session),
        Err((back, refusal)) => {
            let cause = cause.or(let_go(paths, back));
            Err(refused_opening(
                refusal,
                Closed {
                    is_whole: true,
                    cause,
                },
            ))
        }
    }
}

/// Ends a connection over which there is no session, where there is one, and answers what its store has met, where that is told.
fn let_go<P: Paths>(paths: &P, back: Option<Connection<P::Store>>) -> Option<StoreCause>
    ensures told { IfSome back (IsLetGo P.Store.Store (P.lets_go paths.now) result) }
    ensures none { IfNone back (result ≡ None) }
{
    match back {
        Some(connection) => paths.let_go(connection.into_store()),
        None => None,
    }
}

/// Why there would be no register over what was opened, as far as that is known before it is taken over: it wasn't opened, or it has
/// other tables.
fn opening_cause<S: Alter>(opened: &Result<Connection<S>, OpenFailed>) -> Option<StoreCause>
    ensures other { IfOk opened.now
        (λ connection. IsForeignOr (state S.Store connection) None result) }
    ensures failed { IfErr opened.now (λ failed. result ≡ failed.cause) }
{
    match opened {
        Ok(connection) if has_other_tables(connection) => Some(StoreCause::Foreign),
        Ok(_) => None,
        Err(failed) => failed.cause,
    }
}

/// Whether a store has tables, views or triggers, and not just a register's six tables.
fn has_other_tables<S: Alter>(connection: &Connection<S>) -> bool
    ensures { IsTrue result ↔ HasOtherTables (state S.Store connection.now) }
{
    let schema = connection.schema();
    !is_bare_schema(schema) && !is_store_schema(schema)
}

/// Ends a session, and closes its register: what was committed is put into the one file.
pub fn close_register<L: Layout, P: Paths>(paths: &P, session: Session<P::Store, L>) -> Closed
    ensures { ClosesStore P.Store.Store (P.leaves paths.now) session.connection result }
{
    let connection = session.release();
    // Called for its clause alone: no transaction is open, so what is shown is what was committed.
    let _settled = connection.is_autocommit();
    paths.close(connection.into_store())
}
