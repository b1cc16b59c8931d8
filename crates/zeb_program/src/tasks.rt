//! The tasks that words name, each carried out on the register that the profile names.

ghost use Rattle.std.specs.Prelude.{◌≡◌, ⊤, false, true, ℕ, None, List, Result, Ok, Err, map, string_bytes, IfErr, IfOk, MatchResult, OnErr};
ghost use Rattle.sqlite.specs.Held.{state};
ghost use Rattle.sqlite.specs.State.{HasCleanDisk};
ghost use Rattle.zeb_image.specs.NameOf.{name_bytes};
ghost use Rattle.zeb_register.specs.Calls.{ChangesNothing};
ghost use Rattle.zeb_engine.specs.declared.replies.Reply.{Reply};
ghost use Rattle.zeb_paths.specs.Walks.{telling_of};
ghost use Rattle.zeb_program.specs.PrivateFaults.{IsUnread};
ghost use Rattle.zeb_program.specs.Errands.{choice_of};
ghost use Rattle.zeb_program.specs.FaultAnswers.{GivesAnswer, Reaches};
ghost use Rattle.zeb_program.specs.OverTables.{AnalysesOver, ChangesOver, ServesOver};
ghost use Rattle.zeb_program.specs.PrivateServing.{CarriesOut, KeepsStill, StandsFor};
ghost use Rattle.zeb_program.specs.TaskAnswers.{AreTold, ReadsWhole, paths_of};
ghost use Rattle.zeb_program.specs.PrivateWarnings as spec;
ghost use Rattle.zeb_engine.specs.Sessions.{KeepsConditions, conditions_in};
ghost use Rattle.zeb_program.specs.Warnings.{WarnsBelow, records_in, unmarked_by, unmarked_of, warning_of};
ghost use Rattle.zeb_program.specs.declared.faults.Fault.{Fault};
ghost use Rattle.zeb_program.specs.declared.faults.Fault.TheVariants.{Refused};
ghost use Rattle.zeb_program.specs.declared.tasks.Task.{Task};

use crate::analyses::{AnalysedFiles, analyse_files};
use crate::faults::Fault;
use crate::files::readers_of;
use sqlite::Alter;
use std::alloc::Global;
use zeb_analysis::Place;
use zeb_engine::{AnalysedLines, Command, DbName, Kind, Refusal, Reply, Session};
use zeb_paths::Paths;
use zeb_register::Layout;
use zeb_words::{Act, LayoutChoice};

/// What words ask of a register.
#[derive(Drop)]
pub enum Task {
    /// One command.
    Ask(Command),
    /// To change a database by the records in the files at and below these paths.
    Change {
        kind: Kind,
        database: DbName,
        paths: Vec<String>,
    },
    /// To show the occurrences of the records in the files at and below these paths.
    Analyse(Vec<String>),
}

impl Task {
    /// Whether it may be accepted where there is no register yet.
    pub fn begins(&self) -> bool
        ensures other { result ≡ false → ¬ (self.now ≡ Task.Ask Command.Init) }
        ensures begins { result ≡ true → self.now ≡ Task.Ask Command.Init }
    {
        matches!(self, Task::Ask(Command::Init))
    }

    /// The paths that it names.
    pub fn named(&self) -> &[String]
        ensures { map string_bytes result.now ≡ paths_of self.now }
    {
        match self {
            Task::Ask(_) => &[],
            Task::Change { paths, .. } | Task::Analyse(paths) => paths.as_slice(),
        }
    }
}

/// What words ask for.
#[derive(Drop)]
pub enum Errand {
    /// One task.
    Task(Task),
    /// To run the lines of the input, which is read whole first.
    Batch,
    /// To run the lines of the input, each as it comes.
    Shell,
}

impl Errand {
    ghost use Rattle.zeb_program.specs.PrivateErrands.{IsErrandOf};

    /// What an act on this database asks for.
    pub fn of(database: DbName, act: Act) -> Errand
        ensures { IsErrandOf database act result }
    {
        match act {
            Act::Init(_) => to_ask(Command::Init),
            Act::Create(name) => to_ask(Command::Create(name)),
            Act::Drop(name) => to_ask(Command::Drop(name)),
            Act::Stat => to_ask(Command::Stat(database)),
            Act::Dump => to_ask(Command::Dump(database)),
            Act::Check => to_ask(Command::Check),
            Act::Reindex => to_ask(Command::Reindex),
            Act::Upgrade(_) => to_ask(Command::Upgrade),
            Act::Find {
                query,
                first,
                count,
            } => to_ask(Command::Find {
                database,
                query,
                first,
                count,
            }),
            Act::Scan {
                query,
                number,
                position,
            } => to_ask(Command::Scan {
                database,
                query,
                number,
                position,
            }),
            Act::Update { paths, shows: true } => Errand::Task(Task::Analyse(paths)),
            Act::Update {
                paths,
                shows: false,
            } => to_change(Kind::Update, database, paths),
            Act::Delete(paths) => to_change(Kind::Delete, database, paths),
            Act::Adelete(paths) => to_change(Kind::Adelete, database, paths),
            Act::Batch => Errand::Batch,
            Act::Shell => Errand::Shell,
        }
    }
}

/// The layout that an act asks for.
pub fn layout_asked(act: &Act) -> LayoutChoice
    ensures { result ≡ choice_of act.now }
{
    match act {
        Act::Init(choice) | Act::Upgrade(choice) => *choice,
        _ => LayoutChoice::Unsaid,
    }
}

fn to_ask(command: Command) -> Errand
    ensures { result ≡ Errand.Task (Task.Ask command) }
{
    Errand::Task(Task::Ask(command))
}

fn to_change(kind: Kind, database: DbName, paths: Vec<String>) -> Errand
    ensures { result ≡ Errand.Task (Task.Change kind database paths) }
{
    Errand::Task(Task::Change {
        kind,
        database,
        paths,
    })
}

/// What a task is answered.
#[derive(Drop)]
pub enum Served {
    /// What the register replies.
    Replied(Reply),
    /// What is shown of the records of an analysis.
    Shown {
        lines: AnalysedLines,
        /// Which of the records don't say that they are in Unicode.
        unmarked: Vec<Place>,
    },
}

/// Carries a task out in a session.
pub fn carry_out<S: Alter, L: Layout, P: Paths>(
    alloc: Global,
    session: &mut Session<S, L>,
    paths: &P,
    task: &Task,
) -> Result<Served, Fault>
    ensures done { (answer : Result Reply Fault) × StandsFor result answer
        × CarriesOut (telling_of P.Paths paths.now) L.format (conditions_in L.format session.old)
        task.now (state S.Store session.old.connection) (state S.Store session.new.connection)
        answer }
    // An analysis leaves the connection as it is, whatever it is answered. Where something couldn't be read, the register was asked for nothing.
    ensures still { KeepsStill S.Store task.now result session.old.connection
        session.new.connection (session.new ≡ session.old) }
    // Where the bytes of a file at each path are told; and of another task than an analysis nothing is to be warned of.
    ensures unmarked { (files : List (List ℕ)) → AreTold (P.tells paths.now) (paths_of task.now)
        files → IfOk result (λ served. spec.warned_in served
        ≡ warning_of (unmarked_by task.now files) (records_in files)) }
    // Of an analysis, whatever stands at its paths: of the files that a walk gives.
    ensures below { ReadsWhole task.now → IfOk result
        (λ served. WarnsBelow (telling_of P.Paths paths.now) (paths_of task.now)
        (spec.warned_in served)) }
    ensures shown { IfOk result (spec.IsServedFor task.now) }
{
    match task {
        Task::Ask(command) => to_serve(ask(session, command)),
        Task::Change {
            kind,
            database,
            paths: named,
        } => to_serve(change_by_paths(alloc, session, paths, *kind, database, named)),
        Task::Analyse(named) => analyse_paths(alloc, session, paths, named),
    }
}

/// A reply, as what a task is answered.
fn to_serve(reply: Result<Reply, Fault>) -> Result<Served, Fault>
    ensures reply { StandsFor result reply }
    ensures unmarked { IfOk result (λ served. spec.warned_in served ≡ None) }
    ensures shown { (task : Task) → IfOk result (spec.IsServedFor task) }
{
    match reply {
        Ok(reply) => Ok(Served::Replied(reply)),
        Err(fault) => Err(fault),
    }
}

/// Asks a register for one command.
fn ask<S: Alter, L: Layout>(session: &mut Session<S, L>, command: &Command) -> Result<Reply, Fault>
    ensures over { HasCleanDisk (state S.Store session.new.connection)
        → GivesAnswer (ServesOver L.format (conditions_in L.format session.old) command.now
        (state S.Store session.old.connection) (state S.Store session.new.connection)) result }
    ensures clean { HasCleanDisk (state S.Store session.new.connection)
        → HasCleanDisk (state S.Store session.old.connection) }
    ensures refused { HasCleanDisk (state S.Store session.new.connection)
        → OnErr result (ChangesNothing (state S.Store session.old.connection)
        (state S.Store session.new.connection)) }
    ensures read { IfErr result (λ fault. ¬ IsUnread fault) }
{
    as_told(session.command(command))
}

/// What a register has answered, as a task is: a reply and a refusal are passed on as they are.
fn as_told(answer: Result<Reply, Refusal>) -> Result<Reply, Fault>
    ensures { MatchResult answer (λ reply. result ≡ Ok reply)
        (λ refusal. result ≡ Err (Refused refusal)) }
{
    match answer {
        Ok(reply) => Ok(reply),
        Err(refusal) => Err(Fault::Refused(refusal)),
    }
}

/// Changes a database by the records in the files at and below the paths, one record held at a time.
pub fn change_by_paths<S: Alter, L: Layout, P: Paths>(
    alloc: Global,
    session: &mut Session<S, L>,
    paths: &P,
    kind: Kind,
    database: &DbName,
    named: &[String],
) -> Result<Reply, Fault>
    // The session stays under its profile and its limits, and its disk was clean where it is.
    ensures stays { KeepsConditions session.old session.new
        × (HasCleanDisk (state S.Store session.new.connection)
        → HasCleanDisk (state S.Store session.old.connection)) }
    // On any tables, and whatever the paths tell; where they tell the bytes of its files, it is the change by these.
    ensures changes { HasCleanDisk (state S.Store session.new.connection)
        → ChangesOver (telling_of P.Paths paths.now) L.format (conditions_in L.format session.old)
        kind (name_bytes database.now) (map string_bytes named.now)
        (state S.Store session.old.connection) (state S.Store session.new.connection) result }
    ensures unread { IfErr result (λ fault. IsUnread fault → session.new ≡ session.old) }
    ensures reaches { Reaches (telling_of P.Paths paths.now) ⊥ (map string_bytes named.now) result }
{
    let mut readers = readers_of(alloc, paths, named)?;
    as_told(session.update_from(database, kind, &mut readers))
}

/// Analyses the records in the files at and below the paths.
fn analyse_paths<S: Alter, L: Layout, P: Paths>(
    alloc: Global,
    session: &Session<S, L>,
    paths: &P,
    named: &[String],
) -> Result<Served, Fault>
    // On any tables, and whatever the paths tell.
    ensures over { (answer : Result Reply Fault) × StandsFor result answer
        × AnalysesOver (telling_of P.Paths paths.now) session.now.profile session.now.limits.records
        (map string_bytes named.now) answer }
    ensures reaches { Reaches (telling_of P.Paths paths.now) ⊤ (map string_bytes named.now) result }
    // Where the bytes of a file at each path are told.
    ensures unmarked { (files : List (List ℕ)) → AreTold (P.tells paths.now)
        (map string_bytes named.now) files
        → IfOk result (λ served. spec.warned_in served
        ≡ warning_of (unmarked_of 1 files) (records_in files)) }
    // And whatever stands at each path: of the files that a walk gives.
    ensures below { IfOk result (λ served. WarnsBelow (telling_of P.Paths paths.now)
        (map string_bytes named.now) (spec.warned_in served)) }
{
    let AnalysedFiles { lines, unmarked } = analyse_files(alloc, session, paths, named)?;
    match lines {
        Ok(lines) => Ok(Served::Shown { lines, unmarked }),
        Err(refusal) => Err(Fault::Refused(refusal)),
    }
}
