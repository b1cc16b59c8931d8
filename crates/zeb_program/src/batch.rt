//! A batch: commands in one session, one on a line.

ghost use Rattle.std.specs.Prelude.{◌≡◌, IfOk, MatchResult, ⊤};
ghost use Rattle.zeb_paths.specs.Walks.{telling_of};
ghost use Rattle.sqlite.specs.Held.{state};
ghost use Rattle.sqlite.specs.State.{HasCleanDisk};
ghost use Rattle.zeb_program.specs.ScriptAnswers.{AnswersOpened, AnswersStopped};
ghost use Rattle.zeb_program.specs.Answers.{bad_line, mark_line};
ghost use Rattle.zeb_program.specs.PrivateShows.{ShowsBatch, ShowsCommand, ShowsLine, Shows};
ghost use Rattle.zeb_program.specs.PrivateWordRuns.{RunsOnNothing};
ghost use Rattle.zeb_engine.specs.Sessions.{KeepsConditions, conditions_in};
ghost use Rattle.zeb_program.specs.Statuses.{IsFaultStatus, refusal_status};
ghost use Rattle.zeb_program.specs.Sinks.{Sent, SendsBoth};
ghost use Rattle.zeb_program.specs.PrivateSinks.{Sends};
ghost use Rattle.zeb_program.specs.FixedLines.{refusal_line};

use crate::failures::{Failure, tell_failure};
use crate::lines::Line;
use crate::memory::session_in_memory;
use crate::path_changes::run_path_change;
use crate::script::Batch;
use crate::sinks::Sink;
use crate::statuses::Status;
use crate::words::cut_line;
use sqlite::Alter;
use std::alloc::{AllocError, Global};
use std::io::Write;
use zeb_engine::{Command, Refusal, Session, refusal_line, render};
use zeb_paths::Paths;
use zeb_profile::Profile;
use zeb_register::Layout;

/// Runs the lines of a batch over a register in memory, and answers the greatest status met.
pub fn run_in_memory<P: Paths, W: Write>(
    alloc: Global,
    profile: Profile,
    paths: &P,
    batch: Batch<'_>,
    output: &mut Sink<W>,
) -> Result<Status, AllocError>
    ensures { Sends output.old output.new (λ bytes. MatchResult result (AnswersOpened (telling_of
        P.Paths paths.now) profile batch.entry.lines_before batch.entry.text.now bytes) (λ error.
        AnswersStopped (telling_of P.Paths paths.now) profile batch.entry.lines_before
        batch.entry.text.now bytes)) }
{
    match session_in_memory(alloc, profile) {
        Ok(mut session) => run_lines(alloc, &mut session, paths, batch, output),
        Err(refusal) => refuse(alloc, &refusal, output),
    }
}

/// Runs them so too, but tells on the fault output why no register is opened, and then writes nothing to the output.
pub fn run_on_nothing<P: Paths, W: Write, V: Write>(
    alloc: Global,
    profile: Profile,
    paths: &P,
    batch: Batch<'_>,
    output: &mut Sink<W>,
    fault_output: &mut Sink<V>,
) -> Result<Status, AllocError>
    ensures { SendsBoth output.old output.new fault_output.old fault_output.new (λ bytes told.
        RunsOnNothing (telling_of P.Paths paths.now) profile batch.entry.lines_before
        batch.entry.text.now bytes told result) }
{
    match session_in_memory(alloc, profile) {
        Ok(mut session) => run_lines(alloc, &mut session, paths, batch, output),
        Err(refusal) => tell_failure(alloc, &Failure::from(refusal), fault_output),
    }
}

/// Runs the lines of a batch in a session, and answers the greatest status met.
pub fn run_lines<S: Alter, L: Layout, P: Paths, W: Write>(
    alloc: Global,
    session: &mut Session<S, L>,
    paths: &P,
    batch: Batch<'_>,
    output: &mut Sink<W>,
) -> Result<Status, AllocError>
    // Each line is answered as the engine says of it on any tables, on those that the line before it left; where memory runs out the first are.
    ensures lines { Sends output.old output.new (λ bytes. HasCleanDisk (state S.Store
        session.new.connection) → ShowsBatch S.Store (telling_of P.Paths paths.now) L.format
        (conditions_in L.format session.old) batch.entry.lines_before batch.entry.text.now
        session.old.connection session.new.connection bytes result) }
    ensures clean { HasCleanDisk (state S.Store session.new.connection) → HasCleanDisk (state
        S.Store session.old.connection) }
{
    let mut rest = batch.text;
    let mut number = batch.lines_before;
    let mut greatest = Status::Answered;
    while !rest.is_empty() {
        let (line, after) = cut_line(rest);
        number += 1;
        greatest = greatest.max(run_line(alloc, session, paths, line, number, output)?);
        rest = after;
    }
    Ok(greatest)
}

/// Runs one line of a batch, whose number this is, and answers its status.
pub fn run_line<S: Alter, L: Layout, P: Paths, W: Write>(
    alloc: Global,
    session: &mut Session<S, L>,
    paths: &P,
    line: &str,
    number: u64,
    output: &mut Sink<W>,
) -> Result<Status, AllocError>
    // It is answered as the engine says of it on any tables; and where memory runs out at it, it may be done all the same.
    ensures shows { Sends output.old output.new (λ bytes. HasCleanDisk (state S.Store
        session.new.connection) → ShowsLine S.Store (telling_of P.Paths paths.now) L.format
        (conditions_in L.format session.old) number line.now session.old.connection
        session.new.connection bytes result) }
    // The session stays under its profile and its limits, and its disk was clean where it is.
    ensures stays { KeepsConditions session.old session.new × (HasCleanDisk (state S.Store
        session.new.connection) → HasCleanDisk (state S.Store session.old.connection)) }
{
    match Line::read(alloc, line)? {
        Line::Remark => Ok(Status::Answered),
        Line::Command(command) => run_command(alloc, session, &command, output),
        Line::Path(change) => run_path_change(alloc, session, paths, &change, output),
        Line::Mark(text) => Ok(write_mark(text.as_str(), output)),
        Line::Bad => Ok(refuse_line(number, output)),
    }
}

/// Carries out a command, writes its reply or its refusal, and answers the status.
fn run_command<S: Alter, L: Layout, W: Write>(
    alloc: Global,
    session: &mut Session<S, L>,
    command: &Command,
    output: &mut Sink<W>,
) -> Result<Status, AllocError>
    ensures shows { Sends output.old output.new (λ bytes. HasCleanDisk (state S.Store
        session.new.connection) → ShowsCommand S.Store L.format (conditions_in L.format session.old)
        command.now session.old.connection session.new.connection bytes result) }
    // The session stays under its profile and its limits, and its disk was clean where it is.
    ensures stays { KeepsConditions session.old session.new × (HasCleanDisk (state S.Store
        session.new.connection) → HasCleanDisk (state S.Store session.old.connection)) }
{
    match session.command(command) {
        Ok(reply) => {
            output.write(render(alloc, &reply)?.as_slice());
            Ok(Status::Answered)
        }
        Err(refusal) => refuse(alloc, &refusal, output),
    }
}

/// Writes the text of a mark, and answers the status of such a line.
fn write_mark<W: Write>(text: &str, output: &mut Sink<W>) -> Status
    ensures status { result ≡ Status.Answered }
    ensures line { Sent output.old output.new (mark_line text.now) }
{
    output.write_line(text);
    Status::Answered
}

/// Writes that the line of this number is no command, and answers the status of such a line.
pub fn refuse_line<W: Write>(number: u64, output: &mut Sink<W>) -> Status
    ensures status { result ≡ Status.Misused }
    ensures line { Sent output.old output.new (bad_line number) }
{
    output.write_line(format_args!("zebraidx: bad line {number}"));
    Status::Misused
}

/// Writes a refusal's line, and answers its status.
pub fn refuse<W: Write>(
    alloc: Global,
    refusal: &Refusal,
    output: &mut Sink<W>,
) -> Result<Status, AllocError>
    ensures told { Sends output.old output.new (λ bytes. Shows (λ line status. (line ≡ refusal_line
        refusal.now) × (status ≡ refusal_status refusal.now)) ⊤ bytes result) }
    ensures fault { IfOk result IsFaultStatus }
{
    output.write_line(refusal_line(alloc, refusal)?);
    Ok(Status::of_refusal(refusal))
}
