//! The words of a command line: what they ask for is done, and its answer or why there is none is written.

ghost use Rattle.std.specs.Prelude.{◌≡◌, ◌≢◌, ◌⊎◌, ◌+◌, ◌++◌, false, true, map, string_bytes, Ok, IfErr, IfOk, []};
ghost use Rattle.std.specs.Prelude.{IsErrAnd};
ghost use Rattle.zeb_paths.specs.Walks.{telling_of};
ghost use Rattle.zeb_words.specs.declared.words.LayoutChoice.TheVariants.{Unsaid};
ghost use Rattle.zeb_program.specs.Doing.{DoesBatch};
ghost use Rattle.zeb_program.specs.LeftStores.{LeavesAt, LeavesByBatch, LeavesByShell, LeavesByTask, LeavesStore};
ghost use Rattle.zeb_program.specs.PrivateWordRuns.{TakesByWords, Ends, EndsUnfailed};
ghost use Rattle.zeb_program.specs.Scripts.{BeginsRegister};
ghost use Rattle.zeb_program.specs.ProfileFiles.{ReadsProfile};
ghost use Rattle.zeb_program.specs.Registers.{places_of};
ghost use Rattle.zeb_program.specs.Statuses.{closing_status};
ghost use Rattle.zeb_program.specs.WordRuns.{IsText, RunsBatch, RunsLines, RunsShell};
ghost use Rattle.zeb_program.specs.WordRuns.{StopsBatch, StopsLines, StopsReading, StopsShell, StopsTask};
ghost use Rattle.std.specs.Io.KnownBytes.{IsAtEnd};
ghost use Rattle.zeb_program.specs.PrivateFaults.{IsUnread};
ghost use Rattle.zeb_program.specs.Inputs.{TakesAtMost};
ghost use Rattle.zeb_program.specs.FixedLines.{misuse_line, usage_line};
ghost use Rattle.zeb_program.specs.WordAnswers.{AnswersWords, StopsWords, TellsApart, TellsUsage};
ghost use Rattle.zeb_program.specs.Warnings.{warning_bytes};
ghost use Rattle.zeb_program.specs.Closings.{closing_lines};
ghost use Rattle.zeb_program.specs.Unanswered.{IsToldSince};
ghost use Rattle.std.specs.Option.{option_map};
ghost use Rattle.zeb_program.specs.Sinks.{Sent, SendsBoth};

use crate::batch::run_on_nothing;
use crate::failures::{Cause, Failure, tell_closed, tell_failure, tell_unanswered};
use crate::faults::Fault;
use crate::input::{GREATEST_INPUT, TextFault, read_input};
use crate::outputs::Output;
use crate::performing::{Performed, Told, open, open_register, perform, profile_at, uses_store};
use crate::register_lines::{run_on, serve_on};
use crate::script::Batch;
use crate::sinks::Sink;
use crate::statuses::Status;
use crate::tasks::{Errand, Task, layout_asked};
use std::alloc::{AllocError, Global};
use std::io::Write;
use zeb_marc::Source;
use zeb_paths::{Closed, Paths};
use zeb_profile::Profile;
use zeb_words::{LayoutChoice, Misuse, Usage, Words, read_words};

/// Does what the words ask for, and answers the status. Memory that runs out in the program itself is no status.
pub fn run_words<R: Source, W: Output, V: Write, P: Paths>(
    alloc: Global,
    words: &[String],
    paths: &mut P,
    input: &mut R,
    output: &mut Sink<W>,
    fault_output: &mut Sink<V>,
) -> Result<Status, AllocError>
    requires { R.has_failed input.old ≡ false }
    ensures input { TakesByWords (GREATEST_INPUT + 1) R.remaining (map string_bytes words.now)
        input.old input.new }
    ensures store { LeavesStore (places_of P.Store.Store P.Paths paths.old paths.new) (map
        string_bytes words.now) (R.remaining input.old) result (IsToldSince fault_output.old
        fault_output.new) }
    ensures failed_read { R.has_failed input.new ≡ true → IfOk result (λ status. status ≡
        Status.Failed) }
    ensures answer { EndsUnfailed output.old output.new fault_output.old fault_output.new
        (AnswersWords (places_of P.Store.Store P.Paths paths.old paths.new) (map string_bytes
        words.now) (R.remaining input.old) (R.remaining input.new) (R.has_failed input.new)) (StopsWords
        (places_of P.Store.Store P.Paths paths.old paths.new) (map string_bytes words.now)
        (R.remaining input.old) (R.remaining input.new)) result }
{
    let Words {
        config,
        database,
        act,
    } = match read_words(alloc, words) {
        Ok(words) => words,
        Err(usage) => return Ok(refuse_words(usage, output, fault_output)),
    };
    let choice = layout_asked(&act);
    match Errand::of(database, act) {
        Errand::Task(task) => run_task(alloc, config, choice, &task, paths, output, fault_output),
        Errand::Batch => run_batch(alloc, config, paths, input, output, fault_output),
        Errand::Shell => run_shell(alloc, config, paths, input, output, fault_output),
    }
}

/// Writes why the words name no command, or the help or the version that they ask for, and answers the status.
fn refuse_words<W: Write, V: Write>(
    usage: Usage,
    output: &mut Sink<W>,
    fault_output: &mut Sink<V>,
) -> Status
    ensures { SendsBoth output.old output.new fault_output.old fault_output.new (λ bytes told.
        TellsUsage usage bytes told result) }
{
    match usage {
        Usage::BadUsage(why) => explain_misuse(why, fault_output),
        Usage::Refused(text) => misuse(text.as_str(), fault_output),
        Usage::Help(text) => {
            output.write(text.as_bytes());
            Status::Answered
        }
        Usage::Memory => {
            fault_output.write_line("zebraidx: out of memory");
            Status::Failed
        }
    }
}

/// Writes that the words are misused, and below it what the parser says of them, and answers the status.
fn misuse<V: Write>(text: &str, fault_output: &mut Sink<V>) -> Status
    ensures status { result ≡ Status.Misused }
    ensures lines { Sent fault_output.old fault_output.new (usage_line ++ text.now) }
{
    fault_output.write_line("zebraidx: bad usage");
    fault_output.write(text.as_bytes());
    Status::Misused
}

/// Writes that the words are misused, and below it why, and answers the status.
fn explain_misuse<V: Write>(why: Misuse, fault_output: &mut Sink<V>) -> Status
    ensures status { result ≡ Status.Misused }
    ensures lines { Sent fault_output.old fault_output.new (usage_line ++ misuse_line why) }
{
    fault_output.write_line("zebraidx: bad usage");
    fault_output.write_line(format_args!("zebraidx: cause: {why}"));
    Status::Misused
}

/// Carries out a task that asks for this layout, writes its answer and what it warns of, and answers the status.
fn run_task<W: Write, V: Write, P: Paths>(
    alloc: Global,
    config: String,
    choice: LayoutChoice,
    task: &Task,
    paths: &mut P,
    output: &mut Sink<W>,
    fault_output: &mut Sink<V>,
) -> Result<Status, AllocError>
    // Memory that runs out in the program itself is found before anything is written, but that the register's file needs its log;
    // what was done stays.
    ensures answer { Ends output.old output.new fault_output.old fault_output.new (TellsApart
        (places_of P.Store.Store P.Paths paths.old paths.new) choice config task.now) (λ bytes told.
        (bytes ≡ []) × StopsTask (places_of P.Store.Store P.Paths paths.old paths.new) choice config
        task.now told) result }
    // What becomes of the store, whatever is written.
    ensures store { LeavesByTask (places_of P.Store.Store P.Paths paths.old paths.new) choice config
        task.now result (IsToldSince fault_output.old fault_output.new) }
{
    let named = config.clone()?;
    let Performed { told, closed } = perform(alloc, config, choice, task, paths);
    match told {
        Ok(told) => Ok(tell_answer(&told, closed, output, fault_output)),
        Err(failure) => tell_unanswered(alloc, paths, named, &failure, closed, fault_output),
    }
}

/// Writes what is told of a task that is answered, behind which the register was closed so, and answers the status.
fn tell_answer<W: Write, V: Write>(
    told: &Told,
    closed: Closed,
    output: &mut Sink<W>,
    fault_output: &mut Sink<V>,
) -> Status
    ensures text { Sent output.old output.new told.now.text.items }
    // A warning, and below it how the register was closed.
    ensures told { Sent fault_output.old fault_output.new (warning_bytes (option_map string_bytes
        told.now.warning) ++ closing_lines closed) }
    ensures closing { result ≡ closing_status closed }
{
    output.write(told.text.as_slice());
    warn(&told.warning, fault_output);
    tell_closed(closed, fault_output)
}

/// Writes a warning, where there is one.
fn warn<V: Write>(warning: &Option<String>, fault_output: &mut Sink<V>)
    ensures { Sent fault_output.old fault_output.new (warning_bytes (option_map string_bytes
        warning.now)) }
{
    match warning {
        Some(line) => fault_output.write(line.as_bytes()),
        None => {}
    }
}

/// Runs the lines of the input in one session, and answers the greatest status met.
fn run_batch<R: Source, W: Write, V: Write, P: Paths>(
    alloc: Global,
    config: String,
    paths: &mut P,
    input: &mut R,
    output: &mut Sink<W>,
    fault_output: &mut Sink<V>,
) -> Result<Status, AllocError>
    requires { R.has_failed input.old ≡ false }
    ensures bounded { TakesAtMost (GREATEST_INPUT + 1) (R.remaining input.old) (R.remaining
        input.new) }
    ensures failed_read { R.has_failed input.new ≡ true → IfOk result (λ status. status ≡
        Status.Failed) }
    ensures answer { Ends output.old output.new fault_output.old fault_output.new (RunsBatch
        (places_of P.Store.Store P.Paths paths.old paths.new) config (R.remaining input.old)
        (R.has_failed input.new)) (StopsBatch (places_of P.Store.Store P.Paths paths.old paths.new)
        config (R.remaining input.old)) result }
    ensures store { LeavesByBatch (places_of P.Store.Store P.Paths paths.old paths.new) config
        (R.remaining input.old) result (IsToldSince fault_output.old fault_output.new) }
{
    let named = config.clone()?;
    match begin_batch(alloc, config, paths, input) {
        Ok((profile, text)) => {
            let text = text.as_str();
            serve_batch(alloc, profile, named, paths, text, output, fault_output)
        }
        Err(failure) => tell_failure(alloc, &failure, fault_output),
    }
}

/// Reads what a batch needs: its profile, and its lines.
fn begin_batch<R: Source, P: Paths>(
    alloc: Global,
    config: String,
    paths: &P,
    input: &mut R,
) -> Result<(Profile, String), Failure>
    requires { R.has_failed input.old ≡ false }
    ensures bounded { TakesAtMost (GREATEST_INPUT + 1) (R.remaining input.old)
        (R.remaining input.new) }
    ensures failed_read { R.has_failed input.new ≡ true → IsErrAnd result
        (λ failure. IsUnread failure.fault) }
    ensures begun { IfOk result (λ begun. ReadsProfile (P.tells paths.now (string_bytes config))
        config (Ok begun.0) × IsText (R.remaining input.old) (string_bytes begun.1)) }
    ensures refused { IfErr result (λ failure. StopsReading
        (places_of P.Store.Store P.Paths paths.now paths.now) config (R.remaining input.old)
        (R.has_failed input.new) failure.fault failure.cause) }
{
    let profile = profile_at(alloc, paths, config)?;
    match read_input(alloc, input) {
        Ok(text) => Ok((profile, text)),
        Err(TextFault::Unreadable(cause)) => {
            let input_path = String::from_str(alloc, "input")?;
            Err(Failure {
                fault: Fault::Unreadable(input_path),
                cause: Some(Cause::Text(cause)),
            })
        }
        Err(TextFault::Memory) => Err(Failure::from(AllocError)),
    }
}

/// Runs the lines of a text on the register at the path of the profile in this file. Where none stands there and no line begins one, they
/// are run on an empty one in memory, and no file is made.
fn serve_batch<W: Write, V: Write, P: Paths>(
    alloc: Global,
    profile: Profile,
    config: String,
    paths: &mut P,
    text: &str,
    output: &mut Sink<W>,
    fault_output: &mut Sink<V>,
) -> Result<Status, AllocError>
    ensures answer { Ends output.old output.new fault_output.old fault_output.new (RunsLines
        (places_of P.Store.Store P.Paths paths.old paths.new) config profile text.now) (StopsLines
        (places_of P.Store.Store P.Paths paths.old paths.new) profile text.now) result }
    ensures store { LeavesAt (places_of P.Store.Store P.Paths paths.old paths.new) Unsaid profile
        result (IsToldSince fault_output.old fault_output.new) (BeginsRegister text.now) (λ format
        c. DoesBatch P.Store.Store (telling_of P.Paths paths.new) format c 0 text.now result) }
{
    let batch = Batch {
        text,
        lines_before: 0,
    };
    if !uses_store(paths, &profile, batch.begins()) {
        return run_on_nothing(alloc, profile, paths, batch, output, fault_output);
    }
    match open_register(alloc, paths, LayoutChoice::Unsaid, profile) {
        Ok(register) => run_on(alloc, register, paths, batch, output, fault_output),
        Err(refused) => tell_unanswered(
            alloc,
            paths,
            config,
            &refused.failure,
            refused.closed,
            fault_output,
        ),
    }
}

/// Runs the lines of the input as they come, and answers the greatest status met.
fn run_shell<R: Source, W: Output, V: Write, P: Paths>(
    alloc: Global,
    config: String,
    paths: &mut P,
    input: &mut R,
    output: &mut Sink<W>,
    fault_output: &mut Sink<V>,
) -> Result<Status, AllocError>
    requires { R.has_failed input.old ≡ false }
    ensures failed_read { R.has_failed input.new ≡ true → IfOk result (λ status. status ≡
        Status.Failed) }
    // A part of the input is left only with status 3, or where nothing is answered.
    ensures answer { EndsUnfailed output.old output.new fault_output.old fault_output.new
        (λ bytes told status. (status ≢ Status.Failed → IsAtEnd (R.remaining input.new)
        ⊎ (bytes ≡ [])) × RunsShell (places_of P.Store.Store P.Paths paths.old paths.new) config (R.remaining
        input.old) (R.remaining input.new) (R.has_failed input.new) bytes told status) (StopsShell
        (places_of P.Store.Store P.Paths paths.old paths.new) config (R.remaining input.old)
        (R.remaining input.new)) result }
    ensures store { LeavesByShell (places_of P.Store.Store P.Paths paths.old paths.new) config
        (R.remaining input.old) result (IsToldSince fault_output.old fault_output.new) }
{
    let named = config.clone()?;
    match open(alloc, config, paths) {
        Ok(register) => serve_on(alloc, register, paths, input, output, fault_output),
        Err(refused) => tell_unanswered(
            alloc,
            paths,
            named,
            &refused.failure,
            refused.closed,
            fault_output,
        ),
    }
}
