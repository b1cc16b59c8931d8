//! Why a command that words name isn't answered, with its cause, and what is written of both.

ghost use Rattle.std.specs.Prelude.{◌≡◌, None, IfOk, IsErr, string_bytes, MatchResult, ⊤};
ghost use Rattle.std.specs.Option.{option_map};
ghost use Rattle.zeb_program.specs.Closings.{closing_lines, leaving_lines};
ghost use Rattle.zeb_program.specs.Unanswered.{TellsUnanswered, TellsNamed};
ghost use Rattle.zeb_program.specs.FaultLines.{IsCauseOf, TellsCaused, cause_line, cause_lines, file_lines, met_line, register_lines, unread_lines};
ghost use Rattle.zeb_program.specs.declared.failures.Cause.TheVariants.{Path as PathOf, Store as StoreOf};
ghost use Rattle.zeb_program.specs.FaultLines as lines;
ghost use Rattle.zeb_program.specs.Explanations.{ExplainsUnread, NamesRegister, refusal_cause};
ghost use Rattle.zeb_program.specs.Diagnostics.{meaning_lines};
ghost use Rattle.zeb_program.specs.PrivateFaults.{EndsTold};
ghost use Rattle.zeb_program.specs.Statuses.{IsFaultStatus, closing_status};
ghost use Rattle.zeb_program.specs.declared.faults.Fault.TheVariants.{Memory, Refused};
ghost use Rattle.zeb_program.specs.Sinks.{Sent};
ghost use Rattle.zeb_program.specs.PrivateSinks.{Sends};
ghost use Rattle.zeb_program.specs.PrivateShows.{Shows};

use crate::diagnostics::{is_placed, meaning_of};
use crate::faults::{Fault, tell};
use crate::files::read_profile;
use crate::forms::Form;
use crate::input::TextCause;
use crate::line_input::InputCause;
use crate::sinks::Sink;
use crate::statuses::Status;
use std::alloc::{AllocError, Global};
use std::io::Write;
use zeb_engine::Refusal;
use zeb_paths::{Asked, Closed, PathCause, Paths, StoreCause};

/// What is known of why there is a fault.
#[derive(Drop)]
pub enum Cause {
    /// Why a path isn't read.
    Path(PathCause),
    /// Why the store fails.
    Store(StoreCause),
    /// The number of a diagnostic, and the byte of the query that it is about.
    Query {
        number: u32,
        place: usize,
    },
    /// Why the input can't be read on.
    Input(InputCause),
    /// Why the input can't be read whole.
    Text(TextCause),
    /// The path of the file that has this number, and what is told of it.
    File {
        number: u64,
        path: String,
        met: Option<FileCause>,
    },
}

/// What is told of the file that a refusal is about.
#[derive(Clone, Copy, PartialEq, Eq)]
pub enum FileCause {
    /// What its path is met with.
    Path(PathCause),
    /// What it is, where it begins with no record.
    Form(Form),
}

/// Why a command isn't answered, and the cause, where it is known.
#[derive(Drop)]
pub struct Failure {
    pub fault: Fault,
    pub cause: Option<Cause>,
    // No cause is told below the fault of another.
    ghost fits: { IsCauseOf fault cause },
}

impl From<AllocError> for Failure {
    ghost from_gives = { λ _ failure. (failure.fault ≡ Memory) × (failure.cause ≡ None) };

    fn from(_error: AllocError) -> Failure {
        Failure {
            fault: Fault::Memory,
            cause: None,
        }
    }
}

impl From<Refusal> for Failure {
    ghost from_gives = { λ refusal failure. (failure.fault ≡ Refused refusal)
        × (failure.cause ≡ None) };

    fn from(refusal: Refusal) -> Failure {
        Failure {
            fault: Fault::Refused(refusal),
            cause: None,
        }
    }
}

/// A fault, with what its path, which was asked for so, is met with where it is looked at anew.
pub fn of_path<P: Paths>(paths: &P, fault: Fault, asked: Asked) -> Failure
    ensures fault { result.fault ≡ fault }
    ensures cause { ExplainsUnread (P.explains paths.now) asked fault result.cause }
{
    let cause = match &fault {
        Fault::Unreadable(path) => path_cause(paths.why_unread(path.as_str(), asked)),
        _ => None,
    };
    Failure { fault, cause }
}

/// Why a path isn't read, as a cause.
fn path_cause(met: Option<PathCause>) -> Option<Cause>
    ensures { result ≡ option_map PathOf met }
{
    met.map(Cause::Path)
}

/// Why the store fails, as a cause.
fn store_cause(met: Option<StoreCause>) -> Option<Cause>
    ensures { result ≡ option_map StoreOf met }
{
    met.map(Cause::Store)
}

/// A refusal; of a failed store the cause is this one, of a diagnostic its meaning.
pub fn of_store(refusal: Refusal, cause: Option<StoreCause>) -> Failure
    ensures fault { result.fault ≡ Refused refusal }
    ensures cause { result.cause ≡ refusal_cause refusal cause }
{
    let cause = match &refusal {
        Refusal::Store => store_cause(cause),
        Refusal::Diagnostic { number, place, .. } => Some(Cause::Query {
            number: *number,
            place: *place,
        }),
        _ => None,
    };
    Failure {
        fault: Fault::Refused(refusal),
        cause,
    }
}

/// Writes a failure's lines, and answers its status. For want of memory nothing is written.
pub fn tell_failure<W: Write>(
    alloc: Global,
    failure: &Failure,
    output: &mut Sink<W>,
) -> Result<Status, AllocError>
    ensures told { Sends output.old output.new (λ bytes. Shows (TellsCaused failure.now.fault
        failure.now.cause) ⊤ bytes result) }
    ensures status { EndsTold failure.now.fault result }
{
    let status = tell(alloc, &failure.fault, output)?;
    tell_cause(&failure.cause, output);
    Ok(status)
}

/// Writes the lines of a task's failure, and below them the path of its register, where the fault is about that, and answers the
/// status. For want of memory nothing is written.
fn tell_task_failure<P: Paths, W: Write>(
    alloc: Global,
    paths: &P,
    config: String,
    failure: &Failure,
    output: &mut Sink<W>,
) -> Result<Status, AllocError>
    ensures told { Sends output.old output.new (λ bytes. Shows (TellsNamed (P.tells paths.now
        (string_bytes config)) config failure.now.fault failure.now.cause) ⊤ bytes result) }
    ensures memory { failure.now.fault ≡ Memory → IsErr result }
    ensures status { IfOk result IsFaultStatus }
{
    let register = register_of(alloc, paths, config, &failure.fault)?;
    let status = tell_failure(alloc, failure, output)?;
    tell_register(&register, output);
    Ok(status)
}

/// The path of the register that a fault is about, by the profile in this file, which is read anew. `None` of another fault, or where
/// the profile can't be read any more.
fn register_of<P: Paths>(
    alloc: Global,
    paths: &P,
    config: String,
    fault: &Fault,
) -> Result<Option<String>, AllocError>
    ensures { IfOk result
        (NamesRegister (P.tells paths.now (string_bytes config)) config fault.now) }
{
    if !is_of_register(fault) {
        return Ok(None);
    }
    match read_profile(alloc, paths, config) {
        Ok(profile) => Ok(Some(String::from_str(alloc, profile.store_path())?)),
        Err(Fault::Memory) => Err(AllocError),
        Err(_) => Ok(None),
    }
}

/// Whether a fault is about the register at the profile's path.
fn is_of_register(fault: &Fault) -> bool
    ensures { result ≡ lines.is_of_register fault.now }
{
    matches!(
        fault,
        Fault::Refused(Refusal::NotInitialised | Refusal::Store)
    )
}

/// Writes the line of a register's path, where one is told.
fn tell_register<W: Write>(register: &Option<String>, output: &mut Sink<W>)
    ensures { Sent output.old output.new (register_lines register.now) }
{
    match register {
        Some(path) => output.write_line(format_args!("zebraidx: register is {path}")),
        None => {}
    }
}

/// Writes the line of a cause, where one is known.
fn tell_cause<W: Write>(cause: &Option<Cause>, output: &mut Sink<W>)
    ensures { Sent output.old output.new (cause_lines cause.now) }
{
    match cause {
        Some(cause) => write_cause(cause, output),
        None => {}
    }
}

fn write_cause<W: Write>(cause: &Cause, output: &mut Sink<W>)
    ensures { Sent output.old output.new (cause_line cause.now) }
{
    match cause {
        Cause::Path(cause) => write_met(*cause, output),
        Cause::Store(cause) => output.write_line(format_args!("zebraidx: cause: {cause}")),
        Cause::Query { number, place } => write_meaning(*number, *place, output),
        Cause::Input(cause) => output.write_line(format_args!("zebraidx: cause: {cause}")),
        Cause::Text(cause) => output.write_line(format_args!("zebraidx: cause: {cause}")),
        Cause::File { number, path, met } => {
            output.write_line(format_args!("zebraidx: file {number} is {path}"));
            tell_met(*met, output);
        }
    }
}

/// Writes the line of what is told of a file, where something is.
fn tell_met<W: Write>(met: Option<FileCause>, output: &mut Sink<W>)
    ensures { Sent output.old output.new (file_lines met) }
{
    match met {
        Some(FileCause::Path(cause)) => write_met(cause, output),
        Some(FileCause::Form(form)) => {
            output.write_line(format_args!("zebraidx: cause: {form}"));
        }
        None => {}
    }
}

/// Writes the line of a diagnostic's meaning, with its place in the query, if it has one.
fn write_meaning<W: Write>(number: u32, place: usize, output: &mut Sink<W>)
    ensures { Sent output.old output.new (meaning_lines number place) }
{
    let Some(meaning) = meaning_of(number) else {
        return;
    };
    if is_placed(number) {
        output.write_line(format_args!("zebraidx: cause: {meaning}, at byte {place} of the query"));
    } else {
        output.write_line(format_args!("zebraidx: cause: {meaning}"));
    }
}

fn write_met<W: Write>(cause: PathCause, output: &mut Sink<W>)
    ensures { Sent output.old output.new (met_line cause) }
{
    output.write_line(format_args!("zebraidx: cause: {cause}"));
}

/// Writes that the input can't be read on, and why.
pub fn tell_unread<W: Write>(cause: InputCause, output: &mut Sink<W>)
    ensures { Sent output.old output.new (unread_lines cause) }
{
    output.write_line("zebraidx: cannot read input");
    write_cause(&Cause::Input(cause), output);
}

/// Writes the lines of a failure by which nothing is answered, with the path of its register, and below them that the register's file
/// needs its log, where it does; and answers the greatest status. Where memory runs out for the first, the last is told all the same.
pub fn tell_unanswered<P: Paths, W: Write>(
    alloc: Global,
    paths: &P,
    config: String,
    failure: &Failure,
    closed: Closed,
    output: &mut Sink<W>,
) -> Result<Status, AllocError>
    ensures told { Sends output.old output.new (λ bytes. MatchResult result (TellsUnanswered
        (P.tells paths.now (string_bytes config)) config failure.now.fault failure.now.cause closed
        bytes) (λ error. bytes ≡ leaving_lines closed)) }
    ensures memory { failure.now.fault ≡ Memory → IsErr result }
    ensures status { IfOk result IsFaultStatus }
{
    let told = tell_task_failure(alloc, paths, config, failure, output);
    let left = tell_left(closed, output);
    Ok(told?.max(left))
}

/// Writes that a part of what was done stands beside the register's file, where it does, and answers the status.
pub fn tell_closed<W: Write>(closed: Closed, output: &mut Sink<W>) -> Status
    ensures status { result ≡ closing_status closed }
    ensures told { Sent output.old output.new (closing_lines closed) }
{
    if closed.is_whole {
        return Status::Answered;
    }
    output.write_line("zebraidx: done, but the register's file needs its log");
    tell_cause(&store_cause(closed.cause), output);
    Status::Failed
}

/// The same of what is left behind a failure, by which a command may have done nothing.
fn tell_left<W: Write>(closed: Closed, output: &mut Sink<W>) -> Status
    ensures status { result ≡ closing_status closed }
    ensures told { Sent output.old output.new (leaving_lines closed) }
{
    if closed.is_whole {
        return Status::Answered;
    }
    output.write_line("zebraidx: the register's file needs its log");
    tell_cause(&store_cause(closed.cause), output);
    Status::Failed
}
