//! A shell: the lines of the input in one session, each answered before the next is read.

ghost use Rattle.std.specs.Prelude.{◌≡◌, ◌↔◌, [], true, false, IfSome};
ghost use Rattle.std.specs.Io.KnownBytes.{IsAtEnd};
ghost use Rattle.sqlite.specs.Held.{state};
ghost use Rattle.sqlite.specs.State.{HasCleanDisk};
ghost use Rattle.zeb_paths.specs.Walks.{telling_of};
ghost use Rattle.zeb_program.specs.Lines.{first_line, after_first_line};
ghost use Rattle.zeb_program.specs.PrivateShell.{AnswersNextLine, ComesTo, EndsInput, StopsAtLine, TellsInput};
ghost use Rattle.zeb_program.specs.PrivateShows.{ShowsLine, ShowsShell};
ghost use Rattle.zeb_engine.specs.Sessions.{KeepsConditions, conditions_in};
ghost use Rattle.zeb_program.specs.declared.line_input.InputCause.TheVariants.{FailedRead};
ghost use Rattle.zeb_program.specs.declared.line_input.LineFault.TheVariants.{Unreadable};
ghost use Rattle.zeb_program.specs.PrivateSinks.{Sends};

use crate::batch::{refuse_line, run_line};
use crate::failures::tell_unread;
use crate::input::GREATEST_INPUT;
use crate::line_input::{LineFault, read_line};
use crate::outputs::Output;
use crate::sinks::Sink;
use crate::statuses::Status;
use crate::words::cut_line;
use sqlite::Alter;
use std::alloc::{AllocError, Global};
use std::io::Write;
use zeb_engine::Session;
use zeb_marc::Source;
use zeb_paths::Paths;
use zeb_register::Layout;

/// The status of a shell whose lines ended so. Where its input can't be read on, that is told on the fault output with its cause, and the
/// status is 3. Want of memory is passed on.
pub fn tell_input<V: Write>(
    answered: Result<Status, LineFault>,
    fault_output: &mut Sink<V>,
) -> Result<Status, AllocError>
    ensures { Sends fault_output.old fault_output.new (λ told. TellsInput answered told result) }
{
    match answered {
        Ok(status) => Ok(status),
        Err(LineFault::Unreadable(cause)) => {
            tell_unread(cause, fault_output);
            Ok(Status::Failed)
        }
        Err(LineFault::Memory) => Err(AllocError),
    }
}

/// Runs the lines of the input in a session, and answers the greatest status met.
///
/// Each line is answered, and the answer passed on, before a byte behind the line is read; so whoever writes the lines may
/// wait for each answer. A line that isn't UTF-8 is a bad one. The shell ends at the input's end, or with status 3 where a write fails:
/// no line is read whose answer could not be seen. A failed read, and a line that is longer than an input may be, are
/// `Unreadable`; the answers of the lines before stay.
pub fn run_shell_lines<R: Source, S: Alter, L: Layout, P: Paths, W: Output>(
    alloc: Global,
    session: &mut Session<S, L>,
    paths: &P,
    input: &mut R,
    output: &mut Sink<W>,
) -> Result<Status, LineFault>
    requires { R.has_failed input.old ≡ false }
    // Whatever is written; of an input that tells its bytes.
    ensures lines { Sends output.old output.new (λ bytes. HasCleanDisk (state S.Store
        session.new.connection) → IfSome (R.remaining input.old) (λ text. ShowsShell S.Store
        (telling_of P.Paths paths.now) L.format (conditions_in L.format session.old) text
        (R.remaining input.new) output.new.failed session.old.connection session.new.connection
        bytes result)) }
    ensures clean { HasCleanDisk (state S.Store session.new.connection) → HasCleanDisk (state
        S.Store session.old.connection) }
    // Only where a write failed a line may be left.
    ensures ends { EndsInput (R.has_failed input.new) output.new.failed (R.remaining input.new)
        result }
{
    let mut greatest = Status::Answered;
    // Turns are counted up to the greatest number in place of a measure: only its writer ends an input. The count numbers the lines, too.
    for lines_before in 0..u64::MAX {
        if output.has_failed() {
            return Ok(Status::Failed);
        }
        match run_next_line(alloc, session, paths, lines_before + 1, input, output)? {
            Some(status) => greatest = greatest.max(status),
            None => return Ok(greatest),
        }
    }
    // A line more than there are numbers.
    Err(LineFault::Memory)
}

/// Reads the next line of the input, whose number this is, runs it, passes its answer on, and gives its status: `None` where
/// the input is at its end. The input then begins behind that line.
fn run_next_line<R: Source, S: Alter, L: Layout, P: Paths, W: Output>(
    alloc: Global,
    session: &mut Session<S, L>,
    paths: &P,
    number: u64,
    input: &mut R,
    output: &mut Sink<W>,
) -> Result<Option<Status>, LineFault>
    requires sound { R.has_failed input.old ≡ false }
    // No line is run whose answer could not be seen.
    requires seen { output.old.failed ≡ false }
    // At the input's end nothing is done. Of an input that tells its bytes, on a clean disk, nothing is written for a line that can't be
    // read, or isn't answered.
    ensures line { ComesTo (AnswersNextLine S.Store (telling_of P.Paths paths.now) L.format
        (conditions_in L.format session.old) number (R.remaining input.old) (R.remaining input.new)
        (W.held_back output.new.writer) output.old output.new session.old.connection
        session.new.connection) (IsAtEnd (R.remaining input.old) × IsAtEnd (R.remaining input.new) ×
        (session.new ≡ session.old) × (output.new ≡ output.old)) (StopsAtLine S.Store (telling_of
        P.Paths paths.now) L.format (conditions_in L.format session.old) (R.remaining input.old)
        (R.remaining input.new) output.old output.new session.old.connection session.new.connection)
        result }
    // The session stays under its profile and its limits, and its disk was clean where it is.
    ensures stays { KeepsConditions session.old session.new × (HasCleanDisk (state S.Store
        session.new.connection) → HasCleanDisk (state S.Store session.old.connection)) }
    ensures failed { result ≡ Err (Unreadable FailedRead) ↔ R.has_failed input.new ≡ true }
{
    let bytes = read_line(alloc, input, GREATEST_INPUT)?;
    if bytes.is_empty() {
        return Ok(None);
    }
    let status = run_bytes(alloc, session, paths, bytes, number, output)?;
    output.flush();
    Ok(Some(status))
}

/// Runs a line, given by its bytes with its LF, and answers its status.
fn run_bytes<S: Alter, L: Layout, P: Paths, W: Write>(
    alloc: Global,
    session: &mut Session<S, L>,
    paths: &P,
    bytes: Vec<u8>,
    number: u64,
    output: &mut Sink<W>,
) -> Result<Status, AllocError>
    // Of bytes that are one line.
    ensures shows { Sends output.old output.new (λ written. HasCleanDisk (state S.Store
        session.new.connection) → after_first_line bytes.items ≡ [] → ShowsLine S.Store (telling_of
        P.Paths paths.now) L.format (conditions_in L.format session.old) number (first_line
        bytes.items) session.old.connection session.new.connection written result) }
    // The session stays under its profile and its limits, and its disk was clean where it is.
    ensures stays { KeepsConditions session.old session.new × (HasCleanDisk (state S.Store
        session.new.connection) → HasCleanDisk (state S.Store session.old.connection)) }
{
    let Ok(text) = String::from_utf8(bytes) else {
        return Ok(refuse_line(number, output));
    };
    let (line, _) = cut_line(text.as_str());
    run_line(alloc, session, paths, line, number, output)
}
