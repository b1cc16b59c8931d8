//! The program without its outside: words and input come in, output and a status go out.

ghost use Rattle.std.specs.Prelude.{◌≡◌, ◌≢◌, ◌+◌, [], true, false, map, string_bytes, IfOk, IfSome, MatchResult};
ghost use Rattle.zeb_paths.specs.Walks.{telling_of};
ghost use Rattle.zeb_program.specs.Inputs.{IsInput, TakesAtMost};
ghost use Rattle.zeb_program.specs.LeftStores.{EndsLeaving};
ghost use Rattle.zeb_program.specs.Registers.{places_of};
ghost use Rattle.zeb_program.specs.ScriptAnswers.{AnswersScript, EndsEarly, EndsScript, TellsAtMost, fault_line, hint_of};
ghost use Rattle.zeb_program.specs.PrivateEnding.{AnswersAs, IsLastStatus, PassesOn, TellsStarved, TellsEnd};
ghost use Rattle.zeb_program.specs.Statuses.{EndsWith, ShowsFailures, fault_status};
ghost use Rattle.zeb_program.specs.Unanswered.{IsToldSince};
ghost use Rattle.zeb_program.specs.WordAnswers.{EndsWords, NamesLines, NamesShell};
ghost use Rattle.zeb_program.specs.Sinks.{Sent, SendsBoth};
ghost use Rattle.zeb_program.specs.PrivateSinks.{Sends};

use crate::batch::run_in_memory;
use crate::command_line::run_words;
use crate::input::{GREATEST_INPUT, SourceFault, read_text};
use crate::outputs::Output;
use crate::script::Script;
use crate::sinks::Sink;
use crate::statuses::Status;
use std::alloc::{AllocError, Global};
use std::io::Write;
use zeb_marc::Source;
use zeb_paths::Paths;
use zeb_profile::{Profile, ProfileFault};

/// Runs the program on these words, its name not among them, and answers the number of its status, 0 to 3.
///
/// Without a word the input is a script: the lines of a profile, a line `.`, and the lines of a batch,
/// which run over a register in memory; a file may be named by its path. What they answer goes to the
/// output, each refusal in its place; a fault of the input or of the profile goes there too, and then
/// nothing else. A script without a line `.` is a profile alone, and only its fault is written. Of an empty input the fault output says
/// what is expected.
///
/// Words name a profile's file, a database and a command, which is carried out on the register at the
/// profile's path. Its answer goes to the output, and to the fault output why there is none: words that
/// aren't understood, a profile or a path that can't be read, a refusal. An analysis that is answered may
/// warn of records there. The command `batch` runs the lines of the input in one session; what they answer
/// goes to the output, as that of a script does. The command `shell` does the same with each line as it
/// comes: its answer is passed on before the next line is read. It ends where a write has failed, too.
///
/// The status is the greatest met: 0 answered, 1 refused, 2 a line that is none or words that aren't
/// understood, 3 where the input or a path couldn't be read, a write or the store failed or memory ran
/// out. Where memory runs out between two lines of output, what was written stays, and nothing more comes there;
/// the fault output then tells that it ran out.
pub fn run<R: Source, W: Output, V: Output, P: Paths>(
    alloc: Global,
    words: &[String],
    input: &mut R,
    output: &mut Sink<W>,
    fault_output: &mut Sink<V>,
    files: &mut P,
) -> u8
    requires { R.has_failed input.old ≡ false }
    // A failed read of the input, and a failed write, show in the status.
    ensures status { ShowsFailures (R.has_failed input.new) output.new.failed
        fault_output.new.failed result }

    // However long the input is, and whatever the answer, but for a shell. Words leave it alone, but where they name a batch or a shell.
    ensures input { (¬ NamesShell (map string_bytes words.now)
        → TakesAtMost (GREATEST_INPUT + 1) (R.remaining input.old) (R.remaining input.new))
        × (words.now ≢ [] → ¬ NamesLines (map string_bytes words.now) → input.new ≡ input.old) }

    // No store is opened without a word. With words, whatever is written, and whatever fails: what becomes of the register's store. Where
    // they name no command none is opened; and lines of a batch are left only where memory ran out for the program itself, with status 3.
    // Why a task isn't done, or none is opened for words that name a command, is told on the fault output, unless a write to that failed.
    ensures store { (words.now ≡ [] → files.new ≡ files.old) × (words.now ≢ [] → EndsLeaving
        (places_of P.Store.Store P.Paths files.old files.new) (map string_bytes words.now)
        (R.remaining input.old) result (IsToldSince fault_output.old fault_output.new)) }

    // Where no write has failed, nothing of what was written is held back.
    ensures passed { (output.new.failed ≡ false → W.held_back output.new.writer ≡ [])
        × (fault_output.new.failed ≡ false → V.held_back fault_output.new.writer ≡ []) }

    // What was sent to both outputs; where no write to one has failed, its writer got it. Without a word nothing goes to the fault output
    // but that memory ran out, or what is expected; and where neither a read nor a write failed, each line of an input that tells its bytes
    // is answered as the engine says of it on any tables, and as a run answers it up to the first line that names a file by its path of
    // which the paths don't tell the bytes.
    ensures script { words.now ≡ [] → SendsBoth output.old output.new fault_output.old
        fault_output.new (λ bytes told. TellsAtMost told × (R.has_failed input.new ≡ false →
        output.new.failed ≡ false → fault_output.new.failed ≡ false → IfSome (R.remaining input.old)
        (λ text. EndsWith result (EndsScript (telling_of P.Paths files.old) text bytes told)))) }

    // With words: what is told of the register that they have a command carried out on is told where the paths tell what opens it.
    ensures words { words.now ≢ [] → SendsBoth output.old output.new fault_output.old
        fault_output.new (λ bytes told. output.new.failed ≡ false → fault_output.new.failed ≡ false
        → EndsWith result (EndsWords (places_of P.Store.Store P.Paths files.old files.new) (map
        string_bytes words.now) (R.remaining input.old) (R.remaining input.new) (R.has_failed
        input.new) bytes told)) }
{
    if words.is_empty() {
        let ended = run_script(alloc, files, input, output);
        let status = tell_script(ended, output, fault_output);
        return finish(status, output, fault_output).code();
    }
    let ended = run_words(alloc, words, files, input, output, fault_output);
    let status = tell_starved(ended, fault_output);
    finish(status, output, fault_output).code()
}

/// The status of a run that ended so. Where memory ran out for the program itself, that is written, for which no memory is taken.
fn tell_starved<V: Write>(ended: Result<Status, AllocError>, fault_output: &mut Sink<V>) -> Status
    ensures { Sends fault_output.old fault_output.new (λ told. TellsStarved ended told result) }
{
    match ended {
        Ok(status) => status,
        Err(_) => {
            fault_output.write_line("zebraidx: out of memory");
            Status::Failed
        }
    }
}

/// Has the outputs pass on what they hold back, and answers the status: this one, or `Failed` where a write has failed.
fn finish<W: Output, V: Output>(
    status: Status,
    output: &mut Sink<W>,
    fault_output: &mut Sink<V>,
) -> Status
    ensures status { IsLastStatus output.new.failed fault_output.new.failed status result }
    ensures passed { PassesOn output.old output.new (W.held_back output.new.writer) × PassesOn
        fault_output.old fault_output.new (V.held_back fault_output.new.writer) }
{
    output.flush();
    fault_output.flush();
    if output.has_failed() || fault_output.has_failed() {
        return Status::Failed;
    }
    status
}

/// How a script ended.
#[derive(Clone, Copy)]
struct ScriptEnd {
    status: Status,
    /// Whether its input had no byte.
    is_empty: bool,
}

/// The status of a script that ended so, with what the fault output says of it: what is expected, where the input was empty, or that memory
/// ran out.
fn tell_script<W: Output, V: Write>(
    ended: Result<ScriptEnd, AllocError>,
    output: &mut Sink<W>,
    fault_output: &mut Sink<V>,
) -> Status
    ensures told { Sends fault_output.old fault_output.new (λ told. TellsEnd ended told result) }
    ensures kept { Sent output.old output.new [] }
{
    match ended {
        Ok(end) => {
            tell_expected(end.is_empty, output, fault_output);
            end.status
        }
        Err(error) => tell_starved(Err(error), fault_output),
    }
}

/// Where the input was empty, writes what is expected below its answer, which is passed on before.
fn tell_expected<W: Output, V: Write>(
    is_empty: bool,
    answers: &mut Sink<W>,
    fault_output: &mut Sink<V>,
)
    ensures told { Sent fault_output.old fault_output.new (hint_of is_empty) }
    ensures kept { Sent answers.old answers.new [] }
{
    if is_empty {
        answers.flush();
        fault_output.write_line(
            "zebraidx: cause: an empty input, where a script is expected: a profile, a line '.', commands (see zebraidx help)",
        );
    }
}

/// Reads a script from the input, and runs it.
fn run_script<R: Source, W: Write, P: Paths>(
    alloc: Global,
    paths: &P,
    input: &mut R,
    output: &mut Sink<W>,
) -> Result<ScriptEnd, AllocError>
    requires { R.has_failed input.old ≡ false }
    ensures bounded { TakesAtMost (GREATEST_INPUT + 1) (R.remaining input.old) (R.remaining
        input.new) }
    ensures failed_read { R.has_failed input.new ≡ true → IfOk result (λ end. end.status ≡
        Status.Failed) }
    ensures answer { Sends output.old output.new (λ bytes. R.has_failed input.new ≡ false → IfSome
        (R.remaining input.old) (λ text. AnswersAs (telling_of P.Paths paths.now) text bytes
        result)) }
{
    let text = match read_text(alloc, input, GREATEST_INPUT) {
        Ok(text) => text,
        Err(SourceFault::Unreadable) => {
            output.write_line("zebraidx: cannot read input");
            return Ok(ScriptEnd {
                status: Status::Failed,
                is_empty: false,
            });
        }
        Err(SourceFault::Memory) => return Err(AllocError),
    };
    let text = text.as_str();
    let status = run_text(alloc, paths, text, output)?;
    Ok(ScriptEnd {
        status,
        is_empty: text.is_empty(),
    })
}

/// Runs the script that has this text.
fn run_text<W: Write, P: Paths>(
    alloc: Global,
    paths: &P,
    text: &str,
    output: &mut Sink<W>,
) -> Result<Status, AllocError>
    requires { IsInput text.now }
    ensures { Sends output.old output.new (λ bytes. MatchResult result (AnswersScript (telling_of
        P.Paths paths.now) text.now bytes) (λ error. EndsEarly (telling_of P.Paths paths.now)
        text.now bytes)) }
{
    let script = Script::cut(text);
    match Profile::read(alloc, script.profile) {
        Ok(profile) => match script.batch {
            Some(batch) => run_in_memory(alloc, profile, paths, batch, output),
            None => Ok(Status::Answered),
        },
        Err(fault) => Ok(refuse_profile(fault, output)),
    }
}

/// Writes a profile's fault, and answers its status.
fn refuse_profile<W: Write>(fault: ProfileFault, output: &mut Sink<W>) -> Status
    ensures status { result ≡ fault_status fault.kind }
    ensures line { Sent output.old output.new (fault_line fault) }
{
    output.write_line(format_args!("zebraidx: input {fault}"));
    Status::of_profile(fault.kind)
}
