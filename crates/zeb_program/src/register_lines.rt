//! The lines of the input on a register that is open: they are run, and it is closed behind the last.

ghost use Rattle.std.specs.Prelude.{◌≡◌, false, []};
ghost use Rattle.zeb_paths.specs.Walks.{telling_of};
ghost use Rattle.zeb_program.specs.PrivateWordRuns.{RunsIn, ServesIn, format_of, ClosesBelow};
ghost use Rattle.zeb_engine.specs.Sessions.{conditions_in};
ghost use Rattle.zeb_program.specs.PrivateSinks.{Sends};

use crate::batch::run_lines;
use crate::failures::tell_closed;
use crate::opening::{OpenRegister, UsedLayout};
use crate::outputs::Output;
use crate::performing::close_register;
use crate::script::Batch;
use crate::shell::{run_shell_lines, tell_input};
use crate::sinks::Sink;
use crate::statuses::Status;
use std::alloc::{AllocError, Global};
use std::io::Write;
use zeb_engine::Session;
use zeb_leaves::Leaves;
use zeb_marc::Source;
use zeb_paths::Paths;
use zeb_register::Layout;

/// Runs the lines of a batch on a register that is open, and closes it.
pub fn run_on<W: Write, V: Write, P: Paths>(
    alloc: Global,
    register: OpenRegister<P::Store>,
    paths: &P,
    batch: Batch<'_>,
    output: &mut Sink<W>,
    fault_output: &mut Sink<V>,
) -> Result<Status, AllocError>
    ensures { RunsIn P.Store.Store (P.leaves paths.now) (telling_of P.Paths paths.now) (format_of
        register.1) (conditions_in (format_of register.1) register.0) batch.entry.lines_before
        batch.entry.text.now register.0.connection output.old output.new fault_output.old
        fault_output.new result }
{
    let (session, layout) = register;
    match layout {
        UsedLayout::Blocks => run_in(alloc, session, paths, batch, output, fault_output),
        UsedLayout::Leaves => {
            let session = session.to_layout::<Leaves>();
            run_in(alloc, session, paths, batch, output, fault_output)
        }
    }
}

/// Runs the lines of a batch in a session, and closes its register.
fn run_in<L: Layout, W: Write, V: Write, P: Paths>(
    alloc: Global,
    session: Session<P::Store, L>,
    paths: &P,
    batch: Batch<'_>,
    output: &mut Sink<W>,
    fault_output: &mut Sink<V>,
) -> Result<Status, AllocError>
    ensures { RunsIn P.Store.Store (P.leaves paths.now) (telling_of P.Paths paths.now) L.format
        (conditions_in L.format session) batch.entry.lines_before batch.entry.text.now
        session.connection output.old output.new fault_output.old fault_output.new result }
{
    let mut session = session;
    let answered = run_lines(alloc, &mut session, paths, batch, output);
    end_session(paths, session, answered, fault_output)
}

/// Serves the lines of the input on a register that is open, and closes it behind the last.
pub fn serve_on<R: Source, W: Output, V: Write, P: Paths>(
    alloc: Global,
    register: OpenRegister<P::Store>,
    paths: &P,
    input: &mut R,
    output: &mut Sink<W>,
    fault_output: &mut Sink<V>,
) -> Result<Status, AllocError>
    requires { R.has_failed input.old ≡ false }
    ensures { ServesIn P.Store.Store (P.leaves paths.now) (telling_of P.Paths paths.now) (format_of
        register.1) (conditions_in (format_of register.1) register.0) (R.remaining input.old)
        (R.remaining input.new) (R.has_failed input.new) register.0.connection output.old output.new
        fault_output.old fault_output.new result }
{
    let (session, layout) = register;
    match layout {
        UsedLayout::Blocks => serve_in(alloc, session, paths, input, output, fault_output),
        UsedLayout::Leaves => {
            let session = session.to_layout::<Leaves>();
            serve_in(alloc, session, paths, input, output, fault_output)
        }
    }
}

/// Serves the lines of the input in a session, and closes its register behind the last.
fn serve_in<L: Layout, R: Source, W: Output, V: Write, P: Paths>(
    alloc: Global,
    session: Session<P::Store, L>,
    paths: &P,
    input: &mut R,
    output: &mut Sink<W>,
    fault_output: &mut Sink<V>,
) -> Result<Status, AllocError>
    requires { R.has_failed input.old ≡ false }
    ensures { ServesIn P.Store.Store (P.leaves paths.now) (telling_of P.Paths paths.now) L.format
        (conditions_in L.format session) (R.remaining input.old) (R.remaining input.new)
        (R.has_failed input.new) session.connection output.old output.new fault_output.old
        fault_output.new result }
{
    let mut session = session;
    let answered = run_shell_lines(alloc, &mut session, paths, input, output);
    let ended = tell_input(answered, fault_output);
    end_session(paths, session, ended, fault_output)
}

/// Closes the register of a session whose lines are answered so, tells where not all stands in its one file then, and answers the
/// greatest status.
fn end_session<L: Layout, V: Write, P: Paths>(
    paths: &P,
    session: Session<P::Store, L>,
    answered: Result<Status, AllocError>,
    fault_output: &mut Sink<V>,
) -> Result<Status, AllocError>
    ensures { Sends fault_output.old fault_output.new (λ told. ClosesBelow P.Store.Store (P.leaves
        paths.now) session.connection [] told answered result) }
{
    let closed = tell_closed(close_register(paths, session), fault_output);
    Ok(answered?.max(closed))
}
