//! Why a command that names paths isn't answered, with its cause, where that is known.

ghost use Rattle.std.specs.Prelude.{◌≡◌, map, string_bytes, IfOk};
ghost use Rattle.zeb_paths.specs.Walks.{telling_of};
ghost use Rattle.zeb_program.specs.Explanations.{ExplainsRefusal, TellsFile};
ghost use Rattle.zeb_program.specs.FaultLines.{file_in};
ghost use Rattle.zeb_program.specs.PrivateWordRuns.{ExplainsFailure};
ghost use Rattle.zeb_program.specs.declared.faults.Fault.TheVariants.{Refused};

use crate::failures::{Cause, Failure, of_path, of_store};
use crate::faults::Fault;
use crate::file_causes::of_file;
use crate::files::path_of_file;
use std::alloc::{AllocError, Global};
use zeb_engine::Refusal;
use zeb_paths::{Asked, Paths, StoreCause};

/// The fault of a command that names these paths, with its cause, where it is known; this is known of why a store fails.
pub fn explained<P: Paths>(
    alloc: Global,
    paths: &P,
    named: &[String],
    fault: Fault,
    met: Option<StoreCause>,
) -> Result<Failure, AllocError>
    ensures fault { IfOk result (λ failure. failure.fault ≡ fault) }
    ensures explains { IfOk result (ExplainsFailure (telling_of P.Paths paths.now)
        (P.explains paths.now) (map string_bytes named.now) met) }
{
    match fault {
        Fault::Refused(refusal) => refused(alloc, paths, named, refusal, met),
        other => Ok(of_path(paths, other, Asked::Step)),
    }
}

/// A refusal, with the path of its file, or with why the store failed, where that is known.
fn refused<P: Paths>(
    alloc: Global,
    paths: &P,
    named: &[String],
    refusal: Refusal,
    met: Option<StoreCause>,
) -> Result<Failure, AllocError>
    ensures fault { IfOk result (λ failure. failure.fault ≡ Refused refusal) }
    ensures explains { IfOk result (λ failure. ExplainsRefusal (telling_of P.Paths paths.now)
        (P.explains paths.now) (map string_bytes named.now) met refusal failure.cause) }
{
    match file_of(&refusal) {
        Some(number) => Ok(Failure {
            cause: file_cause(alloc, paths, named, &refusal, number)?,
            fault: Fault::Refused(refusal),
        }),
        None => Ok(of_store(refusal, met)),
    }
}

/// The number of the file that a refusal is about.
fn file_of(refusal: &Refusal) -> Option<u64>
    ensures { result ≡ file_in refusal.now }
{
    match refusal {
        Refusal::Record { file, .. }
        | Refusal::Unknown { file, .. }
        | Refusal::ReadFault { file } => Some(*file),
        _ => None,
    }
}

/// The path of the file of this number, which a refusal is about, where it is found again.
fn file_cause<P: Paths>(
    alloc: Global,
    paths: &P,
    named: &[String],
    refusal: &Refusal,
    number: u64,
) -> Result<Option<Cause>, AllocError>
    ensures { IfOk result (TellsFile (telling_of P.Paths paths.now) (P.explains paths.now)
        (map string_bytes named.now) refusal.now number) }
{
    let found = path_of_file(alloc, paths, named, number)?;
    of_file(alloc, paths, refusal, number, found)
}
