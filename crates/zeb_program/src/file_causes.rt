//! What is told of the file that a refusal is about: its path, and what that is met with or what the file is.

ghost use Rattle.std.specs.Prelude.{◌≡◌, IfOk};
ghost use Rattle.std.specs.Option.{option_map};
ghost use Rattle.zeb_program.specs.Explanations as spec;
ghost use Rattle.zeb_program.specs.Explanations.{IsFileCause, MeetsFile, MeetsRecord};
ghost use Rattle.zeb_program.specs.declared.failures.FileCause.TheVariants.{Path as PathMet};

use crate::failures::{Cause, FileCause};
use crate::forms::{Form, form_at};
use std::alloc::{AllocError, Global};
use zeb_engine::{RecordFault, Refusal};
use zeb_paths::{Asked, PathCause, Paths};

/// The path of the file that a refusal is about, which has this number, as a cause, with what is told of it.
pub fn of_file<P: Paths>(
    alloc: Global,
    paths: &P,
    refusal: &Refusal,
    number: u64,
    found: Option<String>,
) -> Result<Option<Cause>, AllocError>
    ensures { IfOk result
        (IsFileCause (P.tells paths.now) (P.explains paths.now) refusal.now number found) }
{
    match found {
        Some(path) => {
            let met = file_met(alloc, paths, refusal, path.as_str())?;
            Ok(Some(Cause::File { number, path, met }))
        }
        None => Ok(None),
    }
}

/// What is told of the file at this path that a refusal is about: why a read failed, or what it is, where it begins with no record.
fn file_met<P: Paths>(
    alloc: Global,
    paths: &P,
    refusal: &Refusal,
    path: &str,
) -> Result<Option<FileCause>, AllocError>
    ensures { IfOk result
        (MeetsFile (P.tells paths.now) (P.explains paths.now) refusal.now path.now) }
{
    match refusal {
        Refusal::ReadFault { .. } => Ok(path_met(paths.why_unread(path, Asked::Bytes))),
        Refusal::Record { nth, fault, .. } => {
            record_met(alloc, paths, path, lacks_record(*nth, *fault))
        }
        _ => Ok(None),
    }
}

/// What a path is met with, as what is told of its file.
fn path_met(met: Option<PathCause>) -> Option<FileCause>
    ensures { result ≡ option_map PathMet met }
{
    met.map(FileCause::Path)
}

/// Whether a file with this fault of the record of this number begins with no record.
fn lacks_record(nth: u64, fault: RecordFault) -> bool
    ensures { result ≡ spec.lacks_record nth fault }
{
    match fault {
        RecordFault::LengthDigits => nth == 1,
        _ => false,
    }
}

/// What is told of the file at this path, which has a faulty record, and begins with no record or with one.
fn record_met<P: Paths>(
    alloc: Global,
    paths: &P,
    path: &str,
    lacks: bool,
) -> Result<Option<FileCause>, AllocError>
    ensures { IfOk result (MeetsRecord (P.tells paths.now path.now) lacks) }
{
    if !lacks {
        return Ok(None);
    }
    let form = form_at(alloc, paths, String::from_str(alloc, path)?)?;
    Ok(Some(form_cause(form)))
}

/// What is told of a file that begins with no record, by its form.
fn form_cause(form: Option<Form>) -> FileCause
    ensures { result ≡ spec.form_cause form }
{
    match form {
        Some(form) => FileCause::Form(form),
        None => FileCause::Path(PathCause::NoRecord),
    }
}
