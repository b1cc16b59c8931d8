//! The files at the paths that words or a line name.

ghost use Rattle.std.specs.Prelude.{◌≡◌, ◌+◌, ℕ, List, Some, map, string_bytes, Err, IfErr, IfOk, false, true};
ghost use Rattle.zeb_paths.specs.Walks.{telling_of};
ghost use Rattle.zeb_program.specs.Inputs.{TakesAtMost};
ghost use Rattle.zeb_program.specs.PrivateFaults.{IsUnfound, IsUnread};
ghost use Rattle.zeb_program.specs.PrivateFiles.{IsGiven, ReadsBelow, ReadsContent, sure_bytes};
ghost use Rattle.zeb_program.specs.ProfileFiles.{ReadsProfile};
ghost use Rattle.zeb_program.specs.TaskAnswers.{AreTold};
ghost use Rattle.zeb_program.specs.WalkedFiles.{FindsNthFile};
ghost use Rattle.zeb_program.specs.declared.faults.Fault.TheVariants.{Memory, Unreadable};

use crate::faults::Fault;
use crate::input::{GREATEST_INPUT, SourceFault, read_text, read_whole};
use std::alloc::{AllocError, Global};
use zeb_marc::Source;
use zeb_paths::{Paths, Walk, WalkFault};
use zeb_profile::Profile;

/// How many bytes a profile's file may have.
const GREATEST_PROFILE: usize = 1_048_576;

/// Reads a profile's file.
pub fn read_profile<P: Paths>(alloc: Global, paths: &P, file: String) -> Result<Profile, Fault>
    ensures { ReadsProfile (P.tells paths.now (string_bytes file)) file result }
{
    let mut source = paths.reader(file.clone()?);
    profile_from(alloc, &mut source, file)
}

/// Reads the profile that stands in this file, whose bytes the source gives.
fn profile_from<R: Source>(alloc: Global, source: &mut R, file: String) -> Result<Profile, Fault>
    requires { R.has_failed source.old ≡ false }
    ensures read { R.has_failed source.new ≡ false
        → ReadsProfile (R.remaining source.old) file result }
    ensures failed { R.has_failed source.new ≡ true → result ≡ Err (Unreadable file) }
    ensures able { R.may_fail source.old ≡ false → R.has_failed source.new ≡ false }
    // Whatever the answer.
    ensures taken { TakesAtMost (GREATEST_PROFILE + 1) (R.remaining source.old)
        (R.remaining source.new) }
{
    let text = match read_text(alloc, source, GREATEST_PROFILE) {
        Ok(text) => text,
        Err(fault) => return Err(unread(fault, file)),
    };
    match Profile::read(alloc, text.as_str()) {
        Ok(profile) => Ok(profile),
        Err(fault) => Err(Fault::Profile { file, fault }),
    }
}

/// Why what is at this path isn't read whole.
pub fn unread(fault: SourceFault, path: String) -> Fault
    ensures unread { IsUnread result }
    ensures path { fault ≡ SourceFault.Unreadable → result ≡ Unreadable path }
    ensures memory { fault ≡ SourceFault.Memory → result ≡ Memory }
{
    match fault {
        SourceFault::Unreadable => Fault::Unreadable(path),
        SourceFault::Memory => Fault::Memory,
    }
}

/// The readers of the files at and below the paths; no file is opened yet.
pub fn readers_of<P: Paths>(
    alloc: Global,
    paths: &P,
    named: &[String],
) -> Result<Vec<P::Reader>, Fault>
    // Where the bytes of a file at each path are told, just the readers of these files are given, of which none can fail, or memory
    // runs out.
    ensures told { (files : List (List ℕ))
        → AreTold (P.tells paths.now) (map string_bytes named.now) files
        → IfOk result (λ readers.
        map (sure_bytes P.Reader.remaining P.Reader.may_fail P.Reader.has_failed) readers.items
        ≡ map Some files) }
    ensures memory { (files : List (List ℕ))
        → AreTold (P.tells paths.now) (map string_bytes named.now) files
        → IfErr result (λ fault. fault ≡ Memory) }
    // Of folders too, as far as the paths tell what stands in them.
    ensures given { IfOk result (λ readers. ReadsBelow
        (sure_bytes P.Reader.remaining P.Reader.may_fail P.Reader.has_failed)
        (telling_of P.Paths paths.now) (map string_bytes named.now) readers.items) }
    // The path that is told is the one that the walk comes to and can't go on at.
    ensures unfound { IfErr result (IsUnfound (telling_of P.Paths paths.now)
        (map string_bytes named.now)) }
{
    let mut readers = Vec::new(alloc);
    let mut walk = Walk::new(alloc, paths, named)?;
    while let Some(path) = walk.next_file()? {
        readers.push(paths.reader(path))?;
    }
    Ok(readers)
}

/// The path of the file that has this number, from 1, among those at and below the paths. `None` where there is no such file, or the walk
/// can't go on to it.
pub fn path_of_file<P: Paths>(
    alloc: Global,
    paths: &P,
    named: &[String],
    number: u64,
) -> Result<Option<String>, AllocError>
    ensures { IfOk result (FindsNthFile (telling_of P.Paths paths.now) (map string_bytes named.now)
        number) }
{
    let mut walk = Walk::new(alloc, paths, named)?;
    for _nth in 1..number {
        let Some(_passed) = given(walk.next_file())? else {
            return Ok(None);
        };
    }
    given(walk.next_file())
}

/// The file that a walk gives. `None` where there is none, or it can't go on.
fn given(found: Result<Option<String>, WalkFault>) -> Result<Option<String>, AllocError>
    ensures { IfOk result (IsGiven found) }
{
    match found {
        Ok(found) => Ok(found),
        Err(WalkFault::Unreadable(_)) => Ok(None),
        Err(WalkFault::Memory) => Err(AllocError),
    }
}

/// The bytes of the file at this path. A file that can't be read, or has too many bytes, is a path that can't be read.
pub fn content_of<P: Paths>(alloc: Global, paths: &P, path: String) -> Result<Vec<u8>, Fault>
    ensures { ReadsContent (P.tells paths.now (string_bytes path)) path result }
{
    let mut source = paths.reader(path.clone()?);
    content_from(alloc, &mut source, path)
}

/// The bytes of the file at this path, which the source gives.
fn content_from<R: Source>(alloc: Global, source: &mut R, path: String) -> Result<Vec<u8>, Fault>
    requires { R.has_failed source.old ≡ false }
    ensures read { R.has_failed source.new ≡ false
        → ReadsContent (R.remaining source.old) path result }
    ensures failed { R.has_failed source.new ≡ true → result ≡ Err (Unreadable path) }
    ensures able { R.may_fail source.old ≡ false → R.has_failed source.new ≡ false }
    // Whatever the answer.
    ensures taken { TakesAtMost (GREATEST_INPUT + 1) (R.remaining source.old)
        (R.remaining source.new) }
{
    match read_whole(alloc, source, GREATEST_INPUT) {
        Ok(content) => Ok(content),
        Err(fault) => Err(unread(fault, path)),
    }
}
