//! The analysis of files, with nothing asked of a store.

ghost use Rattle.std.specs.Prelude.{◌≡◌, ◌⊎◌, [], ℕ, Err, IfOk, map, string_bytes};
ghost use Rattle.zeb_profile.specs.Indexes as indexes;
ghost use Rattle.zeb_engine.specs.Analysed.{HasLines, IsAnalysed};
ghost use Rattle.zeb_engine.specs.Answers.{answer_of};
ghost use Rattle.zeb_change.specs.Reading.{NoReadFault};

use crate::replies::Reply;
use std::alloc::{AllocError, Global};
use zeb_analysis::{AnalysedLines, analyse};
use zeb_change::{Limits, Refusal};
use zeb_profile::Profile;

/// The names of a profile's indexes, each at its number.
fn index_names(alloc: Global, profile: &Profile) -> Result<Vec<String>, AllocError>
    ensures { IfOk result (λ names. map string_bytes names.items
        ≡ indexes.index_names profile.now) }
{
    let mut names = Vec::new(alloc);
    for index in 0..profile.index_count() {
        let name = profile.index_name(index).unwrap_or("");
        names.push(String::from_str(alloc, name)?)?;
    }
    Ok(names)
}

/// What the records of the files are found by, or the first refusal. `Memory` where memory ran out, whatever stands in the files.
pub(crate) fn analyse_files(
    alloc: Global,
    profile: &Profile,
    limits: Limits,
    files: &[Vec<u8>],
) -> Result<Reply, Refusal>
    ensures told { IsAnalysed profile.now limits.records (map (λ file. file.items) files.now)
        (answer_of result)
        ⊎ (result ≡ Err Refusal.Memory) }
    ensures unread { NoReadFault result }
{
    let records = analyse(alloc, profile, limits.records, files)?;
    let names = index_names(alloc, profile)?;
    Ok(Reply::Analysed { names, records })
}

/// The lines of no file, under the names of a profile's indexes.
pub(crate) fn no_lines(alloc: Global, profile: &Profile) -> Result<AnalysedLines, Refusal>
    ensures { (limit : ℕ) → HasLines profile.now limit [] result }
{
    let names = index_names(alloc, profile)?;
    Ok(AnalysedLines::new(alloc, names))
}
