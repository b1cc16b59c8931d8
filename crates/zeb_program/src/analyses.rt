//! The analysis of the files at and below paths, one after the other: one file is held at a time, and the lines of the records before.

ghost use Rattle.std.specs.Prelude.{◌≡◌, ◌⊎◌, ⊤, ◌+◌, ◌∷◌, ◌++◌, [], ℕ, List, length, map, string_bytes, IfErr, IfOk};
ghost use Rattle.zeb_engine.specs.Analysed.{HasLines};
ghost use Rattle.zeb_paths.specs.Walks.{telling_of};
ghost use Rattle.zeb_program.specs.FaultAnswers.{NamesMet};
ghost use Rattle.zeb_program.specs.Inputs.{AreShort};
ghost use Rattle.zeb_program.specs.PrivateAnalyses.{ReadsFiles};
ghost use Rattle.zeb_program.specs.PrivateFaults.{IsUnreadAt};
ghost use Rattle.zeb_program.specs.TaskAnswers.{AreTold};
ghost use Rattle.zeb_program.specs.declared.faults.Fault.TheVariants.{Memory};

use crate::faults::Fault;
use crate::files::content_of;
use crate::warnings::note_unmarked;
use sqlite::Alter;
use std::alloc::{AllocError, Global};
use zeb_analysis::Place;
use zeb_engine::{AnalysedLines, Refusal, Session};
use zeb_marc::RecordBuf;
use zeb_paths::{Paths, Walk};
use zeb_register::Layout;

/// What comes of the files of an analysis.
#[derive(Drop)]
pub struct AnalysedFiles {
    /// The lines of their records, or the first refusal.
    pub lines: Result<AnalysedLines, Refusal>,
    /// Which of the records don't say that they are in Unicode.
    pub unmarked: Vec<Place>,
}

/// Reads the files at and below the paths, each of which is analysed as it is read. Behind a refusal they are still read, for a path that
/// can't be read comes before any record. A file that can't be read, or has too many bytes, is such a path.
pub fn analyse_files<S: Alter, L: Layout, P: Paths>(
    alloc: Global,
    session: &Session<S, L>,
    paths: &P,
    named: &[String],
) -> Result<AnalysedFiles, Fault>
    // All of them, and no other.
    ensures reads { IfOk result (ReadsFiles (telling_of P.Paths paths.now) session.now.profile
        session.now.limits.records (map string_bytes named.now)) }
    // Files whose bytes are told are refused where one has more bytes than a file may have, and else only for want of memory.
    ensures reason { (files : List (List ℕ)) → AreTold (P.tells paths.now)
        (map string_bytes named.now) files
        → IfErr result (λ fault. (fault ≡ Memory) ⊎ (¬ AreShort files)) }
    ensures unread { IfErr result (IsUnreadAt (P.tells paths.now)) }
    ensures met { IfErr result (NamesMet (telling_of P.Paths paths.now) ⊤
        (map string_bytes named.now)) }
{
    let mut buffer = RecordBuf::new(alloc)?;
    let mut unmarked = Vec::new(alloc);
    let mut lines = session.begin_analysis();
    let mut walk = Walk::new(alloc, paths, named)?;
    // A file's number is counted, since it is told.
    let mut file = 1;
    while let Some(path) = walk.next_file()? {
        let bytes = content_of(alloc, paths, path)?;
        note_unmarked(&mut unmarked, &mut buffer, file, &bytes)?;
        lines = with_file(session, lines, file, &bytes);
        file = number_behind(file)?;
    }
    Ok(AnalysedFiles { lines, unmarked })
}

/// The number of the file behind the one of this number. Behind the greatest it is want of memory: no machine reads so many files.
fn number_behind(file: u64) -> Result<u64, AllocError>
    ensures { IfOk result (λ next. next ≡ file + 1) }
{
    file.checked_add(1).ok_or(AllocError)
}

/// The lines with those of one more file's records; a refusal stays.
fn with_file<S: Alter, L: Layout>(
    session: &Session<S, L>,
    lines: Result<AnalysedLines, Refusal>,
    file: u64,
    bytes: &[u8],
) -> Result<AnalysedLines, Refusal>
    ensures { (texts : List (List ℕ)) → file ≡ length texts + 1
        → HasLines session.now.profile session.now.limits.records texts lines
        → HasLines session.now.profile session.now.limits.records (texts ++ bytes.now ∷ []) result }
{
    session.analyse_file(lines?, file, bytes)
}
