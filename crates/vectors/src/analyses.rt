//! Analyses under a limit, and want of memory. What is printed of records stands in `crates/rows`.

use crate::rows::{bytes_of, rows_hold};
use std::alloc::{AllocError, Global};
use std::test::Fail;
use worked_samples::profile;
use zeb_analysis::{Analysis, AnalysisFault, analyse, analysis_lines};
use zeb_profile::Profile;

/// How many records there may be, and the records of two files, the second of which may be empty; then what is printed of the first one, or why the analysis ends.
static ROWS: &str = "\
1 moby -> record 1 1 a1%0aTitle:w 2 2 dick%0aTitle:w 2 1 moby%0aTitle:w 3 1 or%0aTitle:w 3 2 the%0a\
Title:w 3 3 whale%0aTitle:p 2 1 moby dick%0aDate:n 4 1 1851%0aAny:w 4 1 c1851%0aAny:w 2 2 dick%0a\
Any:w 2 1 moby%0aAny:w 3 1 or%0aAny:w 3 2 the%0aAny:w 3 3 whale%0a
# The limit is of records, and what stands behind the last one is none.
1 moby+cut -> file 1 record 2: Truncated
# A record too many isn't looked at.
1 moby; bare -> too many records
";

/// The lines of the first analysis.
fn lines_of(alloc: Global, found: &[Analysis]) -> Result<String, AllocError> {
    let Some(first) = found.first() else {
        return String::from_str(alloc, "no analysis");
    };
    let mut names = Vec::new(alloc);
    for name in ["Title", "Date", "Any"] {
        names.push(String::from_str(alloc, name)?)?;
    }
    analysis_lines(alloc, &names, first)
}

/// What is said of the records of files under a limit and a profile.
fn analysed(
    alloc: Global,
    profile: &Profile,
    limit: &str,
    files: &[Vec<u8>],
) -> Result<String, AllocError> {
    match analyse(alloc, profile, limit.parse().unwrap_or(0), files) {
        Ok(analyses) => lines_of(alloc, &analyses),
        Err(AnalysisFault::Memory) => Err(AllocError),
        Err(fault) => fault.to_string(alloc),
    }
}

/// The same under the sample profile.
fn told(alloc: Global, limit: &str, files: &[Vec<u8>]) -> Result<String, AllocError> {
    match Profile::read(alloc, profile("books")) {
        Ok(profile) => analysed(alloc, &profile, limit, files),
        Err(_) => Err(AllocError),
    }
}

fn answer(alloc: Global, text: &str) -> Result<String, AllocError> {
    let (limit, files) = text.split_once(' ').unwrap_or((text, ""));
    let (one, other) = files.split_once("; ").unwrap_or((files, ""));
    let files = [bytes_of(alloc, one)?, bytes_of(alloc, other)?];
    told(alloc, limit, &files)
}

#[test]
fn analyses_are_made(rt: HostRuntime) -> Result<(), Fail> {
    rows_hold(rt.alloc(), ROWS, answer)
}
