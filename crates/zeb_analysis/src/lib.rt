//! The analysis of files of MARC 21 records under an indexing profile (Zebra manual, zebraidx, `-s update`): what each record is
//! called and what it is found by, with nothing kept.
#![tactic(auto)]

mod analysing;
mod faults;
mod lines;
mod printing;

pub use analysing::{Analysis, analyse};
pub use faults::{AnalysisFault, Place};
pub use lines::AnalysedLines;
pub use printing::analysis_lines;
