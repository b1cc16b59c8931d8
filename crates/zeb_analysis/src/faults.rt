//! Why an analysis ends.
ghost use Rattle.std.specs.Prelude.{◌≡◌};
ghost use Rattle.zeb_analysis.specs.PrivateRefusals.{ident_fault};
ghost use Rattle.zeb_analysis.specs.declared.faults.AnalysisFault.TheVariants.{Memory};

use std::alloc::{AllocError, AllocFailed};
use std::error::Error;
use std::fmt;
use zeb_extract::IdentFault;
use zeb_marc::MarcFault;

/// Where a record stands: its file, and its place there, both counted from 1.
#[derive(Clone, Copy, Debug, PartialEq, Eq)]
pub struct Place {
    pub file: u64,
    pub nth: u64,
}

/// Why an analysis ends.
#[derive(Clone, Copy, Debug, PartialEq, Eq)]
pub enum AnalysisFault {
    /// What stands at the place is no record; never `ReadFault`, for the files are in memory.
    Marc { place: Place, fault: MarcFault },
    /// A record has no sound identifier; never `IdentFault::Memory`.
    Ident { place: Place, fault: IdentFault },
    /// The files have more records than the limit allows.
    TooManyRecords,
    /// Memory ran out.
    Memory,
}

impl AnalysisFault {
    /// The fault of the identifier of a record that stands here, or want of memory.
    pub(crate) fn of_identifier(place: Place, fault: IdentFault) -> AnalysisFault
        ensures { result ≡ ident_fault place fault }
    {
        match fault {
            IdentFault::Memory => AnalysisFault::Memory,
            _ => AnalysisFault::Ident { place, fault },
        }
    }
}

impl fmt::Display for AnalysisFault {
    ghost use Rattle.std.specs.Prelude.{Some};
    ghost use Rattle.zeb_analysis.specs.Refusals.{analysis_fault_text};

    ghost output = { λ fault. Some (analysis_fault_text fault) };

    fn fmt<W: fmt::Write>(&self, f: &mut fmt::Formatter<W>) -> fmt::Result {
        match self {
            AnalysisFault::Marc { place, fault } => {
                let (file, nth) = (place.file, place.nth);
                write!(f, "file {file} record {nth}: {fault}")
            }
            AnalysisFault::Ident { place, fault } => {
                let (file, nth) = (place.file, place.nth);
                write!(f, "file {file} record {nth}: {fault}")
            }
            AnalysisFault::TooManyRecords => f.write_str("too many records"),
            AnalysisFault::Memory => f.write_str("out of memory"),
        }
    }
}

impl Error for AnalysisFault {}

impl From<AllocError> for AnalysisFault {
    ghost from_gives = { λ _ fault. fault ≡ Memory };

    fn from(_error: AllocError) -> AnalysisFault {
        AnalysisFault::Memory
    }
}

impl<T: Drop> From<AllocFailed<T>> for AnalysisFault {
    ghost from_gives = { λ _ fault. fault ≡ Memory };

    fn from(_error: AllocFailed<T>) -> AnalysisFault {
        AnalysisFault::Memory
    }
}
