//! Why a command is refused.

ghost use Rattle.std.specs.Prelude.{◌≡◌};

use crate::faults::RecordFault;
use crate::part_faults::{ChangeFault, FoldFault, IncomingFault, TakeFault, TurnFault};
use std::alloc::AllocError;
use zeb_analysis::AnalysisFault;
use zeb_query::QueryFault;
use zeb_register::RegFault;

/// Why a command is refused. The tables are then as before it. Files and records are counted from 1, records
/// within their file.
#[derive(Debug, Drop)]
pub enum Refusal {
    /// The register was never initialised.
    NotInitialised,
    /// The register has another layout's format.
    OldFormat,
    /// The register was initialised under another profile.
    ProfileChanged,
    /// A diagnostic of Bib-1: its number, the byte of the query that it is about, counted from 0, and the text
    /// that it names.
    Diagnostic {
        number: u32,
        place: usize,
        addinfo: String,
    },
    /// A database of that name is there.
    Exists,
    /// What stands in a record's place is none, or has no sound identifier.
    Record {
        file: u64,
        nth: u64,
        fault: RecordFault,
    },
    /// No record with that record's identifier is kept.
    Unknown {
        file: u64,
        nth: u64,
    },
    /// No system number is left.
    DatabaseFull,
    /// One command has too many records.
    TooManyRecords,
    /// The tables hold what no commands leave.
    Damaged,
    /// The profile's rule for identifiers isn't the register's.
    IdentifierRuleChanged,
    /// A reader failed.
    ReadFault {
        file: u64,
    },
    /// The store failed. Where it did so at a commit, what is seen is as before, but what was to be committed may be on the disk, where a
    /// crash leaves it.
    Store,
    /// Memory ran out.
    Memory,
}

impl From<AllocError> for Refusal {
    ghost use Rattle.zeb_change.specs.declared.refusals.Refusal.TheVariants.{Memory};

    ghost from_gives = { λ _ refusal. refusal ≡ Memory };

    fn from(_error: AllocError) -> Refusal {
        Refusal::Memory
    }
}

/// The engine itself asks only a commit of the store: whoever opens one tells a failed open in the same way.
impl From<sqlite::Error> for Refusal {
    ghost use Rattle.zeb_change.specs.declared.refusals.Refusal.TheVariants.{Store};

    ghost from_gives = { λ _ refusal. refusal ≡ Store };

    fn from(_error: sqlite::Error) -> Refusal {
        Refusal::Store
    }
}

impl From<RegFault> for Refusal {
    ghost use Rattle.zeb_change.specs.Outcomes.{register_refusal};

    ghost from_gives = { λ fault refusal. refusal ≡ register_refusal fault };

    fn from(fault: RegFault) -> Refusal {
        match fault {
            RegFault::Damaged => Refusal::Damaged,
            RegFault::Store => Refusal::Store,
            RegFault::Memory => Refusal::Memory,
        }
    }
}

impl From<QueryFault> for Refusal {
    ghost use Rattle.zeb_change.specs.Outcomes.{query_refusal};

    ghost from_gives = { λ fault refusal. refusal ≡ query_refusal fault };

    fn from(fault: QueryFault) -> Refusal {
        match fault {
            QueryFault::Diagnostic {
                number,
                place,
                addinfo,
            } => Refusal::Diagnostic {
                number,
                place,
                addinfo,
            },
            QueryFault::Memory => Refusal::Memory,
        }
    }
}

impl From<AnalysisFault> for Refusal {
    ghost use Rattle.zeb_change.specs.Outcomes.{analysis_refusal};

    ghost from_gives = { λ fault refusal. refusal ≡ analysis_refusal fault };

    fn from(fault: AnalysisFault) -> Refusal {
        match fault {
            AnalysisFault::Marc { place, fault } => {
                FoldFault::of_marc(place.file, place.nth, fault).into()
            }
            AnalysisFault::Ident { place, fault } => {
                IncomingFault::of_identifier(place.file, place.nth, fault).into()
            }
            AnalysisFault::TooManyRecords => Refusal::TooManyRecords,
            AnalysisFault::Memory => Refusal::Memory,
        }
    }
}

impl From<IncomingFault> for Refusal {
    ghost use Rattle.zeb_change.specs.Outcomes.{incoming_refusal};

    ghost from_gives = { λ fault refusal. refusal ≡ incoming_refusal fault };

    fn from(fault: IncomingFault) -> Refusal {
        match fault {
            IncomingFault::Record { file, nth, fault } => Refusal::Record { file, nth, fault },
            IncomingFault::Memory => Refusal::Memory,
        }
    }
}

impl From<TurnFault> for Refusal {
    ghost use Rattle.zeb_change.specs.Outcomes.{turn_refusal};

    ghost from_gives = { λ fault refusal. refusal ≡ turn_refusal fault };

    fn from(fault: TurnFault) -> Refusal {
        match fault {
            TurnFault::Unknown { file, nth } => Refusal::Unknown { file, nth },
            TurnFault::DatabaseFull => Refusal::DatabaseFull,
            TurnFault::Register(fault) => fault.into(),
        }
    }
}

impl From<FoldFault> for Refusal {
    ghost use Rattle.zeb_change.specs.Outcomes.{fold_refusal};

    ghost from_gives = { λ fault refusal. refusal ≡ fold_refusal fault };

    fn from(fault: FoldFault) -> Refusal {
        match fault {
            FoldFault::ReadFault { file } => Refusal::ReadFault { file },
            FoldFault::Take(TakeFault::TooManyRecords) => Refusal::TooManyRecords,
            FoldFault::Take(TakeFault::Change(ChangeFault::Incoming(fault))) => fault.into(),
            FoldFault::Take(TakeFault::Change(ChangeFault::Turn(fault))) => fault.into(),
        }
    }
}
