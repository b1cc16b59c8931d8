//! Why a part of a change is refused: each type has just the faults that its functions can tell.

ghost use Rattle.std.specs.Prelude.{◌≡◌};

use crate::faults::RecordFault;
use zeb_extract::IdentFault;
use zeb_marc::MarcFault;
use zeb_register::RegFault;

/// Why a record of a file can't be taken, whatever the database keeps. It is found in bytes and memory alone.
#[derive(Clone, Copy)]
pub(crate) enum IncomingFault {
    /// It is no record, or has no sound identifier.
    Record {
        file: u64,
        nth: u64,
        fault: RecordFault,
    },
    /// Memory ran out.
    Memory,
}

impl IncomingFault {
    ghost use Rattle.zeb_change.specs.Outcomes.{identifier_refusal, incoming_refusal};

    /// The fault of a record that has no sound identifier.
    pub(crate) fn of_identifier(file: u64, nth: u64, fault: IdentFault) -> IncomingFault
        ensures { incoming_refusal result ≡ identifier_refusal file nth fault }
    {
        let fault = match fault {
            IdentFault::Memory => return IncomingFault::Memory,
            IdentFault::NoIdentifier => RecordFault::NoIdentifier,
            IdentFault::BadIdentifier => RecordFault::BadIdentifier,
        };
        IncomingFault::Record { file, nth, fault }
    }
}

/// Why a sound record isn't taken, beside its elder.
#[derive(Clone, Copy)]
pub(crate) enum TurnFault {
    /// No record with its identifier is kept.
    Unknown { file: u64, nth: u64 },
    /// No system number is left.
    DatabaseFull,
    /// The elder is damaged, or the store or the memory failed.
    Register(RegFault),
}

impl From<RegFault> for TurnFault {
    ghost use Rattle.zeb_change.specs.declared.part_faults.TurnFault.TheVariants.{Register};

    ghost from_gives = { λ fault it. it ≡ Register fault };

    fn from(fault: RegFault) -> TurnFault {
        TurnFault::Register(fault)
    }
}

/// Why a record of a file isn't taken.
#[derive(Clone, Copy)]
pub(crate) enum ChangeFault {
    Incoming(IncomingFault),
    Turn(TurnFault),
}

impl From<IncomingFault> for ChangeFault {
    ghost use Rattle.zeb_change.specs.declared.part_faults.ChangeFault.TheVariants.{Incoming};

    ghost from_gives = { λ fault it. it ≡ Incoming fault };

    fn from(fault: IncomingFault) -> ChangeFault {
        ChangeFault::Incoming(fault)
    }
}

impl From<TurnFault> for ChangeFault {
    ghost use Rattle.zeb_change.specs.declared.part_faults.ChangeFault.TheVariants.{Turn};

    ghost from_gives = { λ fault it. it ≡ Turn fault };

    fn from(fault: TurnFault) -> ChangeFault {
        ChangeFault::Turn(fault)
    }
}

impl From<RegFault> for ChangeFault {
    ghost use Rattle.zeb_change.specs.declared.part_faults.TurnFault.TheVariants.{Register};
    ghost use Rattle.zeb_change.specs.declared.part_faults.ChangeFault.TheVariants.{Turn};

    ghost from_gives = { λ fault it. it ≡ Turn (Register fault) };

    fn from(fault: RegFault) -> ChangeFault {
        ChangeFault::Turn(TurnFault::Register(fault))
    }
}

/// Why no further record is taken.
#[derive(Clone, Copy)]
pub(crate) enum TakeFault {
    /// One command has too many records.
    TooManyRecords,
    Change(ChangeFault),
}

impl From<ChangeFault> for TakeFault {
    ghost use Rattle.zeb_change.specs.declared.part_faults.TakeFault.TheVariants.{Change};

    ghost from_gives = { λ fault it. it ≡ Change fault };

    fn from(fault: ChangeFault) -> TakeFault {
        TakeFault::Change(fault)
    }
}

impl From<RegFault> for TakeFault {
    ghost use Rattle.zeb_change.specs.declared.part_faults.TurnFault.TheVariants.{Register};
    ghost use Rattle.zeb_change.specs.declared.part_faults.ChangeFault.TheVariants.{Turn};
    ghost use Rattle.zeb_change.specs.declared.part_faults.TakeFault.TheVariants.{Change};

    ghost from_gives = { λ fault it. it ≡ Change (Turn (Register fault)) };

    fn from(fault: RegFault) -> TakeFault {
        TakeFault::Change(ChangeFault::Turn(TurnFault::Register(fault)))
    }
}

/// Why the files aren't folded in.
#[derive(Clone, Copy)]
pub(crate) enum FoldFault {
    /// A reader failed.
    ReadFault { file: u64 },
    Take(TakeFault),
}

impl FoldFault {
    ghost use Rattle.zeb_change.specs.Outcomes.{fold_refusal, marc_refusal};

    /// The fault that stands in a file in the place of a record.
    pub(crate) fn of_marc(file: u64, nth: u64, fault: MarcFault) -> FoldFault
        ensures { fold_refusal result ≡ marc_refusal file nth fault }
    {
        let fault = match fault {
            MarcFault::ReadFault => return FoldFault::ReadFault { file },
            fault => RecordFault::of_marc(fault),
        };
        let record = IncomingFault::Record { file, nth, fault };
        FoldFault::Take(TakeFault::Change(ChangeFault::Incoming(record)))
    }
}

impl From<TakeFault> for FoldFault {
    ghost use Rattle.zeb_change.specs.declared.part_faults.FoldFault.TheVariants.{Take};

    ghost from_gives = { λ fault it. it ≡ Take fault };

    fn from(fault: TakeFault) -> FoldFault {
        FoldFault::Take(fault)
    }
}
