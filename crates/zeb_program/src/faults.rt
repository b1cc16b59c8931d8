//! Why a command that words or a line name isn't answered, and what is written of it.

ghost use Rattle.std.specs.Prelude.{◌≡◌, ⊤};
ghost use Rattle.zeb_program.specs.FaultLines.{TellsFault};
ghost use Rattle.zeb_program.specs.PrivateFaults.{EndsTold, IsUnread, fault_of};
ghost use Rattle.zeb_program.specs.PrivateShows.{Shows};
ghost use Rattle.zeb_program.specs.declared.faults.Fault.TheVariants.{Memory};
ghost use Rattle.zeb_program.specs.PrivateSinks.{Sends};

use crate::batch::refuse;
use crate::sinks::Sink;
use crate::statuses::Status;
use std::alloc::{AllocError, AllocFailed, Global};
use std::io::Write;
use zeb_engine::Refusal;
use zeb_paths::WalkFault;
use zeb_profile::ProfileFault;

/// Why a command isn't answered.
#[derive(Drop)]
pub enum Fault {
    /// The profile in this file has this fault.
    Profile { file: String, fault: ProfileFault },
    /// What is at this path can't be read.
    Unreadable(String),
    /// The register refused the command, or wasn't opened.
    Refused(Refusal),
    /// Memory ran out in the program itself.
    Memory,
}

impl From<AllocError> for Fault {
    ghost from_gives = { λ _ fault. fault ≡ Memory };

    fn from(_error: AllocError) -> Fault {
        Fault::Memory
    }
}

impl<T: Drop> From<AllocFailed<T>> for Fault {
    ghost from_gives = { λ _ fault. fault ≡ Memory };

    fn from(_error: AllocFailed<T>) -> Fault {
        Fault::Memory
    }
}

impl From<WalkFault> for Fault {
    ghost from_gives = { λ why fault. IsUnread fault × (fault ≡ fault_of why) };

    fn from(fault: WalkFault) -> Fault {
        match fault {
            WalkFault::Unreadable(path) => Fault::Unreadable(path),
            WalkFault::Memory => Fault::Memory,
        }
    }
}

/// Writes a fault's line, and answers its status. For want of memory nothing is written.
pub fn tell<W: Write>(
    alloc: Global,
    fault: &Fault,
    output: &mut Sink<W>,
) -> Result<Status, AllocError>
    ensures told { Sends output.old output.new (λ bytes. Shows (TellsFault fault.now) ⊤ bytes
        result) }
    ensures status { EndsTold fault.now result }
{
    match fault {
        Fault::Profile { file, fault } => {
            output.write_line(format_args!("zebraidx: {file} {fault}"));
            Ok(Status::of_profile(fault.kind))
        }
        Fault::Unreadable(path) => {
            output.write_line(format_args!("zebraidx: cannot read {path}"));
            Ok(Status::Failed)
        }
        Fault::Refused(refusal) => refuse(alloc, refusal, output),
        Fault::Memory => Err(AllocError),
    }
}
