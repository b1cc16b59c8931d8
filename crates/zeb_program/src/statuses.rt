//! The statuses that lines, tasks and runs end with.

ghost use Rattle.std.specs.Prelude.{◌≡◌};
ghost use Rattle.zeb_program.specs.Statuses.{IsFaultStatus, fault_status, refusal_status, status_code};

use zeb_engine::Refusal;
use zeb_profile::ProfileFaultKind;

/// How a line, a task or a run ended. A later one is worse, and the status of a run is the greatest met.
#[derive(Clone, Copy, Debug, PartialEq, Eq, PartialOrd, Ord)]
pub enum Status {
    /// All was answered.
    Answered,
    /// Something was refused.
    Refused,
    /// The words or a line say nothing that the program knows.
    Misused,
    /// Reading, writing, the store or memory failed.
    Failed,
}

impl Status {
    /// The number that a process ends with: 0, 1, 2 or 3.
    pub fn code(self) -> u8
        ensures { result ≡ status_code self }
    {
        match self {
            Status::Answered => 0,
            Status::Refused => 1,
            Status::Misused => 2,
            Status::Failed => 3,
        }
    }

    /// The status of a refusal.
    pub(crate) fn of_refusal(refusal: &Refusal) -> Status
        ensures status { result ≡ refusal_status refusal.now }
        ensures fault { IsFaultStatus result }
    {
        match refusal {
            Refusal::ReadFault { .. } | Refusal::Store | Refusal::Memory => Status::Failed,
            _ => Status::Refused,
        }
    }

    /// The status of a profile's fault.
    pub(crate) fn of_profile(kind: ProfileFaultKind) -> Status
        ensures status { result ≡ fault_status kind }
        ensures fault { IsFaultStatus result }
    {
        match kind {
            ProfileFaultKind::Memory => Status::Failed,
            _ => Status::Refused,
        }
    }
}
