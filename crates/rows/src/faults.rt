//! Why a file of cases can't be run.

use command_rows::lines::Unread;
use std::alloc::{AllocError, AllocFailed};
use std::fmt;

/// Why a line isn't carried out.
#[derive(Debug, Drop)]
pub enum Fault {
    Memory,
    /// The line is at fault, for this reason.
    Line(&'static str),
}

impl From<AllocError> for Fault {
    fn from(_error: AllocError) -> Fault {
        Fault::Memory
    }
}

impl<T: Drop> From<AllocFailed<T>> for Fault {
    fn from(_error: AllocFailed<T>) -> Fault {
        Fault::Memory
    }
}

impl From<Unread> for Fault {
    fn from(fault: Unread) -> Fault {
        match fault {
            Unread::Memory => Fault::Memory,
            Unread::NoCommand => Fault::Line("no such line"),
        }
    }
}

impl fmt::Display for Fault {
    fn fmt<W: fmt::Write>(&self, f: &mut fmt::Formatter<W>) -> fmt::Result {
        f.write_str(match self {
            Fault::Memory => "want of memory",
            Fault::Line(reason) => reason,
        })
    }
}
