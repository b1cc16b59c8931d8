//! The commands of the indexing program: databases of MARC records are changed and searched, each command
//! in one transaction. A command that is refused changes nothing.
#![tactic(auto)]

mod analysis;
mod changes;
mod commands;
mod dump;
mod find;
mod looks;
mod readiness;
mod refusals;
mod registers;
mod renewals;
mod replies;
mod scan;
mod session;
mod stat;
mod tables;
mod writes;

pub use commands::Command;
pub use refusals::{refusal_line, status};
pub use registers::Session;
pub use replies::{Hit, Holding, Reply, render};
pub use zeb_analysis::AnalysedLines;
pub use zeb_change::{Kind, Limits, RecordFault, Refusal};
pub use zeb_image::DbName;
