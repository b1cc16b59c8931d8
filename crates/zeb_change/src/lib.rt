//! One database changed inside a transaction: the records of files are folded into it, one by one.
#![tactic(auto)]

mod changed_keys;
mod faults;
mod files;
mod kept;
mod key_notes;
mod laws;
mod noting;
mod part_faults;
mod pending;
mod records;
mod refusals;
mod settings;
mod tally;
mod words;
mod writing;

pub use faults::RecordFault;
pub use files::{Fold, check_readers, fold_files};
pub use kept::{KeptFault, kept_occurrences};
pub use laws::{
    a_fold_follows_the_definition, a_refused_fold_has_a_reason, an_accepted_fold_passes_on,
};
pub use noting::note_keys;
pub use pending::Pending;
pub use records::Progress;
pub use refusals::Refusal;
pub use settings::{Kind, Limits, Setting};
pub use tally::{Fate, Tally};
pub use writing::{write_pending, write_where_full};
