//! What a MARC 21 record is called and what it is found by: its identifier, and its occurrences in the word, phrase
//! and number registers of the indexes that an indexing profile names (Zebra manual, `melm` and `att`).
#![tactic(auto)]

mod entries;
mod naming;

pub use entries::occurrences;
pub use naming::{IdentFault, identifier};
