//! A query's plan, answered by the registers of one database: the numbers of the records on which it holds.
//!
//! What relations, positions, completeness and proximity ask for is ANSI/NISO Z39.50-2003, attribute set Bib-1 and the proximity operator.
//! The heads of `specs/Holds.antt` and `specs/Comparing.antt` say which rules are this project's own.
#![tactic(auto)]

mod distances;
mod keys;
pub mod laws;
mod lists;
mod plans;
mod postings;
mod ranges;
mod registers;
mod terms;
mod words;

pub use plans::{hits, named_entries_read_no_terms};
