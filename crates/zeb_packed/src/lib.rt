//! The registers of all databases in packed blocks: the layout `Blocks`, over tables and calls of zeb_register.
//!
//! A row of `blocks` holds the postings of a key in the records of 256 system numbers, a row of `dict` the number of records that have the
//! key. So a key that stands in many records costs few rows, and a look at a term reads one.
#![tactic(auto)]

mod blocks;
mod held_rows;
mod held_runs;
mod new_keys;
mod new_rows;
mod packed;
mod packed_between;
mod packed_changes;
mod packed_parts;
mod packed_runs;
mod packed_totals;
mod statements;

pub use blocks::Blocks;
