//! What Zebra keeps on disk, over SQLite tables: the names and texts of the store itself, its databases, their records,
//! and the registers that say at which places of which records each term stands (Zebra manual, "Record and register
//! storage").
//!
//! A call in a transaction that is refused leaves the transaction to be given up: after that the tables are as they were
//! before it began.
#![tactic(auto)]

mod agreeing;
mod belonging;
mod catalog;
mod checked_changes;
mod dropping;
mod expected;
mod faults;
pub mod for_layouts;
mod kept;
mod key_runs;
mod laws;
mod leaf_laws;
mod lists;
mod meta;
mod occurring;
mod packed_agreeing;
mod plain;
mod plain_between;
mod plain_changes;
mod read_beside;
mod record_parts;
mod registers;
mod run_laws;
mod schema;
mod statements;
mod tables;
mod tallies;
mod terms;
mod values;
mod wiping;

pub use catalog::{
    Database, DatabaseId, ListedDatabase, database_of, database_put, databases, databases_inside,
};
pub use expected::{Expected, ExpectedDatabase, KeyPosting};
pub use faults::{RegFault, RowFault};
pub use kept::{
    Elder, Record, ident_of, record_count, record_from, record_from_inside, record_of_ident,
    record_put, record_take, records,
};
pub use laws::calls_tell_of_the_content;
pub use leaf_laws::{
    damage_stays_in_its_leaf, held_registers_begin_at_the_least_key, units_tell_held_leaves,
    worked_damage, worked_registers,
};
pub use lists::{each_unit_reads_or_is_malformed, rows_are_lists};
pub use meta::{meta_of, meta_put};
pub use occurring::{OccurrenceSet, occurrences_have_one_list_of_terms};
pub use plain::Rows;
pub use registers::{
    KeyChanges, Layout, Place, RecordChange, RegisterOf, TermCount, Totals, Work,
    changed_units_are_of_a_content, contents_change, registers_hold_one_content,
    units_tell_the_content,
};
pub use run_laws::{changed_runs_are_of_a_content, runs_are_keys_in_turn};
pub use schema::{is_bare_schema, is_store_schema};
pub use tables::make_tables;
pub use wiping::{registers_wipe, wipe};
pub use zeb_blocks::Posting;
