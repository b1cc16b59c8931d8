//! Registers in leaves: the layout `Leaves`, over tables and calls of zeb_register. A row of `blocks` holds the blocks of many keys, so that
//! registers have few rows.
#![tactic(auto)]

mod agreeing;
mod agreeing_entries;
mod agreeing_rows;
mod agreeing_tables;
mod agreeing_walk;
mod between;
mod first_terms;
mod inside;
mod key_reads;
mod last_terms;
mod laws;
mod leaves;
mod near_rows;
mod near_terms;
mod own_entries;
mod pieces;
mod replacing;
mod rows_from;
mod said_postings;
mod spans;
mod statements_inside;
mod term_totals;
mod terms;
mod turned_entries;
mod turning;
mod until_enough;
mod writes;

pub use agreeing_tables::leaves_agree;
pub use between::postings_between;
pub use key_reads::{key_count, key_list};
pub use laws::{each_key_counts_or_is_miscounted, leaves_of_several_entries_are_small};
pub use leaves::Leaves;
pub use near_terms::{terms_before, terms_from};
pub use replacing::{
    leaves_begin_a_register, leaves_take_the_place_of_one, merged_entries_say_what_was_put,
};
pub use term_totals::totals;
pub use terms::terms_of;
pub use turning::{key_changes, run_changes};
