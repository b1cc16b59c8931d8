//! The rows of the table `blocks` that are leaves of a register, and how one is found: the statements that show them, and the leaf that
//! covers a block of a term. No leaf's bytes are read here.
#![tactic(auto)]

mod covering;
mod neighbours;
mod statements;

pub use covering::{last_row, leaf_at, no_leaf};
pub use neighbours::{leaf_from, only_leaf};
pub use statements::{ANY, OF_TERM, OF_TERMS_BELOW, rows_between, some_row};
