//! The bytes of a leaf: the blocks of many terms in one row, each entry told from the one before it.
//!
//! Numbers are those of `zeb_blocks`, ULEB128 (DWARF 5, 7.6) in its shortest form. Leaves are this project's own.
#![tactic(auto)]

mod counting;
mod entries;
mod laws;
mod merging;
mod parting;
mod reading;
mod spans;
mod telling;
mod texts;
mod walking;
mod writing;

pub use counting::{records_said, records_with};
pub use entries::{Bytes, Entry, FULL_BYTES, Held, LEAF_BYTES, LeafFault};
pub use laws::{
    bytes_and_entries_are_one_to_one, bytes_of_leaves, leaf_is_cut_at_an_entry,
    rising_entries_follow, sizes_of_entries, worked_leaves,
};
pub use merging::{BlockChange, NewBlock, merge};
pub use parting::{Filling, NewLeaf, cut};
pub use reading::{copy_entry, read_leaf};
pub use spans::{BlockKey, push_span};
pub use walking::LeafReader;
pub use writing::{LeafWriter, spell_leaf};
