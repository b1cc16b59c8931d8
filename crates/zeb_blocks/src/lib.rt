//! Packed lists of postings: the bytes of a block, which holds a key's postings in up to 256 records.
//!
//! A number is written in the shortest form of ULEB128 (DWARF 5, 7.6). What is written, blocks and gaps, is this project's own.
#![tactic(auto)]

mod gaps;
mod numbers;
mod postings;
mod reading;
mod records;
mod writing;

pub use numbers::{read_number, read_small, write_number};
pub use postings::{BLOCK_RECORDS, Posting};
pub use reading::{Damaged, Postings, push_block};
pub use records::records_in;
pub use writing::{BlockWriter, spell};
