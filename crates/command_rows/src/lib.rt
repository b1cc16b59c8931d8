//! Commands over a register as lines of text, and no product code: how they are read and run, and what is printed for each, for the tests of
//! several crates.
#![tactic(auto)]

pub mod lines;
pub mod lots;
pub mod readers;
pub mod sessions;
pub mod stories;
