//! Laws and worked examples of the definitions that the contracts of the lower crates cite: what follows from these alone, whatever the
//! code does. Each is a function with no code, whose contract is the law; no program calls one.
#![tactic(auto)]

pub mod analysis;
pub mod blocks;
pub mod extract;
pub mod keys;
pub mod marc;
pub mod profile;
pub mod query;
pub mod query_examples;
pub mod text;
