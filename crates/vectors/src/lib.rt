//! Tests of the crates that know nothing of a store, over their public names alone, and no product code: worked answers, texts read by
//! another program's tables, faults, readers that fail, and want of memory.
#![tactic(auto)]

#[cfg(test)]
mod analyses;
#[cfg(test)]
mod blocks;
#[cfg(test)]
mod extraction;
#[cfg(test)]
mod leaves;
#[cfg(test)]
mod profiles;
#[cfg(test)]
mod records;
#[cfg(test)]
mod rows;
#[cfg(test)]
mod streams;
#[cfg(test)]
mod texts;
