//! The register's tables as tests see them, and no product code: stores over files, statements of a test's own and the
//! rows that they find.
#![tactic(auto)]

pub mod disks;
pub mod queries;
#[cfg(test)]
mod tests;
