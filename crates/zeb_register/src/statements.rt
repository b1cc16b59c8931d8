//! The statements on the tables, each in a function of its own.

pub(crate) mod between;
pub(crate) mod databases;
pub(crate) mod inside;
pub(crate) mod keys;
pub(crate) mod owners;
pub(crate) mod postings;
pub(crate) mod queries;
pub(crate) mod records;
pub(crate) mod texts;
pub(crate) mod whole;
pub(crate) mod writing;
