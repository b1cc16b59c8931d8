//! The statements on the packed tables, each in a function of its own.

pub(crate) mod between;
pub(crate) mod many;
pub(crate) mod packed;
pub(crate) mod packed_changes;
