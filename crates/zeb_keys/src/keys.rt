//! A register's key, and an occurrence of it in a record.
use crate::{Register, Term};

/// What a register lists postings under: an index by its number (from 0, in the profile's order), one of its three
/// registers, and a term.
///
/// Keys are ordered by index, then register (word, phrase, number), then term by its UTF-8 bytes.
#[derive(Clone, Debug, PartialEq, Eq, PartialOrd, Ord, Drop)]
pub struct Key {
    pub index: u32,
    pub register: Register,
    pub term: Term,
}

/// One place of a record at which a key occurs: `seq` is the unit's number in the record and `pos` the number of the
/// word or number in that unit, both from 1. A phrase stands at `pos` 1. The type itself holds any numbers.
///
/// Occurrences are ordered by key, then `seq`, then `pos`.
#[derive(Clone, Debug, PartialEq, Eq, PartialOrd, Ord, Drop)]
pub struct Occurrence {
    pub key: Key,
    pub seq: u64,
    pub pos: u64,
}
