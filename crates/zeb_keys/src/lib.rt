//! What registers list postings under: a key, which is an index, one of its three registers and a term; an occurrence of a key in a record;
//! and their order.
#![tactic(auto)]

mod keys;
mod laws;
mod registers;
mod terms;

pub use keys::{Key, Occurrence};
pub use laws::order_is_by_parts;
pub use registers::Register;
pub use terms::Term;
