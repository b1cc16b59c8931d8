//! The text layer: folding, words, numbers, and patterns with stars.
//!
//! `AllocError` says of each call that memory was refused; that it comes for nothing else is tested and not proved.
#![tactic(auto)]

mod cutting;
mod digits;
mod folding;
mod numerals;
mod patterns;
mod truncation;

pub use crate::cutting::{join, words};
pub use crate::digits::{KEY_DIGITS, Numbers};
pub use crate::folding::fold;
pub use crate::numerals::{key_of_number, number_of_key, numbers};
pub use crate::patterns::{Pattern, join_patterns};
pub use crate::truncation::{Cut, Spread, pattern_words};
