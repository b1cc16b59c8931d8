//! The command that the words of a command line name, read by `clap`.
#![tactic(auto)]

mod laws;
mod misuses;
mod program;
mod reading;
mod tips;
mod words;

pub use laws::words_name_one_command;
pub use misuses::Misuse;
pub use words::{Act, LayoutChoice, Usage, Words, read_words};
