//! The program without its outside: words, an input and paths come in, what is written and a status go out.
#![tactic(auto)]

mod analyses;
mod batch;
mod command_line;
mod diagnostics;
mod digits;
mod explaining;
mod failures;
mod faults;
mod file_causes;
mod files;
mod forms;
mod input;
mod laws;
mod line_input;
mod lines;
mod memory;
mod numbers;
mod opening;
mod outputs;
mod path_changes;
mod performing;
mod program;
mod register_lines;
mod script;
mod shell;
mod sinks;
mod statuses;
mod tasks;
mod warnings;
mod words;

pub use laws::{
    a_batch_is_one_run, lines_are_written_without_tables, told_files_leave_nothing_unknown,
};
pub use outputs::Output;
pub use program::run;
pub use sinks::Sink;
pub use statuses::Status;
