//! Runs the rows of files of cases, and prints each that is answered otherwise than it says.
#![tactic(auto)]

mod book;
mod damages;
mod faults;
mod folder;
mod layouts;
mod outcomes;
mod records;
mod rows;
mod runs;
mod stores;
mod stories;
mod texts;

use crate::book::Book;
use std::fs;
use std::io::{self, Write};
use std::process::ExitCode;

fn main(rt: HostRuntime) -> ExitCode {
    match run_files(&rt) {
        Ok(true) => ExitCode::SUCCESS,
        _ => ExitCode::FAILURE,
    }
}

/// Runs the files that the lines of the input name, and answers whether each row of each is answered as it says.
fn run_files(rt: &HostRuntime) -> io::Result<bool> {
    let mut are_well = true;
    for name in rt.lines(rt.alloc()) {
        let is_well = run_file(rt, name?.as_str())?;
        are_well = are_well && is_well;
    }
    Ok(are_well)
}

/// Prints a line of a row that differs, also on standard error: of standard output the gate says only at which byte it differs.
fn print_differing(rt: &HostRuntime, line: &str) -> io::Result<()> {
    println!(rt; "{line}")?;
    let _shown = writeln!(rt.stderr(), "{line}");
    Ok(())
}

/// Runs the rows of a file below the working folder, and prints how many there were over each layout, behind those that differ.
fn run_file(rt: &HostRuntime, name: &str) -> io::Result<bool> {
    let alloc = rt.alloc();
    let text = fs::read_to_string(rt, name)?;
    let mut book = Book::new(alloc);
    let read = book.read(text.as_str());
    for line in &book.differing {
        print_differing(rt, &format!(in alloc; "{name}:{line}")?)?;
    }
    if let Err(fault) = &read {
        let line = format!(in alloc; "{name}:{}: {fault}", book.number)?;
        print_differing(rt, &line)?;
    }
    println!(rt; "{name}: {}", book.counts)?;
    Ok(read.is_ok() && book.differing.is_empty())
}
