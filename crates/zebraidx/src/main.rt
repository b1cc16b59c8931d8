//! Indexes MARC 21 records and searches them by queries in Prefix Query Format.
#![tactic(auto)]

use std::env;
use std::io::{self, BufReader, BufWriter, ErrorKind, IsTerminal, Write};
use std::process::ExitCode;
use zeb_marc::FromRead;
use zeb_paths::{Disk, Tally};
use zeb_program::{Sink, Status, run};

fn main(rt: HostRuntime) -> ExitCode {
    let status = run_outside(&rt);
    if let Err(error) = &status {
        complain(&rt, why_unstarted(error.kind()));
    }
    ExitCode::from(status.unwrap_or(Status::Failed.code()))
}

/// Why the program doesn't begin.
fn why_unstarted(kind: ErrorKind) -> &'static str {
    match kind {
        ErrorKind::InvalidData => "a word isn't UTF-8",
        ErrorKind::OutOfMemory => "out of memory",
        _ => "the system failed a call",
    }
}

/// Writes a line on standard error. Nothing rests on it, so a write that fails is passed over.
fn complain(rt: &HostRuntime, text: &str) {
    let _written = writeln!(rt.stderr(), "zebraidx: {text}");
}

/// Runs the program on the process's words, input and outputs.
fn run_outside(rt: &HostRuntime) -> io::Result<u8> {
    let mut words = Vec::new(rt.alloc());
    for word in env::args(rt)?.skip(1) {
        words.push(word)?;
    }
    if words.is_empty() && rt.stdin().is_terminal() {
        complain(
            rt,
            "waiting for a script; zebraidx --help lists the commands",
        );
    }
    let mut input = FromRead::new(BufReader::new(rt.alloc(), rt.reader())?);
    let mut output = Sink::new(BufWriter::new(rt.alloc(), rt.stdout())?);
    let mut fault_output = Sink::new(rt.stderr());
    let tally = Tally::new(rt, rt.stderr().is_terminal());
    let mut files = Disk::counted(rt, &tally);
    let status = run(
        rt.alloc(),
        words.as_slice(),
        &mut input,
        &mut output,
        &mut fault_output,
        &mut files,
    );
    if output.has_failed() {
        complain(rt, "cannot write output");
    }
    Ok(status)
}
